//! Saved graphics states.
ghost use Rattle.std.specs.Prelude.{◌≡◌, OnOk, IfErr};
ghost use Rattle.gfx_state.specs.Graphics.{all_restored};
ghost use Rattle.ps_store.specs.Outcome.{TellsRefusal};
ghost use Rattle.ps_gfx_ops.specs.States.{gsave_row};
ghost use Rattle.ps_gfx_ops.specs.Calls.{GraphicsAnswers};

use gfx_state::Gfx;
use ps_store::{OpFault, Stack};

/// `gsave`: saves a copy of the graphics state.
pub(crate) fn gsave(stack: &mut Stack, gfx: &mut Gfx) -> Result<(), OpFault>
    ensures answers { GraphicsAnswers (gsave_row stack.old gfx.old)
        result stack.old gfx.old stack.new gfx.new }
    ensures refused { TellsRefusal (gsave_row stack.old gfx.old) result }
{
    gfx.save()?;
    Ok(())
}

/// `grestoreall`: back to the state saved first, which stays as the only one saved.
pub(crate) fn grestoreall(gfx: &mut Gfx) -> Result<(), OpFault>
    ensures ok { OnOk result (gfx.new ≡ all_restored gfx.old) }
    ensures err { IfErr result (λ fault. fault ≡ OpFault.NoMemory) }
{
    gfx.restore_all()?;
    Ok(())
}
