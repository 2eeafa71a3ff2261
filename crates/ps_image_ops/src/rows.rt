//! What an image operator begins.
ghost use Rattle.std.specs.Prelude.{◌≡◌, ◌≤◌, ◌⊎◌, IfOk, Err, length};
ghost use Rattle.press_fault.specs.declared.names.PsName.{PsName};
ghost use Rattle.ps_store.specs.Outcome.{Goes, Refuses, TellsRefusal};
ghost use Rattle.ps_image_ops.specs.Rows.{told_row, image_row};

use crate::conditions::{gather_of, on_page, sampling_of};
use crate::operands::told;
use crate::parameters::Parameters;
use crate::reading::{Begun, Reading, is_mask};
use gfx_state::Gfx;
use ps_store::{ImageOp, OpFault, Stack, Store};
use std::alloc::Global;

/// What an image operator begins, exactly as its row says (PostScript Language Reference, third edition,
/// 8.2 `image`, `imagemask`, `colorimage`).
///
/// The operands stay: the caller drops them once nothing more is refused that leaves them. What the row
/// refuses is told as that, also where there is no memory.
#[tactic(auto, unfolding(crate::specs::Rows::image_row))]
pub fn begin_image(
    alloc: Global,
    op: ImageOp,
    stack: &Stack,
    store: &Store,
    gfx: &Gfx,
) -> Result<Begun, OpFault>
    ensures ok { IfOk result (λ begun. image_row op stack.now store.now gfx.now ≡ Goes begun) }
    ensures enough { IfOk result (λ begun. begun.operands ≤ length stack.now) }
    ensures named { (name : PsName) → result ≡ Err (OpFault.Ps name) →
        image_row op stack.now store.now gfx.now ≡ Refuses name }
    ensures refused { TellsRefusal (image_row op stack.now store.now gfx.now) result }
{
    match told(op, stack, store, gfx) {
        Ok(told) => begin_told(alloc, op, told, store, gfx),
        Err(name) => Err(OpFault::Ps(name)),
    }
}

/// What an operator begins by what it is told.
fn begin_told(
    alloc: Global,
    op: ImageOp,
    told: Parameters,
    store: &Store,
    gfx: &Gfx,
) -> Result<Begun, OpFault>
    requires { (told.channels ≡ 1) ⊎ (told.channels ≡ 3) ⊎ (told.channels ≡ 4) }
    ensures ok { IfOk result (λ begun. told_row op told store.now gfx.now ≡ Goes begun) }
    ensures operands { IfOk result (λ begun. begun.operands ≡ told.operands) }
    ensures named { (name : PsName) → result ≡ Err (OpFault.Ps name) →
        told_row op told store.now gfx.now ≡ Refuses name }
    ensures refused { TellsRefusal (told_row op told store.now gfx.now) result }
{
    let mask = is_mask(op);
    let sampling = sampling_of(mask, &told, store)?;
    let sampling = on_page(told.channels, sampling, gfx)?;
    let gather = gather_of(alloc, mask, &told, &sampling, store)?;
    Ok(Begun {
        operands: told.operands,
        source: told.source,
        reading: Reading::new(op, gfx.matrix(), sampling.matrix, gather),
    })
}
