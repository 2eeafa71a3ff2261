//! Curves read backwards at every value.
ghost use Rattle.std.specs.Prelude.{◌≡◌, ◌≤◌, ◌<◌, ◌+◌, IfOk, OnOk, length};
ghost use Rattle.icc_tables.specs.Curves.{curve_at};
ghost use Rattle.link_build.specs.Code.Prepared.{IsBackOf, IsBackUpTo};

use icc_model::{Curve, curve_at};
use press_fault::Mem;
use std::alloc::Global;

/// A curve read backwards at each value of 16 bits: one pass over its codes, of any curve.
#[tactic(auto, using(crate::proofs::Tables::back_none))]
pub(crate) fn back_of(alloc: Global, curve: &Curve) -> Mem<Vec<u16>>
    ensures { IfOk result (λ codes. IsBackOf curve.now codes.items) }
{
    let mut codes = Vec::with_capacity(alloc, 65536)?;
    for code in 0..65535u16 {
        reach(&mut codes, curve, code)?;
    }
    fill(&mut codes, curve)?;
    Ok(codes)
}

/// Adds a code for each value that it is the first to reach.
#[tactic(auto, using(crate::proofs::Tables::reach_more, crate::proofs::Tables::reach_done))]
fn reach(codes: &mut Vec<u16>, curve: &Curve, code: u16) -> Mem<()>
    requires last { code < 65535 }
    requires before { IsBackUpTo curve.now code codes.old.items }
    ensures { OnOk result (IsBackUpTo curve.now (code + 1) codes.new.items) }
{
    let value = usize::from(curve_at(curve, code));
    while codes.len() <= value {
        codes.push(code)?;
    }
    Ok(())
}

/// Adds the last code for each value that none before it reaches.
#[tactic(auto, using(crate::proofs::Tables::fill_more, crate::proofs::Tables::fill_done))]
fn fill(codes: &mut Vec<u16>, curve: &Curve) -> Mem<()>
    requires { IsBackUpTo curve.now 65535 codes.old.items }
    ensures { OnOk result (IsBackOf curve.now codes.new.items) }
{
    while codes.len() < 65536 {
        codes.push(65535)?;
    }
    Ok(())
}
