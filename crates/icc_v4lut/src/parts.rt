//! The parts of stages, read from a tag without a fault.
ghost use Rattle.std.specs.Prelude.{◌≡◌, ◌≢◌, ◌≤◌, ◌+◌, ◌*◌, ◌-◌, ◌⊎◌, ◌++◌, ◌∷◌, [], length, drop, take, false, None};
ghost use Rattle.std.specs.Prelude.{suc, replicate, IfOk};
ghost use Rattle.press_nums.specs.Whole.{IsWhole};
ghost use Rattle.icc_power.specs.CurveTag.{s15_at};
ghost use Rattle.icc_power.specs.CurveTag.{has_other_type, is_misshapen, curve_of};
ghost use Rattle.icc_tables.specs.Lattice.{AreAtMost};
ghost use Rattle.icc_tables.specs.Stored.{IsTagAt, nodes_of};
ghost use Rattle.icc_v4lut.specs.StagesTag.{after_curve, curves_fault, curves_of, matrix_of, size_by};

use crate::faults::{after_curve, rest};
use icc_power::{curve_of_tag, s15_at};
use icc_tables::{Curve, NodeSize, Nodes, SharedBytes, nodes_of_tag};
use press_fault::Mem;
use std::alloc::Global;

/// The curve at a place, and where the one after it begins.
fn curve_at(alloc: Global, tag: &[u8], at: usize) -> Mem<(Curve, usize)>
    requires known { has_other_type (drop at tag.now) ≡ false }
    requires good { is_misshapen (drop at tag.now) ≡ false }
    ensures curve { IfOk result (λ read. read.0 ≡ curve_of (drop at tag.now)) }
    ensures next { IfOk result (λ read. read.1 ≡ after_curve tag.now at) }
{
    let (curve, _) = curve_of_tag(alloc, rest(tag, at))?;
    Ok((curve, after_curve(tag, at)))
}

/// The first of several curves without a fault has none, and those after it have none.
#[tactic(auto, using(crate::proofs::Walk::first_known, crate::proofs::Walk::first_good, crate::proofs::Walk::others_good))]
fn see_first(tag: &[u8], at: usize, others: usize)
    requires { curves_fault tag.now (suc others) at ≡ None }
    ensures known { has_other_type (drop at tag.now) ≡ false }
    ensures good { is_misshapen (drop at tag.now) ≡ false }
    ensures others { curves_fault tag.now others (after_curve tag.now at) ≡ None }
{}

/// One curve alone.
fn one_curve(alloc: Global, tag: &[u8], at: usize) -> Mem<Curve>
    requires { curves_fault tag.now 1 at ≡ None }
    ensures { IfOk result (λ curve. curve ∷ [] ≡ curves_of tag.now 1 at) }
{
    see_first(tag, at, 0);
    let (curve, _) = curve_at(alloc, tag, at)?;
    Ok(curve)
}

/// Three curves, one after another.
pub(crate) fn three_curves(alloc: Global, tag: &[u8], at: usize) -> Mem<[Curve; 3]>
    requires { curves_fault tag.now 3 at ≡ None }
    ensures { IfOk result (λ curves. curves ≡ curves_of tag.now 3 at) }
{
    see_first(tag, at, 2);
    let (first, at) = curve_at(alloc, tag, at)?;
    see_first(tag, at, 1);
    let (second, at) = curve_at(alloc, tag, at)?;
    see_first(tag, at, 0);
    let (third, _) = curve_at(alloc, tag, at)?;
    Ok([first, second, third])
}

/// Four curves, one after another.
fn four_curves(alloc: Global, tag: &[u8], at: usize) -> Mem<[Curve; 4]>
    requires { curves_fault tag.now 4 at ≡ None }
    ensures { IfOk result (λ curves. curves ≡ curves_of tag.now 4 at) }
{
    see_first(tag, at, 3);
    let (first, at) = curve_at(alloc, tag, at)?;
    see_first(tag, at, 2);
    let (second, at) = curve_at(alloc, tag, at)?;
    see_first(tag, at, 1);
    let (third, at) = curve_at(alloc, tag, at)?;
    see_first(tag, at, 0);
    let (fourth, _) = curve_at(alloc, tag, at)?;
    Ok([first, second, third, fourth])
}

/// As many curves as channels, and the identity in place of the others.
pub(crate) fn padded_curves(alloc: Global, inputs: u8, tag: &[u8], at: usize) -> Mem<[Curve; 4]>
    requires inputs { (inputs ≡ 1) ⊎ (inputs ≡ 3) ⊎ (inputs ≡ 4) }
    requires good { curves_fault tag.now inputs at ≡ None }
    ensures { IfOk result (λ curves. curves ≡ curves_of tag.now inputs at ++ replicate (4 - inputs) None) }
{
    match inputs {
        1 => {
            let first = one_curve(alloc, tag, at)?;
            Ok([
                first,
                Curve::identity(),
                Curve::identity(),
                Curve::identity(),
            ])
        }
        3 => {
            let [first, second, third] = three_curves(alloc, tag, at)?;
            Ok([first, second, third, Curve::identity()])
        }
        _ => four_curves(alloc, tag, at),
    }
}

/// The number of this number among those that begin at a place.
fn number(tag: &[u8], at: usize, k: usize) -> i32
    requires { at + 4 * k + 4 ≤ length tag.now }
    ensures value { result ≡ s15_at tag.now (at + 4 * k) }
    ensures whole { IsWhole result }
{
    s15_at(tag, at + 4 * k).get()
}

/// The twelve numbers of a matrix.
pub(crate) fn matrix_of(tag: &[u8], at: usize) -> [i32; 12]
    requires { at + 48 ≤ length tag.now }
    ensures { result ≡ matrix_of tag.now at }
{
    [
        number(tag, at, 0),
        number(tag, at, 1),
        number(tag, at, 2),
        number(tag, at, 3),
        number(tag, at, 4),
        number(tag, at, 5),
        number(tag, at, 6),
        number(tag, at, 7),
        number(tag, at, 8),
        number(tag, at, 9),
        number(tag, at, 10),
        number(tag, at, 11),
    ]
}

/// The grid points along one channel.
#[tactic(auto, using(crate::proofs::Grids::grid_one, crate::proofs::Grids::grid_one_taken))]
fn one_grid(lattice: &[u8]) -> [u8; 4]
    requires { 20 ≤ length lattice.now }
    ensures value { result ≡ take 1 lattice.now ++ 0 ∷ 0 ∷ 0 ∷ [] }
    ensures taken { take 1 result ≡ take 1 lattice.now }
{
    [lattice[0], 0, 0, 0]
}

/// Those along three.
#[tactic(auto, using(crate::proofs::Grids::grid_three, crate::proofs::Grids::grid_three_taken))]
fn three_grids(lattice: &[u8]) -> [u8; 4]
    requires { 20 ≤ length lattice.now }
    ensures value { result ≡ take 3 lattice.now ++ 0 ∷ [] }
    ensures taken { take 3 result ≡ take 3 lattice.now }
{
    [lattice[0], lattice[1], lattice[2], 0]
}

/// Those along four.
#[tactic(auto, using(crate::proofs::Grids::grid_four, crate::proofs::Grids::grid_four_taken))]
fn four_grids(lattice: &[u8]) -> [u8; 4]
    requires { 20 ≤ length lattice.now }
    ensures value { result ≡ take 4 lattice.now ++ [] }
    ensures taken { take 4 result ≡ take 4 lattice.now }
{
    [lattice[0], lattice[1], lattice[2], lattice[3]]
}

/// The grid points along as many channels, and 0 in place of the others.
pub(crate) fn padded_grid(inputs: u8, lattice: &[u8]) -> [u8; 4]
    requires inputs { (inputs ≡ 1) ⊎ (inputs ≡ 3) ⊎ (inputs ≡ 4) }
    requires head { 20 ≤ length lattice.now }
    ensures value { result ≡ take inputs lattice.now ++ replicate (4 - inputs) 0 }
    ensures taken { take inputs result ≡ take inputs lattice.now }
{
    match inputs {
        1 => one_grid(lattice),
        3 => three_grids(lattice),
        _ => four_grids(lattice),
    }
}

/// So many nodes of a tag from a place on, of one byte each or of two.
#[tactic(auto, using(crate::proofs::Walk::one_inside, crate::proofs::Walk::two_inside))]
pub(crate) fn nodes_at(
    bytes: &SharedBytes,
    offset: usize,
    tag: &[u8],
    at: usize,
    count: usize,
    precision: u8,
) -> Mem<Nodes>
    requires place { IsTagAt bytes.now offset tag.now }
    requires precision { (precision ≡ 1) ⊎ (precision ≡ 2) }
    requires inside { at + precision * count ≤ length tag.now }
    ensures items { IfOk result (λ nodes. nodes ≡ nodes_of (size_by precision) tag.now at count) }
    ensures length { IfOk result (λ nodes. length nodes ≡ count) }
    ensures most { IfOk result (AreAtMost 65535) }
{
    if precision == 2 {
        Ok(nodes_of_tag(bytes, offset, tag, at, count, NodeSize::Word)?)
    } else {
        Ok(nodes_of_tag(bytes, offset, tag, at, count, NodeSize::Widened)?)
    }
}
