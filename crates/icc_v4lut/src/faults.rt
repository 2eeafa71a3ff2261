//! Which tags are no stages, and why.
ghost use Rattle.std.specs.Prelude.{◌≡◌, ◌≤◌, ◌<◌, ◌+◌, ◌*◌, ◌^◌, ◌⊎◌, length, take, drop, false, None};
ghost use Rattle.std.specs.Prelude.{nat_lt};
ghost use Rattle.std.specs.List.{list_any};
ghost use Rattle.icc_power.specs.CurveTag.{has_other_type, is_misshapen, u32_at};
ghost use Rattle.icc_stages.specs.Cells.{point_count};
ghost use Rattle.icc_v4lut.specs.StagesTag.{after_curve, curve_fault, curves_fault};
ghost use Rattle.icc_v4lut.specs.StagesTag.{b_fault, matrix_fault, m_fault, is_bad_lattice, lattice_fault, a_fault};
ghost use Rattle.icc_v4lut.specs.StagesTag.{has_other_channels, stages_fault, shape_if, grid_of, node_count};

use icc_power::{has_other_type, is_misshapen, size_of, u32_at};

/// Why the parts of a tag are no stages.
#[derive(Clone, Copy, Debug, PartialEq, Eq)]
pub enum PartFault {
    /// A curve among them is of another type than `curv` and `para`.
    Kind,
    /// A part is missing, stands alone, is misshapen or passes the end, or the channels are others.
    Shape,
}

/// The bytes from a place on; none past the end.
pub(crate) fn rest(tag: &[u8], at: usize) -> &[u8]
    ensures { result.now ≡ drop at tag.now }
{
    let (_, rest) = tag.split_at(at.min(tag.len()));
    rest
}

/// A place in a tag that its head tells: of the B curves at 12, the matrix at 16, the M curves at 20,
/// the lattice at 24 and the A curves at 28. 0 says that there is none.
pub(crate) fn place(tag: &[u8], field: usize) -> usize
    requires head { 32 ≤ length tag.now }
    requires field { field ≤ 28 }
    ensures value { result ≡ u32_at tag.now field }
    ensures bound { result < 2 ^ 32 }
{
    u32_at(tag, field) as usize
}

/// Where the curve begins that comes after one.
pub(crate) fn after_curve(tag: &[u8], at: usize) -> usize
    requires known { has_other_type (drop at tag.now) ≡ false }
    requires good { is_misshapen (drop at tag.now) ≡ false }
    ensures { result ≡ after_curve tag.now at }
{
    let curve = rest(tag, at);
    (at + size_of(curve) + 3) / 4 * 4
}

/// The fault of one curve.
#[tactic(auto, unfolding(crate::specs::StagesTag::curve_fault))]
fn curve_fault(curve: &[u8]) -> Option<PartFault>
    ensures value { result ≡ curve_fault curve.now }
    ensures known { result ≡ None → has_other_type curve.now ≡ false }
    ensures good { result ≡ None → is_misshapen curve.now ≡ false }
{
    if has_other_type(curve) {
        return Some(PartFault::Kind);
    }
    if is_misshapen(curve) {
        return Some(PartFault::Shape);
    }
    None
}

/// The fault of the curve at a place, else that of those after it, from where they begin on.
fn one_fault(tag: &[u8], at: usize) -> Option<PartFault>
    ensures { result ≡ curves_fault tag.now 1 at }
{
    match curve_fault(rest(tag, at)) {
        Some(fault) => Some(fault),
        None => None,
    }
}

/// The first fault of two curves.
fn two_fault(tag: &[u8], at: usize) -> Option<PartFault>
    ensures { result ≡ curves_fault tag.now 2 at }
{
    match curve_fault(rest(tag, at)) {
        Some(fault) => Some(fault),
        None => one_fault(tag, after_curve(tag, at)),
    }
}

/// The first fault of three curves.
fn three_fault(tag: &[u8], at: usize) -> Option<PartFault>
    ensures { result ≡ curves_fault tag.now 3 at }
{
    match curve_fault(rest(tag, at)) {
        Some(fault) => Some(fault),
        None => two_fault(tag, after_curve(tag, at)),
    }
}

/// The first fault of four curves.
fn four_fault(tag: &[u8], at: usize) -> Option<PartFault>
    ensures { result ≡ curves_fault tag.now 4 at }
{
    match curve_fault(rest(tag, at)) {
        Some(fault) => Some(fault),
        None => three_fault(tag, after_curve(tag, at)),
    }
}

/// The first fault of as many curves as there are channels.
fn curves_fault(tag: &[u8], inputs: u8, at: usize) -> Option<PartFault>
    requires { (inputs ≡ 1) ⊎ (inputs ≡ 3) ⊎ (inputs ≡ 4) }
    ensures { result ≡ curves_fault tag.now inputs at }
{
    match inputs {
        1 => one_fault(tag, at),
        3 => three_fault(tag, at),
        _ => four_fault(tag, at),
    }
}

/// A fault of the shape, where a test holds.
fn shape_if(test: bool) -> Option<PartFault>
    ensures { result ≡ shape_if test }
{
    if test { Some(PartFault::Shape) } else { None }
}

/// The first fault of the B curves.
#[tactic(auto, unfolding(crate::specs::StagesTag::b_fault))]
fn b_fault(tag: &[u8]) -> Option<PartFault>
    requires { 32 ≤ length tag.now }
    ensures { result ≡ b_fault tag.now }
{
    let at = place(tag, 12);
    if at == 0 {
        return Some(PartFault::Shape);
    }
    three_fault(tag, at)
}

/// Whether the matrix passes the end.
#[tactic(auto, unfolding(crate::specs::StagesTag::matrix_fault))]
fn matrix_fault(tag: &[u8]) -> Option<PartFault>
    requires { 32 ≤ length tag.now }
    ensures { result ≡ matrix_fault tag.now }
{
    let at = place(tag, 16);
    shape_if(at != 0 && tag.len() < at + 48)
}

/// The first fault of the M curves.
#[tactic(auto, unfolding(crate::specs::StagesTag::m_fault))]
fn m_fault(tag: &[u8]) -> Option<PartFault>
    requires { 32 ≤ length tag.now }
    ensures { result ≡ m_fault tag.now }
{
    let matrix = place(tag, 16);
    let at = place(tag, 20);
    if at == 0 {
        return shape_if(matrix != 0);
    }
    if matrix == 0 {
        return Some(PartFault::Shape);
    }
    three_fault(tag, at)
}

/// So many channels are four at most.
#[tactic(auto, using(crate::proofs::Grids::few_channels))]
fn see_few(inputs: u8)
    requires { (inputs ≡ 1) ⊎ (inputs ≡ 3) ⊎ (inputs ≡ 4) }
    ensures { inputs ≤ 4 }
{}

/// The grid points of a lattice of one channel.
#[tactic(auto, using(crate::proofs::Grids::count_one))]
fn one_count(lattice: &[u8]) -> usize
    requires { 20 ≤ length lattice.now }
    ensures value { result ≡ point_count (take 1 lattice.now) }
    ensures bound { result ≤ 255 }
{
    usize::from(lattice[0])
}

/// Those of one of three channels.
#[tactic(auto, using(crate::proofs::Grids::count_three))]
fn three_count(lattice: &[u8]) -> usize
    requires { 20 ≤ length lattice.now }
    ensures value { result ≡ point_count (take 3 lattice.now) }
    ensures bound { result ≤ 255 ^ 3 }
{
    three(lattice[0], lattice[1], lattice[2])
}

/// Those of one of four.
#[tactic(auto, using(crate::proofs::Grids::count_four))]
fn four_count(lattice: &[u8]) -> usize
    requires { 20 ≤ length lattice.now }
    ensures value { result ≡ point_count (take 4 lattice.now) }
    ensures bound { result ≤ 255 ^ 4 }
{
    four(lattice[0], lattice[1], lattice[2], lattice[3])
}

/// The grid points of a lattice, in all.
fn point_count(inputs: u8, lattice: &[u8]) -> usize
    requires inputs { (inputs ≡ 1) ⊎ (inputs ≡ 3) ⊎ (inputs ≡ 4) }
    requires head { 20 ≤ length lattice.now }
    ensures value { result ≡ point_count (grid_of inputs lattice.now) }
    ensures bound { result ≤ 255 ^ 4 }
{
    match inputs {
        1 => one_count(lattice),
        3 => three_count(lattice),
        _ => four_count(lattice),
    }
}

fn three(a: u8, b: u8, c: u8) -> usize
    ensures value { result ≡ a * (b * (c * 1)) }
    ensures bound { result ≤ 255 ^ 3 }
{
    usize::from(a) * (usize::from(b) * usize::from(c))
}

fn four(a: u8, b: u8, c: u8, d: u8) -> usize
    ensures value { result ≡ a * (b * (c * (d * 1))) }
    ensures bound { result ≤ 255 ^ 4 }
{
    usize::from(a) * three(b, c, d)
}

/// How many values a lattice has.
pub(crate) fn node_count(inputs: u8, lattice: &[u8]) -> usize
    requires inputs { (inputs ≡ 1) ⊎ (inputs ≡ 3) ⊎ (inputs ≡ 4) }
    requires head { 20 ≤ length lattice.now }
    ensures value { result ≡ node_count inputs lattice.now }
    ensures bound { result ≤ 255 ^ 4 * 3 }
{
    point_count(inputs, lattice) * 3
}

/// Whether a channel has fewer than two grid points.
fn has_no_cell(inputs: u8, lattice: &[u8]) -> bool
    requires few { inputs ≤ 4 }
    requires head { 20 ≤ length lattice.now }
    ensures { result ≡ list_any (λ points. nat_lt points 2) (grid_of inputs lattice.now) }
{
    let (grid, _) = lattice.split_at(usize::from(inputs));
    grid.iter().any(|points| *points < 2)
}

/// Whether a lattice is misshapen.
#[tactic(auto, unfolding(crate::specs::StagesTag::is_bad_lattice))]
fn is_bad_lattice(inputs: u8, lattice: &[u8]) -> bool
    requires { (inputs ≡ 1) ⊎ (inputs ≡ 3) ⊎ (inputs ≡ 4) }
    ensures { result ≡ is_bad_lattice inputs lattice.now }
{
    if lattice.len() < 20 {
        return true;
    }
    see_few(inputs);
    if has_no_cell(inputs, lattice) {
        return true;
    }
    let precision = lattice[16];
    if !(precision == 1 || precision == 2) {
        return true;
    }
    lattice.len() < 20 + usize::from(precision) * node_count(inputs, lattice)
}

/// The first fault of the lattice.
#[tactic(auto, unfolding(crate::specs::StagesTag::lattice_fault))]
fn lattice_fault(inputs: u8, tag: &[u8]) -> Option<PartFault>
    requires inputs { (inputs ≡ 1) ⊎ (inputs ≡ 3) ⊎ (inputs ≡ 4) }
    requires head { 32 ≤ length tag.now }
    ensures { result ≡ lattice_fault inputs tag.now }
{
    let at = place(tag, 24);
    let curves = place(tag, 28);
    if at == 0 {
        return shape_if(curves != 0 || inputs != 3);
    }
    if curves == 0 {
        return Some(PartFault::Shape);
    }
    shape_if(is_bad_lattice(inputs, rest(tag, at)))
}

/// The first fault of the A curves.
#[tactic(auto, unfolding(crate::specs::StagesTag::a_fault))]
fn a_fault(inputs: u8, tag: &[u8]) -> Option<PartFault>
    requires inputs { (inputs ≡ 1) ⊎ (inputs ≡ 3) ⊎ (inputs ≡ 4) }
    requires head { 32 ≤ length tag.now }
    ensures { result ≡ a_fault inputs tag.now }
{
    let at = place(tag, 28);
    if at == 0 {
        return None;
    }
    curves_fault(tag, inputs, at)
}

/// Whether the channels are others than so many and three.
fn has_other_channels(inputs: u8, tag: &[u8]) -> bool
    requires { 32 ≤ length tag.now }
    ensures { result ≡ has_other_channels inputs tag.now }
{
    tag[8] != inputs || tag[9] != 3
}

/// The first fault that a walk over the parts meets: B curves, matrix, M curves, lattice, A curves.
#[tactic(auto, unfolding(crate::specs::StagesTag::stages_fault))]
pub fn stages_fault(inputs: u8, tag: &[u8]) -> Option<PartFault>
    requires { (inputs ≡ 1) ⊎ (inputs ≡ 3) ⊎ (inputs ≡ 4) }
    ensures { result ≡ stages_fault inputs tag.now }
{
    if tag.len() < 32 {
        return Some(PartFault::Shape);
    }
    if has_other_channels(inputs, tag) {
        return Some(PartFault::Shape);
    }
    if let Some(fault) = b_fault(tag) {
        return Some(fault);
    }
    if let Some(fault) = matrix_fault(tag) {
        return Some(fault);
    }
    if let Some(fault) = m_fault(tag) {
        return Some(fault);
    }
    if let Some(fault) = lattice_fault(inputs, tag) {
        return Some(fault);
    }
    a_fault(inputs, tag)
}
