//! Lookup tables of several channels: luts of 8 and of 16 bits.
ghost use Rattle.std.specs.Prelude.{◌≡◌, ◌≤◌, ◌<◌, ◌^◌, ◌*◌, ◌+◌, ◌-◌, ◌/◌, ◌%◌, ◌⊎◌, ℕ, Bool, length, suc, [], ◌∷◌};
ghost use Rattle.std.specs.Prelude.{slice_index, EachIndex};
ghost use Rattle.icc_tables.specs.Rounded.{rounded};
ghost use Rattle.icc_tables.specs.Lattice.{LutValue, top_of, corner_sum, node_value, lattice_at, entry_at, lut_value};
ghost use Rattle.icc_tables.specs.Lattice.{AreAtMost, AreSmall, AreMixed, IsPoint};

use crate::nodes::Nodes;
use crate::values::Values;
use std::marker::Model;

/// A lut (ICC.1:2010, 10.8 lut16Type and 10.9 lut8Type) with three outputs.
///
/// `wide` says that its values have 16 bits, else 8. `inputs` is 1, 3 or 4, `grid` the grid
/// points of each input channel, at least 2. The matrix has 1/65536, row by row. An input table
/// has `before_count` entries, an output table `after_count`: from 2 to 4096 of 16 bits, or 256
/// of 8. The tables stand channel by channel, and the first input channel varies least rapidly in
/// the lattice `nodes`.
#[derive(Drop)]
pub struct Lut {
    pub wide: bool,
    pub inputs: u8,
    pub grid: u8,
    pub matrix: [i32; 9],
    pub before_count: u16,
    pub after_count: u16,
    pub before: Values,
    pub nodes: Nodes,
    pub after: Values,
}

impl Model for Lut {
    ghost use Rattle.icc_tables.specs.Lattice.{LutValue, IsLut};

    ghost Value = { LutValue };

    ghost view = { λ l. record {
      wide = l.wide;
      inputs = l.inputs;
      grid = l.grid;
      matrix = l.matrix;
      before_count =
          l.before_count;
      after_count = l.after_count;
      before = l.before;
      nodes = l.nodes;
      after = l.after;
    } };

    ghost invariant = { λ l. IsLut (record {
      wide = l.wide;
      inputs = l.inputs;
      grid = l.grid;
      matrix =
          l.matrix;
      before_count = l.before_count;
      after_count = l.after_count;
      before = l.before;
      nodes =
          l.nodes;
      after = l.after;
    }) };
}

/// Three sums of weighted values.
#[derive(Clone, Copy)]
pub struct Sums {
    pub first: u128,
    pub second: u128,
    pub third: u128,
}

impl Model for Sums {
    ghost use Rattle.icc_tables.specs.Lattice.{SumsValue};

    ghost Value = { SumsValue };

    ghost view = { λ s. record { first = s.first; second = s.second; third = s.third } };

    ghost inverse = { λ v. record { first = v.first; second = v.second; third = v.third } };
}

/// The greatest value of a lut: 65535 or 255.
fn top_of(lut: &Lut) -> u64
    ensures value { result ≡ top_of lut.now.wide }
    ensures some { 0 < result }
    ensures bound { result ≤ 65535 }
{
    if lut.wide { 65535 } else { 255 }
}

/// The grid points along a channel.
fn grid_of(lut: &Lut) -> usize
    ensures value { result ≡ lut.now.grid }
    ensures some { 2 ≤ result }
    ensures few { result ≤ 255 }
{
    usize::from(lut.grid)
}

/// How many values the lattice has, which says that a place in it fits its type.
fn node_count(lut: &Lut) -> usize
    ensures { result ≡ length lut.now.nodes }
{
    lut.nodes.count()
}

/// The cell of the grid that a value lies in along a channel, by its first grid point, and the
/// distance from there: of `top`, 0 at a grid point.
#[derive(Drop)]
pub struct Cell {
    pub first: usize,
    pub distance: u64,
}

#[tactic(auto, using(crate::proofs::Corners::in_grid, crate::proofs::Corners::next_in_grid))]
pub fn cell_of(top: u64, grid: usize, v: u16) -> Cell
    requires some { 0 < top }
    requires bound { top ≤ 65535 }
    requires grid { 2 ≤ grid }
    requires few { grid ≤ 255 }
    requires v { v ≤ top }
    ensures first { result.first ≡ v * (grid - 1) / top }
    ensures distance { result.distance ≡ v * (grid - 1) % top }
    ensures near { result.distance < top }
    ensures inside { result.first < grid }
    ensures next { 0 < result.distance → result.first + 1 < grid }
{
    let step = u64::from(v) * (grid as u64 - 1);
    Cell {
        first: (step / top) as usize,
        distance: step % top,
    }
}

/// The two ends of a cell along one channel: the weights of the corners there, and the place of the
/// lower ones; the place of the upper ones is the next.
#[derive(Drop)]
struct Ends {
    low: u64,
    high: u64,
    place: usize,
}

/// The ends of the cell that v lies in along a channel, after channels of this weight and place
/// and before the channels `left`.
fn ends_of(lut: &Lut, v: u16, left: &[u16], weight: u64, place: usize) -> Ends
    requires v { v ≤ top_of lut.now.wide }
    requires weight { weight * 65535 ^ suc (length left.now) ≤ 65535 ^ 4 }
    requires place { (place + 1) * lut.now.grid ^ suc (length left.now) * 3 ≤ length lut.now.nodes }
    ensures low { result.low ≡ weight * (top_of lut.now.wide - v * (lut.now.grid - 1) % top_of lut.now.wide) }
    ensures high { result.high ≡ weight * (v * (lut.now.grid - 1) % top_of lut.now.wide) }
    ensures place { result.place ≡ place * lut.now.grid + v * (lut.now.grid - 1) / top_of lut.now.wide }
    ensures low_fits { result.low * 65535 ^ length left.now ≤ 65535 ^ 4 }
    ensures high_fits { result.high * 65535 ^ length left.now ≤ 65535 ^ 4 }
    ensures low_place { (result.place + 1) * lut.now.grid ^ length left.now * 3 ≤ length lut.now.nodes }
    ensures high_place { 0 < result.high → (result.place + 1 + 1) * lut.now.grid ^ length left.now * 3
        ≤ length lut.now.nodes }
    ensures next { result.place + 1 < 2 ^ 64 }
{
    let top = top_of(lut);
    let grid = grid_of(lut);
    // Its own range bounds every place.
    let _count = node_count(lut);
    let cell = cell_of(top, grid, v);
    Ends {
        low: weight * (top - cell.distance),
        high: weight * cell.distance,
        place: place * grid + cell.first,
    }
}

/// The sums over the corners that are left: those of the channels `at`, from a weight and a place
/// of the channels before. It reads no corner of weight 0.
#[tactic(auto, using(crate::proofs::Corners::no_corner), unfolding(crate::specs::Lattice::corner_sum))]
fn sum_corners(lut: &Lut, at: &[u16], weight: u64, place: usize) -> Sums
    requires points { IsPoint (top_of lut.now.wide) at.now }
    requires weight { weight * 65535 ^ length at.now ≤ 65535 ^ 4 }
    requires place { 0 < weight → (place + 1) * lut.now.grid ^ length at.now * 3 ≤ length lut.now.nodes }
    ensures first { result.first ≡ corner_sum (top_of lut.now.wide) lut.now.grid lut.now.nodes 0 at.now weight place }
    ensures second { result.second ≡ corner_sum (top_of lut.now.wide) lut.now.grid lut.now.nodes 1 at.now weight place }
    ensures third { result.third ≡ corner_sum (top_of lut.now.wide) lut.now.grid lut.now.nodes 2 at.now weight place }
    ensures bounds { AreSmall result }
{
    if weight == 0 {
        return NOTHING;
    }
    match at.split_first() {
        None => corner(&lut.nodes, weight, place),
        Some((v, rest)) => {
            let ends = ends_of(lut, *v, rest, weight, place);
            let low = sum_corners(lut, rest, ends.low, ends.place);
            let high = sum_corners(lut, rest, ends.high, ends.place + 1);
            let sums = added(low, high);
            see_small(lut, at, weight, place, &sums);
            sums
        }
    }
}

/// Sums over corners keep the bound of four channels.
fn see_small(lut: &Lut, at: &[u16], weight: u64, place: usize, sums: &Sums)
    requires weight { weight * 65535 ^ length at.now ≤ 65535 ^ 4 }
    requires first { sums.now.first ≡ corner_sum
        (top_of lut.now.wide) lut.now.grid lut.now.nodes 0 at.now weight place }
    requires second { sums.now.second ≡ corner_sum
        (top_of lut.now.wide) lut.now.grid lut.now.nodes 1 at.now weight place }
    requires third { sums.now.third ≡ corner_sum
        (top_of lut.now.wide) lut.now.grid lut.now.nodes 2 at.now weight place }
    ensures { AreSmall sums.now }
{
    see_nodes(lut);
}

/// What a lut keeps of its nodes, in terms of its value: the number of them, and their range.
fn see_nodes(lut: &Lut)
    ensures count { length lut.now.nodes ≡ lut.now.grid ^ lut.now.inputs * 3 }
    ensures values { AreAtMost (top_of lut.now.wide) lut.now.nodes }
    ensures few { lut.now.inputs ≤ 4 }
{
    let _wide = lut.wide;
}

/// What no corner adds.
pub const NOTHING: Sums = Sums {
    first: 0,
    second: 0,
    third: 0,
};

/// One corner: a weight times the three values of a node.
pub fn corner(nodes: &Nodes, weight: u64, place: usize) -> Sums
    requires weight { weight ≤ 65535 ^ 4 }
    requires place { place * 3 + 2 < length nodes.now }
    ensures first { result.first ≡ weight * slice_index nodes.now (place * 3 + 0) }
    ensures second { result.second ≡ weight * slice_index nodes.now (place * 3 + 1) }
    ensures third { result.third ≡ weight * slice_index nodes.now (place * 3 + 2) }
    ensures bounds { AreSmall result }
{
    // Its own range bounds every place.
    let _count = nodes.count();
    Sums {
        first: weighted(weight, nodes.at(place * 3)),
        second: weighted(weight, nodes.at(place * 3 + 1)),
        third: weighted(weight, nodes.at(place * 3 + 2)),
    }
}

fn weighted(weight: u64, node: u16) -> u128
    requires { weight ≤ 65535 ^ 4 }
    ensures value { result ≡ weight * node }
    ensures bound { result ≤ 65535 ^ 5 }
{
    u128::from(weight) * u128::from(node)
}

pub fn added(a: Sums, b: Sums) -> Sums
    requires a { AreSmall a }
    requires b { AreSmall b }
    ensures first { result.first ≡ a.first + b.first }
    ensures second { result.second ≡ a.second + b.second }
    ensures third { result.third ≡ a.third + b.third }
{
    Sums {
        first: a.first + b.first,
        second: a.second + b.second,
        third: a.third + b.third,
    }
}

/// How many input channels a lut has.
fn inputs_of(lut: &Lut) -> u8
    ensures value { result ≡ lut.now.inputs }
    ensures some { (result ≡ 1) ⊎ (result ≡ 3) ⊎ (result ≡ 4) }
{
    lut.inputs
}

/// The sum of all weights of a cell: the greatest value to the power of the number of channels.
fn whole_of(lut: &Lut) -> u64
    ensures value { result ≡ top_of lut.now.wide ^ lut.now.inputs }
    ensures some { 0 < result }
    ensures bound { result ≤ 65535 ^ 4 }
{
    let top = top_of(lut);
    match inputs_of(lut) {
        1 => top,
        3 => cube(top),
        _ => fourth(top),
    }
}

fn cube(top: u64) -> u64
    requires some { 0 < top }
    requires bound { top ≤ 65535 }
    ensures value { result ≡ top ^ 3 }
    ensures some { 0 < result }
    ensures bound { result ≤ 65535 ^ 3 }
{
    top * top * top
}

fn fourth(top: u64) -> u64
    requires some { 0 < top }
    requires bound { top ≤ 65535 }
    ensures value { result ≡ top ^ 4 }
    ensures some { 0 < result }
    ensures bound { result ≤ 65535 ^ 4 }
{
    cube(top) * top
}

/// A sum of weighted values over the sum of the weights, rounded to the nearest.
#[tactic(auto, using(crate::proofs::Tables::rounded_half, crate::proofs::Tables::rounded_most))]
pub fn nearest(sum: u128, whole: u64) -> u16
    requires some { 0 < whole }
    requires whole { whole ≤ 65535 ^ 4 }
    requires sum { sum ≤ 65535 * whole }
    ensures { result ≡ rounded sum whole }
{
    // Half of the divisor is added in place of doubling both: then the divisor has 64 bits.
    ((sum + u128::from(whole / 2)) / u128::from(whole)) as u16
}

/// The sums over all corners, over the sum of their weights, are the values of the lattice.
fn see_whole(lut: &Lut, at: &[u16], sums: &Sums)
    requires channels { length at.now ≡ lut.now.inputs }
    requires first { sums.now.first ≡ corner_sum (top_of lut.now.wide) lut.now.grid lut.now.nodes 0 at.now 1 0 }
    requires second { sums.now.second ≡ corner_sum (top_of lut.now.wide) lut.now.grid lut.now.nodes 1 at.now 1 0 }
    requires third { sums.now.third ≡ corner_sum (top_of lut.now.wide) lut.now.grid lut.now.nodes 2 at.now 1 0 }
    ensures { AreMixed lut.now at.now sums.now }
{
    see_nodes(lut);
}

/// The three values of the lattice of a lut at a point (ICC.1:2010, 10.8 and 10.9): a sum over all
/// corners of the cell, rounded once.
#[tactic(auto, unfolding(crate::specs::Lattice::node_value))]
pub fn values_at(lut: &Lut, at: &[u16]) -> [u16; 3]
    requires channels { length at.now ≡ lut.now.inputs }
    requires point { IsPoint (top_of lut.now.wide) at.now }
    ensures value { result ≡ lattice_at lut.now at.now }
    ensures point { IsPoint (top_of lut.now.wide) result }
{
    see_nodes(lut);
    let sums = sum_corners(lut, at, 1, 0);
    see_whole(lut, at, &sums);
    let whole = whole_of(lut);
    [
        nearest(sums.first, whole),
        nearest(sums.second, whole),
        nearest(sums.third, whole),
    ]
}

/// The three values of the lattice of a lut at a point, written to `out`.
///
/// The values are from 0 to 65535 in a lut of 16 bits, else from 0 to 255.
pub fn lattice_at(lut: &Lut, at: &[u16], out: &mut [u16])
    requires channels { length at.now ≡ lut.now.inputs }
    requires point { IsPoint (top_of lut.now.wide) at.now }
    requires places { length out.old ≡ 3 }
    ensures { out.new ≡ lattice_at lut.now at.now }
{
    let values = values_at(lut, at);
    out.copy_from_slice(&values);
}
