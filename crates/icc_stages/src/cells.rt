//! Lattices whose channels have grid points of their own.
ghost use Rattle.std.specs.Prelude.{◌≡◌, ◌≤◌, ◌<◌, ◌^◌, ◌*◌, ◌+◌, ◌-◌, ◌/◌, ◌%◌, ◌⊎◌, length, suc};
ghost use Rattle.icc_tables.specs.Lattice.{AreAtMost, AreSmall};
ghost use Rattle.icc_stages.specs.Cells.{cell_sum, node_value, values_of, point_count, HaveCells, grid_of};

use icc_tables::{NOTHING, Nodes, Sums, added, cell_of, corner, nearest};

/// A value along a channel, and the grid points there.
#[derive(Clone, Copy, Debug, PartialEq, Eq)]
pub(crate) struct Axis {
    pub(crate) points: u8,
    pub(crate) v: u16,
}

/// The grid points along a channel.
fn grid_of(axis: Axis) -> usize
    ensures value { result ≡ axis.points }
    ensures few { result ≤ 255 }
{
    usize::from(axis.points)
}

/// How many values the nodes have, which says that a place in them fits its type.
fn node_count(nodes: &Nodes) -> usize
    ensures { result ≡ length nodes.now }
{
    nodes.count()
}

/// The two ends of a cell along one channel: the weights of the corners there, and the place of the
/// lower ones; the place of the upper ones is the next.
#[derive(Drop)]
struct Ends {
    low: u64,
    high: u64,
    place: usize,
}

/// The ends of the cell that a value lies in along a channel, after channels of this weight and place
/// and before the channels `left`.
fn ends_of(nodes: &Nodes, axis: Axis, left: &[Axis], weight: u64, place: usize) -> Ends
    requires some { 2 ≤ axis.points }
    requires left { HaveCells (grid_of left.now) }
    requires weight { weight * 65535 ^ suc (length left.now) ≤ 65535 ^ 4 }
    requires place { (place + 1) * (axis.points * point_count (grid_of left.now)) * 3 ≤ length nodes.now }
    ensures low { result.low ≡ weight * (65535 - axis.v * (axis.points - 1) % 65535) }
    ensures high { result.high ≡ weight * (axis.v * (axis.points - 1) % 65535) }
    ensures place { result.place ≡ place * axis.points + axis.v * (axis.points - 1) / 65535 }
    ensures low_fits { result.low * 65535 ^ length left.now ≤ 65535 ^ 4 }
    ensures high_fits { result.high * 65535 ^ length left.now ≤ 65535 ^ 4 }
    ensures low_place { (result.place + 1) * point_count (grid_of left.now) * 3 ≤ length nodes.now }
    ensures high_place { 0 < result.high → (result.place + 1 + 1) * point_count (grid_of left.now) * 3
        ≤ length nodes.now }
    ensures next { result.place + 1 < 2 ^ 64 }
{
    let grid = grid_of(axis);
    // Its own range bounds every place.
    let _count = node_count(nodes);
    let cell = cell_of(65535, grid, axis.v);
    Ends {
        low: weight * (65535 - cell.distance),
        high: weight * cell.distance,
        place: place * grid + cell.first,
    }
}

/// The sums over the corners that are left: those of the channels `axes`, from a weight and a place
/// of the channels before. It reads no corner of weight 0.
#[tactic(auto, using(crate::proofs::Corners::no_cell), unfolding(crate::specs::Cells::cell_sum))]
fn sum_cells(nodes: &Nodes, axes: &[Axis], weight: u64, place: usize) -> Sums
    requires cells { HaveCells (grid_of axes.now) }
    requires values { AreAtMost 65535 nodes.now }
    requires weight { weight * 65535 ^ length axes.now ≤ 65535 ^ 4 }
    requires place { 0 < weight → (place + 1) * point_count (grid_of axes.now) * 3 ≤ length nodes.now }
    ensures first { result.first ≡ cell_sum nodes.now 0 axes.now weight place }
    ensures second { result.second ≡ cell_sum nodes.now 1 axes.now weight place }
    ensures third { result.third ≡ cell_sum nodes.now 2 axes.now weight place }
    ensures bounds { AreSmall result }
{
    if weight == 0 {
        return NOTHING;
    }
    match axes.split_first() {
        None => corner(nodes, weight, place),
        Some((axis, rest)) => {
            let ends = ends_of(nodes, *axis, rest, weight, place);
            let low = sum_cells(nodes, rest, ends.low, ends.place);
            let high = sum_cells(nodes, rest, ends.high, ends.place + 1);
            let sums = added(low, high);
            see_small(nodes, axes, weight, place, &sums);
            sums
        }
    }
}

/// Sums over corners keep the bound of four channels.
fn see_small(nodes: &Nodes, axes: &[Axis], weight: u64, place: usize, sums: &Sums)
    requires values { AreAtMost 65535 nodes.now }
    requires weight { weight * 65535 ^ length axes.now ≤ 65535 ^ 4 }
    requires first { sums.now.first ≡ cell_sum nodes.now 0 axes.now weight place }
    requires second { sums.now.second ≡ cell_sum nodes.now 1 axes.now weight place }
    requires third { sums.now.third ≡ cell_sum nodes.now 2 axes.now weight place }
    ensures { AreSmall sums.now }
{}

/// The sum of all weights of a cell.
fn whole_of(axes: &[Axis]) -> u64
    requires { (length axes.now ≡ 1) ⊎ (length axes.now ≡ 3) ⊎ (length axes.now ≡ 4) }
    ensures value { result ≡ 65535 ^ length axes.now }
    ensures some { 0 < result }
    ensures bound { result ≤ 65535 ^ 4 }
{
    match axes.len() {
        1 => 65535,
        3 => 281_462_092_005_375,
        _ => 18_445_618_199_572_250_625,
    }
}

/// The three values of a lattice at a point: a sum over all corners of the cell, rounded once.
#[tactic(auto, unfolding(crate::specs::Cells::node_value))]
pub(crate) fn values_of(nodes: &Nodes, axes: &[Axis]) -> [u16; 3]
    requires channels { (length axes.now ≡ 1) ⊎ (length axes.now ≡ 3) ⊎ (length axes.now ≡ 4) }
    requires cells { HaveCells (grid_of axes.now) }
    requires values { AreAtMost 65535 nodes.now }
    requires count { length nodes.now ≡ point_count (grid_of axes.now) * 3 }
    ensures { result ≡ values_of nodes.now axes.now }
{
    let sums = sum_cells(nodes, axes, 1, 0);
    see_whole(nodes, axes, &sums);
    let whole = whole_of(axes);
    [
        nearest(sums.first, whole),
        nearest(sums.second, whole),
        nearest(sums.third, whole),
    ]
}

/// No sum over all corners passes the greatest value times the sum of their weights.
fn see_whole(nodes: &Nodes, axes: &[Axis], sums: &Sums)
    requires values { AreAtMost 65535 nodes.now }
    requires first { sums.now.first ≡ cell_sum nodes.now 0 axes.now 1 0 }
    requires second { sums.now.second ≡ cell_sum nodes.now 1 axes.now 1 0 }
    requires third { sums.now.third ≡ cell_sum nodes.now 2 axes.now 1 0 }
    ensures first { sums.now.first ≤ 65535 * 65535 ^ length axes.now }
    ensures second { sums.now.second ≤ 65535 * 65535 ^ length axes.now }
    ensures third { sums.now.third ≤ 65535 * 65535 ^ length axes.now }
{}
