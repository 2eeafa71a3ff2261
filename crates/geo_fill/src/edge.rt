//! Edges of a walk: where each crosses the row at which the walk is, and how that moves from row to
//! row.
ghost use Rattle.std.specs.Prelude.{◌≡◌, ◌≤◌, ◌<◌, ◌^◌, ◌+◌, ◌*◌, ◌||◌, ℕ, ℤ, nat_le, OnOk, IfSome, IsTrue, int_le};
ghost use Rattle.std.specs.Prelude.{int_lt, pos, ◌*ℤ◌, ◌+ℤ◌, ◌-ℤ◌, ◌≤ℤ◌, ◌<ℤ◌, neg_ℤ, unsigned_abs};
ghost use Rattle.std.specs.List.{All};
ghost use Rattle.press_fault.specs.Plane.{IsWithin};
ghost use Rattle.page_model.specs.Inside.{centre, crosses_left, turn_of, ring_winding, winding, is_between};
ghost use Rattle.geo_fill.specs.Walk.{reach_in, turn_in, IsEdge, IsActive, winding_in, edge_turn};
ghost use Rattle.geo_fill.specs.Code.WalkSteps.{IsListed, AreListed, IsMadeOf, IsPlacedAt, IsNextOf, turn_by};
ghost use Rattle.geo_fill.specs.Code.WalkSteps.{line_turn, line_place};

use page_model::{Ring, centre_of, product_of_differences};
use press_fault::{Mem, Point};
use press_nums::{Short, Wide, divide_floor};

/// An edge in a row. It crosses the height of the row's centres at the centre of column `col`, or
/// left of it by `over` parts of a column, of which `span` make one. From row to row this place
/// moves by `step` columns and `part` parts to the right.
#[derive(Clone, Copy)]
pub(crate) struct Edge {
    pub(crate) col: Short,
    pub(crate) step: Short,
    pub(crate) over: u64,
    pub(crate) part: u64,
    pub(crate) span: u64,
    /// The row at which `col` and `over` stand.
    pub(crate) row: u32,
    /// The last row that it crosses.
    pub(crate) last: u32,
    pub(crate) rises: bool,
}

/// The first place of a range that is a number or greater, and the end of the range where there is
/// none.
pub(crate) fn clamped(z: Wide, from: u64, to: u64) -> u64
    requires { from ≤ to }
    ensures first { from ≤ result }
    ensures end { result ≤ to }
    ensures places { (k : ℕ) → from ≤ k → k < to → nat_le result k ≡ int_le z (pos k) }
{
    if z.is_at_most(Wide::of_size(u128::from(from))) {
        from
    } else if Wide::of_size(u128::from(to)).is_at_most(z) {
        to
    } else {
        z.size() as u64
    }
}

/// The first row or column of a range whose centre is at a place in sub-dots or behind it, and the
/// end of the range where there is none.
pub(crate) fn place_from(y: Wide, from: u64, to: u64) -> u64
    requires order { from ≤ to }
    requires fits { unsigned_abs y < 2 ^ 124 }
    ensures first { from ≤ result }
    ensures end { result ≤ to }
    ensures places { (k : ℕ) → from ≤ k → k < to → nat_le result k ≡ int_le y (centre k) }
{
    clamped(
        divide_floor(y + Wide::of(127), Wide::of(256)).quotient,
        from,
        to,
    )
}

/// Adds the edges of closed rings that cross one of the rows from `first` up to and without `end`.
pub(crate) fn list_rings(edges: &mut Vec<Edge>, rings: &[Ring], first: u64, end: u64) -> Mem<()>
    requires order { first ≤ end }
    requires numbered { end ≤ 4294967296 }
    ensures { OnOk result (AreListed first end edges.old.items edges.new.items
        (λ row col. winding (centre col) (centre row) rings.now)) }
{
    for ring in rings {
        list_ring(edges, ring.items(), first, end)?;
    }
    Ok(())
}

/// Adds the edges of a closed ring that cross one of the rows.
fn list_ring(edges: &mut Vec<Edge>, points: &[Point], first: u64, end: u64) -> Mem<()>
    requires order { first ≤ end }
    requires numbered { end ≤ 4294967296 }
    ensures { OnOk result (AreListed first end edges.old.items edges.new.items
        (λ row col. ring_winding (centre col) (centre row) points.now)) }
{
    for i in 0..points.len() {
        let here = points[i];
        let next = points[(i + 1) % points.len()];
        list_edge(edges, here, next, first, end)?;
    }
    Ok(())
}

/// Adds the edge from a point to another, if it crosses one of the rows.
fn list_edge(edges: &mut Vec<Edge>, here: Point, next: Point, first: u64, end: u64) -> Mem<()>
    requires order { first ≤ end }
    requires numbered { end ≤ 4294967296 }
    ensures { OnOk result (AreListed first end edges.old.items edges.new.items
        (λ row col. turn_of (centre col) (centre row) (here, next))) }
{
    if let Some(edge) = edge_between(here, next, first, end) {
        edges.push(edge)?;
    }
    Ok(())
}

/// The edge from a point to another, if it crosses one of the rows.
fn edge_between(here: Point, next: Point, first: u64, end: u64) -> Option<Edge>
    requires order { first ≤ end }
    requires numbered { end ≤ 4294967296 }
    ensures listed { IfSome result (IsListed first) }
    ensures turns { (row col : ℕ) → first ≤ row → row < end →
        turn_by row col result ≡ turn_of (centre col) (centre row) (here, next) }
{
    if here.wide_y().is_below(next.wide_y()) {
        edge_down(here, next, true, first, end)
    } else if next.wide_y().is_below(here.wide_y()) {
        edge_down(next, here, false, first, end)
    } else {
        None
    }
}

/// The edge from its end of lesser y to the other one, if it crosses one of the rows.
fn edge_down(low: Point, high: Point, rises: bool, first: u64, end: u64) -> Option<Edge>
    requires down { IsTrue (int_lt low.y high.y) }
    requires order { first ≤ end }
    requires numbered { end ≤ 4294967296 }
    ensures listed { IfSome result (IsListed first) }
    ensures turns { (row col : ℕ) → first ≤ row → row < end →
        turn_by row col result ≡ line_turn low high rises (centre col) (centre row) }
{
    if first >= end {
        return None;
    }
    if misses(low, high, first as u32, (end - 1) as u32) {
        return None;
    }
    let begin = place_from(low.wide_y(), first, end);
    let stop = place_from(high.wide_y(), first, end);
    if stop <= begin {
        return None;
    }
    Some(edge_at(low, high, rises, begin as u32, (stop - 1) as u32))
}

/// Whether a line ends at or above the centres of a first row, or begins below those of a last one.
/// Most edges of a page miss a band, and this is the cheapest test.
fn misses(low: Point, high: Point, first: u32, last: u32) -> bool
    ensures { result ≡ (int_le high.y (centre first) || int_lt (centre last) low.y) }
{
    high.wide_y().is_at_most(centre_of(first)) || centre_of(last).is_below(low.wide_y())
}

/// The edge in the rows from one to another, which it crosses.
fn edge_at(low: Point, high: Point, rises: bool, row: u32, last: u32) -> Edge
    requires down { IsTrue (int_lt low.y high.y) }
    requires order { row ≤ last }
    requires begins { IsTrue (int_le low.y (centre row)) }
    requires ends { IsTrue (int_lt (centre last) high.y) }
    ensures { IsMadeOf low high rises row last result }
{
    let rise = high.wide_y() - low.wide_y();
    let run = high.wide_x() - low.wide_x();
    let place = place_at(low, high, centre_of(row));
    edge_of(place, rise, run, rises, row, last)
}

/// Where a line crosses a height, less half a dot; in sub-dots, times its rise.
fn place_at(low: Point, high: Point, height: Wide) -> Wide
    requires height { IsWithin height }
    ensures value { result ≡ line_place low high height }
    ensures bound { unsigned_abs result < 2 ^ 95 }
{
    let rise = high.wide_y() - low.wide_y();
    let run = high.wide_x() - low.wide_x();
    let across = product_of_differences(height - low.wide_y(), run);
    product_of_differences(low.wide_x(), rise) + across - rise.times(128)
}

/// The edge that is at a place in a row. The place, and what it grows by in a row, are in sub-dots,
/// times the rise.
fn edge_of(place: Wide, rise: Wide, run: Wide, rises: bool, row: u32, last: u32) -> Edge
    requires down { pos 0 <ℤ rise }
    requires rise { unsigned_abs rise < 2 ^ 46 }
    requires run { unsigned_abs run < 2 ^ 46 }
    requires place { unsigned_abs place < 2 ^ 95 }
    requires order { row ≤ last }
    requires near { (k : ℕ) → row ≤ k → k ≤ last →
        unsigned_abs (place +ℤ (pos k -ℤ pos row) *ℤ (run *ℤ pos 256)) ≤ unsigned_abs rise * 2 ^ 46 }
    ensures { IsPlacedAt place rise run rises row last result }
{
    let span = rise.times(256);
    let across = divide_floor(place.negated(), span);
    let along = divide_floor(run, rise);
    Edge {
        col: Short::of(across.quotient.negated()),
        step: Short::of(along.quotient),
        over: across.remainder.size() as u64,
        part: along.remainder.times(256).size() as u64,
        span: span.size() as u64,
        row,
        last,
        rises,
    }
}

impl Edge {
    /// The edge in the next row, which it crosses too.
    pub(crate) fn in_next_row(&self) -> Edge
        requires edge { IsEdge self.now }
        requires more { self.now.row < self.now.last }
        ensures { IsNextOf self.now result }
    {
        let last = self.last;
        if self.over < self.part {
            Edge {
                col: self.next_col(1),
                over: self.over + self.span - self.part,
                row: self.row + 1,
                step: self.step,
                part: self.part,
                span: self.span,
                last,
                rises: self.rises,
            }
        } else {
            Edge {
                col: self.next_col(0),
                over: self.over - self.part,
                row: self.row + 1,
                step: self.step,
                part: self.part,
                span: self.span,
                last,
                rises: self.rises,
            }
        }
    }

    /// The column in the next row, where the parts make `more` of a column.
    #[tactic(auto, using(crate::proofs::Moving::near_col))]
    fn next_col(&self, more: u32) -> Short
        requires edge { IsEdge self.now }
        requires one { more ≤ 1 }
        ensures { result ≡ self.now.col +ℤ self.now.step +ℤ pos more }
    {
        Short::of(self.col.wide() + self.step.wide() + Wide::of_size(u128::from(more)))
    }

    /// The first column of a range whose centre is right of the edge in its row, or on it, and the
    /// end of the range where there is none.
    pub(crate) fn col_in(&self, from: u32, to: u32) -> u32
        requires edge { IsEdge self.now }
        requires order { from ≤ to }
        ensures first { from ≤ result }
        ensures end { result ≤ to }
        ensures turns { (col : ℕ) → from ≤ col → col < to →
            nat_le result col ≡ int_le (reach_in self.now.row self.now) (pos (self.now.span * col)) }
    {
        clamped(self.col.wide(), u64::from(from), u64::from(to)) as u32
    }
}
