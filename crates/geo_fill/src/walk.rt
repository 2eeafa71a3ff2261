//! A walk down the rows of a page that visits an edge only in the rows that it crosses.
ghost use Rattle.std.specs.Prelude.{◌≡◌, ◌≤◌, ◌<◌, ◌^◌, ◌+◌, ◌*ℤ◌, unsigned_abs, [], ℕ, take, drop, length, nat_le};
ghost use Rattle.std.specs.Prelude.{int_le, false, OnOk, OnErr, IfOk, MatchOption};
ghost use Rattle.std.specs.List.{All};
ghost use Rattle.page_model.specs.Inside.{centre, is_inside as holds};
ghost use Rattle.page_model.specs.declared.shape.Shape.{Shape as AnyShape};
ghost use Rattle.page_model.specs.declared.shape.Rule.{Rule as AnyRule};
ghost use Rattle.page_model.specs.declared.shape.Shape.TheVariants.{Poly, Disc as Round};
ghost use Rattle.page_model.specs.Cover.{disc_holds};
ghost use Rattle.geo_fill.specs.Spans.{HaveJust};
ghost use Rattle.geo_fill.specs.Code.Steps.{AreAdded};
ghost use Rattle.geo_fill.specs.Walk.{IsActive, AreWaiting, winding_in, turn_in, walk_holds, Walks};
ghost use Rattle.geo_fill.specs.Code.WalkSteps.{AreMoved, AreEntered, IsWalkKept, IsAt, IsHalfWidth, IsNextWalk};
ghost use Rattle.geo_fill.specs.Code.WalkSteps.{IsRowOf};

use crate::crossing::Crossing;
use crate::edge::{Edge, list_rings, place_from};
use crate::row::{or_none, sweep};
use crate::{Span, Spans};
use page_model::{Disc, Region, Ring, Rule, Shape, centre_of};
use press_fault::Mem;
use press_nums::{Wide, isqrt};
use std::alloc::Global;
use std::marker::Model;
use std::mem;

/// A walk over a shape, from one row of dots to the next.
///
/// It keeps the edges that cross one of its rows, each with the place at which it crosses the first
/// of them. From row to row it moves on those that cross both, and looks at no other.
#[derive(Drop)]
pub struct EdgeWalk {
    alloc: Global,
    rule: Rule,
    /// The row at which it is, and at its end the one behind its last.
    row: u64,
    /// How many rows are left, this one among them.
    left: u32,
    /// What it walks over, where that isn't a polygon.
    disc: Option<Disc>,
    /// First the active edges, which cross the row. From `next` on stand those that begin in later
    /// rows, in this order, and between the two such as have ended.
    edges: Vec<Edge>,
    active: usize,
    next: usize,
}

impl Model for EdgeWalk {
    ghost use Rattle.std.specs.Prelude.{take, drop, ◌++◌};
    ghost use Rattle.geo_fill.specs.Walk.{EdgeWalkValue};

    ghost Value = { EdgeWalkValue };

    ghost use Rattle.geo_fill.specs.Code.WalkSteps.{IsInRow};

    ghost view = { λ w. record {
      rule = w.rule;
      row = w.row;
      left = w.left;
      disc = w.disc;
      edges = take w.active w.edges.items ++ drop w.next w.edges.items;
    } };

    ghost invariant = { λ w. IsInRow w.row w.left w.active w.next w.edges.items };
}

impl EdgeWalk {
    /// A walk over a shape, by a rule, at the first of so many rows. Each row has a number of 32
    /// bits.
    pub fn new(alloc: Global, shape: &Shape, rule: Rule, first: u32, rows: u32) -> Mem<EdgeWalk>
        requires { first + rows ≤ 4294967296 }
        ensures { IfOk result (Walks shape.now rule first rows) }
    {
        EdgeWalk::of_shape(alloc, Vec::new(alloc), shape, rule, first, rows)
    }

    /// A walk over a region of a clip, at the first of so many rows. Each row has a number of 32
    /// bits.
    pub fn of_region(alloc: Global, region: &Region, first: u32, rows: u32) -> Mem<EdgeWalk>
        requires { first + rows ≤ 4294967296 }
        ensures { IfOk result (Walks (Poly region.now.rings) region.now.rule first rows) }
    {
        EdgeWalk::of_rings(
            alloc,
            Vec::new(alloc),
            region.rings.items(),
            region.rule,
            first,
            rows,
        )
    }

    /// A walk without rows, to begin anew later.
    pub fn idle(alloc: Global) -> EdgeWalk
        ensures { result.left ≡ 0 }
    {
        EdgeWalk {
            alloc,
            rule: Rule::Nonzero,
            row: 0,
            left: 0,
            disc: None,
            edges: Vec::new(alloc),
            active: 0,
            next: 0,
        }
    }

    /// Begins anew, with another shape and other rows, in the room that it has. Where memory runs
    /// out it has no rows left.
    pub fn restart(&mut self, shape: &Shape, rule: Rule, first: u32, rows: u32) -> Mem<()>
        requires { first + rows ≤ 4294967296 }
        ensures ok { OnOk result (Walks shape.now rule first rows self.new) }
        ensures err { OnErr result (self.new.left ≡ 0) }
    {
        let room = self.take_room();
        *self = EdgeWalk::of_shape(self.alloc, room, shape, rule, first, rows)?;
        Ok(())
    }

    /// Begins anew as `restart` does, with a region of a clip.
    pub fn restart_region(&mut self, region: &Region, first: u32, rows: u32) -> Mem<()>
        requires { first + rows ≤ 4294967296 }
        ensures ok { OnOk result (Walks (Poly region.now.rings) region.now.rule first rows self.new) }
        ensures err { OnErr result (self.new.left ≡ 0) }
    {
        let room = self.take_room();
        let rings = region.rings.items();
        *self = EdgeWalk::of_rings(self.alloc, room, rings, region.rule, first, rows)?;
        Ok(())
    }

    /// The room for edges, without any. The walk has neither edges nor rows left.
    fn take_room(&mut self) -> Vec<Edge>
        ensures room { result.items ≡ [] }
        ensures none { self.new.left ≡ 0 }
    {
        let mut room = mem::replace(&mut self.edges, Vec::new(self.alloc));
        room.clear();
        self.left = 0;
        self.active = 0;
        self.next = 0;
        room
    }

    /// A walk in the room that is given.
    fn of_shape(
        alloc: Global,
        room: Vec<Edge>,
        shape: &Shape,
        rule: Rule,
        first: u32,
        rows: u32,
    ) -> Mem<EdgeWalk>
        requires numbered { first + rows ≤ 4294967296 }
        requires empty { room.items ≡ [] }
        ensures { IfOk result (Walks shape.now rule first rows) }
    {
        match shape {
            Shape::Poly(rings) => EdgeWalk::of_rings(alloc, room, rings.items(), rule, first, rows),
            Shape::Disc(disc) => Ok(EdgeWalk::of_disc(alloc, room, *disc, rule, first, rows)),
        }
    }

    #[tactic(auto, unfolding(crate::specs::Walk::walk_holds))]
    fn of_disc(
        alloc: Global,
        room: Vec<Edge>,
        disc: Disc,
        rule: Rule,
        first: u32,
        rows: u32,
    ) -> EdgeWalk
        requires numbered { first + rows ≤ 4294967296 }
        requires empty { room.items ≡ [] }
        ensures { Walks (Round disc) rule first rows result }
    {
        EdgeWalk {
            alloc,
            rule,
            row: u64::from(first),
            left: rows,
            disc: Some(disc),
            edges: room,
            active: 0,
            next: 0,
        }
    }

    fn of_rings(
        alloc: Global,
        room: Vec<Edge>,
        rings: &[Ring],
        rule: Rule,
        first: u32,
        rows: u32,
    ) -> Mem<EdgeWalk>
        requires numbered { first + rows ≤ 4294967296 }
        requires empty { room.items ≡ [] }
        ensures { IfOk result (Walks (Poly rings.now) rule first rows) }
    {
        let row = u64::from(first);
        let mut edges = room;
        list_rings(&mut edges, rings, row, row + u64::from(rows))?;
        edges.sort_unstable_by_key(|edge| edge.row);
        let active = enter_listed(&mut edges, 0, 0, row);
        Ok(EdgeWalk {
            alloc,
            rule,
            row,
            left: rows,
            disc: None,
            edges,
            active,
            next: active,
        })
    }

    /// Puts into `out`, in place of what is there, the columns of the walk's row from `from` up to
    /// and without `to` whose dot centres the shape holds, and goes on to the next row.
    ///
    /// Rows are asked one after another, and no more than the walk has left. Once the rooms of the
    /// walk and of `out` have grown a row takes no memory. Where memory runs out `out` is empty,
    /// and the walk stays at its row.
    pub fn next_row(&mut self, from: u32, to: u32, out: &mut Spans) -> Mem<()>
        requires order { from ≤ to }
        requires more { 0 < self.old.left }
        ensures ok { (shape : AnyShape) (rule : AnyRule) (row left : ℕ) →
            Walks shape rule row (left + 1) self.old →
            OnOk result (IsRowOf shape rule row left from to out.new self.new) }
        ensures left { OnOk result (self.new.left + 1 ≡ self.old.left) }
        ensures err { OnErr result ((out.new ≡ []) × (self.new ≡ self.old)) }
    {
        self.put_row(from, to, out)?;
        self.go_on();
        Ok(())
    }

    /// Puts the columns of the walk's row into `out`, and none where memory runs out.
    fn put_row(&self, from: u32, to: u32, out: &mut Spans) -> Mem<()>
        requires order { from ≤ to }
        requires more { 0 < self.now.left }
        ensures ok { OnOk result (HaveJust out.new from to (walk_holds self.now self.now.row)) }
        ensures err { OnErr result (out.new ≡ []) }
    {
        out.clear();
        let added = self.add_row(from, to, out);
        or_none(added, out)
    }

    /// Adds the columns of the walk's row.
    fn add_row(&self, from: u32, to: u32, out: &mut Spans) -> Mem<()>
        requires order { from ≤ to }
        requires more { 0 < self.now.left }
        requires empty { out.old ≡ [] }
        ensures { OnOk result (HaveJust out.new from to (walk_holds self.now self.now.row)) }
    {
        let row = self.row as u32;
        match self.disc {
            Some(disc) => {
                add_disc(disc, row, from, to, out)?;
                Ok(())
            }
            None => {
                let (active, _) = self.edges.split_at(self.active);
                add_edges(active, self.rule, row, from, to, out)?;
                Ok(())
            }
        }
    }

    /// Moves on to the next row. This takes no memory.
    fn go_on(&mut self)
        requires { 0 < self.old.left }
        ensures { IsNextWalk self.old self.new }
    {
        self.active = move_listed(&mut self.edges, self.active, self.row as u32);
        self.row += 1;
        self.left -= 1;
        let entered = enter_listed(&mut self.edges, self.active, self.next, self.row);
        self.active += entered;
        self.next += entered;
    }
}

/// Finds where the active edges cross their row, and goes along the crossings from left to right.
fn add_edges(edges: &[Edge], rule: Rule, row: u32, from: u32, to: u32, out: &mut Spans) -> Mem<()>
    requires order { from ≤ to }
    requires active { All (IsActive row) edges.now }
    requires empty { out.old ≡ [] }
    ensures { OnOk result (HaveJust out.new from to
        (λ col. holds rule (winding_in row col edges.now))) }
{
    let mut crossings = out.take_room();
    add_crossings(&mut crossings, edges, row, from, to)?;
    crossings.sort_unstable_by_key(|crossing| crossing.col);
    sweep(&crossings, rule, from, to, out)?;
    out.keep_room(crossings);
    Ok(())
}

/// `move_on` of a list: a function of its own, so that its caller sees the whole list.
fn move_listed(edges: &mut Vec<Edge>, active: usize, row: u32) -> usize
    requires inside { active ≤ length edges.old.items }
    requires active { All (IsActive row) (take active edges.old.items) }
    ensures { AreMoved row active result edges.old.items edges.new.items }
{
    move_on(edges, active, row)
}

/// `enter` of a list: a function of its own, so that its caller sees the whole list.
fn enter_listed(edges: &mut Vec<Edge>, active: usize, next: usize, row: u64) -> usize
    requires order { active ≤ next }
    requires inside { next ≤ length edges.old.items }
    requires active { All (IsActive row) (take active edges.old.items) }
    requires waiting { AreWaiting row (drop next edges.old.items) }
    ensures { AreEntered row active next result edges.old.items edges.new.items }
{
    enter(edges, active, next, row)
}

/// Moves the active edges, which stand first, on to the next row, and leaves out those that end. It
/// answers how many are left.
fn move_on(edges: &mut [Edge], active: usize, row: u32) -> usize
    requires inside { active ≤ length edges.old }
    requires active { All (IsActive row) (take active edges.old) }
    ensures { AreMoved row active result edges.old edges.new }
{
    let mut kept = 0;
    for i in 0..active {
        let edge = edges[i];
        kept = keep(edges, kept, &edge, row);
    }
    kept
}

/// Puts an edge that is in a row at a place, moved on to the next row, if it crosses that too. It
/// answers the place for the next edge.
fn keep(edges: &mut [Edge], kept: usize, edge: &Edge, row: u32) -> usize
    requires inside { kept < length edges.old }
    requires active { IsActive row edge.now }
    ensures { IsWalkKept row kept result edge.now edges.old edges.new }
{
    if row < edge.last {
        edges[kept] = edge.in_next_row();
        kept + 1
    } else {
        kept
    }
}

/// Puts the edges that begin at a row behind the active ones. It answers how many these are.
fn enter(edges: &mut [Edge], active: usize, next: usize, row: u64) -> usize
    requires order { active ≤ next }
    requires inside { next ≤ length edges.old }
    requires active { All (IsActive row) (take active edges.old) }
    requires waiting { AreWaiting row (drop next edges.old) }
    ensures { AreEntered row active next result edges.old edges.new }
{
    let mut entered = 0;
    while let Some(edge) = waiting_at(edges, next + entered, row) {
        edges[active + entered] = edge;
        entered += 1;
    }
    entered
}

/// The edge at a place, if it begins at a row.
fn waiting_at(edges: &[Edge], at: usize, row: u64) -> Option<Edge>
    requires inside { at ≤ length edges.now }
    requires waiting { AreWaiting row (drop at edges.now) }
    ensures { MatchOption result (AreWaiting (row + 1) (drop at edges.now)) (IsAt row at edges.now) }
{
    if at >= edges.len() {
        return None;
    }
    let edge = edges[at];
    if u64::from(edge.row) != row {
        return None;
    }
    Some(edge)
}

/// Adds where active edges cross their row, for the columns from `from` up to and without `to`.
fn add_crossings(
    crossings: &mut Vec<Crossing>,
    edges: &[Edge],
    row: u32,
    from: u32,
    to: u32,
) -> Mem<()>
    requires order { from ≤ to }
    requires active { All (IsActive row) edges.now }
    ensures { OnOk result (AreAdded from to crossings.old.items crossings.new.items
        (λ col. winding_in row col edges.now)) }
{
    for edge in edges {
        add_crossing(crossings, edge, row, from, to)?;
    }
    Ok(())
}

fn add_crossing(crossings: &mut Vec<Crossing>, edge: &Edge, row: u32, from: u32, to: u32) -> Mem<()>
    requires order { from ≤ to }
    requires active { IsActive row edge.now }
    ensures { OnOk result (AreAdded from to crossings.old.items crossings.new.items
        (λ col. turn_in row col edge.now)) }
{
    crossings.push(Crossing {
        col: edge.col_in(from, to),
        rises: edge.rises,
    })?;
    Ok(())
}

/// Adds the columns of a row whose centres a disc holds.
fn add_disc(disc: Disc, row: u32, from: u32, to: u32, out: &mut Spans) -> Mem<()>
    requires order { from ≤ to }
    requires empty { out.old ≡ [] }
    ensures { OnOk result (HaveJust out.new from to (disc_holds disc row)) }
{
    let Some(half) = half_width(disc, row) else {
        return Ok(());
    };
    let first = col_from(disc.wide_x() - half, from, to);
    let end = col_from(disc.wide_x() + half + Wide::of(1), from, to);
    if first < end {
        out.push(Span { first, end })?;
    }
    Ok(())
}

/// The first column of a range whose centre is at a place in sub-dots or right of it, and the end
/// of the range where there is none.
fn col_from(y: Wide, from: u32, to: u32) -> u32
    requires order { from ≤ to }
    requires fits { unsigned_abs y < 2 ^ 124 }
    ensures first { from ≤ result }
    ensures end { result ≤ to }
    ensures places { (k : ℕ) → from ≤ k → k < to → nat_le result k ≡ int_le y (centre k) }
{
    place_from(y, u64::from(from), u64::from(to)) as u32
}

/// How far a disc reaches to both sides at a row's height, in sub-dots, rounded down; `None` where
/// it doesn't reach that height.
fn half_width(disc: Disc, row: u32) -> Option<Wide>
    ensures { MatchOption result ((col : ℕ) → disc_holds disc row col ≡ false) (IsHalfWidth disc row) }
{
    let most = square(disc.wide_r());
    let used = square(centre_of(row) - disc.wide_y());
    if most.is_below(used) {
        return None;
    }
    Some(Wide::of_size(u128::from(isqrt((most - used).size()))))
}

fn square(a: Wide) -> Wide
    requires { unsigned_abs a < 2 ^ 46 }
    ensures value { result ≡ a *ℤ a }
    ensures bound { unsigned_abs result < 2 ^ 92 }
{
    a * a
}
