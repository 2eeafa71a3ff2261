//! The outline of one line under a pen with dashes.
ghost use Rattle.std.specs.Prelude.{◌≡◌, ◌≤◌, ◌<◌, ◌^◌, ◌+◌, ◌*◌, [], ◌∷◌, ◌++◌, false, length, OnOk, OnErr, IfOk};
ghost use Rattle.std.specs.List.{All, flat_map};
ghost use Rattle.geo_matrix.specs.Affine.{IsNear};
ghost use Rattle.geo_path.specs.Flat.{IsNearLine};
ghost use Rattle.geo_stroke.specs.Pen.{is_solid};
ghost use Rattle.geo_stroke.specs.Segment.{fine_length_of, between, closing, segment_between, segments_of};
ghost use Rattle.geo_stroke.specs.Dash.{phase_of, place_on, dash_shapes, chain_shapes, dashed_shapes, dot_dash};
ghost use Rattle.geo_stroke.specs.Dash.{line_dashes, total_of};
ghost use Rattle.geo_stroke.specs.Code.Cursor.{IsOnLine, LeavesRoom};

use crate::dash::{Dash, DashedLine, cycle_length, dashes_on, phase, room_behind};
use crate::line::{LineSegments, push_dot, push_line};
use crate::pen::{Cap, Pen};
use crate::place::{Cursor, dash_points, point_at, seek, total};
use crate::segment::{LineSegment, segment_of};
use crate::shapes::{disc_at, square_end, square_start};
use geo_path::Polyline;
use page_model::Shapes;
use press_fault::{Mem, Point};
use std::alloc::Global;

/// Adds the shapes of a line under a pen with dashes.
#[tactic(auto, unfolding(crate::specs::Dash::dashed_shapes))]
pub(crate) fn push_dashed_line(
    alloc: Global,
    shapes: &mut Shapes,
    pen: &Pen,
    line: &Polyline,
) -> Mem<()>
    requires near { IsNearLine line.now }
    requires dashes { is_solid pen.now.dashes ≡ false }
    ensures ok { OnOk result (shapes.new ≡ shapes.old ++ dashed_shapes pen.now line.now) }
{
    let segments = LineSegments::of_line(alloc, line)?;
    match segments.items().split_first() {
        None => push_dot(shapes, pen, line),
        Some((first, rest)) => push_pattern(alloc, shapes, pen, *first, rest),
    }
}

/// Adds the dashes of a chain of segments.
fn push_pattern(
    alloc: Global,
    shapes: &mut Shapes,
    pen: &Pen,
    first: LineSegment,
    rest: &[LineSegment],
) -> Mem<()>
    requires { is_solid pen.now.dashes ≡ false }
    ensures ok { OnOk result (shapes.new ≡ shapes.old ++ chain_shapes pen.now first rest.now) }
{
    let extent = DashedLine {
        phase: pen_phase(pen),
        total: total(first, rest),
    };
    let dashes = dashes_on(alloc, extent, pen.dashes.items())?;
    push_dashes(alloc, shapes, pen, first, rest, dashes.as_slice())
}

/// How far into a cycle of the pattern each line begins.
fn pen_phase(pen: &Pen) -> u128
    requires { is_solid pen.now.dashes ≡ false }
    ensures value { result ≡ phase_of pen.now.dashes pen.now.offset }
    ensures bound { result ≤ 2 ^ 70 }
{
    phase(pen.wide_offset(), cycle_length(pen.dashes.items()))
}

/// Adds the shapes of dashes on a chain of segments.
fn push_dashes(
    alloc: Global,
    shapes: &mut Shapes,
    pen: &Pen,
    first: LineSegment,
    all: &[LineSegment],
    dashes: &[Dash],
) -> Mem<()>
    requires { All (IsOnLine (total_of (first ∷ all.now))) dashes.now }
    ensures ok { OnOk result (shapes.new ≡ shapes.old ++ flat_map (dash_shapes pen.now first all.now) dashes.now) }
{
    // The cursor's parts stand apart, since the proof doesn't follow a slice in a struct round a loop.
    let mut here = first;
    let mut rest = all;
    let mut passed = 0;
    for dash in dashes {
        let start = Cursor { here, rest, passed };
        let cursor = seek(first, all, start, dash.from);
        here = cursor.here;
        rest = cursor.rest;
        passed = cursor.passed;
        push_dash(alloc, shapes, pen, here, rest, dash.later_by(passed))?;
    }
    Ok(())
}

/// Adds what a dash paints on a chain of segments, the first of which reaches its start.
#[tactic(auto, using(crate::proofs::PlaceLemmas::place_here))]
fn push_dash(
    alloc: Global,
    shapes: &mut Shapes,
    pen: &Pen,
    first: LineSegment,
    rest: &[LineSegment],
    dash: Dash,
) -> Mem<()>
    requires from { dash.from ≤ fine_length_of first }
    requires to { dash.to ≤ total_of (first ∷ rest.now) }
    ensures ok { OnOk result (shapes.new ≡ shapes.old ++ dash_shapes pen.now first rest.now dash) }
{
    if dash.is_dot {
        push_dot_dash(alloc, shapes, pen, first, dash.from)
    } else {
        let points = dash_points(alloc, first, rest, dash.from, dash.to)?;
        let line = Polyline {
            points,
            closed: false,
        };
        push_line(alloc, shapes, pen, &line)
    }
}

/// Adds what a dash of length 0 paints at a distance from a segment's start.
fn push_dot_dash(
    alloc: Global,
    shapes: &mut Shapes,
    pen: &Pen,
    s: LineSegment,
    distance: u128,
) -> Mem<()>
    requires { distance ≤ fine_length_of s }
    ensures ok { OnOk result (shapes.new ≡ shapes.old ++ dot_dash pen.now.cap pen.now.half (place_on s distance)) }
{
    let half = pen.wide_half();
    let point = point_at(s, distance);
    match pen.cap {
        Cap::Butt => Ok(()),
        Cap::Round => shapes.push(disc_at(half, point)),
        Cap::Square => {
            shapes.push(square_end(alloc, point, s.across(half), s.along(half))?)?;
            shapes.push(square_start(alloc, point, s.across(half), s.along(half))?)
        }
    }
}

/// How many more dashes there is room for behind those of a line; `None` exactly where it has more
/// dashes than there is room for.
#[tactic(auto, unfolding(crate::specs::Dash::line_dashes))]
pub(crate) fn room_behind_line(pen: &Pen, line: &Polyline, room: u32) -> Option<u32>
    requires near { IsNearLine line.now }
    requires dashes { is_solid pen.now.dashes ≡ false }
    ensures { LeavesRoom room (length (line_dashes pen.now line.now)) result }
{
    let sizes = sizes_of(line);
    if sizes.count == 0 {
        return Some(room);
    }
    let extent = DashedLine {
        phase: pen_phase(pen),
        total: sizes.total,
    };
    room_behind(extent, pen.dashes.items(), room)
}

/// How many segments a line has, and how long they are together, in 1/65536 of a dot.
#[derive(Clone, Copy)]
struct Sizes {
    count: u128,
    total: u128,
}

fn sizes_of(line: &Polyline) -> Sizes
    requires { IsNearLine line.now }
    ensures count { result.count ≡ length (segments_of line.now) }
    ensures total { result.total ≡ total_of (segments_of line.now) }
    ensures bound { result.total ≤ 2 ^ 107 }
{
    match line.points.items().split_first() {
        None => Sizes { count: 0, total: 0 },
        Some((first, rest)) => sizes_through(*first, rest, line.closed),
    }
}

/// The same of the segments from a point through others, and back to it where they are closed.
#[tactic(auto, using(crate::proofs::PlaceLemmas::total_append))]
fn sizes_through(first: Point, rest: &[Point], closed: bool) -> Sizes
    requires first { IsNear first }
    requires rest { All IsNear rest.now }
    ensures count { result.count ≡ length (between segment_between first (rest.now ++ closing closed first)) }
    ensures total { result.total ≡ total_of (between segment_between first (rest.now ++ closing closed first)) }
    ensures bound { result.total ≤ 2 ^ 107 }
{
    let mut sizes = Sizes { count: 0, total: 0 };
    let mut at = first;
    for point in rest {
        sizes = sizes.and_between(at, *point);
        at = *point;
    }
    if closed {
        sizes = sizes.and_between(at, first);
    }
    sizes
}

impl Sizes {
    /// With the segment from a point to the next one; nothing more where they are the same.
    fn and_between(self, from: Point, to: Point) -> Sizes
        requires from { IsNear from }
        requires to { IsNear to }
        requires count { self.count < 2 ^ 66 }
        requires total { self.total ≤ 2 ^ 107 }
        ensures count { result.count ≡ self.count + length (segment_between from to) }
        ensures total { result.total ≡ self.total + total_of (segment_between from to) }
        ensures few { result.count ≤ self.count + 1 }
        ensures bound { result.total ≤ self.total + 2 ^ 41 }
    {
        match segment_of(from, to) {
            None => self,
            Some(segment) => Sizes {
                count: self.count + 1,
                total: self.total + segment.extent(),
            },
        }
    }
}
