//! The outline of one line.
ghost use Rattle.std.specs.Prelude.{◌≡◌, ◌≤◌, ◌<◌, ◌^◌, ◌*◌, [], ◌∷◌, ◌++◌, true, false, map, OnOk, OnErr, IfOk};
ghost use Rattle.std.specs.List.{All};
ghost use Rattle.geo_matrix.specs.Affine.{IsNear};
ghost use Rattle.geo_path.specs.Flat.{IsNearLine};
ghost use Rattle.geo_stroke.specs.Segment.{IsHalf, between, closing, segment_between, segments_of, last_of};
ghost use Rattle.geo_stroke.specs.Corner.{join_shapes};
ghost use Rattle.geo_stroke.specs.Outline.{body, end_cap, start_cap, caps, dot_by, dot, shapes_by, line_shapes};

use crate::corner::push_join;
use crate::pen::{Cap, Pen};
use crate::segment::{LineSegment, minus, plus, segment_of};
use crate::shapes::{disc_at, polygon, square_end, square_start};
use geo_path::Polyline;
use page_model::Shapes;
use press_fault::{Mem, Point};
use std::alloc::Global;
use std::marker::Model;

/// The segments of a line, in order.
#[derive(Drop)]
pub(crate) struct LineSegments {
    segments: Vec<LineSegment>,
}

impl Model for LineSegments {
    ghost use Rattle.std.specs.Prelude.{List};
    ghost use Rattle.geo_stroke.specs.Segment.{LineSegmentValue};

    ghost Value = { List LineSegmentValue };

    ghost view = { λ s. s.segments.items };
}

impl LineSegments {
    /// The segments of a line, in order.
    pub(crate) fn of_line(alloc: Global, line: &Polyline) -> Mem<LineSegments>
        requires { IsNearLine line.now }
        ensures { IfOk result (λ segments. segments ≡ segments_of line.now) }
    {
        let mut segments = LineSegments {
            segments: Vec::new(alloc),
        };
        if let Some((first, rest)) = line.points.items().split_first() {
            segments.push_chain(*first, rest, line.closed)?;
        }
        Ok(segments)
    }

    /// Adds the segments from a point through others, and back to it where they are closed.
    fn push_chain(&mut self, first: Point, rest: &[Point], closed: bool) -> Mem<()>
        requires first { IsNear first }
        requires rest { All IsNear rest.now }
        ensures ok { OnOk result (self.new ≡ self.old
            ++ between segment_between first (rest.now ++ closing closed first)) }
    {
        let mut at = first;
        for point in rest {
            self.push_between(at, *point)?;
            at = *point;
        }
        if closed {
            self.push_between(at, first)?;
        }
        Ok(())
    }

    /// Adds the segment from a point to the next one; nothing where they are the same.
    fn push_between(&mut self, from: Point, to: Point) -> Mem<()>
        requires from { IsNear from }
        requires to { IsNear to }
        ensures ok { OnOk result (self.new ≡ self.old ++ segment_between from to) }
    {
        if let Some(segment) = segment_of(from, to) {
            self.segments.push(segment)?;
        }
        Ok(())
    }

    /// All of them.
    pub(crate) fn items(&self) -> &[LineSegment]
        ensures { result.now ≡ self.now }
    {
        &self.segments
    }
}

/// Adds the shapes of a line under a solid pen.
#[tactic(auto, unfolding(crate::specs::Outline::line_shapes))]
pub(crate) fn push_line(alloc: Global, shapes: &mut Shapes, pen: &Pen, line: &Polyline) -> Mem<()>
    requires { IsNearLine line.now }
    ensures ok { OnOk result (shapes.new ≡ shapes.old ++ line_shapes pen.now line.now) }
{
    let segments = LineSegments::of_line(alloc, line)?;
    match segments.items().split_first() {
        None => push_dot(shapes, pen, line),
        Some((first, rest)) => {
            push_body(alloc, shapes, pen, *first)?;
            push_bodies(alloc, shapes, pen, rest)?;
            push_joins(alloc, shapes, pen, line.closed, *first, rest)?;
            push_caps(alloc, shapes, pen, line.closed, *first, rest)
        }
    }
}

/// Adds what a line paints whose points are all the same.
pub(crate) fn push_dot(shapes: &mut Shapes, pen: &Pen, line: &Polyline) -> Mem<()>
    requires { IsNearLine line.now }
    ensures ok { OnOk result (shapes.new ≡ shapes.old ++ dot pen.now line.now.points line.now.closed) }
{
    let points = line.points.items();
    if line.closed || points.len() > 1 {
        if let Some(point) = points.first() {
            if pen.cap == Cap::Round {
                shapes.push(disc_at(pen.wide_half(), *point))?;
            }
        }
    }
    Ok(())
}

/// Adds the bodies of segments.
fn push_bodies(alloc: Global, shapes: &mut Shapes, pen: &Pen, segments: &[LineSegment]) -> Mem<()>
    ensures ok { OnOk result (shapes.new ≡ shapes.old ++ map (body pen.now.half) segments.now) }
{
    for segment in segments {
        push_body(alloc, shapes, pen, *segment)?;
    }
    Ok(())
}

/// Adds a segment as wide as the line.
fn push_body(alloc: Global, shapes: &mut Shapes, pen: &Pen, s: LineSegment) -> Mem<()>
    ensures ok { OnOk result (shapes.new ≡ shapes.old ++ body pen.now.half s ∷ []) }
{
    let n = s.across(pen.wide_half());
    let shape = polygon(
        alloc,
        &[
            plus(s.from(), n),
            plus(s.to(), n),
            minus(s.to(), n),
            minus(s.from(), n),
        ],
    )?;
    shapes.push(shape)
}

/// Adds the joins between a line's segments, and of a closed one also where it comes back.
fn push_joins(
    alloc: Global,
    shapes: &mut Shapes,
    pen: &Pen,
    closed: bool,
    first: LineSegment,
    rest: &[LineSegment],
) -> Mem<()>
    ensures ok { OnOk result (shapes.new ≡ shapes.old
        ++ between (join_shapes pen.now) first (rest.now ++ closing closed first)) }
{
    let mut at = first;
    for segment in rest {
        push_join(alloc, shapes, pen, at, *segment)?;
        at = *segment;
    }
    if closed {
        push_join(alloc, shapes, pen, at, first)?;
    }
    Ok(())
}

/// Adds the caps of an open line.
fn push_caps(
    alloc: Global,
    shapes: &mut Shapes,
    pen: &Pen,
    closed: bool,
    first: LineSegment,
    rest: &[LineSegment],
) -> Mem<()>
    ensures ok { OnOk result (shapes.new ≡ shapes.old ++ caps pen.now closed first rest.now) }
{
    if closed {
        return Ok(());
    }
    push_end_cap(alloc, shapes, pen, last(first, rest))?;
    push_start_cap(alloc, shapes, pen, first)
}

/// The last of a line's segments.
fn last(first: LineSegment, rest: &[LineSegment]) -> LineSegment
    ensures { result ≡ last_of first rest.now }
{
    let mut at = first;
    for segment in rest {
        at = *segment;
    }
    at
}

/// Adds what a cap paints where a line ends with a segment.
fn push_end_cap(alloc: Global, shapes: &mut Shapes, pen: &Pen, s: LineSegment) -> Mem<()>
    ensures ok { OnOk result (shapes.new ≡ shapes.old ++ end_cap pen.now.cap pen.now.half s) }
{
    let half = pen.wide_half();
    match pen.cap {
        Cap::Butt => Ok(()),
        Cap::Round => shapes.push(disc_at(half, s.to())),
        Cap::Square => { shapes.push(square_end(alloc, s.to(), s.across(half), s.along(half))?) },
    }
}

/// Adds what a cap paints where a line starts with a segment.
fn push_start_cap(alloc: Global, shapes: &mut Shapes, pen: &Pen, s: LineSegment) -> Mem<()>
    ensures ok { OnOk result (shapes.new ≡ shapes.old ++ start_cap pen.now.cap pen.now.half s) }
{
    let half = pen.wide_half();
    match pen.cap {
        Cap::Butt => Ok(()),
        Cap::Round => shapes.push(disc_at(half, s.from())),
        Cap::Square => {
            shapes.push(square_start(alloc, s.from(), s.across(half), s.along(half))?)
        },
    }
}
