//! Places on a chain of segments, by their distance from its start in 1/65536 of a dot.
ghost use Rattle.std.specs.Prelude.{◌≡◌, ◌≤◌, ◌<◌, ◌^◌, ◌+◌, ◌-◌, ◌*◌, [], ◌∷◌, ◌++◌, ℤ, pos, ◌<ℤ◌, ◌+ℤ◌, ◌*ℤ◌};
ghost use Rattle.std.specs.Prelude.{unsigned_abs, nat_lt, OnOk, IfOk, MatchOption, if◌then◌else◌};
ghost use Rattle.std.specs.List.{All};
ghost use Rattle.press_nums.specs.Rounding.{div_round};
ghost use Rattle.geo_matrix.specs.Affine.{IsNear};
ghost use Rattle.geo_stroke.specs.Segment.{fine_length_of};
ghost use Rattle.geo_stroke.specs.Dash.{place_on, point_at, dash_points, total_of};
ghost use Rattle.geo_stroke.specs.Code.Cursor.{IsCursor, IsAhead};

use crate::segment::LineSegment;
use page_model::Ring;
use press_fault::{Mem, Point};
use press_nums::Wide;
use std::alloc::Global;

/// The length of a chain.
pub(crate) fn total(first: LineSegment, rest: &[LineSegment]) -> u128
    ensures value { result ≡ total_of (first ∷ rest.now) }
    ensures bound { result ≤ 2 ^ 107 }
{
    let mut total = first.extent();
    for segment in rest {
        total += segment.extent();
    }
    total
}

/// The point at a distance from a segment's start.
pub(crate) fn point_at(s: LineSegment, distance: u128) -> Point
    requires { distance ≤ fine_length_of s }
    ensures value { result ≡ point_at (place_on s distance) }
    ensures near { IsNear result }
{
    let whole = s.fine_length();
    Point::of_wide(
        coordinate(s.from().wide_x(), s.step_x(), distance, whole),
        coordinate(s.from().wide_y(), s.step_y(), distance, whole),
    )
}

/// One coordinate of that point.
fn coordinate(from: Wide, step: Wide, distance: u128, whole: Wide) -> Wide
    requires from { unsigned_abs from < 2 ^ 31 }
    requires to { unsigned_abs (from +ℤ step) < 2 ^ 31 }
    requires some { pos 0 <ℤ whole }
    requires whole { unsigned_abs whole ≤ 2 ^ 41 }
    requires within { distance ≤ unsigned_abs whole }
    ensures value { result ≡ from +ℤ div_round (step *ℤ pos distance) whole }
    ensures near { unsigned_abs result < 2 ^ 31 }
{
    from + (step * Wide::of_size(distance)).div_round(whole)
}

/// The next segment and those behind it, where a distance from the start of the first one is beyond
/// its end.
fn following<'a>(
    s: LineSegment,
    rest: &'a [LineSegment],
    distance: u128,
) -> Option<(&'a LineSegment, &'a [LineSegment])>
    requires { distance ≤ total_of (s ∷ rest.now) }
    ensures { MatchOption result (distance ≤ fine_length_of s)
        (λ p. (rest.now ≡ p.0.now ∷ p.1.now) × (fine_length_of s < distance)) }
{
    if distance <= s.extent() {
        None
    } else {
        rest.split_first()
    }
}

/// Where one is on a chain: a segment, those behind it, and the length of those before it.
#[derive(Clone, Copy)]
pub(crate) struct Cursor<'a> {
    pub here: LineSegment,
    pub rest: &'a [LineSegment],
    pub passed: u128,
}

/// Where a distance from a chain's start lies.
fn advance(first: LineSegment, all: &[LineSegment], distance: u128) -> Cursor<'_>
    requires { distance ≤ total_of (first ∷ all.now) }
    ensures cursor { IsCursor first all.now result.here result.rest.now result.passed }
    ensures ahead { IsAhead first all.now result.here result.rest.now result.passed distance }
    ensures reached { distance - result.passed ≤ fine_length_of result.here }
    ensures passed { result.passed ≤ distance }
{
    let mut here = first;
    let mut rest = all;
    let mut passed: u128 = 0;
    while let Some((next, tail)) = following(here, rest, distance - passed) {
        passed += here.extent();
        here = *next;
        rest = tail;
    }
    Cursor { here, rest, passed }
}

/// Where a distance from a chain's start lies. The way goes on from the cursor, and starts over where
/// that isn't before the distance; so a chain is walked once by distances that rise.
pub(crate) fn seek<'a>(
    first: LineSegment,
    all: &'a [LineSegment],
    cursor: Cursor<'a>,
    distance: u128,
) -> Cursor<'a>
    requires cursor { IsCursor first all.now cursor.here cursor.rest.now cursor.passed }
    requires within { distance ≤ total_of (first ∷ all.now) }
    ensures cursor { IsCursor first all.now result.here result.rest.now result.passed }
    ensures ahead { IsAhead first all.now result.here result.rest.now result.passed distance }
    ensures reached { distance - result.passed ≤ fine_length_of result.here }
    ensures passed { result.passed ≤ distance }
{
    if distance <= cursor.passed {
        return advance(first, all, distance);
    }
    let way = advance(cursor.here, cursor.rest, distance - cursor.passed);
    Cursor {
        here: way.here,
        rest: way.rest,
        passed: cursor.passed + way.passed,
    }
}

/// The points of a dash on a chain of segments, the first of which reaches its start.
pub(crate) fn dash_points(
    alloc: Global,
    first: LineSegment,
    rest: &[LineSegment],
    from: u128,
    to: u128,
) -> Mem<Ring>
    requires from { from ≤ fine_length_of first }
    requires to { to ≤ total_of (first ∷ rest.now) }
    ensures value { IfOk result (λ points. points ≡ dash_points first rest.now from to) }
    ensures near { IfOk result (λ points. All IsNear points) }
{
    let mut points = Ring::new(alloc);
    push_near(&mut points, point_at(first, from))?;
    let mut here = first;
    let mut behind = rest;
    let mut start = from;
    let mut end = to;
    while let Some((next, tail)) = following(here, behind, end) {
        let length = here.extent();
        push_corner(&mut points, here, start, length)?;
        start = start.saturating_sub(length);
        end -= length;
        here = *next;
        behind = tail;
    }
    push_near(&mut points, point_at(here, end))?;
    Ok(points)
}

/// Adds the end of a segment of this length where a dash begins before it.
fn push_corner(points: &mut Ring, s: LineSegment, start: u128, length: u128) -> Mem<()>
    requires { All IsNear points.old }
    ensures ok { OnOk result (points.new ≡ points.old ++ (if nat_lt start length then s.to ∷ [] else [])) }
    ensures near { OnOk result (All IsNear points.new) }
{
    if start < length {
        push_near(points, s.to())?;
    }
    Ok(())
}

/// Adds a point of a line.
fn push_near(points: &mut Ring, point: Point) -> Mem<()>
    requires points { All IsNear points.old }
    requires point { IsNear point }
    ensures ok { OnOk result (points.new ≡ points.old ++ point ∷ []) }
    ensures near { OnOk result (All IsNear points.new) }
{
    points.push(point)?;
    Ok(())
}
