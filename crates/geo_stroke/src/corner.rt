//! Joins at the corners of lines.
ghost use Rattle.std.specs.Prelude.{◌≡◌, ◌≤◌, ◌<◌, ◌^◌, ◌*◌, ◌++◌, true, false, ℤ, pos, ◌≤ℤ◌, ◌<ℤ◌, ◌+ℤ◌, ◌-ℤ◌, ◌*ℤ◌};
ghost use Rattle.std.specs.Prelude.{unsigned_abs, OnOk, IfOk, MatchOption};
ghost use Rattle.geo_matrix.specs.Affine.{IsNear};
ghost use Rattle.press_nums.specs.Rounding.{div_round};
ghost use Rattle.geo_stroke.specs.Segment.{IsHalf, IsThin, IsFar, step_x, step_y, length_of, across};
ghost use Rattle.geo_stroke.specs.Corner.{cross_of, scalar_of, outward, bevel, limit_of, is_within, spread_of, meet_of};
ghost use Rattle.geo_stroke.specs.Corner.{meeting_of, meeting, is_short, has_miter, miter, join_shapes};

use crate::pen::{Join, Pen};
use crate::segment::{LineSegment, Vector, plus};
use crate::shapes::{disc_at, polygon};
use page_model::{Shape, Shapes};
use press_fault::Mem;
use press_nums::Wide;
use std::alloc::Global;

/// Adds what the pen's join paints where segment `a` ends and segment `b` begins.
pub(crate) fn push_join(
    alloc: Global,
    shapes: &mut Shapes,
    pen: &Pen,
    a: LineSegment,
    b: LineSegment,
) -> Mem<()>
    ensures ok { OnOk result (shapes.new ≡ shapes.old ++ join_shapes pen.now a b) }
{
    let half = pen.wide_half();
    match pen.join {
        Join::Round => shapes.push(disc_at(half, a.to())),
        Join::Bevel => {
            if cross(a, b).is_zero() {
                Ok(())
            } else {
                shapes.push(bevel(alloc, half, a, b)?)
            }
        }
        Join::Miter => {
            if cross(a, b).is_zero() {
                Ok(())
            } else {
                match miter_tip(pen, a, b) {
                    Some(tip) => shapes.push(miter(alloc, half, a, b, tip)?),
                    None => shapes.push(bevel(alloc, half, a, b)?),
                }
            }
        }
    }
}

/// The cross product of two segments: above 0 where the line turns clockwise on the page.
fn cross(a: LineSegment, b: LineSegment) -> Wide
    ensures value { result ≡ cross_of a b }
    ensures bound { unsigned_abs result ≤ 2 ^ 65 }
{
    product(a.step_x(), b.step_y()) - product(a.step_y(), b.step_x())
}

/// The scalar product of two segments.
fn scalar(a: LineSegment, b: LineSegment) -> Wide
    ensures value { result ≡ scalar_of a b }
    ensures bound { unsigned_abs result ≤ 2 ^ 65 }
{
    product(a.step_x(), b.step_x()) + product(a.step_y(), b.step_y())
}

fn product(p: Wide, q: Wide) -> Wide
    requires p { unsigned_abs p < 2 ^ 32 }
    requires q { unsigned_abs q < 2 ^ 32 }
    ensures value { result ≡ p *ℤ q }
    ensures bound { unsigned_abs result ≤ 2 ^ 64 }
{
    p * q
}

/// A vector across a segment, to the outer side of the corner.
fn outward(a: LineSegment, b: LineSegment, v: Vector) -> Vector
    requires { IsFar v }
    ensures value { result ≡ outward a b v }
    ensures far { IsFar result }
{
    if Wide::ZERO.is_below(cross(a, b)) {
        v.turned()
    } else {
        v
    }
}

/// The triangle of the corner and the ends of the outer sides.
fn bevel(alloc: Global, half: Wide, a: LineSegment, b: LineSegment) -> Mem<Shape>
    requires { IsHalf half }
    ensures { IfOk result (λ shape. shape ≡ bevel half a b) }
{
    let corner = a.to();
    let first = plus(corner, outward(a, b, a.across(half)));
    let second = plus(corner, outward(a, b, b.across(half)));
    polygon(alloc, &[corner, first, second])
}

/// The corner, the ends of the outer sides and, between them, where they meet.
fn miter(alloc: Global, half: Wide, a: LineSegment, b: LineSegment, tip: Vector) -> Mem<Shape>
    requires half { IsHalf half }
    requires far { IsFar tip }
    requires tip { tip ≡ meeting half a b }
    ensures { IfOk result (λ shape. shape ≡ miter half a b) }
{
    let corner = a.to();
    let first = plus(corner, outward(a, b, a.across(half)));
    let end = plus(corner, outward(a, b, tip));
    let second = plus(corner, outward(a, b, b.across(half)));
    polygon(alloc, &[corner, first, end, second])
}

/// The way from the corner to the tip of its miter; `None` exactly where it has a bevel.
fn miter_tip(pen: &Pen, a: LineSegment, b: LineSegment) -> Option<Vector>
    ensures { MatchOption result (has_miter pen.now a b ≡ false)
        (λ tip. (has_miter pen.now a b ≡ true) × (tip ≡ meeting pen.now.half a b) × IsFar tip) }
{
    let half = pen.wide_half();
    if !is_within(limit(pen), a, b) {
        return None;
    }
    let n = a.across(half);
    let o = b.across(half);
    if !Wide::ZERO.is_below(spread(half, n, o)) {
        return None;
    }
    let tip = meeting(half, n, o);
    if is_short(half, tip) { Some(tip) } else { None }
}

/// The miter limit's raw value, at most 1024.
fn limit(pen: &Pen) -> Wide
    ensures value { result ≡ limit_of pen.now.miter }
    ensures bound { unsigned_abs result ≤ 2 ^ 26 }
{
    let most = Wide::of(67108864);
    let limit = pen.wide_miter();
    if limit.is_at_most(most) { limit } else { most }
}

/// Whether a miter is within the limit `m`.
fn is_within(m: Wide, a: LineSegment, b: LineSegment) -> bool
    requires { unsigned_abs m ≤ 2 ^ 26 }
    ensures { result ≡ is_within m a b }
{
    let lengths = length_product(a.length(), b.length());
    doubled(lengths).is_at_most(limited(m, lengths + scalar(a, b)))
}

fn length_product(p: Wide, q: Wide) -> Wide
    requires p { unsigned_abs p ≤ 2 ^ 33 }
    requires q { unsigned_abs q ≤ 2 ^ 33 }
    ensures value { result ≡ p *ℤ q }
    ensures bound { unsigned_abs result ≤ 2 ^ 66 }
{
    p * q
}

/// Twice the product of two lengths, beside a squared raw value.
fn doubled(lengths: Wide) -> Wide
    requires { unsigned_abs lengths ≤ 2 ^ 66 }
    ensures { result ≡ pos 8589934592 *ℤ lengths }
{
    Wide::of(8589934592) * lengths
}

/// A squared miter limit times a sum of products.
fn limited(m: Wide, sum: Wide) -> Wide
    requires m { unsigned_abs m ≤ 2 ^ 26 }
    requires sum { unsigned_abs sum ≤ 2 ^ 67 }
    ensures { result ≡ m *ℤ m *ℤ sum }
{
    squared_limit(m) * sum
}

fn squared_limit(m: Wide) -> Wide
    requires { unsigned_abs m ≤ 2 ^ 26 }
    ensures value { result ≡ m *ℤ m }
    ensures bound { unsigned_abs result ≤ 2 ^ 52 }
{
    m * m
}

/// Half a width squared, and the scalar product of two vectors across.
fn spread(half: Wide, n: Vector, o: Vector) -> Wide
    requires half { IsHalf half }
    requires n { IsThin n }
    requires o { IsThin o }
    ensures value { result ≡ spread_of half n o }
    ensures bound { unsigned_abs result ≤ 2 ^ 62 }
{
    thin_product(half, half) + (thin_product(n.x, o.x) + thin_product(n.y, o.y))
}

fn thin_product(p: Wide, q: Wide) -> Wide
    requires p { unsigned_abs p ≤ 2 ^ 30 }
    requires q { unsigned_abs q ≤ 2 ^ 30 }
    ensures value { result ≡ p *ℤ q }
    ensures bound { unsigned_abs result ≤ 2 ^ 60 }
{
    p * q
}

/// The way from the corner to where the outer sides meet.
fn meeting(half: Wide, n: Vector, o: Vector) -> Vector
    requires half { IsHalf half }
    requires n { IsThin n }
    requires o { IsThin o }
    requires front { pos 0 <ℤ spread_of half n o }
    ensures { result ≡ meeting_of half n o }
{
    let spread = spread(half, n, o);
    Vector {
        x: meet(half, n.x + o.x, spread),
        y: meet(half, n.y + o.y, spread),
    }
}

/// One coordinate of that way.
fn meet(half: Wide, sum: Wide, spread: Wide) -> Wide
    requires half { IsHalf half }
    requires sum { unsigned_abs sum ≤ 2 ^ 31 }
    requires front { pos 0 <ℤ spread }
    requires spread { unsigned_abs spread ≤ 2 ^ 62 }
    ensures { result ≡ meet_of half sum spread }
{
    scaled(sum, thin_product(half, half)).div_round(spread)
}

fn scaled(sum: Wide, square: Wide) -> Wide
    requires sum { unsigned_abs sum ≤ 2 ^ 31 }
    requires square { unsigned_abs square ≤ 2 ^ 60 }
    ensures value { result ≡ sum *ℤ square }
    ensures bound { unsigned_abs result ≤ 2 ^ 91 }
{
    sum * square
}

/// Whether a vector is at most 2048 times half a width long along each axis.
fn is_short(half: Wide, v: Vector) -> bool
    requires { IsHalf half }
    ensures { result ≡ is_short (2048 * unsigned_abs half) v }
{
    let most = 2048 * half.size();
    v.x.size() <= most && v.y.size() <= most
}
