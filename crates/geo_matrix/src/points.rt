//! Points of user space and of device space.
ghost use Rattle.std.specs.Prelude.{◌≡◌, ◌≤◌, ◌<◌, ◌^◌, ℤ, pos, unsigned_abs, ◌+ℤ◌, ◌-ℤ◌, ◌*ℤ◌, nat_lt, IfOk};
ghost use Rattle.std.specs.Result.{result_ok};
ghost use Rattle.press_nums.specs.Rounding.{div_round, div_round_signed};
ghost use Rattle.press_fault.specs.Plane.{PointValue};
ghost use Rattle.geo_matrix.specs.Affine.{IsNear, near_spot, dots_of, step_dots_of};
ghost use Rattle.geo_matrix.specs.Places.{place_of, device_of, user_of, back_of};

use crate::matrix::{Matrix, shifted, sum_of, wide_det};
use press_fault::{LimitCheck, Point, UndefinedResult};
use press_nums::{Fix, Wide, fix_from};
use std::marker::Model;

/// A point whose coordinates are real numbers: in units of user space, or in dots of the page.
#[derive(Clone, Copy, Debug, PartialEq, Eq)]
pub struct RealPoint {
    pub x: Fix,
    pub y: Fix,
}

impl Model for RealPoint {
    ghost use Rattle.geo_matrix.specs.Places.{RealPointValue};

    ghost Value = { RealPointValue };

    ghost view = { λ p. record { x = p.x; y = p.y } };

    ghost inverse = { λ p. record { x = p.x; y = p.y } };
}

/// Where the matrix puts a user point, in sub-dots: refused exactly where a coordinate has
/// magnitude 2^31 or more.
pub fn to_dots(m: &Matrix, x: Fix, y: Fix) -> Result<Point, LimitCheck>
    ensures value { result_ok result ≡ dots_of m.now x y }
    ensures near { IfOk result (λ p. IsNear p) }
{
    near_point(
        sum_of(m.a, x, m.c, y, shifted(m.tx)).div_round(Wide::of(16777216)),
        sum_of(m.b, x, m.d, y, shifted(m.ty)).div_round(Wide::of(16777216)),
    )
}

/// What a relative step adds to a point, in sub-dots: the same without the translation, and
/// refused exactly where a coordinate of the step has magnitude 2^31 or more.
pub fn by_dots(m: &Matrix, dx: Fix, dy: Fix) -> Result<Point, LimitCheck>
    ensures value { result_ok result ≡ step_dots_of m.now dx dy }
    ensures near { IfOk result (λ p. IsNear p) }
{
    near_point(
        sum_of(m.a, dx, m.c, dy, Wide::ZERO).div_round(Wide::of(16777216)),
        sum_of(m.b, dx, m.d, dy, Wide::ZERO).div_round(Wide::of(16777216)),
    )
}

/// Where the matrix puts a user point, in dots as real numbers; refused exactly out of range.
pub fn device_of(m: &Matrix, x: Fix, y: Fix) -> Result<RealPoint, UndefinedResult>
    ensures { result_ok result ≡ device_of m.now x y }
{
    real_point(
        sum_of(m.a, x, m.c, y, shifted(m.tx)).div_round(Wide::of(65536)),
        sum_of(m.b, x, m.d, y, shifted(m.ty)).div_round(Wide::of(65536)),
    )
}

/// The user point that the matrix puts at (x, y), both real numbers of device space.
///
/// Refused exactly for a zero determinant or out of range.
pub fn user_of(m: &Matrix, x: Fix, y: Fix) -> Result<RealPoint, UndefinedResult>
    ensures { result_ok result ≡ user_of m.now x y }
{
    inverse(m, x.wide(), y.wide())
}

/// The user point of a point of the page, which is in sub-dots; refused exactly for a zero
/// determinant or out of range.
pub fn back(m: &Matrix, p: Point) -> Result<RealPoint, UndefinedResult>
    ensures { result_ok result ≡ back_of m.now p }
{
    inverse(m, p.wide_x().times(256), p.wide_y().times(256))
}

/// The user point of a device point, given in raw counts.
fn inverse(m: &Matrix, x: Wide, y: Wide) -> Result<RealPoint, UndefinedResult>
    requires x { unsigned_abs x < 2 ^ 52 }
    requires y { unsigned_abs y < 2 ^ 52 }
    ensures { result_ok result ≡ user_of m.now x y }
{
    let det = wide_det(m);
    if det.is_zero() {
        return Err(UndefinedResult);
    }
    let across = x - m.tx.wide();
    let down = y - m.ty.wide();
    real_point(
        quotient(m.d, across, m.c, down, det),
        quotient(m.a, down, m.b, across, det),
    )
}

/// (p q - r s) / det, rounded once, as a raw value.
fn quotient(p: Fix, q: Wide, r: Fix, s: Wide, det: Wide) -> Wide
    requires q { unsigned_abs q ≤ 2 ^ 53 }
    requires s { unsigned_abs s ≤ 2 ^ 53 }
    requires some { 0 < unsigned_abs det }
    requires det { unsigned_abs det ≤ 2 ^ 95 }
    ensures { result ≡ div_round_signed ((p *ℤ q -ℤ r *ℤ s) *ℤ pos 65536) det }
{
    (product(p, q) - product(r, s))
        .times(65536)
        .div_round_signed(det)
}

fn product(p: Fix, q: Wide) -> Wide
    requires { unsigned_abs q ≤ 2 ^ 53 }
    ensures value { result ≡ p *ℤ q }
    ensures bound { unsigned_abs result ≤ 2 ^ 100 }
{
    p.wide() * q
}

/// The point of two raw values, where both are real numbers.
fn real_point(x: Wide, y: Wide) -> Result<RealPoint, UndefinedResult>
    ensures { result_ok result ≡ place_of x y }
{
    let Some(x) = fix_from(x) else {
        return Err(UndefinedResult);
    };
    let Some(y) = fix_from(y) else {
        return Err(UndefinedResult);
    };
    Ok(RealPoint { x, y })
}

/// The point of two counts of sub-dots, where a path may have it.
fn near_point(x: Wide, y: Wide) -> Result<Point, LimitCheck>
    ensures value { result_ok result ≡ near_spot (record { x = x; y = y }) }
    ensures near { IfOk result (λ p. IsNear p) }
{
    if is_near_wide(x) && is_near_wide(y) {
        Ok(Point::of_wide(x, y))
    } else {
        Err(LimitCheck)
    }
}

fn is_near_wide(x: Wide) -> bool
    ensures { result ≡ nat_lt (unsigned_abs x) (2 ^ 31) }
{
    x.size() < 0x8000_0000
}
