//! Segments of lines, and vectors along and across them.
ghost use Rattle.std.specs.Prelude.{◌≡◌, ◌≤◌, ◌<◌, ◌^◌, ◌+◌, ◌*◌, ◌==◌, false, ℤ, pos, neg_ℤ, ◌≤ℤ◌, ◌<ℤ◌, ◌*ℤ◌};
ghost use Rattle.std.specs.Prelude.{unsigned_abs, Some, None, if◌then◌else◌};
ghost use Rattle.press_nums.specs.Rounding.{div_round};
ghost use Rattle.geo_matrix.specs.Affine.{IsNear};
ghost use Rattle.press_nums.specs.Roots.{root};
ghost use Rattle.geo_stroke.specs.Segment.{IsLineSegment, IsHalf, IsThin, IsFar, step_x, step_y, is_point, square_of};
ghost use Rattle.geo_stroke.specs.Segment.{length_of, fine_length_of, HasLength, along, across, plus, minus, turned};

use press_fault::Point;
use press_nums::{Wide, isqrt};
use std::marker::Model;

/// A segment of a line, from a point to another one; both are of a magnitude below 2^31 sub-dots.
///
/// Its length is kept, since a stroke asks for it at each dash, join and cap.
#[derive(Clone, Copy)]
pub(crate) struct LineSegment {
    from: Point,
    to: Point,
    /// In 1/65536 of a dot.
    length: u64,
}

impl Model for LineSegment {
    ghost use Rattle.geo_stroke.specs.Segment.{LineSegmentValue, IsLineSegment, HasLength, fine_length_of};

    ghost Value = { LineSegmentValue };

    ghost view = { λ s. record { from = s.from; to = s.to } };

    ghost invariant = { λ s. IsLineSegment (record { from = s.from; to = s.to }) ×
        HasLength (record { from = s.from; to = s.to }) s.length };

    ghost inverse = { λ v. record { from = v.from; to = v.to; length = fine_length_of v } };

    ghost inverse_ok = { λ s h i. record { from = s.from; to = s.to; length = h.1.value i } };
}

impl LineSegment {
    /// Where it begins.
    pub(crate) fn from(self) -> Point
        ensures value { result ≡ self.from }
        ensures near { IsNear result }
    {
        self.from
    }

    /// Where it ends.
    pub(crate) fn to(self) -> Point
        ensures value { result ≡ self.to }
        ensures near { IsNear result }
    {
        self.to
    }

    /// How far it goes to the right, in sub-dots.
    pub(crate) fn step_x(self) -> Wide
        ensures value { result ≡ step_x self }
        ensures bound { unsigned_abs result < 2 ^ 32 }
    {
        self.to.wide_x() - self.from.wide_x()
    }

    /// How far it goes down, in sub-dots.
    pub(crate) fn step_y(self) -> Wide
        ensures value { result ≡ step_y self }
        ensures bound { unsigned_abs result < 2 ^ 32 }
    {
        self.to.wide_y() - self.from.wide_y()
    }

    /// Its length in sub-dots.
    #[tactic(auto, using(crate::proofs::LengthLemmas::length_by))]
    pub(crate) fn length(self) -> Wide
        ensures value { result ≡ pos (length_of self) }
        ensures bound { unsigned_abs result ≤ 2 ^ 33 }
    {
        Wide::of_size(u128::from(self.length / 256))
    }

    /// Its length in 1/65536 of a dot.
    pub(crate) fn fine_length(self) -> Wide
        ensures value { result ≡ pos (fine_length_of self) }
        ensures some { pos 0 <ℤ result }
        ensures x { 256 * unsigned_abs (step_x self) ≤ unsigned_abs result }
        ensures y { 256 * unsigned_abs (step_y self) ≤ unsigned_abs result }
        ensures bound { unsigned_abs result ≤ 2 ^ 41 }
    {
        Wide::of_size(u128::from(self.length))
    }

    /// Its length in 1/65536 of a dot, as a distance.
    pub(crate) fn extent(self) -> u128
        ensures value { result ≡ fine_length_of self }
        ensures bound { result ≤ 2 ^ 41 }
    {
        self.fine_length().size()
    }

    /// Half a line's width along it.
    pub(crate) fn along(self, half: Wide) -> Vector
        requires { IsHalf half }
        ensures value { result ≡ along half self }
        ensures bound { IsThin result }
    {
        let length = self.fine_length();
        Vector {
            x: share(length, half, self.step_x()),
            y: share(length, half, self.step_y()),
        }
    }

    /// Half a line's width across it.
    pub(crate) fn across(self, half: Wide) -> Vector
        requires { IsHalf half }
        ensures value { result ≡ across half self }
        ensures bound { IsThin result }
    {
        let length = self.fine_length();
        Vector {
            x: share(length, half, self.step_y().negated()),
            y: share(length, half, self.step_x()),
        }
    }
}

fn square(step: Wide) -> u128
    requires { unsigned_abs step < 2 ^ 32 }
    ensures value { result ≡ unsigned_abs step * unsigned_abs step }
    ensures bound { result ≤ 2 ^ 64 }
{
    step.size() * step.size()
}

/// A step by a segment's length, times half a line's width.
fn share(length: Wide, half: Wide, step: Wide) -> Wide
    requires some { pos 0 <ℤ length }
    requires length { unsigned_abs length ≤ 2 ^ 41 }
    requires half { IsHalf half }
    requires step { 256 * unsigned_abs step ≤ unsigned_abs length }
    ensures value { result ≡ div_round (step *ℤ half *ℤ pos 256) length }
    ensures bound { unsigned_abs result ≤ unsigned_abs half }
{
    (step * half).times(256).div_round(length)
}

/// The segment from a point to another one; `None` exactly where they are the same.
pub(crate) fn segment_of(from: Point, to: Point) -> Option<LineSegment>
    requires from { IsNear from }
    requires to { IsNear to }
    ensures { result ≡ (if is_point (record { from = from; to = to }) then None
        else Some (record { from = from; to = to })) }
{
    if (to.wide_x() - from.wide_x()).is_zero() && (to.wide_y() - from.wide_y()).is_zero() {
        None
    } else {
        let length = measured(from, to);
        Some(LineSegment { from, to, length })
    }
}

/// How far apart two points are that differ, in 1/65536 of a dot.
fn measured(from: Point, to: Point) -> u64
    requires from { IsNear from }
    requires to { IsNear to }
    requires differs { is_point (record { from = from; to = to }) ≡ false }
    ensures { HasLength (record { from = from; to = to }) result }
{
    isqrt(square_between(from, to) * 65536)
}

/// The square of how far apart two points are, in sub-dots.
fn square_between(from: Point, to: Point) -> u128
    requires from { IsNear from }
    requires to { IsNear to }
    ensures value { result ≡ square_of (record { from = from; to = to }) }
    ensures bound { result ≤ 2 ^ 65 }
{
    square(to.wide_x() - from.wide_x()) + square(to.wide_y() - from.wide_y())
}

/// A way from one point to another, in sub-dots.
#[derive(Clone, Copy)]
pub(crate) struct Vector {
    pub x: Wide,
    pub y: Wide,
}

impl Model for Vector {
    ghost use Rattle.press_fault.specs.Plane.{PointValue};

    ghost Value = { PointValue };

    ghost view = { λ v. record { x = v.x; y = v.y } };

    ghost inverse = { λ v. record { x = v.x; y = v.y } };
}

impl Vector {
    /// This way and then the other one.
    pub(crate) fn sum(self, other: Vector) -> Vector
        requires first { IsThin self }
        requires second { IsThin other }
        ensures value { result ≡ plus self other }
        ensures far { IsFar result }
    {
        Vector {
            x: self.x + other.x,
            y: self.y + other.y,
        }
    }

    /// This way and then the other one backwards.
    pub(crate) fn difference(self, other: Vector) -> Vector
        requires first { IsThin self }
        requires second { IsThin other }
        ensures value { result ≡ minus self other }
        ensures far { IsFar result }
    {
        Vector {
            x: self.x - other.x,
            y: self.y - other.y,
        }
    }

    /// This way backwards.
    pub(crate) fn turned(self) -> Vector
        requires { IsFar self }
        ensures value { result ≡ turned self }
        ensures far { IsFar result }
    {
        Vector {
            x: self.x.negated(),
            y: self.y.negated(),
        }
    }
}

/// The point that this way leads to.
pub(crate) fn plus(p: Point, v: Vector) -> Point
    requires near { IsNear p }
    requires far { IsFar v }
    ensures { result ≡ plus p v }
{
    Point::of_wide(p.wide_x() + v.x, p.wide_y() + v.y)
}

/// The point from which this way leads here.
pub(crate) fn minus(p: Point, v: Vector) -> Point
    requires near { IsNear p }
    requires far { IsFar v }
    ensures { result ≡ minus p v }
{
    Point::of_wide(p.wide_x() - v.x, p.wide_y() - v.y)
}
