//! Arcs of circles.
ghost use Rattle.std.specs.Prelude.{◌≡◌, ◌≤◌, ◌<◌, ◌≢◌, ◌^◌, ◌+◌, ◌-◌, ℤ, pos, [], ◌∷◌, ◌++◌, map, drop, length};
ghost use Rattle.std.specs.Prelude.{slice_get, unsigned_abs, ◌+ℤ◌, ◌-ℤ◌, ◌*ℤ◌, Some, None, Ok, Err, OnOk, OnErr, IfOk};
ghost use Rattle.std.specs.Prelude.{IfErr};
ghost use Rattle.std.specs.List.{All};
ghost use Rattle.std.specs.Option.{option_and_then};
ghost use Rattle.std.specs.Result.{result_err};
ghost use Rattle.press_nums.specs.Fix.{fix_of, product_of};
ghost use Rattle.geo_matrix.specs.Affine.{IsNear};
ghost use Rattle.geo_matrix.specs.Sine.{sine_of, cosine_of};
ghost use Rattle.geo_path.specs.Arc.{turn_rest, end_angle, first_above, last_below, span, angles_of, multiple_at};
ghost use Rattle.geo_path.specs.Arc.{offset_by, arc_point, then_points};
ghost use Rattle.geo_path.specs.Code.Points.{points_from};

use crate::path::PathFault;
use geo_matrix::{Matrix, cosine, sine, to_dots};
use press_fault::Point;
use press_nums::{Fix, Wide, fix_add, fix_from, fix_mul, fix_small};
use std::alloc::Global;
use std::marker::Model;

/// Whole turns, by raw values.
const TURN: u32 = 23592960;
/// Points of an arc stand at its ends and at the multiples of this angle, 360/256 degrees.
const STEP: u32 = 92160;

/// A circle of user space, and the matrix that puts it on the page.
#[derive(Clone, Copy, Debug, PartialEq, Eq)]
pub(crate) struct Circle {
    pub m: Matrix,
    pub x: Fix,
    pub y: Fix,
    pub r: Fix,
}

impl Circle {
    /// The point at an angle in degrees, or its refusal: real numbers first, then sub-dots.
    fn point(&self, angle: Fix) -> Result<Point, PathFault>
        ensures value { result ≡ arc_point self.now.m self.now.x self.now.y self.now.r angle }
        ensures near { IfOk result (λ p. IsNear p) }
    {
        let Some(x) = offset_by(self.x, self.r, cosine(angle)) else {
            return Err(PathFault::UndefinedResult);
        };
        let Some(y) = offset_by(self.y, self.r, sine(angle)) else {
            return Err(PathFault::UndefinedResult);
        };
        match to_dots(&self.m, x, y) {
            Ok(p) => Ok(p),
            Err(_) => Err(PathFault::LimitCheck),
        }
    }
}

/// The angles of an arc's points, in order: its start, each multiple of the step strictly between,
/// and its end, which lies on the right side of the start.
#[derive(Drop)]
pub(crate) struct Angles {
    from: Fix,
    to: Fix,
    clockwise: bool,
    /// How many multiples of the step stand strictly between.
    between: u64,
}

impl Model for Angles {
    ghost use Rattle.std.specs.Prelude.{List, ℤ};
    ghost use Rattle.geo_path.specs.Arc.{angles_of, HasAngles};

    ghost Value = { List ℤ };

    ghost view = { λ a. angles_of a.clockwise a.from a.to };

    ghost invariant = { λ a. HasAngles a.between a.clockwise a.from a.to };
}

impl Angles {
    /// The angles of an arc: from its start on, each multiple of 90/64 degrees strictly between,
    /// and its end, which is `to`, raised (clockwise: lowered) by whole turns until it isn't short
    /// of the start.
    pub fn new(from: Fix, to: Fix, clockwise: bool) -> Angles
        ensures { result ≡ angles_of clockwise from to }
    {
        let between = if clockwise {
            between(to, from)
        } else {
            between(from, to)
        };
        Angles {
            from,
            to,
            clockwise,
            between,
        }
    }

    /// How many angles there are.
    fn len(&self) -> u64
        ensures { result ≡ length self.now }
    {
        self.between + 2
    }

    /// The angle at a place from 0.
    fn at(&self, i: u64) -> Fix
        requires { i < length self.now }
        ensures { slice_get self.now i ≡ Some result }
    {
        if i == 0 {
            self.from
        } else if i <= self.between {
            fix_small(multiple_at(self.clockwise, self.from, i - 1))
        } else {
            self.to
        }
    }
}

/// The multiple of the step at a place from 0 behind the start.
fn multiple_at(clockwise: bool, from: Fix, i: u64) -> Wide
    requires { i < 2 ^ 49 }
    ensures { result ≡ multiple_at clockwise from i }
{
    let place = Wide::of_size(u128::from(i));
    if clockwise {
        (last_below(from.wide()) - place).times(STEP)
    } else {
        (first_above(from.wide()) + place).times(STEP)
    }
}

/// The end of an arc, raised or lowered by whole turns where it is on the wrong side of the start;
/// `None` exactly where that isn't a real number.
pub(crate) fn end_angle(from: Fix, to: Fix, clockwise: bool) -> Option<Fix>
    ensures { result ≡ fix_of (end_angle clockwise from to) }
{
    let start = from.wide();
    let end = to.wide();
    if clockwise {
        if end.is_at_most(start) {
            Some(to)
        } else {
            fix_from(start - Wide::of(i64::from((start - end).remainder(TURN))))
        }
    } else if start.is_at_most(end) {
        Some(to)
    } else {
        fix_from(start + Wide::of(i64::from((end - start).remainder(TURN))))
    }
}

/// The number of the first multiple of the step above an angle.
fn first_above(angle: Wide) -> Wide
    requires { unsigned_abs angle ≤ 2 ^ 47 }
    ensures value { result ≡ first_above angle }
    ensures bound { unsigned_abs result ≤ 2 ^ 47 }
{
    angle.floor_quotient(Wide::of(i64::from(STEP))) + Wide::of(1)
}

/// The number of the last multiple of the step below an angle.
fn last_below(angle: Wide) -> Wide
    requires { unsigned_abs angle ≤ 2 ^ 47 }
    ensures value { result ≡ last_below angle }
    ensures bound { unsigned_abs result ≤ 2 ^ 47 }
{
    first_above(angle.negated()).negated()
}

/// How many multiples of the step stand strictly between two angles.
fn between(low: Fix, high: Fix) -> u64
    ensures value { result ≡ span (first_above low) (last_below high) }
    ensures bound { result ≤ 2 ^ 48 + 1 }
{
    let first = first_above(low.wide());
    let last = last_below(high.wide());
    if first.is_at_most(last) {
        (last - first).size() as u64 + 1
    } else {
        0
    }
}

/// centre + radius * share, each rounded once.
fn offset_by(centre: Fix, radius: Fix, share: Fix) -> Option<Fix>
    ensures { result ≡ offset_by centre radius share }
{
    let Some(offset) = fix_mul(radius, share) else {
        return None;
    };
    fix_add(centre, offset)
}

/// An arc, and how many points the path has room for.
#[derive(Drop)]
pub(crate) struct Arc {
    pub circle: Circle,
    pub angles: Angles,
    pub room: u32,
}

impl Arc {
    /// The point at a place, where the path has room for it and for those before it.
    fn next(&self, i: u64) -> Result<Point, PathFault>
        requires { i < length self.now.angles }
        ensures step { points_from self.now.circle self.now.angles self.now.room i
            ≡ then_points result (points_from self.now.circle self.now.angles self.now.room (i + 1)) }
        ensures near { IfOk result (λ p. IsNear p) }
    {
        let p = match self.circle.point(self.angles.at(i)) {
            Ok(p) => p,
            Err(fault) => return Err(fault),
        };
        if i >= u64::from(self.room) {
            return Err(PathFault::LimitCheck);
        }
        Ok(p)
    }

    /// The first refusal among the points, if there is one.
    pub fn check(&self) -> Result<(), PathFault>
        ensures { result_err result ≡ result_err (points_from self.now.circle self.now.angles self.now.room 0) }
    {
        for i in 0..self.angles.len() {
            let _ = self.next(i)?;
        }
        Ok(())
    }

    /// The points in order.
    pub fn points(&self, alloc: Global) -> Result<Vec<Point>, PathFault>
        ensures ok { IfOk result (λ points. points_from self.now.circle self.now.angles self.now.room 0
            ≡ Ok points.items) }
        ensures near { IfOk result (λ points. All IsNear points.items) }
        ensures cause { IfErr result (λ fault. fault ≢ PathFault.NoMemory →
            points_from self.now.circle self.now.angles self.now.room 0 ≡ Err fault) }
    {
        let mut points = Vec::new(alloc);
        for i in 0..self.angles.len() {
            let p = self.next(i)?;
            match points.push(p) {
                Ok(()) => {}
                Err(_) => return Err(PathFault::NoMemory),
            }
        }
        Ok(points)
    }
}
