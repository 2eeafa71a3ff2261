//! The points that operators take from the operands.
ghost use Rattle.std.specs.Prelude.{◌≡◌, ◌≤◌, OnOk, length};
ghost use Rattle.ps_store.specs.Numbers.{raw_of};
ghost use Rattle.ps_gfx_ops.specs.Points.{one_number, one_point, point_or_type, three_points};

use geo_matrix::RealPoint;
use press_fault::PsName;
use press_nums::Fix;
use ps_store::{Obj, Stack, number};
use std::marker::Model;

/// Three points of user space.
#[derive(Clone, Copy, Debug, PartialEq, Eq)]
pub(crate) struct ThreePoints {
    pub first: RealPoint,
    pub second: RealPoint,
    pub third: RealPoint,
}

impl Model for ThreePoints {
    ghost use Rattle.ps_gfx_ops.specs.Points.{ThreePointsValue};

    ghost Value = { ThreePointsValue };

    ghost view = { λ p. record { first = p.first; second = p.second; third = p.third } };

    ghost inverse = { λ p. record { first = p.first; second = p.second; third = p.third } };
}

/// The number that the top operand is.
pub(crate) fn one_number(stack: &Stack) -> Result<Fix, PsName>
    ensures value { result ≡ one_number stack.now }
    ensures enough { OnOk result (1 ≤ length stack.now) }
{
    let Some(n) = stack.top() else {
        return Err(PsName::StackUnderflow);
    };
    match number(n) {
        Some(n) => Ok(n),
        None => Err(PsName::TypeCheck),
    }
}

/// The point that the top two operands are.
pub(crate) fn one_point(stack: &Stack) -> Result<RealPoint, PsName>
    ensures value { result ≡ one_point stack.now }
    ensures enough { OnOk result (2 ≤ length stack.now) }
{
    match stack.top_two() {
        Some((y, x)) => point_of(x, y),
        None => Err(PsName::StackUnderflow),
    }
}

/// The three points that the top six operands are.
pub(crate) fn three_points(stack: &Stack) -> Result<ThreePoints, PsName>
    ensures value { result ≡ three_points stack.now }
    ensures enough { OnOk result (6 ≤ length stack.now) }
{
    let Some((y3, x3, y2, x2, y1, x1)) = stack.top_six() else {
        return Err(PsName::StackUnderflow);
    };
    let (Ok(first), Ok(second), Ok(third)) = (point_of(x1, y1), point_of(x2, y2), point_of(x3, y3))
    else {
        return Err(PsName::TypeCheck);
    };
    Ok(ThreePoints {
        first,
        second,
        third,
    })
}

/// The point of two objects.
pub(crate) fn point_of(x: &Obj, y: &Obj) -> Result<RealPoint, PsName>
    ensures { result ≡ point_or_type (raw_of x.now) (raw_of y.now) }
{
    match (number(x), number(y)) {
        (Some(x), Some(y)) => Ok(RealPoint { x, y }),
        _ => Err(PsName::TypeCheck),
    }
}
