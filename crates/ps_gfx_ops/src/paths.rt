//! Operators on the current path.
ghost use Rattle.std.specs.Prelude.{◌≡◌, ◌≢◌, ◌≤◌, OnOk, Err, IfErr, drop, length};
ghost use Rattle.geo_matrix.specs.Affine.{IsNear};
ghost use Rattle.geo_path.specs.Path.{line_of, curve_of, closed};
ghost use Rattle.gfx_state.specs.Graphics.{with_path};
ghost use Rattle.ps_store.specs.Outcome.{TellsRefusal};
ghost use Rattle.ps_gfx_ops.specs.Paths.{error_of, drawn, stepped, moveto_row, lineto_row, rmoveto_row, rlineto_row};
ghost use Rattle.ps_gfx_ops.specs.Paths.{curveto_row, rcurveto_row, arc_row, currentpoint_row, fill_row, stroke_row};
ghost use Rattle.ps_gfx_ops.specs.Paths.{stroke_start, clip_row};
ghost use Rattle.ps_gfx_ops.specs.Calls.{GraphicsAnswers};

use crate::points::{one_point, three_points};
use geo_matrix::{back, by_dots, to_dots};
use geo_path::PathFault;
use gfx_state::Gfx;
use page_model::Rule;
use press_fault::{Point, PsName};
use ps_store::{Obj, OpFault, Stack, number};

/// What a path's refusal is to an operator.
fn refusal(fault: PathFault) -> OpFault
    ensures named { fault ≢ PathFault.NoMemory → result ≡ OpFault.Ps (error_of fault) }
    ensures memory { fault ≡ PathFault.NoMemory → result ≡ OpFault.NoMemory }
{
    match fault {
        PathFault::NoCurrentPoint => OpFault::Ps(PsName::NoCurrentPoint),
        PathFault::UndefinedResult => OpFault::Ps(PsName::UndefinedResult),
        PathFault::LimitCheck => OpFault::Ps(PsName::LimitCheck),
        PathFault::NoMemory => OpFault::NoMemory,
    }
}

/// A step from a point of a path.
fn stepped(at: Point, step: Point) -> Point
    requires at { IsNear at }
    requires step { IsNear step }
    ensures { result ≡ stepped at step }
{
    Point::of_wide(at.wide_x() + step.wide_x(), at.wide_y() + step.wide_y())
}

/// `moveto`: starts a subpath.
pub(crate) fn moveto(stack: &mut Stack, gfx: &mut Gfx) -> Result<(), OpFault>
    ensures answers { GraphicsAnswers (moveto_row stack.old gfx.old)
        result stack.old gfx.old stack.new gfx.new }
    ensures refused { TellsRefusal (moveto_row stack.old gfx.old) result }
{
    let u = one_point(stack)?;
    let Ok(p) = to_dots(&gfx.matrix(), u.x, u.y) else {
        return Err(OpFault::Ps(PsName::LimitCheck));
    };
    match gfx.move_to(p) {
        Ok(()) => {
            stack.drop_top(2);
            Ok(())
        }
        Err(fault) => Err(refusal(fault)),
    }
}

/// `lineto`: a line from the current point.
pub(crate) fn lineto(stack: &mut Stack, gfx: &mut Gfx) -> Result<(), OpFault>
    ensures answers { GraphicsAnswers (lineto_row stack.old gfx.old)
        result stack.old gfx.old stack.new gfx.new }
    ensures refused { TellsRefusal (lineto_row stack.old gfx.old) result }
{
    let u = one_point(stack)?;
    let Some(_) = gfx.path().current() else {
        return Err(OpFault::Ps(PsName::NoCurrentPoint));
    };
    let Ok(p) = to_dots(&gfx.matrix(), u.x, u.y) else {
        return Err(OpFault::Ps(PsName::LimitCheck));
    };
    draw_line(stack, gfx, p)
}

/// `rmoveto`: starts a subpath a step from the current point.
pub(crate) fn rmoveto(stack: &mut Stack, gfx: &mut Gfx) -> Result<(), OpFault>
    ensures answers { GraphicsAnswers (rmoveto_row stack.old gfx.old)
        result stack.old gfx.old stack.new gfx.new }
    ensures refused { TellsRefusal (rmoveto_row stack.old gfx.old) result }
{
    let u = one_point(stack)?;
    let Some(at) = gfx.path().current() else {
        return Err(OpFault::Ps(PsName::NoCurrentPoint));
    };
    let Ok(step) = by_dots(&gfx.matrix(), u.x, u.y) else {
        return Err(OpFault::Ps(PsName::LimitCheck));
    };
    match gfx.move_to(stepped(at, step)) {
        Ok(()) => {
            stack.drop_top(2);
            Ok(())
        }
        Err(fault) => Err(refusal(fault)),
    }
}

/// `rlineto`: a line of a step from the current point.
pub(crate) fn rlineto(stack: &mut Stack, gfx: &mut Gfx) -> Result<(), OpFault>
    ensures answers { GraphicsAnswers (rlineto_row stack.old gfx.old)
        result stack.old gfx.old stack.new gfx.new }
    ensures refused { TellsRefusal (rlineto_row stack.old gfx.old) result }
{
    let u = one_point(stack)?;
    let Some(at) = gfx.path().current() else {
        return Err(OpFault::Ps(PsName::NoCurrentPoint));
    };
    let Ok(offset) = by_dots(&gfx.matrix(), u.x, u.y) else {
        return Err(OpFault::Ps(PsName::LimitCheck));
    };
    draw_line(stack, gfx, stepped(at, offset))
}

/// Draws a line from the current point, and drops its two operands.
fn draw_line(stack: &mut Stack, gfx: &mut Gfx, p: Point) -> Result<(), OpFault>
    requires { 2 ≤ length stack.old }
    ensures answers { GraphicsAnswers (drawn (line_of gfx.old.state.path p) (drop 2 stack.old) gfx.old)
        result stack.old gfx.old stack.new gfx.new }
    ensures refused { TellsRefusal (drawn (line_of gfx.old.state.path p) (drop 2 stack.old) gfx.old) result }
{
    match gfx.line_to(p) {
        Ok(()) => {
            stack.drop_top(2);
            Ok(())
        }
        Err(fault) => Err(refusal(fault)),
    }
}

/// `curveto`: a curve from the current point.
pub(crate) fn curveto(stack: &mut Stack, gfx: &mut Gfx) -> Result<(), OpFault>
    ensures answers { GraphicsAnswers (curveto_row stack.old gfx.old)
        result stack.old gfx.old stack.new gfx.new }
    ensures refused { TellsRefusal (curveto_row stack.old gfx.old) result }
{
    let u = three_points(stack)?;
    let Some(_) = gfx.path().current() else {
        return Err(OpFault::Ps(PsName::NoCurrentPoint));
    };
    let Ok(p) = to_dots(&gfx.matrix(), u.first.x, u.first.y) else {
        return Err(OpFault::Ps(PsName::LimitCheck));
    };
    let Ok(q) = to_dots(&gfx.matrix(), u.second.x, u.second.y) else {
        return Err(OpFault::Ps(PsName::LimitCheck));
    };
    let Ok(r) = to_dots(&gfx.matrix(), u.third.x, u.third.y) else {
        return Err(OpFault::Ps(PsName::LimitCheck));
    };
    draw_curve(stack, gfx, p, q, r)
}

/// `rcurveto`: a curve whose points are steps from the current point.
pub(crate) fn rcurveto(stack: &mut Stack, gfx: &mut Gfx) -> Result<(), OpFault>
    ensures answers { GraphicsAnswers (rcurveto_row stack.old gfx.old)
        result stack.old gfx.old stack.new gfx.new }
    ensures refused { TellsRefusal (rcurveto_row stack.old gfx.old) result }
{
    let u = three_points(stack)?;
    let Some(at) = gfx.path().current() else {
        return Err(OpFault::Ps(PsName::NoCurrentPoint));
    };
    let Ok(p) = by_dots(&gfx.matrix(), u.first.x, u.first.y) else {
        return Err(OpFault::Ps(PsName::LimitCheck));
    };
    let Ok(q) = by_dots(&gfx.matrix(), u.second.x, u.second.y) else {
        return Err(OpFault::Ps(PsName::LimitCheck));
    };
    let Ok(r) = by_dots(&gfx.matrix(), u.third.x, u.third.y) else {
        return Err(OpFault::Ps(PsName::LimitCheck));
    };
    draw_curve(stack, gfx, stepped(at, p), stepped(at, q), stepped(at, r))
}

/// Draws a curve from the current point, and drops its six operands.
fn draw_curve(stack: &mut Stack, gfx: &mut Gfx, p: Point, q: Point, r: Point) -> Result<(), OpFault>
    requires { 6 ≤ length stack.old }
    ensures answers { GraphicsAnswers (drawn (curve_of gfx.old.state.path p q r) (drop 6 stack.old) gfx.old)
        result stack.old gfx.old stack.new gfx.new }
    ensures refused { TellsRefusal (drawn (curve_of gfx.old.state.path p q r) (drop 6 stack.old) gfx.old) result }
{
    match gfx.curve_to(p, q, r) {
        Ok(()) => {
            stack.drop_top(6);
            Ok(())
        }
        Err(fault) => Err(refusal(fault)),
    }
}

/// `arc`, and `arcn` where it is clockwise: lines along an arc of a circle.
pub(crate) fn arc(stack: &mut Stack, gfx: &mut Gfx, clockwise: bool) -> Result<(), OpFault>
    ensures answers { GraphicsAnswers (arc_row clockwise stack.old gfx.old)
        result stack.old gfx.old stack.new gfx.new }
    ensures refused { TellsRefusal (arc_row clockwise stack.old gfx.old) result }
{
    let Some((to, from, r, y, x)) = stack.top_five() else {
        return Err(OpFault::Ps(PsName::StackUnderflow));
    };
    let (Some(x), Some(y), Some(r), Some(from), Some(to)) = (
        number(x),
        number(y),
        number(r),
        number(from),
        number(to),
    ) else {
        return Err(OpFault::Ps(PsName::TypeCheck));
    };
    match gfx.arc(x, y, r, from, to, clockwise) {
        Ok(()) => {
            stack.drop_top(5);
            Ok(())
        }
        Err(fault) => Err(refusal(fault)),
    }
}

/// `currentpoint`: the current point in user space, as two real numbers.
pub(crate) fn currentpoint(stack: &mut Stack, gfx: &Gfx) -> Result<(), OpFault>
    ensures answers { GraphicsAnswers (currentpoint_row stack.old gfx.now)
        result stack.old gfx.now stack.new gfx.now }
    ensures never { result ≢ Err OpFault.NoMemory }
{
    let Some(at) = gfx.path().current() else {
        return Err(OpFault::Ps(PsName::NoCurrentPoint));
    };
    let Ok(u) = back(&gfx.matrix(), at) else {
        return Err(OpFault::Ps(PsName::UndefinedResult));
    };
    if stack.len() >= 499 {
        return Err(OpFault::Ps(PsName::StackOverflow));
    }
    let _ = stack.push(Obj::Real(u.x));
    let _ = stack.push(Obj::Real(u.y));
    Ok(())
}

/// `closepath`: a line to the subpath's start.
pub(crate) fn closepath(gfx: &mut Gfx) -> Result<(), OpFault>
    ensures ok { OnOk result (gfx.new ≡ with_path gfx.old (closed gfx.old.state.path)) }
    ensures err { IfErr result (λ fault. fault ≡ OpFault.NoMemory) }
{
    gfx.close()?;
    Ok(())
}

/// `fill` and `eofill`: the path is filled by an inside rule, and empty then.
pub(crate) fn fill(stack: &mut Stack, gfx: &mut Gfx, rule: Rule) -> Result<(), OpFault>
    ensures answers { GraphicsAnswers (fill_row rule stack.old gfx.old)
        result stack.old gfx.old stack.new gfx.new }
    ensures refused { TellsRefusal (fill_row rule stack.old gfx.old) result }
{
    gfx.mark_fill(rule)?;
    Ok(())
}

/// `stroke`: the path is stroked by the line parameters, and empty then.
pub(crate) fn stroke(stack: &mut Stack, gfx: &mut Gfx) -> Result<(), OpFault>
    ensures answers { GraphicsAnswers (stroke_row stack.old gfx.old)
        result stack.old gfx.old stack.new gfx.new }
    ensures refused_at_first { TellsRefusal (stroke_start stack.old gfx.old) result }
{
    gfx.mark_stroke()?;
    Ok(())
}

/// `clip` and `eoclip`: the clip is cut to the path by an inside rule. The path stays.
pub(crate) fn clip(stack: &mut Stack, gfx: &mut Gfx, rule: Rule) -> Result<(), OpFault>
    ensures answers { GraphicsAnswers (clip_row rule stack.old gfx.old)
        result stack.old gfx.old stack.new gfx.new }
    ensures refused { TellsRefusal (clip_row rule stack.old gfx.old) result }
{
    gfx.clip(rule)?;
    Ok(())
}
