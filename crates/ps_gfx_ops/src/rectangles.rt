//! Rectangles that are filled and stroked, and those that the clip is cut to.
ghost use Rattle.std.specs.Prelude.{◌≡◌, ◌≤◌, [], ◌∷◌, length, Err, IfOk, IfErr, OnOk};
ghost use Rattle.std.specs.List.{All};
ghost use Rattle.geo_matrix.specs.Affine.{IsNear};
ghost use Rattle.ps_store.specs.Outcome.{TellsRefusal};
ghost use Rattle.ps_gfx_ops.specs.Rectangles.{rectangle_of, one_rectangle, path_along, rectfill_row, rectstroke_row};
ghost use Rattle.ps_gfx_ops.specs.Rectangles.{rectstroke_start, rectclip_row};
ghost use Rattle.ps_gfx_ops.specs.Calls.{GraphicsAnswers};

use geo_matrix::{Matrix, to_dots};
use geo_path::{Path, PathFault};
use gfx_state::Gfx;
use page_model::{Ring, Rings, Rule};
use press_fault::{Grow, Mem, NoMemory, Point, PsName};
use press_nums::{Fix, fix_add};
use ps_store::{OpFault, Stack, number};
use std::alloc::Global;

/// The corners of a rectangle in device space.
fn corners(m: &Matrix, x: Fix, y: Fix, w: Fix, h: Fix) -> Result<[Point; 4], PsName>
    ensures value { result ≡ rectangle_of m.now x y w h }
    ensures near { IfOk result (λ points. All IsNear points) }
{
    let Some(right) = fix_add(x, w) else {
        return Err(PsName::UndefinedResult);
    };
    let Some(top) = fix_add(y, h) else {
        return Err(PsName::UndefinedResult);
    };
    let Ok(p) = to_dots(m, x, y) else {
        return Err(PsName::LimitCheck);
    };
    let Ok(q) = to_dots(m, right, y) else {
        return Err(PsName::LimitCheck);
    };
    let Ok(r) = to_dots(m, right, top) else {
        return Err(PsName::LimitCheck);
    };
    let Ok(s) = to_dots(m, x, top) else {
        return Err(PsName::LimitCheck);
    };
    Ok([p, q, r, s])
}

/// The ring of four points.
fn ring_of(alloc: Global, points: &[Point; 4]) -> Mem<Rings>
    ensures { IfOk result (λ rings. rings ≡ points.now ∷ []) }
{
    let mut ring = Ring::with_room(alloc, 4)?;
    let [p, q, r, s] = points;
    ring.push(*p)?;
    ring.push(*q)?;
    ring.push(*r)?;
    ring.push(*s)?;
    let mut rings = Rings::with_room(alloc, 1)?;
    rings.push(ring)?;
    Ok(rings)
}

/// The rectangle that the top four operands are, in device space.
fn one_rectangle(m: &Matrix, stack: &Stack) -> Result<[Point; 4], PsName>
    ensures value { result ≡ one_rectangle m.now stack.now }
    ensures near { IfOk result (λ points. All IsNear points) }
    ensures enough { OnOk result (4 ≤ length stack.now) }
{
    let Some((h, w, y, x)) = stack.top_four() else {
        return Err(PsName::StackUnderflow);
    };
    match (number(x), number(y), number(w), number(h)) {
        (Some(x), Some(y), Some(w), Some(h)) => corners(m, x, y, w, h),
        _ => Err(PsName::TypeCheck),
    }
}

/// The path along four points, one closed subpath.
fn path_along(alloc: Global, points: &[Point; 4]) -> Mem<Path>
    requires near { All IsNear points.now }
    ensures { IfOk result (λ path. path ≡ path_along points.now) }
{
    let mut path = Path::new(alloc);
    let [p, q, r, s] = points;
    or_no_memory(path.move_to(*p))?;
    or_no_memory(path.line_to(*q))?;
    or_no_memory(path.line_to(*r))?;
    or_no_memory(path.line_to(*s))?;
    path.close();
    Ok(path)
}

/// What a call on a path answered that nothing but want of memory can refuse.
fn or_no_memory(answer: Result<(), PathFault>) -> Mem<()>
    requires { IfErr answer (λ fault. fault ≡ PathFault.NoMemory) }
    ensures { OnOk result (answer ≡ Ok tt) }
{
    match answer {
        Ok(()) => Ok(()),
        Err(_) => Err(NoMemory),
    }
}

/// `rectfill`: a mark of a rectangle. The path stays.
pub(crate) fn rectfill(alloc: Global, stack: &mut Stack, gfx: &mut Gfx) -> Result<(), OpFault>
    ensures answers { GraphicsAnswers (rectfill_row stack.old gfx.old)
        result stack.old gfx.old stack.new gfx.new }
    ensures refused { TellsRefusal (rectfill_row stack.old gfx.old) result }
{
    let points = one_rectangle(&gfx.matrix(), stack)?;
    if !gfx.has_room(4) {
        return Err(OpFault::Ps(PsName::LimitCheck));
    }
    let rings = ring_of(alloc, &points)?;
    gfx.mark_rings(Rule::Nonzero, rings)?;
    stack.drop_top(4);
    Ok(())
}

/// `rectstroke`: a mark of a rectangle's outline. The path stays.
pub(crate) fn rectstroke(alloc: Global, stack: &mut Stack, gfx: &mut Gfx) -> Result<(), OpFault>
    ensures answers { GraphicsAnswers (rectstroke_row stack.old gfx.old)
        result stack.old gfx.old stack.new gfx.new }
    ensures refused_at_first { TellsRefusal (rectstroke_start stack.old gfx.old) result }
{
    let points = one_rectangle(&gfx.matrix(), stack)?;
    if !gfx.has_pen() {
        return Err(OpFault::Ps(PsName::LimitCheck));
    }
    let Ok(path) = path_along(alloc, &points) else {
        return Err(OpFault::NoMemory);
    };
    // Told apart by a match, since the proof that the pen is asked first is one for each fault.
    match gfx.mark_stroke_of(&path) {
        Ok(()) => {
            stack.drop_top(4);
            Ok(())
        }
        Err(Grow::LimitCheck) => Err(OpFault::Ps(PsName::LimitCheck)),
        Err(Grow::NoMemory) => Err(OpFault::NoMemory),
    }
}

/// `rectclip`: the clip is cut to a rectangle. The path is empty then.
pub(crate) fn rectclip(alloc: Global, stack: &mut Stack, gfx: &mut Gfx) -> Result<(), OpFault>
    ensures answers { GraphicsAnswers (rectclip_row stack.old gfx.old)
        result stack.old gfx.old stack.new gfx.new }
    ensures refused { TellsRefusal (rectclip_row stack.old gfx.old) result }
{
    let points = one_rectangle(&gfx.matrix(), stack)?;
    if !gfx.has_clip_room() {
        return Err(OpFault::Ps(PsName::LimitCheck));
    }
    let path = path_along(alloc, &points)?;
    gfx.clip_to(Rule::Nonzero, &path)?;
    gfx.new_path();
    stack.drop_top(4);
    Ok(())
}
