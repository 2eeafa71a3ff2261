//! The outline of all lines.
ghost use Rattle.std.specs.Prelude.{◌≡◌, ◌≤◌, ◌<◌, ◌+◌, true, false, [], ◌∷◌, ◌++◌, length, nat_le, IfOk, ◌↔◌};
ghost use Rattle.std.specs.List.{flat_map};
ghost use Rattle.geo_stroke.specs.Pen.{is_solid};
ghost use Rattle.geo_stroke.specs.Outline.{line_shapes};
ghost use Rattle.geo_stroke.specs.Dash.{line_dashes, dashed_shapes, dash_count, outline_of};

use crate::dashed::{push_dashed_line, room_behind_line};
use crate::line::push_line;
use crate::pen::Pen;
use geo_path::Polylines;
use page_model::Shapes;
use press_fault::{Grow, Mem};
use std::alloc::Global;

/// How many dashes one stroke may have.
const MAX_STROKE_DASHES: u32 = 65536;

/// The shapes that the pen paints along lines, each by the nonzero winding number rule: line by line,
/// or dash by dash, the bodies of its segments, its joins, its caps.
///
/// `LimitCheck` exactly where the lines have more than 65,536 dashes; it is asked before memory is.
pub fn outline(alloc: Global, lines: &Polylines, pen: &Pen) -> Result<Shapes, Grow>
    ensures ok { IfOk result (λ shapes. shapes ≡ outline_of pen.now lines.now) }
    ensures limit { (result ≡ Err Grow.LimitCheck) ↔ (65536 < dash_count pen.now lines.now) }
{
    if !has_room(lines, pen) {
        return Err(Grow::LimitCheck);
    }
    let shapes = if pen.is_solid() {
        solid_outline(alloc, lines, pen)?
    } else {
        dashed_outline(alloc, lines, pen)?
    };
    Ok(shapes)
}

/// Whether the lines have few enough dashes.
fn has_room(lines: &Polylines, pen: &Pen) -> bool
    ensures { result ≡ nat_le (dash_count pen.now lines.now) 65536 }
{
    if pen.is_solid() {
        return true;
    }
    let mut room = MAX_STROKE_DASHES;
    for line in lines.items() {
        match room_behind_line(pen, line, room) {
            Some(left) => room = left,
            None => return false,
        }
    }
    true
}

/// The shapes of lines under a solid pen.
fn solid_outline(alloc: Global, lines: &Polylines, pen: &Pen) -> Mem<Shapes>
    ensures { IfOk result (λ shapes. shapes ≡ flat_map (line_shapes pen.now) lines.now) }
{
    let mut shapes = Shapes::new(alloc);
    for line in lines.items() {
        push_line(alloc, &mut shapes, pen, line)?;
    }
    Ok(shapes)
}

/// The shapes of lines under a pen with dashes.
fn dashed_outline(alloc: Global, lines: &Polylines, pen: &Pen) -> Mem<Shapes>
    requires { is_solid pen.now.dashes ≡ false }
    ensures { IfOk result (λ shapes. shapes ≡ flat_map (dashed_shapes pen.now) lines.now) }
{
    let mut shapes = Shapes::new(alloc);
    for line in lines.items() {
        push_dashed_line(alloc, &mut shapes, pen, line)?;
    }
    Ok(shapes)
}
