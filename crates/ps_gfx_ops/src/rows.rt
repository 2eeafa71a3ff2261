//! One call for every graphics operator.
ghost use Rattle.std.specs.Prelude.{◌≡◌, true, Err};
ghost use Rattle.ps_store.specs.Outcome.{TellsRefusal};
ghost use Rattle.ps_gfx_ops.specs.Rows.{gfx_row, row_before_memory, takes_memory};
ghost use Rattle.ps_gfx_ops.specs.Calls.{SceneAnswers};

use crate::colours::{currentgray, set_colour};
use crate::devices::setpagedevice;
use crate::lines::{
    currentlinewidth, setdash, setlinecap, setlinejoin, setlinewidth, setmiterlimit,
};
use crate::matrices::{
    concat, currentmatrix, itransform, matrix, rotate, scale, setmatrix, transform, translate,
};
use crate::paths::{
    arc, clip, closepath, currentpoint, curveto, fill, lineto, moveto, rcurveto, rlineto, rmoveto,
    stroke,
};
use crate::rectangles::{rectclip, rectfill, rectstroke};
use crate::states::{grestoreall, gsave};
use gfx_state::{Gfx, Space};
use page_model::Rule;
use ps_store::{GfxOp, OpFault, Stack, Store};
use std::alloc::Global;

/// Does what a graphics operator does, exactly as its row says. After a refusal operands, store and
/// graphics are as before; after out of memory they are only good to be dropped.
///
/// What the row refuses is told as that, also where there is no memory; but for `stroke` and
/// `rectstroke`, whose outline is made before its dashes and points are counted.
#[tactic(auto, using(crate::proofs::Beside::besides, crate::proofs::Beside::told, crate::proofs::Beside::told_without_memory), unfolding(crate::specs::Rows::gfx_row))]
pub fn run_gfx(
    alloc: Global,
    op: GfxOp,
    stack: &mut Stack,
    store: &mut Store,
    gfx: &mut Gfx,
) -> Result<(), OpFault>
    ensures answers { SceneAnswers (gfx_row op stack.old store.old gfx.old)
        result stack.old store.old gfx.old stack.new store.new gfx.new }
    ensures refused { TellsRefusal (row_before_memory op stack.old store.old gfx.old) result }
    ensures memory { result ≡ Err OpFault.NoMemory → takes_memory op ≡ true }
{
    match op {
        GfxOp::Gsave => gsave(stack, gfx),
        GfxOp::Grestore => {
            gfx.restore();
            Ok(())
        }
        GfxOp::Grestoreall => grestoreall(gfx),
        GfxOp::Initgraphics => {
            gfx.initial();
            Ok(())
        }
        GfxOp::Setlinewidth => setlinewidth(stack, gfx),
        GfxOp::Setmiterlimit => setmiterlimit(stack, gfx),
        GfxOp::Setlinecap => setlinecap(stack, gfx),
        GfxOp::Setlinejoin => setlinejoin(stack, gfx),
        GfxOp::Setdash => setdash(alloc, stack, store, gfx),
        GfxOp::Currentlinewidth => currentlinewidth(stack, gfx),
        GfxOp::Currentgray => currentgray(stack, gfx),
        GfxOp::Setgray => set_colour(Space::Gray, stack, gfx),
        GfxOp::Setrgbcolor => set_colour(Space::Rgb, stack, gfx),
        GfxOp::Setcmykcolor => set_colour(Space::Cmyk, stack, gfx),
        GfxOp::Matrix => matrix(stack, store),
        GfxOp::Currentmatrix => currentmatrix(stack, store, gfx),
        GfxOp::Setmatrix => setmatrix(stack, store, gfx),
        GfxOp::Concat => concat(stack, store, gfx),
        GfxOp::Initmatrix => {
            gfx.initial_matrix();
            Ok(())
        }
        GfxOp::Translate => translate(stack, gfx),
        GfxOp::Scale => scale(stack, gfx),
        GfxOp::Rotate => rotate(stack, gfx),
        GfxOp::Transform => transform(stack, gfx),
        GfxOp::Itransform => itransform(stack, gfx),
        GfxOp::Newpath => {
            gfx.new_path();
            Ok(())
        }
        GfxOp::Closepath => closepath(gfx),
        GfxOp::Initclip => {
            gfx.initial_clip();
            Ok(())
        }
        GfxOp::Moveto => moveto(stack, gfx),
        GfxOp::Lineto => lineto(stack, gfx),
        GfxOp::Rmoveto => rmoveto(stack, gfx),
        GfxOp::Rlineto => rlineto(stack, gfx),
        GfxOp::Curveto => curveto(stack, gfx),
        GfxOp::Rcurveto => rcurveto(stack, gfx),
        GfxOp::Arc => arc(stack, gfx, false),
        GfxOp::Arcn => arc(stack, gfx, true),
        GfxOp::Currentpoint => currentpoint(stack, gfx),
        GfxOp::Fill => fill(stack, gfx, Rule::Nonzero),
        GfxOp::Eofill => fill(stack, gfx, Rule::EvenOdd),
        GfxOp::Stroke => stroke(stack, gfx),
        GfxOp::Clip => clip(stack, gfx, Rule::Nonzero),
        GfxOp::Eoclip => clip(stack, gfx, Rule::EvenOdd),
        GfxOp::Rectfill => rectfill(alloc, stack, gfx),
        GfxOp::Rectstroke => rectstroke(alloc, stack, gfx),
        GfxOp::Rectclip => rectclip(alloc, stack, gfx),
        GfxOp::Erasepage => {
            gfx.erase();
            Ok(())
        }
        GfxOp::Setpagedevice => setpagedevice(stack, store, gfx),
    }
}
