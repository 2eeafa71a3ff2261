//! Strokes of paths.
ghost use Rattle.std.specs.Prelude.{◌≡◌, ◌≢◌, ◌↔◌, Some, None, Err, OnOk, OnErr, IfOk, IsTrue};
ghost use Rattle.gfx_state.specs.Graphics.{stroke_of, stroked, stroked_along};
ghost use Rattle.gfx_state.specs.Stroke.{pen_of};

use crate::gfx::Gfx;
use crate::pen::{has_pen, pen};
use crate::state::State;
use geo_path::Path;
use geo_stroke::outline;
use page_model::Shapes;
use press_fault::Grow;
use std::alloc::Global;

impl Gfx {
    /// Strokes the path and empties it.
    ///
    /// One mark of the shapes of all subpaths, none where there are no shapes. It is refused where
    /// the pen is out of range (`has_pen`), also without a path; with more than 65,536 dashes; and
    /// where the page has no room for the mark. The pen is asked before any memory is taken; dashes
    /// and points are counted as the outline is made, so where there is no memory that is told in
    /// place of their refusal. A refusal leaves all as it was (PostScript Language Reference, third
    /// edition, 8.2 `stroke`).
    pub fn mark_stroke(&mut self) -> Result<(), Grow>
        ensures ok { OnOk result (stroked self.old ≡ Some self.new) }
        ensures limit { result ≡ Err Grow.LimitCheck → stroked self.old ≡ None }
        ensures pen { pen_of self.old.state.matrix self.old.state.line ≡ None → result ≡ Err Grow.LimitCheck }
        ensures err { OnErr result (self.new ≡ self.old) }
    {
        let shapes = stroke(self.alloc, &self.state, self.path())?;
        self.mark_shapes(shapes)?;
        self.new_path();
        Ok(())
    }

    /// Strokes a path, as `mark_stroke` does the current one, which stays. It is refused for the
    /// same reasons, and a refusal leaves all as it was (PostScript Language Reference, third
    /// edition, 8.2 `rectstroke`).
    pub fn mark_stroke_of(&mut self, path: &Path) -> Result<(), Grow>
        ensures ok { OnOk result (stroked_along self.old path.now ≡ Some self.new) }
        ensures limit { result ≡ Err Grow.LimitCheck → stroked_along self.old path.now ≡ None }
        ensures pen { pen_of self.old.state.matrix self.old.state.line ≡ None → result ≡ Err Grow.LimitCheck }
        ensures err { OnErr result (self.new ≡ self.old) }
    {
        let shapes = stroke(self.alloc, &self.state, path)?;
        self.mark_shapes(shapes)?;
        Ok(())
    }

    /// Whether the pen is in range, so that a stroke isn't refused for it: its width is below 2^31
    /// sub-dots, the offset and each dash and gap below 2^62 counts of 1/65536 of a dot. Own rule:
    /// both limits.
    pub fn has_pen(&self) -> bool
        ensures { IsTrue result ↔ (pen_of self.now.state.matrix self.now.state.line ≢ None) }
    {
        has_pen(&self.state.matrix, &self.state.line)
    }
}

/// The shapes of a stroke of a path in a state.
fn stroke(alloc: Global, state: &State, path: &Path) -> Result<Shapes, Grow>
    ensures ok { IfOk result (λ shapes. stroke_of state.now path.now ≡ Some shapes) }
    ensures limit { result ≡ Err Grow.LimitCheck → stroke_of state.now path.now ≡ None }
    ensures pen { pen_of state.now.matrix state.now.line ≡ None → result ≡ Err Grow.LimitCheck }
{
    let pen = pen(alloc, &state.matrix, &state.line)?;
    let lines = path.flatten()?;
    outline(alloc, &lines, &pen)
}
