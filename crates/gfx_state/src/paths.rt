//! The current path. A refusal leaves it as it was.
ghost use Rattle.std.specs.Prelude.{◌≡◌, ◌≢◌, Ok, Err, IfOk, IfErr, OnOk, OnErr};
ghost use Rattle.geo_path.specs.Path.{move_of, line_of, curve_of, closed};
ghost use Rattle.geo_path.specs.Arc.{arc_of};
ghost use Rattle.gfx_state.specs.Graphics.{no_path, with_path, with_answer};

use crate::gfx::Gfx;
use geo_path::{Path, PathFault};
use press_fault::{Mem, NoMemory, Point};
use press_nums::Fix;
use std::mem;
use std::sync::Arc;

impl Gfx {
    /// The current path, in sub-dots.
    pub fn path(&self) -> &Path
        ensures { result.now ≡ self.now.state.path }
    {
        match &self.state.path {
            Some(path) => path,
            None => &self.empty_path,
        }
    }

    /// Empties the path.
    pub fn new_path(&mut self)
        ensures { self.new ≡ with_path self.old no_path }
    {
        self.state.path = None;
    }

    /// Sets the path, and gives the one that was there.
    pub fn swap_path(&mut self, path: Path) -> Mem<Path>
        ensures ok { IfOk result (λ before. before ≡ self.old.state.path) }
        ensures new { OnOk result (self.new ≡ with_path self.old path) }
        ensures err { OnErr result (self.new ≡ self.old) }
    {
        let alloc = self.alloc;
        let mut own = self.state.take_path(alloc)?;
        let before = match Arc::make_mut(&mut own) {
            Ok(own) => Ok(mem::replace(own, path)),
            Err(_) => Err(NoMemory),
        };
        self.state.path = Some(own);
        before
    }

    /// Starts a subpath.
    pub fn move_to(&mut self, p: Point) -> Result<(), PathFault>
        ensures ok { OnOk result (with_answer self.old (move_of self.old.state.path p) ≡ Ok self.new) }
        ensures refused { IfErr (move_of self.old.state.path p) (λ fault. result ≡ Err fault) }
        ensures cause { IfErr result
            (λ fault. fault ≢ PathFault.NoMemory → move_of self.old.state.path p ≡ Err fault) }
        ensures err { OnErr result (self.new ≡ self.old) }
    {
        self.path().check_move(p)?;
        let alloc = self.alloc;
        let mut own = self.state.take_path(alloc)?;
        let answer = match Arc::make_mut(&mut own) {
            Ok(path) => path.move_to(p),
            Err(_) => Err(PathFault::NoMemory),
        };
        self.state.path = Some(own);
        answer
    }

    /// Adds a line from the current point.
    pub fn line_to(&mut self, p: Point) -> Result<(), PathFault>
        ensures ok { OnOk result (with_answer self.old (line_of self.old.state.path p) ≡ Ok self.new) }
        ensures refused { IfErr (line_of self.old.state.path p) (λ fault. result ≡ Err fault) }
        ensures cause { IfErr result
            (λ fault. fault ≢ PathFault.NoMemory → line_of self.old.state.path p ≡ Err fault) }
        ensures err { OnErr result (self.new ≡ self.old) }
    {
        self.path().check_line(p)?;
        let alloc = self.alloc;
        let mut own = self.state.take_path(alloc)?;
        let answer = match Arc::make_mut(&mut own) {
            Ok(path) => path.line_to(p),
            Err(_) => Err(PathFault::NoMemory),
        };
        self.state.path = Some(own);
        answer
    }

    /// Adds a curve from the current point.
    pub fn curve_to(&mut self, p: Point, q: Point, r: Point) -> Result<(), PathFault>
        ensures ok { OnOk result (with_answer self.old (curve_of self.old.state.path p q r) ≡ Ok self.new) }
        ensures refused { IfErr (curve_of self.old.state.path p q r) (λ fault. result ≡ Err fault) }
        ensures cause { IfErr result
            (λ fault. fault ≢ PathFault.NoMemory → curve_of self.old.state.path p q r ≡ Err fault) }
        ensures err { OnErr result (self.new ≡ self.old) }
    {
        self.path().check_curve(p, q, r)?;
        let alloc = self.alloc;
        let mut own = self.state.take_path(alloc)?;
        let answer = match Arc::make_mut(&mut own) {
            Ok(path) => path.curve_to(p, q, r),
            Err(_) => Err(PathFault::NoMemory),
        };
        self.state.path = Some(own);
        answer
    }

    /// Closes the last subpath. Without one, or where it is closed, nothing changes.
    pub fn close(&mut self) -> Mem<()>
        ensures ok { OnOk result (self.new ≡ with_path self.old (closed self.old.state.path)) }
        ensures err { OnErr result (self.new ≡ self.old) }
    {
        let alloc = self.alloc;
        let mut own = self.state.take_path(alloc)?;
        let answer = match Arc::make_mut(&mut own) {
            Ok(path) => {
                path.close();
                Ok(())
            }
            Err(_) => Err(NoMemory),
        };
        self.state.path = Some(own);
        answer
    }

    /// Adds an arc of a circle round the user point (x, y), as the current matrix maps it.
    ///
    /// `from` and `to` are in degrees; it is `arcn` where the arc is clockwise.
    pub fn arc(
        &mut self,
        x: Fix,
        y: Fix,
        r: Fix,
        from: Fix,
        to: Fix,
        clockwise: bool,
    ) -> Result<(), PathFault>
        ensures ok { OnOk result (with_answer self.old
            (arc_of self.old.state.path self.old.state.matrix x y r from to clockwise) ≡ Ok self.new) }
        ensures refused { IfErr (arc_of self.old.state.path self.old.state.matrix x y r from to clockwise)
            (λ fault. result ≡ Err fault) }
        ensures cause { IfErr result
            (λ fault. fault ≢ PathFault.NoMemory →
            arc_of self.old.state.path self.old.state.matrix x y r from to clockwise ≡ Err fault) }
        ensures err { OnErr result (self.new ≡ self.old) }
    {
        self.path()
            .check_arc(&self.state.matrix, x, y, r, from, to, clockwise)?;
        self.add_arc(x, y, r, from, to, clockwise)
    }

    /// Adds an arc where nothing but memory can refuse it: apart from the check, since the prover
    /// doesn't find its way through both at once.
    fn add_arc(
        &mut self,
        x: Fix,
        y: Fix,
        r: Fix,
        from: Fix,
        to: Fix,
        clockwise: bool,
    ) -> Result<(), PathFault>
        ensures ok { OnOk result (with_answer self.old
            (arc_of self.old.state.path self.old.state.matrix x y r from to clockwise) ≡ Ok self.new) }
        ensures cause { IfErr result
            (λ fault. fault ≢ PathFault.NoMemory →
            arc_of self.old.state.path self.old.state.matrix x y r from to clockwise ≡ Err fault) }
        ensures err { OnErr result (self.new ≡ self.old) }
    {
        let (alloc, matrix) = (self.alloc, self.state.matrix);
        let mut own = self.state.take_path(alloc)?;
        let answer = match Arc::make_mut(&mut own) {
            Ok(path) => path.arc(&matrix, x, y, r, from, to, clockwise),
            Err(_) => Err(PathFault::NoMemory),
        };
        self.state.path = Some(own);
        answer
    }
}
