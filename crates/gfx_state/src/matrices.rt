//! The current transformation matrix.
ghost use Rattle.std.specs.Prelude.{◌≡◌, Some, None, OnOk, OnErr};
ghost use Rattle.geo_matrix.specs.Turn.{turn_of};
ghost use Rattle.gfx_state.specs.Graphics.{with_matrix, with_default_matrix, concatenated, translation, scaling};

use crate::gfx::{Gfx, default_matrix};
use geo_matrix::{Matrix, concat, turn};
use press_fault::UndefinedResult;
use press_nums::Fix;

impl Gfx {
    /// The current transformation matrix.
    pub fn matrix(&self) -> Matrix
        ensures { result ≡ self.now.state.matrix }
    {
        self.state.matrix
    }

    /// Sets the current transformation matrix.
    pub fn set_matrix(&mut self, m: &Matrix)
        ensures { self.new ≡ with_matrix self.old m.now }
    {
        self.state.matrix = *m;
    }

    /// Sets the default matrix of the page.
    pub fn initial_matrix(&mut self)
        ensures { self.new ≡ with_default_matrix self.old }
    {
        self.state.matrix = default_matrix(self.height, self.res);
    }

    /// Puts a matrix before the current one, refused exactly where an element of the product is out
    /// of range.
    pub fn concat(&mut self, m: &Matrix) -> Result<(), UndefinedResult>
        ensures ok { OnOk result (concatenated self.old m.now ≡ Some self.new) }
        ensures out_of_range { OnErr result (concatenated self.old m.now ≡ None) }
        ensures err { OnErr result (self.new ≡ self.old) }
    {
        self.state.matrix = concat(m, &self.state.matrix)?;
        Ok(())
    }

    /// Moves the origin of user space to the user point (x, y).
    pub fn translate(&mut self, x: Fix, y: Fix) -> Result<(), UndefinedResult>
        ensures ok { OnOk result (concatenated self.old (translation x y) ≡ Some self.new) }
        ensures out_of_range { OnErr result (concatenated self.old (translation x y) ≡ None) }
        ensures err { OnErr result (self.new ≡ self.old) }
    {
        let mut m = Matrix::identity();
        m.tx = x;
        m.ty = y;
        self.concat(&m)
    }

    /// Makes the units of user space so many times as long.
    pub fn scale(&mut self, x: Fix, y: Fix) -> Result<(), UndefinedResult>
        ensures ok { OnOk result (concatenated self.old (scaling x y) ≡ Some self.new) }
        ensures out_of_range { OnErr result (concatenated self.old (scaling x y) ≡ None) }
        ensures err { OnErr result (self.new ≡ self.old) }
    {
        let mut m = Matrix::identity();
        m.a = x;
        m.d = y;
        self.concat(&m)
    }

    /// Turns user space by so many degrees, counterclockwise.
    pub fn rotate(&mut self, angle: Fix) -> Result<(), UndefinedResult>
        ensures ok { OnOk result (concatenated self.old (turn_of angle) ≡ Some self.new) }
        ensures out_of_range { OnErr result (concatenated self.old (turn_of angle) ≡ None) }
        ensures err { OnErr result (self.new ≡ self.old) }
    {
        self.concat(&turn(angle))
    }
}
