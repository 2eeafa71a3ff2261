//! Where the edges of rings cross a row.
ghost use Rattle.std.specs.Prelude.{◌≡◌, ◌≤◌, unsigned_abs};
ghost use Rattle.geo_fill.specs.Code.Crossings.{whole_turn};

use press_nums::Wide;

/// Where an edge crosses the height of a row's centres, for a range of the row's columns.
#[derive(Clone, Copy)]
pub(crate) struct Crossing {
    /// The first column of the range whose centre is at the crossing or right of it, and the end of
    /// the range where there is none.
    pub(crate) col: u32,
    /// Whether the edge goes to greater heights there, or to lesser ones.
    pub(crate) rises: bool,
}

impl Crossing {
    /// What it adds to the winding number behind it.
    pub(crate) fn turn(self) -> Wide
        ensures value { result ≡ whole_turn self }
        ensures bound { unsigned_abs result ≤ 1 }
    {
        if self.rises {
            Wide::of(1)
        } else {
            Wide::of(-1)
        }
    }
}
