//! What a subpath is made of.
ghost use Rattle.std.specs.Prelude.{◌≡◌, ◌≤◌};
ghost use Rattle.geo_path.specs.Path.{end_of, segment_count};

use press_fault::Point;

/// A straight line or a cubic Bézier curve, from where the segment before it ends.
#[derive(Clone, Copy, Debug, PartialEq, Eq)]
pub enum Segment {
    /// A line to this point.
    Line(Point),
    /// A curve by two control points to the last one.
    Curve(Point, Point, Point),
}

impl Segment {
    /// Where the segment ends.
    pub(crate) fn end(&self) -> Point
        ensures { result ≡ end_of self.now }
    {
        match self {
            Segment::Line(p) => *p,
            Segment::Curve(_, _, s) => *s,
        }
    }

    /// The points that count against a path's limit.
    pub(crate) fn count(&self) -> u32
        ensures value { result ≡ segment_count self.now }
        ensures bound { result ≤ 3 }
    {
        match self {
            Segment::Line(_) => 1,
            Segment::Curve(_, _, _) => 3,
        }
    }
}
