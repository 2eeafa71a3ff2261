//! How many points a flattened path has.
ghost use Rattle.std.specs.Prelude.{◌≡◌, ◌≤◌, ◌*◌, length};
ghost use Rattle.geo_path.specs.Flat.{added_by, flat, lines_of, points_in};
ghost use Rattle.geo_path.specs.Path.{segment_count, subpath_count};

use crate::curve::{Bezier, curve_len};
use crate::path::Path;
use crate::segment::Segment;
use crate::subpath::Subpath;
use press_fault::Point;

impl Path {
    /// How many points the flattened path has.
    ///
    /// A point that counts against the path's limit gives at most 22: a curve counts three, and
    /// has at most 64 pieces.
    pub fn flat_count(&self) -> u64
        ensures value { result ≡ points_in (lines_of self.now) }
        ensures bound { result ≤ 22 * 65536 }
    {
        let _count = self.count();
        let mut points = 0;
        for subpath in self.parts().before() {
            points += subpath_len(subpath);
        }
        if let Some(last) = self.parts().last() {
            points += subpath_len(last);
        }
        points
    }
}

/// How many points a flattened subpath has.
fn subpath_len(s: &Subpath) -> u64
    requires { subpath_count s.now ≤ 65536 }
    ensures value { result ≡ length (flat s.now).points }
    ensures bound { result ≤ 22 * subpath_count s.now }
{
    let mut points = 1;
    let mut at = s.start();
    for segment in s.segments() {
        points += segment_len(at, segment);
        at = segment.end();
    }
    points
}

/// How many points a segment that begins at `at` adds.
fn segment_len(at: Point, segment: &Segment) -> u64
    ensures value { result ≡ length (added_by at segment.now) }
    ensures bound { result ≤ 22 * segment_count segment.now }
{
    match segment {
        Segment::Line(_) => 1,
        Segment::Curve(q, r, s) => {
            let curve = Bezier {
                p0: at,
                p1: *q,
                p2: *r,
                p3: *s,
            };
            curve_len(&curve)
        }
    }
}
