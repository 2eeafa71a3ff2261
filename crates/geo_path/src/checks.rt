//! What a path would refuse, asked before it is changed. Nothing here takes memory.
ghost use Rattle.std.specs.Prelude.{◌≡◌};
ghost use Rattle.std.specs.Result.{result_err};
ghost use Rattle.geo_path.specs.Path.{move_of, segment_of, line_of, curve_of};
ghost use Rattle.geo_path.specs.Arc.{arc_of};

use crate::arc::{Angles, Arc, Circle, end_angle};
use crate::path::{MOST_POINTS, Path, PathFault, is_near};
use crate::segment::Segment;
use geo_matrix::Matrix;
use press_fault::Point;
use press_nums::Fix;

impl Path {
    /// What `move_to` refuses, but for want of memory.
    pub fn check_move(&self, p: Point) -> Result<(), PathFault>
        ensures { result_err result ≡ result_err (move_of self.now p) }
    {
        if !is_near(p) || self.count() >= MOST_POINTS {
            return Err(PathFault::LimitCheck);
        }
        Ok(())
    }

    /// What `line_to` refuses, but for want of memory.
    pub fn check_line(&self, p: Point) -> Result<(), PathFault>
        ensures { result_err result ≡ result_err (line_of self.now p) }
    {
        self.check_segment(is_near(p), &Segment::Line(p))
    }

    /// What `curve_to` refuses, but for want of memory.
    pub fn check_curve(&self, p: Point, q: Point, r: Point) -> Result<(), PathFault>
        ensures { result_err result ≡ result_err (curve_of self.now p q r) }
    {
        self.check_segment(
            is_near(p) && is_near(q) && is_near(r),
            &Segment::Curve(p, q, r),
        )
    }

    /// What `arc` refuses, but for want of memory.
    pub fn check_arc(
        &self,
        m: &Matrix,
        x: Fix,
        y: Fix,
        r: Fix,
        from: Fix,
        to: Fix,
        clockwise: bool,
    ) -> Result<(), PathFault>
        ensures { result_err result ≡ result_err (arc_of self.now m.now x y r from to clockwise) }
    {
        let Some(to) = end_angle(from, to, clockwise) else {
            return Err(PathFault::UndefinedResult);
        };
        let arc = Arc {
            circle: Circle { m: *m, x, y, r },
            angles: Angles::new(from, to, clockwise),
            room: self.room(),
        };
        arc.check()
    }

    /// What a segment whose points are near as told is refused for.
    fn check_segment(&self, near: bool, segment: &Segment) -> Result<(), PathFault>
        ensures { result_err result ≡ result_err (segment_of self.now near segment.now) }
    {
        let Some(last) = self.parts().last() else {
            return Err(PathFault::NoCurrentPoint);
        };
        let more = segment.count() + u32::from(last.is_closed());
        if !near || self.count() + more > MOST_POINTS {
            return Err(PathFault::LimitCheck);
        }
        Ok(())
    }
}
