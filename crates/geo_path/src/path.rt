//! Paths and what adds to them.
ghost use Rattle.std.specs.Prelude.{◌≡◌, ◌≤◌, ◌<◌, ◌≢◌, ◌==◌, true, length, [], Some, None, Ok, Err, OnOk, OnErr, IfOk};
ghost use Rattle.std.specs.Prelude.{IfErr, IfSome};
ghost use Rattle.std.specs.List.{All};
ghost use Rattle.press_fault.specs.Plane.{PointValue};
ghost use Rattle.geo_matrix.specs.Affine.{IsNear, is_near};
ghost use Rattle.geo_path.specs.Path.{IsNearSegment, current_of, count_of, closed, move_of, segment_of, line_of};
ghost use Rattle.geo_path.specs.Path.{curve_of};
ghost use Rattle.geo_path.specs.Arc.{arc_of, room_of, traced};

use crate::arc::{Angles, Arc, Circle, end_angle};
use crate::parts::Parts;
use crate::segment::Segment;
use crate::subpath::Subpath;
use geo_matrix::Matrix;
use press_fault::{Mem, NoMemory, Point};
use press_nums::Fix;
use std::alloc::{AllocError, Global};
use std::marker::Model;

/// The most points of a path.
pub(crate) const MOST_POINTS: u32 = 65536;

/// Why a call left the path as it was.
#[derive(Clone, Copy, Debug, PartialEq, Eq)]
pub enum PathFault {
    /// A line or a curve has no current point to start from.
    NoCurrentPoint,
    /// A number of an arc is out of range.
    UndefinedResult,
    /// A coordinate of 2^31 sub-dots or more, or more than 65,536 points.
    LimitCheck,
    /// Out of memory.
    NoMemory,
}

impl From<NoMemory> for PathFault {
    ghost use Rattle.std.specs.Prelude.{◌≡◌};
    ghost use Rattle.geo_path.specs.declared.path.PathFault.TheVariants.{NoMemory};

    ghost from_gives = { λ _ e. e ≡ NoMemory };

    fn from(_: press_fault::NoMemory) -> PathFault {
        PathFault::NoMemory
    }
}

impl From<AllocError> for PathFault {
    ghost use Rattle.std.specs.Prelude.{◌≡◌};
    ghost use Rattle.geo_path.specs.declared.path.PathFault.TheVariants.{NoMemory};

    ghost from_gives = { λ _ e. e ≡ NoMemory };

    fn from(_: AllocError) -> PathFault {
        PathFault::NoMemory
    }
}

/// Subpaths of lines and curves, each point of a magnitude below 2^31 sub-dots.
///
/// It has at most 65,536 points, where a curve counts three. After a refusal it is as before.
#[derive(Drop)]
pub struct Path {
    parts: Parts,
    count: u32,
    alloc: Global,
}

impl Model for Path {
    ghost use Rattle.geo_path.specs.Path.{PathValue, HasCount};

    ghost Value = { PathValue };

    ghost view = { λ p. p.parts };

    ghost invariant = { λ p. HasCount p.count p.parts };
}

/// A path of its own with the same subpaths, as `Arc::make_mut` makes one of a shared path.
impl Clone for Path {
    ghost use Rattle.std.specs.Prelude.{◌≡◌};

    ghost is_clone = { λ path copy. copy ≡ path };

    fn clone(&self) -> Result<Path, AllocError> {
        let Ok(parts) = self.parts.duplicate(self.alloc) else {
            return Err(AllocError);
        };
        Ok(Path {
            parts,
            count: self.count,
            alloc: self.alloc,
        })
    }
}

impl Path {
    /// The path without subpaths.
    pub fn new(alloc: Global) -> Path
        ensures { result ≡ record { before = []; last = None } }
    {
        Path {
            parts: Parts::new(alloc),
            count: 0,
            alloc,
        }
    }

    /// Whether there is no point.
    pub fn is_empty(&self) -> bool
        ensures { result ≡ (count_of self.now == 0) }
    {
        self.count == 0
    }

    /// The points that count against the limit.
    pub fn count(&self) -> u32
        ensures value { result ≡ count_of self.now }
        ensures bound { result ≤ 65536 }
    {
        self.count
    }

    /// The current point, if there is one: where the last subpath ends, and its start once closed.
    pub fn current(&self) -> Option<Point>
        ensures value { result ≡ current_of self.now }
        ensures near { IfSome result IsNear }
    {
        match self.parts.last() {
            None => None,
            Some(last) => Some(last.current()),
        }
    }

    /// Starts a subpath. A move after a move keeps the subpath of one point.
    pub fn move_to(&mut self, p: Point) -> Result<(), PathFault>
        ensures ok { OnOk result (move_of self.old p ≡ Ok self.new) }
        ensures refused { IfErr (move_of self.old p) (λ fault. result ≡ Err fault) }
        ensures cause { IfErr result (λ fault. fault ≢ PathFault.NoMemory → move_of self.old p ≡ Err fault) }
        ensures err { OnErr result (self.new ≡ self.old) }
    {
        if !is_near(p) || self.count >= MOST_POINTS {
            return Err(PathFault::LimitCheck);
        }
        self.parts.begin(Subpath::new(self.alloc, p))?;
        self.count += 1;
        Ok(())
    }

    /// Adds a line from the current point, which after `close` starts a subpath.
    pub fn line_to(&mut self, p: Point) -> Result<(), PathFault>
        ensures ok { OnOk result (line_of self.old p ≡ Ok self.new) }
        ensures refused { IfErr (line_of self.old p) (λ fault. result ≡ Err fault) }
        ensures cause { IfErr result (λ fault. fault ≢ PathFault.NoMemory → line_of self.old p ≡ Err fault) }
        ensures err { OnErr result (self.new ≡ self.old) }
    {
        self.draw(is_near(p), Segment::Line(p))
    }

    /// Adds a curve from the current point, which after `close` starts a subpath.
    pub fn curve_to(&mut self, p: Point, q: Point, r: Point) -> Result<(), PathFault>
        ensures ok { OnOk result (curve_of self.old p q r ≡ Ok self.new) }
        ensures refused { IfErr (curve_of self.old p q r) (λ fault. result ≡ Err fault) }
        ensures cause { IfErr result (λ fault. fault ≢ PathFault.NoMemory → curve_of self.old p q r ≡ Err fault) }
        ensures err { OnErr result (self.new ≡ self.old) }
    {
        self.draw(
            is_near(p) && is_near(q) && is_near(r),
            Segment::Curve(p, q, r),
        )
    }

    /// Closes the last subpath. Without one, or where it is closed, nothing changes.
    pub fn close(&mut self)
        ensures { self.new ≡ closed self.old }
    {
        self.parts.close();
    }

    /// Adds an arc of a circle round the user point (x, y), its radius in units of user space and
    /// its angles in degrees: `arcn` where it is clockwise (PostScript Language Reference, third
    /// edition, 8.2 `arc`, `arcn`). It begins with a line from the current point, or a move.
    ///
    /// Its end is first raised, or lowered, by whole turns to the right side of its start. The first
    /// refusal that is met is the answer: the end, then point by point the real numbers, the sub-dots
    /// and the room.
    pub fn arc(
        &mut self,
        m: &Matrix,
        x: Fix,
        y: Fix,
        r: Fix,
        from: Fix,
        to: Fix,
        clockwise: bool,
    ) -> Result<(), PathFault>
        ensures ok { OnOk result (arc_of self.old m.now x y r from to clockwise ≡ Ok self.new) }
        ensures refused { IfErr (arc_of self.old m.now x y r from to clockwise) (λ fault. result ≡ Err fault) }
        ensures cause { IfErr result (λ fault. fault ≢ PathFault.NoMemory →
            arc_of self.old m.now x y r from to clockwise ≡ Err fault) }
        ensures err { OnErr result (self.new ≡ self.old) }
    {
        let Some(to) = end_angle(from, to, clockwise) else {
            return Err(PathFault::UndefinedResult);
        };
        let arc = Arc {
            circle: Circle { m: *m, x, y, r },
            angles: Angles::new(from, to, clockwise),
            room: self.room(),
        };
        match arc.check() {
            Ok(()) => {}
            Err(fault) => return Err(fault),
        }
        match arc.points(self.alloc) {
            Ok(points) => match self.trace(&points) {
                Ok(()) => Ok(()),
                Err(_) => Err(PathFault::NoMemory),
            },
            Err(fault) => Err(fault),
        }
    }

    /// How many lines there is room for: after `close` the start counts once more.
    pub(crate) fn room(&self) -> u32
        ensures { result ≡ room_of self.now }
    {
        let more = match self.parts.last() {
            Some(last) => u32::from(last.is_closed()),
            None => 0,
        };
        MOST_POINTS.saturating_sub(self.count + more)
    }

    /// Adds lines through points; without a current point the first one is a move.
    fn trace(&mut self, points: &[Point]) -> Mem<()>
        requires some { 0 < length points.now }
        requires few { length points.now ≤ room_of self.old }
        requires near { All IsNear points.now }
        ensures ok { OnOk result (self.new ≡ traced self.old points.now) }
        ensures err { OnErr result (self.new ≡ self.old) }
    {
        let count = MOST_POINTS - self.room() + points.len() as u32;
        self.parts.trace(self.alloc, points)?;
        self.count = count;
        Ok(())
    }

    pub(crate) fn parts(&self) -> &Parts
        ensures { result.now ≡ self.now }
    {
        &self.parts
    }

    pub(crate) fn alloc(&self) -> Global {
        self.alloc
    }

    /// Adds a segment whose points are near as told.
    fn draw(&mut self, near: bool, segment: Segment) -> Result<(), PathFault>
        requires near { near ≡ true → IsNearSegment segment }
        ensures ok { OnOk result (segment_of self.old near segment ≡ Ok self.new) }
        ensures refused { IfErr (segment_of self.old near segment) (λ fault. result ≡ Err fault) }
        ensures cause { IfErr result (λ fault. fault ≢ PathFault.NoMemory →
            segment_of self.old near segment ≡ Err fault) }
        ensures err { OnErr result (self.new ≡ self.old) }
    {
        let Some(last) = self.parts.last() else {
            return Err(PathFault::NoCurrentPoint);
        };
        let more = segment.count() + u32::from(last.is_closed());
        if !near || self.count + more > MOST_POINTS {
            return Err(PathFault::LimitCheck);
        }
        self.parts.extend(self.alloc, &[segment])?;
        self.count += more;
        Ok(())
    }
}

/// Whether a path may have the point.
pub(crate) fn is_near(p: Point) -> bool
    ensures { result ≡ is_near p }
{
    p.wide_x().size() < 0x8000_0000 && p.wide_y().size() < 0x8000_0000
}
