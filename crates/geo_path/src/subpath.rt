//! One subpath.
ghost use Rattle.std.specs.Prelude.{◌≡◌, false, OnOk, OnErr, IfOk};
ghost use Rattle.std.specs.List.{All};
ghost use Rattle.geo_matrix.specs.Affine.{IsNear};
ghost use Rattle.geo_path.specs.Path.{SubpathValue, IsNearSegment, IsNearSubpath, subpath_current, opened, continued};
ghost use Rattle.geo_path.specs.Path.{closed_subpath};

use crate::segment::Segment;
use press_fault::{Mem, Point};
use std::alloc::Global;
use std::marker::Model;

/// A first point, what goes on from there, and whether it is closed.
#[derive(Drop)]
pub(crate) struct Subpath {
    start: Point,
    segments: Vec<Segment>,
    /// Where the last segment ends.
    end: Point,
    closed: bool,
}

impl Model for Subpath {
    ghost use Rattle.geo_path.specs.Path.{SubpathValue, IsPathKept};

    ghost Value = { SubpathValue };

    ghost view = { λ s. record { start = s.start; segments = s.segments.items; closed = s.closed } };

    ghost invariant = { λ s. IsPathKept s.end
        (record { start = s.start; segments = s.segments.items; closed = s.closed }) };
}

impl Subpath {
    /// The subpath of a move alone.
    pub fn new(alloc: Global, start: Point) -> Subpath
        requires { IsNear start }
        ensures { result ≡ opened start }
    {
        Subpath {
            start,
            segments: Vec::new(alloc),
            end: start,
            closed: false,
        }
    }

    /// A subpath of its own with the same points.
    pub fn duplicate(&self, alloc: Global) -> Mem<Subpath>
        ensures { IfOk result (λ s. s ≡ self.now) }
    {
        Ok(Subpath {
            start: self.start,
            segments: Vec::from_slice(alloc, &self.segments)?,
            end: self.end,
            closed: self.closed,
        })
    }

    /// Whether `closepath` was its end.
    pub fn is_closed(&self) -> bool
        ensures { result ≡ self.now.closed }
    {
        self.closed
    }

    /// The point of its move, in sub-dots.
    pub fn start(&self) -> Point
        ensures value { result ≡ self.now.start }
        ensures near { IsNear result }
    {
        self.start
    }

    /// The lines and curves after the start, in order.
    pub fn segments(&self) -> &[Segment]
        ensures items { result.now ≡ self.now.segments }
        ensures near { IsNearSubpath self.now }
    {
        &self.segments
    }

    /// The current point.
    pub fn current(&self) -> Point
        ensures value { result ≡ subpath_current self.now }
        ensures near { IsNear result }
    {
        if self.closed { self.start } else { self.end }
    }

    /// Closes it, by a line to its start (PostScript Language Reference, third edition, 8.2
    /// closepath).
    pub fn close(&mut self)
        ensures { self.new ≡ closed_subpath self.old }
    {
        self.closed = true;
    }

    /// Adds segments to an open subpath.
    pub fn extend(&mut self, more: &[Segment]) -> Mem<()>
        requires open { self.old.closed ≡ false }
        requires near { All IsNearSegment more.now }
        ensures ok { OnOk result (self.new ≡ continued self.old more.now) }
        ensures err { OnErr result (self.new ≡ self.old) }
    {
        self.segments.extend_from_slice(more)?;
        if let Some(last) = more.last() {
            self.end = last.end();
        }
        Ok(())
    }
}
