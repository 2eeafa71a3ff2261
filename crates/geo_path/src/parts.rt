//! The subpaths of a path, without its limits.
ghost use Rattle.std.specs.Prelude.{◌≡◌, ◌<◌, map, length, IfOk, false, [], ◌∷◌, ◌++◌, Some, None, OnOk, OnErr};
ghost use Rattle.std.specs.List.{All};
ghost use Rattle.std.specs.Option.{option_copied, option_to_list};
ghost use Rattle.geo_matrix.specs.Affine.{IsNear};
ghost use Rattle.geo_path.specs.Arc.{traced, chain_of};
ghost use Rattle.geo_path.specs.Path.{PathValue, IsNearSegment, subpaths_of, drawn, closed};

use crate::segment::Segment;
use crate::subpath::Subpath;
use press_fault::{Mem, NoMemory, Point};
use std::alloc::Global;
use std::marker::Model;

/// The subpaths before the last one, and the last one, if there is any.
#[derive(Drop)]
pub(crate) struct Parts {
    before: Vec<Subpath>,
    last: Option<Subpath>,
}

impl Model for Parts {
    ghost use Rattle.geo_path.specs.Path.{PathValue};

    ghost Value = { PathValue };

    ghost view = { λ p. record { before = p.before.items; last = p.last } };
}

impl Parts {
    /// No subpaths.
    pub fn new(alloc: Global) -> Parts
        ensures { result ≡ record { before = []; last = None } }
    {
        Parts {
            before: Vec::new(alloc),
            last: None,
        }
    }

    /// Subpaths of their own with the same points.
    pub fn duplicate(&self, alloc: Global) -> Mem<Parts>
        ensures { IfOk result (λ p. p ≡ self.now) }
    {
        let mut before = Vec::new(alloc);
        for subpath in &self.before {
            before.push(subpath.duplicate(alloc)?)?;
        }
        let last = match &self.last {
            Some(last) => Some(last.duplicate(alloc)?),
            None => None,
        };
        Ok(Parts { before, last })
    }

    /// The subpaths before the last one.
    pub fn before(&self) -> &[Subpath]
        ensures { result.now ≡ self.now.before }
    {
        &self.before
    }

    /// The last subpath, which lines and curves are added to; `None` for an empty path.
    pub fn last(&self) -> Option<&Subpath>
        ensures { option_copied result ≡ self.now.last }
    {
        self.last.as_ref()
    }

    /// Starts one more subpath.
    pub fn begin(&mut self, next: Subpath) -> Mem<()>
        ensures ok { OnOk result (self.new ≡ record { before = subpaths_of self.old; last = Some next }) }
        ensures err { OnErr result (self.new ≡ self.old) }
    {
        if let Some(last) = self.last.take() {
            match self.before.push(last) {
                Ok(()) => {}
                Err(refused) => {
                    self.last = Some(refused.value);
                    return Err(NoMemory);
                }
            }
        }
        self.last = Some(next);
        Ok(())
    }

    /// Adds segments to the last subpath; where it is closed they start one at its start.
    pub fn extend(&mut self, alloc: Global, more: &[Segment]) -> Mem<()>
        requires near { All IsNearSegment more.now }
        ensures ok { OnOk result (self.new ≡ drawn self.old more.now) }
        ensures err { OnErr result (self.new ≡ self.old) }
    {
        match self.last.as_mut() {
            None => Ok(()),
            Some(last) => {
                if last.is_closed() {
                    let mut next = Subpath::new(alloc, last.start());
                    next.extend(more)?;
                    self.begin(next)
                } else {
                    last.extend(more)
                }
            }
        }
    }

    /// Adds lines through points; without a current point the first one is a move.
    pub fn trace(&mut self, alloc: Global, points: &[Point]) -> Mem<()>
        requires some { 0 < length points.now }
        requires near { All IsNear points.now }
        ensures ok { OnOk result (self.new ≡ traced self.old points.now) }
        ensures err { OnErr result (self.new ≡ self.old) }
    {
        match self.last() {
            Some(_) => self.extend(alloc, &lines_to(alloc, points)?),
            None => self.begin(chain(alloc, points)?),
        }
    }

    /// Closes the last subpath, if there is one.
    pub fn close(&mut self)
        ensures { self.new ≡ closed self.old }
    {
        if let Some(last) = self.last.as_mut() {
            last.close();
        }
    }
}

/// Lines to points.
fn lines_to(alloc: Global, points: &[Point]) -> Mem<Vec<Segment>>
    requires { All IsNear points.now }
    ensures lines { IfOk result (λ lines. lines.items ≡ map Segment.Line points.now) }
    ensures near { IfOk result (λ lines. All IsNearSegment lines.items) }
{
    let mut lines = Vec::new(alloc);
    for p in points {
        lines.push(Segment::Line(*p))?;
    }
    Ok(lines)
}

/// A subpath of lines through points.
fn chain(alloc: Global, points: &[Point]) -> Mem<Subpath>
    requires some { 0 < length points.now }
    requires near { All IsNear points.now }
    ensures { IfOk result (λ s. s ≡ chain_of points.now) }
{
    let mut subpath = Subpath::new(alloc, points[0]);
    let (_, rest) = points.split_at(1);
    subpath.extend(&lines_to(alloc, rest)?)?;
    Ok(subpath)
}
