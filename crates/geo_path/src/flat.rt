//! Flattened paths.
ghost use Rattle.std.specs.Prelude.{◌≡◌, [], ◌∷◌, ◌++◌, map, OnOk, OnErr, IfOk};
ghost use Rattle.std.specs.List.{All};
ghost use Rattle.geo_matrix.specs.Affine.{IsNear};
ghost use Rattle.geo_path.specs.Flat.{PolylineValue, IsNearLine, added_by, flat, lines_of, rings_of};
ghost use Rattle.geo_path.specs.Path.{IsNearSegment};

use crate::curve::{Bezier, push_curve};
use crate::path::Path;
use crate::segment::Segment;
use crate::subpath::Subpath;
use page_model::{Ring, Rings};
use press_fault::{Mem, Point};
use std::alloc::Global;
use std::marker::Model;

/// A chain of straight lines by its points, and whether it is closed.
#[derive(Drop)]
pub struct Polyline {
    pub points: Ring,
    pub closed: bool,
}

impl Model for Polyline {
    ghost use Rattle.geo_path.specs.Flat.{PolylineValue};

    ghost Value = { PolylineValue };

    ghost view = { λ l. record { points = l.points; closed = l.closed } };
}

/// Chains of lines, each point of a magnitude below 2^31 sub-dots.
#[derive(Drop)]
pub struct Polylines {
    lines: Vec<Polyline>,
}

impl Model for Polylines {
    ghost use Rattle.std.specs.Prelude.{List};
    ghost use Rattle.std.specs.List.{All};
    ghost use Rattle.geo_path.specs.Flat.{PolylineValue, IsNearLine};

    ghost Value = { List PolylineValue };

    ghost view = { λ l. l.lines.items };

    ghost invariant = { λ l. All IsNearLine l.lines.items };
}

impl Polylines {
    /// No lines.
    pub fn new(alloc: Global) -> Polylines
        ensures { result ≡ [] }
    {
        Polylines {
            lines: Vec::new(alloc),
        }
    }

    /// Adds a chain of lines at the end. Out of memory leaves the lines as before.
    pub fn push(&mut self, line: Polyline) -> Mem<()>
        requires { IsNearLine line }
        ensures ok { OnOk result (self.new ≡ self.old ++ line ∷ []) }
        ensures err { OnErr result (self.new ≡ self.old) }
    {
        self.lines.push(line)?;
        Ok(())
    }

    /// The points of each chain as a ring, for a polygon that closes all of them.
    pub fn into_rings(self, alloc: Global) -> Mem<Rings>
        ensures { IfOk result (λ rings. rings ≡ rings_of self) }
    {
        let mut rings = Rings::with_room(alloc, self.lines.len())?;
        for line in self.lines {
            let Polyline { points, closed: _ } = line;
            rings.push(points)?;
        }
        Ok(rings)
    }

    /// The lines, in the order of their subpaths.
    pub fn items(&self) -> &[Polyline]
        ensures value { result.now ≡ self.now }
        ensures near { All IsNearLine result.now }
    {
        &self.lines
    }
}

impl Path {
    /// The path as straight lines: a chain for each subpath, the curves cut into pieces
    /// (PostScript Language Reference, third edition, 8.2 `flattenpath`).
    pub fn flatten(&self) -> Mem<Polylines>
        ensures { IfOk result (λ lines. lines ≡ lines_of self.now) }
    {
        let mut lines = Polylines::new(self.alloc());
        for subpath in self.parts().before() {
            lines.push(flatten_subpath(self.alloc(), subpath)?)?;
        }
        if let Some(last) = self.parts().last() {
            lines.push(flatten_subpath(self.alloc(), last)?)?;
        }
        Ok(lines)
    }
}

fn flatten_subpath(alloc: Global, s: &Subpath) -> Mem<Polyline>
    ensures value { IfOk result (λ line. line ≡ flat s.now) }
    ensures near { IfOk result (λ line. IsNearLine line) }
{
    let _segments = s.segments();
    let points = points_of(alloc, s)?;
    Ok(Polyline {
        points,
        closed: s.is_closed(),
    })
}

fn points_of(alloc: Global, s: &Subpath) -> Mem<Ring>
    ensures { IfOk result (λ points. points ≡ (flat s.now).points) }
{
    let mut points = Ring::new(alloc);
    points.push(s.start())?;
    let mut at = s.start();
    for segment in s.segments() {
        push_segment(&mut points, at, segment)?;
        at = segment.end();
    }
    Ok(points)
}

/// Adds the points of a segment behind `at`, where it begins.
fn push_segment(points: &mut Ring, at: Point, segment: &Segment) -> Mem<()>
    requires at { IsNear at }
    requires near { IsNearSegment segment.now }
    ensures ok { OnOk result (points.new ≡ points.old ++ added_by at segment.now) }
{
    match segment {
        Segment::Line(p) => points.push(*p),
        Segment::Curve(q, r, s) => {
            let curve = Bezier {
                p0: at,
                p1: *q,
                p2: *r,
                p3: *s,
            };
            push_curve(points, &curve)
        }
    }
}
