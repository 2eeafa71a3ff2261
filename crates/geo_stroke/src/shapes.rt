//! Shapes of a stroke.
ghost use Rattle.std.specs.Prelude.{◌≡◌, ◌∷◌, ◌++◌, [], ℤ, unsigned_abs, OnOk, IfOk};
ghost use Rattle.geo_stroke.specs.Corner.{polygon, disc_at};
ghost use Rattle.geo_matrix.specs.Affine.{IsNear};
ghost use Rattle.geo_stroke.specs.Segment.{IsHalf, IsThin};
ghost use Rattle.geo_stroke.specs.Outline.{square_end, square_start};

use crate::segment::{Vector, minus, plus};
use page_model::{Disc, Ring, Rings, Shape};
use press_fault::{Mem, Point};
use press_nums::Wide;
use std::alloc::Global;

/// A polygon of one ring.
pub(crate) fn polygon(alloc: Global, points: &[Point]) -> Mem<Shape>
    ensures { IfOk result (λ shape. shape ≡ polygon points.now) }
{
    let mut rings = Rings::with_room(alloc, 1)?;
    rings.push(ring(alloc, points)?)?;
    Ok(Shape::Poly(rings))
}

fn ring(alloc: Global, points: &[Point]) -> Mem<Ring>
    ensures { IfOk result (λ ring. ring ≡ points.now) }
{
    let mut ring = Ring::with_room(alloc, points.len())?;
    for point in points {
        ring.push(*point)?;
    }
    Ok(ring)
}

/// The pen's own disc round a point.
pub(crate) fn disc_at(half: Wide, centre: Point) -> Shape
    requires { IsHalf half }
    ensures { result ≡ disc_at half centre }
{
    Shape::Disc(Disc::new(centre, half.size() as u64))
}

/// A square cap at the end of a line, by the vectors across and along it.
pub(crate) fn square_end(alloc: Global, end: Point, n: Vector, e: Vector) -> Mem<Shape>
    requires end { IsNear end }
    requires n { IsThin n }
    requires e { IsThin e }
    ensures { IfOk result (λ shape. shape ≡ square_end end n e) }
{
    polygon(
        alloc,
        &[
            plus(end, n),
            plus(end, n.sum(e)),
            plus(end, e.difference(n)),
            minus(end, n),
        ],
    )
}

/// A square cap at the start of a line, by the vectors across and along it.
pub(crate) fn square_start(alloc: Global, start: Point, n: Vector, e: Vector) -> Mem<Shape>
    requires start { IsNear start }
    requires n { IsThin n }
    requires e { IsThin e }
    ensures { IfOk result (λ shape. shape ≡ square_start start n e) }
{
    polygon(
        alloc,
        &[
            plus(start, n),
            plus(start, n.difference(e)),
            minus(start, n.sum(e)),
            minus(start, n),
        ],
    )
}
