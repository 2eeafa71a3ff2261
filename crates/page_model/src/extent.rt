//! The rows of a page that a mark reaches.
ghost use Rattle.std.specs.Prelude.{◌≡◌, ◌<◌, ◌≤◌, ◌^◌, ◌||◌, ℤ, unsigned_abs, int_le};
ghost use Rattle.std.specs.List.{list_any};
ghost use Rattle.press_fault.specs.Plane.{PointValue};
ghost use Rattle.page_model.specs.Marking.{painting_of};
ghost use Rattle.page_model.specs.Reach.{IsReach, starts_by, ends_from, image_starts_by, image_ends_from};
ghost use Rattle.page_model.specs.Reach.{mark_starts_by, mark_ends_from};
ghost use Rattle.page_model.specs.Code.Extent.{IsGrown, IsFirstRow, IsEndRow, nearest_within};

use crate::{Image, Mark, Paint, Ring, Shape};
use press_fault::Point;
use press_nums::Wide;
use std::marker::Model;

/// The least and the greatest y of what was looked at, in sub-dots.
#[derive(Clone, Copy, Debug, PartialEq, Eq)]
struct Extent {
    top: Wide,
    bottom: Wide,
}

impl Model for Extent {
    ghost use Rattle.page_model.specs.Code.Extent.{ExtentValue, IsExtent};

    ghost Value = { ExtentValue };

    ghost view = { λ e. record { top = e.top; bottom = e.bottom } };

    ghost invariant = { λ e. IsExtent e.top e.bottom };

    ghost inverse = { λ v. record { top = v.top; bottom = v.bottom } };
}

/// The rows that a mark reaches on a page of so many rows: the first, and the one after the last.
///
/// These are the rows whose centres lie between the least and the greatest y of the mark's
/// points, discs and image, both included; its clip isn't asked. Both are 0 where there are none.
pub fn reach(mark: &Mark, height: u32) -> (u32, u32)
    ensures { IsReach mark.now height result.0 result.1 }
{
    let Some(extent) = extent_of(mark) else {
        return (0, 0);
    };
    let first = first_row(extent.top, height);
    let end = end_row(extent.bottom, height);
    if first < end { (first, end) } else { (0, 0) }
}

/// The first row of a page whose centre is at or below a height.
fn first_row(top: Wide, height: u32) -> u32
    requires { unsigned_abs top < 2 ^ 64 }
    ensures { IsFirstRow top height result }
{
    row_within((top + Wide::of(127)).floor_quotient(Wide::of(256)), height)
}

/// The row of a page after the last whose centre is at or above a height.
fn end_row(bottom: Wide, height: u32) -> u32
    requires { unsigned_abs bottom < 2 ^ 64 }
    ensures { IsEndRow bottom height result }
{
    row_within(
        (bottom + Wide::of(128)).floor_quotient(Wide::of(256)),
        height,
    )
}

/// The number nearest to this one from 0 to the height.
fn row_within(n: Wide, height: u32) -> u32
    ensures { result ≡ nearest_within n height }
{
    if n.is_below(Wide::ZERO) {
        0
    } else if n.is_below(Wide::of(i64::from(height))) {
        n.narrow() as u32
    } else {
        height
    }
}

/// The least and the greatest y of a mark.
#[tactic(auto, using(crate::proofs::Growing::grown_by_both), unfolding(crate::specs::Reach::mark_starts_by, crate::specs::Reach::mark_ends_from))]
fn extent_of(mark: &Mark) -> Option<Extent>
    ensures { IsGrown None result (λ y. mark_starts_by y mark.now) (λ y. mark_ends_from y mark.now) }
{
    with_paint(with_shapes(None, mark.shapes.items()), &mark.paint)
}

fn with_paint(so_far: Option<Extent>, paint: &Paint) -> Option<Extent>
    ensures { IsGrown so_far result (λ y. image_starts_by y (painting_of paint.now))
        (λ y. image_ends_from y (painting_of paint.now)) }
{
    match paint {
        Paint::Flat(_) => so_far,
        Paint::Image(image) => with_image(so_far, image),
        Paint::Mask(image, _) => with_image(so_far, image),
    }
}

fn with_image(so_far: Option<Extent>, image: &Image) -> Option<Extent>
    ensures { IsGrown so_far result (λ y. int_le image.now.low y) (λ y. int_le y image.now.high) }
{
    with_heights(so_far, Wide::of(image.low), Wide::of(image.high))
}

fn with_shapes(mut so_far: Option<Extent>, shapes: &[Shape]) -> Option<Extent>
    ensures { IsGrown so_far result (λ y. list_any (starts_by y) shapes.now) (λ y. list_any (ends_from y) shapes.now) }
{
    for shape in shapes {
        so_far = with_shape(so_far, shape);
    }
    so_far
}

fn with_shape(so_far: Option<Extent>, shape: &Shape) -> Option<Extent>
    ensures { IsGrown so_far result (λ y. starts_by y shape.now) (λ y. ends_from y shape.now) }
{
    match shape {
        Shape::Poly(rings) => with_rings(so_far, rings.items()),
        Shape::Disc(disc) => with_heights(
            so_far,
            disc.wide_y() - disc.wide_r(),
            disc.wide_y() + disc.wide_r(),
        ),
    }
}

fn with_rings(mut so_far: Option<Extent>, rings: &[Ring]) -> Option<Extent>
    ensures { IsGrown so_far result
        (λ y. list_any (list_any (λ (p : PointValue). int_le p.y y)) rings.now)
        (λ y. list_any (list_any (λ (p : PointValue). int_le y p.y)) rings.now) }
{
    for ring in rings {
        so_far = with_ring(so_far, ring);
    }
    so_far
}

fn with_ring(so_far: Option<Extent>, ring: &Ring) -> Option<Extent>
    ensures { IsGrown so_far result
        (λ y. list_any (λ (p : PointValue). int_le p.y y) ring.now)
        (λ y. list_any (λ (p : PointValue). int_le y p.y) ring.now) }
{
    with_points(so_far, ring.items())
}

fn with_points(mut so_far: Option<Extent>, points: &[Point]) -> Option<Extent>
    ensures { IsGrown so_far result
        (λ y. list_any (λ (p : PointValue). int_le p.y y) points.now)
        (λ y. list_any (λ (p : PointValue). int_le y p.y) points.now) }
{
    for point in points {
        so_far = with_point(so_far, *point);
    }
    so_far
}

fn with_point(so_far: Option<Extent>, point: Point) -> Option<Extent>
    ensures { IsGrown so_far result (λ y. int_le point.y y) (λ y. int_le y point.y) }
{
    with_heights(so_far, point.wide_y(), point.wide_y())
}

/// An extent with one more height at its top and one at its bottom.
fn with_heights(so_far: Option<Extent>, top: Wide, bottom: Wide) -> Option<Extent>
    requires top { unsigned_abs top < 2 ^ 64 }
    requires bottom { unsigned_abs bottom < 2 ^ 64 }
    ensures { IsGrown so_far result (λ y. int_le top y) (λ y. int_le y bottom) }
{
    match so_far {
        None => Some(Extent { top, bottom }),
        Some(extent) => Some(Extent {
            top: lesser(extent.top, top),
            bottom: greater(extent.bottom, bottom),
        }),
    }
}

fn lesser(a: Wide, b: Wide) -> Wide
    requires a { unsigned_abs a < 2 ^ 64 }
    requires b { unsigned_abs b < 2 ^ 64 }
    ensures value { (y : ℤ) → int_le result y ≡ (int_le a y || int_le b y) }
    ensures bound { unsigned_abs result < 2 ^ 64 }
{
    if a.is_at_most(b) { a } else { b }
}

fn greater(a: Wide, b: Wide) -> Wide
    requires a { unsigned_abs a < 2 ^ 64 }
    requires b { unsigned_abs b < 2 ^ 64 }
    ensures value { (y : ℤ) → int_le y result ≡ (int_le y a || int_le y b) }
    ensures bound { unsigned_abs result < 2 ^ 64 }
{
    if a.is_at_most(b) { b } else { a }
}
