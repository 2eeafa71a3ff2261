//! The rows of a band that a shape reaches.
ghost use Rattle.std.specs.Prelude.{◌≡◌, ◌+◌, ◌*◌, pos, ◌<◌, ◌≤◌, ◌^◌, ◌||◌, ℤ, unsigned_abs, int_le};
ghost use Rattle.std.specs.List.{list_any};
ghost use Rattle.press_fault.specs.Plane.{PointValue};
ghost use Rattle.page_model.specs.Reach.{starts_by, ends_from};
ghost use Rattle.page_model.specs.Code.Extent.{IsGrown, IsFirstRow, IsEndRow, nearest_within};
ghost use Rattle.list_player.specs.Code.Reach.{IsReached, LieBetween};

use page_model::{Ring, Shape, covered_dots_are_reached};
use press_fault::Point;
use press_nums::Wide;
use std::marker::Model;

/// Rows of a band, from `skip` up to and without `end`, both counted from the band's first row.
#[derive(Clone, Copy)]
pub(crate) struct Rows {
    pub(crate) skip: u32,
    pub(crate) end: u32,
}

/// The least and the greatest y of what was looked at, in sub-dots.
#[derive(Clone, Copy, Debug, PartialEq, Eq)]
struct Extent {
    top: Wide,
    bottom: Wide,
}

impl Model for Extent {
    ghost use Rattle.page_model.specs.Code.Extent.{ExtentValue, IsExtent};

    ghost Value = { ExtentValue };

    ghost view = { λ e. record { top = e.top; bottom = e.bottom } };

    ghost invariant = { λ e. IsExtent e.top e.bottom };

    ghost inverse = { λ v. record { top = v.top; bottom = v.bottom } };
}

/// The rows of a band outside which a shape holds no centre of a dot: those whose centres lie between the least and
/// the greatest y of its points, or of its disc, both included. The band has so many rows from `first` on.
pub(crate) fn rows_reached(shape: &Shape, first: u32, count: u32) -> Rows
    ensures order { result.skip ≤ result.end }
    ensures within { result.end ≤ count }
    ensures outside { IsReached shape.now first count result.skip result.end }
{
    covered_dots_are_reached();
    match extent_of(shape) {
        None => Rows { skip: 0, end: 0 },
        Some(extent) => rows_between(extent, first, count),
    }
}

/// The rows of a band whose centres lie in an extent.
fn rows_between(extent: Extent, first: u32, count: u32) -> Rows
    ensures order { result.skip ≤ result.end }
    ensures within { result.end ≤ count }
    ensures between { LieBetween extent.top extent.bottom first count result.skip result.end }
{
    let start = upper_edge(first);
    let skip = first_row(extent.top - start, count);
    let end = end_row(extent.bottom - start, count);
    Rows {
        skip,
        end: if skip < end { end } else { skip },
    }
}

/// The height at which a row of dots begins, in sub-dots.
fn upper_edge(row: u32) -> Wide
    ensures value { result ≡ pos (256 * row) }
    ensures bound { unsigned_abs result < 2 ^ 64 }
{
    Wide::of_size(256 * u128::from(row))
}

/// The first row whose centre is at or below a height, of so many rows from height 0 on.
fn first_row(top: Wide, count: u32) -> u32
    requires { unsigned_abs top < 2 ^ 65 }
    ensures { IsFirstRow top count result }
{
    row_within((top + Wide::of(127)).floor_quotient(Wide::of(256)), count)
}

/// The row after the last whose centre is at or above a height, of so many rows from height 0 on.
fn end_row(bottom: Wide, count: u32) -> u32
    requires { unsigned_abs bottom < 2 ^ 65 }
    ensures { IsEndRow bottom count result }
{
    row_within(
        (bottom + Wide::of(128)).floor_quotient(Wide::of(256)),
        count,
    )
}

/// The number nearest to this one from 0 to the count.
fn row_within(n: Wide, count: u32) -> u32
    ensures { result ≡ nearest_within n count }
{
    if n.is_below(Wide::ZERO) {
        0
    } else if n.is_below(Wide::of(i64::from(count))) {
        n.narrow() as u32
    } else {
        count
    }
}

/// The least and the greatest y of a shape.
fn extent_of(shape: &Shape) -> Option<Extent>
    ensures { IsGrown None result (λ y. starts_by y shape.now) (λ y. ends_from y shape.now) }
{
    match shape {
        Shape::Poly(rings) => with_rings(None, rings.items()),
        Shape::Disc(disc) => with_heights(
            None,
            disc.wide_y() - disc.wide_r(),
            disc.wide_y() + disc.wide_r(),
        ),
    }
}

fn with_rings(mut so_far: Option<Extent>, rings: &[Ring]) -> Option<Extent>
    ensures { IsGrown so_far result
        (λ y. list_any (list_any (λ (p : PointValue). int_le p.y y)) rings.now)
        (λ y. list_any (list_any (λ (p : PointValue). int_le y p.y)) rings.now) }
{
    for ring in rings {
        so_far = with_ring(so_far, ring);
    }
    so_far
}

fn with_ring(so_far: Option<Extent>, ring: &Ring) -> Option<Extent>
    ensures { IsGrown so_far result
        (λ y. list_any (λ (p : PointValue). int_le p.y y) ring.now)
        (λ y. list_any (λ (p : PointValue). int_le y p.y) ring.now) }
{
    with_points(so_far, ring.items())
}

fn with_points(mut so_far: Option<Extent>, points: &[Point]) -> Option<Extent>
    ensures { IsGrown so_far result
        (λ y. list_any (λ (p : PointValue). int_le p.y y) points.now)
        (λ y. list_any (λ (p : PointValue). int_le y p.y) points.now) }
{
    for point in points {
        so_far = with_point(so_far, *point);
    }
    so_far
}

fn with_point(so_far: Option<Extent>, point: Point) -> Option<Extent>
    ensures { IsGrown so_far result (λ y. int_le point.y y) (λ y. int_le y point.y) }
{
    with_heights(so_far, point.wide_y(), point.wide_y())
}

/// An extent with one more height at its top and one at its bottom.
fn with_heights(so_far: Option<Extent>, top: Wide, bottom: Wide) -> Option<Extent>
    requires top { unsigned_abs top < 2 ^ 64 }
    requires bottom { unsigned_abs bottom < 2 ^ 64 }
    ensures { IsGrown so_far result (λ y. int_le top y) (λ y. int_le y bottom) }
{
    match so_far {
        None => Some(Extent { top, bottom }),
        Some(extent) => Some(Extent {
            top: lesser(extent.top, top),
            bottom: greater(extent.bottom, bottom),
        }),
    }
}

fn lesser(a: Wide, b: Wide) -> Wide
    requires a { unsigned_abs a < 2 ^ 64 }
    requires b { unsigned_abs b < 2 ^ 64 }
    ensures value { (y : ℤ) → int_le result y ≡ (int_le a y || int_le b y) }
    ensures bound { unsigned_abs result < 2 ^ 64 }
{
    if a.is_at_most(b) { a } else { b }
}

fn greater(a: Wide, b: Wide) -> Wide
    requires a { unsigned_abs a < 2 ^ 64 }
    requires b { unsigned_abs b < 2 ^ 64 }
    ensures value { (y : ℤ) → int_le y result ≡ (int_le y a || int_le y b) }
    ensures bound { unsigned_abs result < 2 ^ 64 }
{
    if a.is_at_most(b) { b } else { a }
}
