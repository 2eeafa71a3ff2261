//! The heights on the page between which an image lies.
ghost use Rattle.std.specs.Prelude.{◌≡◌, ◌<◌, ◌*◌, ◌^◌, pos, unsigned_abs, IfSome};
ghost use Rattle.std.specs.Int.{int_min, int_max};
ghost use Rattle.ps_image_ops.specs.Extent.{corner_height, extent_by, extent_of};

use geo_matrix::{Matrix, back, to_dots};
use press_fault::Point;
use press_nums::Wide;

/// The least and the greatest height of an image, in sub-dots.
#[derive(Clone, Copy, Debug, PartialEq, Eq)]
pub(crate) struct Extent {
    pub low: Wide,
    pub high: Wide,
}

/// The heights between which an image of so many columns and rows lies, by the current matrix and its
/// own.
pub(crate) fn extent_of(current: &Matrix, matrix: &Matrix, columns: u32, rows: u32) -> Extent
    ensures value { result ≡ extent_of current.now matrix.now columns rows }
    ensures low { unsigned_abs result.low < 2 ^ 63 }
    ensures high { unsigned_abs result.high < 2 ^ 63 }
{
    extent_by(
        corner_height(current, matrix, 0, 0),
        corner_height(current, matrix, columns, 0),
        corner_height(current, matrix, columns, rows),
        corner_height(current, matrix, 0, rows),
    )
}

/// The height on the page of the place between columns and rows of samples.
fn corner_height(current: &Matrix, matrix: &Matrix, columns: u32, rows: u32) -> Option<Wide>
    ensures value { result ≡ corner_height current.now matrix.now columns rows }
    ensures near { IfSome result (λ y. unsigned_abs y < 2 ^ 31) }
{
    let Ok(u) = back(matrix, corner(columns, rows)) else {
        return None;
    };
    match to_dots(current, u.x, u.y) {
        Ok(p) => Some(p.wide_y()),
        Err(_) => None,
    }
}

/// The place between columns and rows of samples, in 1/256.
fn corner(columns: u32, rows: u32) -> Point
    ensures { result ≡ record { x = pos (256 * columns); y = pos (256 * rows) } }
{
    Point::of_wide(
        Wide::of_size(256 * u128::from(columns)),
        Wide::of_size(256 * u128::from(rows)),
    )
}

/// The heights of four corners, and a dot more on either side.
fn extent_by(p: Option<Wide>, q: Option<Wide>, r: Option<Wide>, s: Option<Wide>) -> Extent
    requires p { IfSome p (λ y. unsigned_abs y < 2 ^ 31) }
    requires q { IfSome q (λ y. unsigned_abs y < 2 ^ 31) }
    requires r { IfSome r (λ y. unsigned_abs y < 2 ^ 31) }
    requires s { IfSome s (λ y. unsigned_abs y < 2 ^ 31) }
    ensures value { result ≡ extent_by p q r s }
    ensures low { unsigned_abs result.low < 2 ^ 63 }
    ensures high { unsigned_abs result.high < 2 ^ 63 }
{
    let (Some(p), Some(q), Some(r), Some(s)) = (p, q, r, s) else {
        return Extent {
            low: Wide::of(-0x8000_0000),
            high: Wide::of(0x8000_0000),
        };
    };
    Extent {
        low: lesser(lesser(p, q), lesser(r, s)) - Wide::of(256),
        high: greater(greater(p, q), greater(r, s)) + Wide::of(256),
    }
}

fn lesser(a: Wide, b: Wide) -> Wide
    requires a { unsigned_abs a < 2 ^ 31 }
    requires b { unsigned_abs b < 2 ^ 31 }
    ensures value { result ≡ int_min a b }
    ensures bound { unsigned_abs result < 2 ^ 31 }
{
    if b.is_below(a) { b } else { a }
}

fn greater(a: Wide, b: Wide) -> Wide
    requires a { unsigned_abs a < 2 ^ 31 }
    requires b { unsigned_abs b < 2 ^ 31 }
    ensures value { result ≡ int_max a b }
    ensures bound { unsigned_abs result < 2 ^ 31 }
{
    if b.is_below(a) { a } else { b }
}
