//! A quotient that is carried along a row of dots, with what it leaves.
ghost use Rattle.std.specs.Prelude.{◌≡◌, ◌+◌, ◌*◌, ◌<◌, ◌≤◌, ◌^◌, ℤ, pos, ◌+ℤ◌, ◌*ℤ◌, ◌<ℤ◌, unsigned_abs};
ghost use Rattle.img_map.specs.Code.Carried.{across, down, IsDivided, IsSmallDivision};

use page_model::Image;
use press_nums::{FloorDivision, Wide, divide_floor};

/// The column of samples in which a dot's centre lies, and what is left of the division.
pub(crate) fn across_at(image: &Image, row: u32, col: u32) -> FloorDivision
    ensures { IsDivided (across image.now.map row col) image.now.map.den result }
{
    let map = &image.map;
    divide_floor(place_of(map.a, map.c, map.tx, row, col), map.den)
}

/// The row of samples in which a dot's centre lies, and what is left of the division.
pub(crate) fn down_at(image: &Image, row: u32, col: u32) -> FloorDivision
    ensures { IsDivided (down image.now.map row col) image.now.map.den result }
{
    let map = &image.map;
    divide_floor(place_of(map.b, map.d, map.ty, row, col), map.den)
}

/// How many columns of samples lie between two dots of a row, and what is left of the division.
pub(crate) fn across_step(image: &Image) -> FloorDivision
    ensures step { IsDivided (image.now.map.a *ℤ pos 2) image.now.map.den result }
    ensures small { IsSmallDivision result }
{
    let map = &image.map;
    step_of(map.a, map.den)
}

/// How many rows of samples lie between two dots of a row, and what is left of the division.
pub(crate) fn down_step(image: &Image) -> FloorDivision
    ensures step { IsDivided (image.now.map.b *ℤ pos 2) image.now.map.den result }
    ensures small { IsSmallDivision result }
{
    let map = &image.map;
    step_of(map.b, map.den)
}

/// The column or row of samples of the next dot, and what is left there.
pub(crate) fn next_at(image: &Image, at: &FloorDivision, step: &FloorDivision) -> FloorDivision
    requires at { IsSmallDivision at.now }
    requires step { IsSmallDivision step.now }
    ensures { (n g : ℤ) → IsDivided n image.now.map.den at.now → IsDivided g image.now.map.den step.now →
        IsDivided (n +ℤ g) image.now.map.den result }
{
    let map = &image.map;
    carried(at, step, map.den)
}

/// What a coordinate grows by from dot to dot, divided by the map's denominator. `coefficient` is
/// what it grows by with half a dot.
fn step_of(coefficient: Wide, den: Wide) -> FloorDivision
    requires coefficient { unsigned_abs coefficient < 2 ^ 88 }
    requires positive { pos 0 <ℤ den }
    requires den { unsigned_abs den < 2 ^ 89 }
    ensures step { IsDivided (coefficient *ℤ pos 2) den result }
    ensures small { IsSmallDivision result }
{
    divide_floor(coefficient.times(2), den)
}

/// The quotient at the next dot, and what is left there; nothing is divided for it.
fn carried(at: &FloorDivision, step: &FloorDivision, den: Wide) -> FloorDivision
    requires den { unsigned_abs den < 2 ^ 89 }
    requires at { IsSmallDivision at.now }
    requires step { IsSmallDivision step.now }
    ensures { (n g : ℤ) → IsDivided n den at.now → IsDivided g den step.now →
        IsDivided (n +ℤ g) den result }
{
    let quotient = at.quotient + step.quotient;
    let remainder = at.remainder + step.remainder;
    if remainder.is_below(den) {
        FloorDivision {
            quotient,
            remainder,
        }
    } else {
        FloorDivision {
            quotient: quotient + Wide::of(1),
            remainder: remainder - den,
        }
    }
}

/// A coordinate of the samples at a dot's centre, times the map's denominator.
pub(crate) fn place_of(by_col: Wide, by_row: Wide, start: Wide, row: u32, col: u32) -> Wide
    requires by_col { unsigned_abs by_col < 2 ^ 88 }
    requires by_row { unsigned_abs by_row < 2 ^ 88 }
    requires start { unsigned_abs start < 2 ^ 111 }
    ensures value { result ≡ by_col *ℤ pos (2 * col + 1) +ℤ by_row *ℤ pos (2 * row + 1) +ℤ start }
    ensures bound { unsigned_abs result < 2 ^ 123 }
{
    product(by_col, odd(col)) + product(by_row, odd(row)) + start
}

/// The centre of a row or a column, in halves of a dot.
fn odd(k: u32) -> Wide
    ensures value { result ≡ pos (2 * k + 1) }
    ensures bound { unsigned_abs result < 2 ^ 33 }
{
    Wide::of(2 * i64::from(k) + 1)
}

/// A coefficient of the map times a centre.
fn product(coefficient: Wide, centre: Wide) -> Wide
    requires coefficient { unsigned_abs coefficient < 2 ^ 88 }
    requires centre { unsigned_abs centre < 2 ^ 33 }
    ensures value { result ≡ coefficient *ℤ centre }
    ensures bound { unsigned_abs result < 2 ^ 121 }
{
    coefficient * centre
}
