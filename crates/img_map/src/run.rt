//! The dots of a row that lie in an image.
ghost use Rattle.std.specs.Prelude.{◌≡◌, ◌+◌, ◌*◌, ◌<◌, ◌≤◌, ◌^◌, ◌⊎◌, ℕ, ℤ, pos, unsigned_abs, ◌<ℤ◌, ◌≤ℤ◌};
ghost use Rattle.std.specs.Prelude.{◌+ℤ◌, ◌-ℤ◌, ◌*ℤ◌};
ghost use Rattle.page_model.specs.Image.{IsImageMap};
ghost use Rattle.img_map.specs.Code.Carried.{across, down};
ghost use Rattle.img_map.specs.Code.Runs.{IsAmong, IsBeyond, IsRun, IsInside};

use crate::carried::place_of;
use page_model::{Image, ImageMap};
use press_nums::{Wide, divide_floor};

/// The numbers of a range from `first` up to and without `end`; none where the end isn't behind.
#[derive(Clone, Copy)]
pub(crate) struct Run {
    pub(crate) first: usize,
    pub(crate) end: usize,
}

/// Of so many dots of a row, from the column `from` on, those that lie among the image's samples.
pub(crate) fn run_inside(image: &Image, row: u32, from: u32, count: usize) -> Run
    requires { count ≤ 2 ^ 32 }
    ensures { IsInside image.now row from count result }
{
    see_image(image);
    let across = columns_run(image, row, from, count);
    let down = rows_run(image, row, from, count);
    Run {
        first: across.first.max(down.first),
        end: across.end.min(down.end),
    }
}

/// The bounds that the numbers of an image have.
pub(crate) fn see_image(image: &Image)
    ensures map { IsImageMap image.now.map }
    ensures columns { image.now.width < 2 ^ 32 }
    ensures rows { image.now.rows < 2 ^ 32 }
{
    see_map(&image.map);
    let _width = image.width;
    let _rows = image.rows;
}

/// The bounds that the numbers of a map have.
fn see_map(map: &ImageMap)
    ensures { IsImageMap map.now }
{
    let _den = map.den;
}

/// The dots that lie among the columns of samples.
fn columns_run(image: &Image, row: u32, from: u32, count: usize) -> Run
    requires { count ≤ 2 ^ 32 }
    ensures { IsRun (λ k. across image.now.map row (from + k)) (image.now.map.den *ℤ pos image.now.width) count result }
{
    let map = &image.map;
    axis_run(map.a, map.c, map.tx, map.den, image.width, row, from, count)
}

/// The dots that lie among the rows of samples.
fn rows_run(image: &Image, row: u32, from: u32, count: usize) -> Run
    requires { count ≤ 2 ^ 32 }
    ensures { IsRun (λ k. down image.now.map row (from + k)) (image.now.map.den *ℤ pos image.now.rows) count result }
{
    let map = &image.map;
    axis_run(map.b, map.d, map.ty, map.den, image.rows, row, from, count)
}

/// The dots that lie among so many columns or rows of samples, by the map's numbers for these.
fn axis_run(
    by_col: Wide,
    by_row: Wide,
    start: Wide,
    den: Wide,
    samples: u32,
    row: u32,
    from: u32,
    count: usize,
) -> Run
    requires by_col { unsigned_abs by_col < 2 ^ 88 }
    requires by_row { unsigned_abs by_row < 2 ^ 88 }
    requires start { unsigned_abs start < 2 ^ 111 }
    requires den { unsigned_abs den < 2 ^ 89 }
    requires count { count ≤ 2 ^ 32 }
    ensures { IsRun (λ k. by_col *ℤ pos (2 * (from + k) + 1) +ℤ by_row *ℤ pos (2 * row + 1) +ℤ start)
        (den *ℤ pos samples) count result }
{
    run_within(
        place_of(by_col, by_row, start, row, from),
        by_col.times(2),
        whole(den, samples),
        count,
    )
}

/// The end of so many columns or rows of samples, times the map's denominator.
fn whole(den: Wide, count: u32) -> Wide
    requires { unsigned_abs den < 2 ^ 89 }
    ensures value { result ≡ den *ℤ pos count }
    ensures bound { unsigned_abs result < 2 ^ 121 }
{
    den * Wide::of(i64::from(count))
}

/// The numbers at which what begins at `place` and grows by `growth` with each is from 0 on and
/// below `whole`.
fn run_within(place: Wide, growth: Wide, whole: Wide, count: usize) -> Run
    requires place { unsigned_abs place < 2 ^ 123 }
    requires growth { unsigned_abs growth < 2 ^ 90 }
    requires whole { unsigned_abs whole < 2 ^ 121 }
    requires count { count ≤ 2 ^ 32 }
    ensures { IsRun (λ k. place +ℤ growth *ℤ pos k) whole count result }
{
    if Wide::ZERO.is_below(growth) {
        rising_run(place, growth, whole, count)
    } else if growth.is_below(Wide::ZERO) {
        // Counted from the end, what falls rises.
        rising_run(whole - Wide::of(1) - place, growth.negated(), whole, count)
    } else {
        level_run(place, whole, count)
    }
}

/// The same for what grows.
fn rising_run(place: Wide, growth: Wide, whole: Wide, count: usize) -> Run
    requires place { unsigned_abs place < 2 ^ 124 }
    requires positive { pos 0 <ℤ growth }
    requires growth { unsigned_abs growth < 2 ^ 90 }
    requires whole { unsigned_abs whole < 2 ^ 121 }
    requires count { count ≤ 2 ^ 32 }
    ensures { IsRun (λ k. place +ℤ growth *ℤ pos k) whole count result }
{
    Run {
        first: first_from(place, growth, Wide::ZERO, count),
        end: first_from(place, growth, whole, count),
    }
}

/// The first number at which what grows has come to a bound, and the end of the range where there
/// is none.
fn first_from(place: Wide, growth: Wide, bound: Wide, count: usize) -> usize
    requires place { unsigned_abs place < 2 ^ 124 }
    requires positive { pos 0 <ℤ growth }
    requires growth { unsigned_abs growth < 2 ^ 90 }
    requires bound { unsigned_abs bound < 2 ^ 121 }
    requires count { count ≤ 2 ^ 32 }
    ensures end { result ≤ count }
    ensures before { (k : ℕ) → k < result → (place +ℤ growth *ℤ pos k) <ℤ bound }
    ensures from { (k : ℕ) → k < count → result ≤ k → bound ≤ℤ (place +ℤ growth *ℤ pos k) }
{
    clamped(
        divide_floor(place - bound, growth).quotient.negated(),
        count,
    )
}

/// The same for what stays.
fn level_run(place: Wide, whole: Wide, count: usize) -> Run
    ensures { IsRun (λ k. place) whole count result }
{
    if place.is_below(Wide::ZERO) {
        Run { first: 0, end: 0 }
    } else if whole.is_at_most(place) {
        Run { first: 0, end: 0 }
    } else {
        Run {
            first: 0,
            end: count,
        }
    }
}

/// The first of so many numbers from 0 that is another or greater, and their end where there is
/// none.
fn clamped(z: Wide, count: usize) -> usize
    requires { count ≤ 2 ^ 32 }
    ensures end { result ≤ count }
    ensures before { (k : ℕ) → k < result → pos k <ℤ z }
    ensures from { (k : ℕ) → k < count → result ≤ k → z ≤ℤ pos k }
{
    if z.is_at_most(Wide::ZERO) {
        0
    } else if Wide::of_size(count as u128).is_at_most(z) {
        count
    } else {
        z.size() as usize
    }
}
