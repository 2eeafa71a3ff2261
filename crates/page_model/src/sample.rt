//! The sample of a dot, and its code.
ghost use Rattle.std.specs.Prelude.{◌≡◌, ◌+◌, ◌*◌, ◌<◌, ◌≤◌, ◌^◌, pos, ◌+ℤ◌, ◌*ℤ◌, ◌<ℤ◌, unsigned_abs, IfSome};
ghost use Rattle.page_model.specs.Sample.{floor_quotient, column_at, row_at, place_of, sample_at, is_in_extent};
ghost use Rattle.page_model.specs.Sample.{value_at, code_at, mask_paints};

use crate::inside::centre_of;
use crate::{Image, ImageMap};
use press_fault::Code;
use press_nums::Wide;

/// The number of the sample that a dot's centre lies in, row by row from 0; `None` where it
/// lies outside the image (PostScript Language Reference, third edition, 4.10 Images).
#[tactic(auto, unfolding(crate::specs::Sample::sample_at))]
pub fn sample_at(image: &Image, row: u32, col: u32) -> Option<u32>
    ensures value { result ≡ sample_at image.now row col }
    ensures bound { IfSome result (λ sample. sample < image.now.width * image.now.rows) }
{
    if !is_in_extent(image, row) {
        return None;
    }
    let u = place_of(image.width, column_at(&image.map, row, col))?;
    let v = place_of(image.rows, row_at(&image.map, row, col))?;
    Some(number_of(image, u, v))
}

/// The number of the sample in a column and a row of an image.
#[tactic(auto, using(crate::proofs::Samples::is_below_all, crate::proofs::Samples::is_at_most_all))]
fn number_of(image: &Image, u: u32, v: u32) -> u32
    requires column { u < image.now.width }
    requires row { v < image.now.rows }
    ensures value { result ≡ image.now.width * v + u }
    ensures bound { result < image.now.width * image.now.rows }
{
    image.width * v + u
}

fn is_in_extent(image: &Image, row: u32) -> bool
    ensures { result ≡ is_in_extent image.now row }
{
    Wide::of(image.low).is_at_most(centre_of(row))
        && centre_of(row).is_at_most(Wide::of(image.high))
}

/// The column of samples that a dot's centre lies in, also outside the image.
fn column_at(map: &ImageMap, row: u32, col: u32) -> Wide
    ensures { result ≡ column_at map.now row col }
{
    let sum = product(map.a, odd(col)) + product(map.c, odd(row)) + map.tx;
    sum.floor_quotient(map.den)
}

/// The row of samples that a dot's centre lies in, also outside the image.
fn row_at(map: &ImageMap, row: u32, col: u32) -> Wide
    ensures { result ≡ row_at map.now row col }
{
    let sum = product(map.b, odd(col)) + product(map.d, odd(row)) + map.ty;
    sum.floor_quotient(map.den)
}

/// The centre of a row or a column, in halves of a dot.
fn odd(k: u32) -> Wide
    ensures value { result ≡ pos (2 * k + 1) }
    ensures bound { unsigned_abs result < 2 ^ 33 }
{
    Wide::of(2 * i64::from(k) + 1)
}

/// A coefficient of the map times a centre.
fn product(coefficient: Wide, centre: Wide) -> Wide
    requires coefficient { unsigned_abs coefficient < 2 ^ 88 }
    requires centre { unsigned_abs centre < 2 ^ 33 }
    ensures value { result ≡ coefficient *ℤ centre }
    ensures bound { unsigned_abs result < 2 ^ 121 }
{
    coefficient * centre
}

/// A whole number as a place, where it is one of so many.
fn place_of(count: u32, n: Wide) -> Option<u32>
    ensures value { result ≡ place_of count n }
    ensures bound { IfSome result (λ place. place < count) }
{
    if Wide::ZERO.is_at_most(n) && n.is_below(Wide::of(i64::from(count))) {
        Some(n.narrow() as u32)
    } else {
        None
    }
}

/// The code of the sample of a number, counted row by row from 0.
#[tactic(auto, unfolding(crate::specs::Sample::code_at))]
pub fn code_at(image: &Image, sample: u32) -> Code
    requires { sample < image.now.width * image.now.rows }
    ensures value { result ≡ code_at image.now sample }
    ensures channels { result.n ≡ image.now.channels }
{
    Code {
        n: image.channels,
        c: [
            value_at(image, sample, 0),
            value_at(image, sample, 1),
            value_at(image, sample, 2),
            value_at(image, sample, 3),
        ],
    }
}

fn value_at(image: &Image, sample: u32, channel: u8) -> u8
    requires { sample < image.now.width * image.now.rows }
    ensures { result ≡ value_at image.now sample channel }
{
    if channel < image.channels {
        image.codes.items()[usize::from(image.channels) * sample as usize + usize::from(channel)]
    } else {
        0
    }
}

/// Whether a mask paints at the sample of a number, counted row by row from 0.
#[tactic(auto, unfolding(crate::specs::Sample::mask_paints))]
pub fn mask_paints(image: &Image, sample: u32) -> bool
    requires sample { sample < image.now.width * image.now.rows }
    requires channels { image.now.channels ≡ 1 }
    ensures { result ≡ mask_paints image.now sample }
{
    image.codes.items()[sample as usize] == 255
}
