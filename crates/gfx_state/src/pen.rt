//! The pen that a stroke is painted with, by the line parameters and the matrix.
ghost use Rattle.std.specs.Prelude.{◌≡◌, ◌≢◌, ◌≤◌, ◌<◌, ◌^◌, ◌↔◌, ◌*ℤ◌, ◌≤ℤ◌, pos, true, map, unsigned_abs, Some, None};
ghost use Rattle.std.specs.Prelude.{Err, IfOk, IfSome, IsErrOf, IsTrue, ◌&&◌};
ghost use Rattle.std.specs.List.{list_all};
ghost use Rattle.press_nums.specs.Rounding.{div_round};
ghost use Rattle.gfx_state.specs.Lines.{IsDashArray};
ghost use Rattle.gfx_state.specs.Stroke.{scale_of, width_in, half_of, length_in, is_short, dash_in, pen_of};

use crate::line_style::LineStyle;
use geo_matrix::{Matrix, det};
use geo_stroke::{Dashes, Pen};
use press_fault::Grow;
use press_nums::{Fix, Wide, isqrt};
use std::alloc::Global;

/// The pen of line parameters under a matrix, refused exactly where its width is 2^31 sub-dots or
/// more, or one of its lengths 2^62 counts of 1/65536 of a dot. That is asked before any memory is.
pub(crate) fn pen(alloc: Global, m: &Matrix, line: &LineStyle) -> Result<Pen, Grow>
    ensures ok { IfOk result (λ pen. pen_of m.now line.now ≡ Some pen) }
    ensures limit { IsErrOf result Grow.LimitCheck ↔ (pen_of m.now line.now ≡ None) }
{
    let scale = scale(m);
    let lengths = line.lengths();
    if !are_lengths_short(scale, line) {
        return Err(Grow::LimitCheck);
    }
    let Some(half) = half(width(scale, line.width)) else {
        return Err(Grow::LimitCheck);
    };
    let dashes = dashes(alloc, scale, lengths)?;
    Ok(Pen {
        half: half.narrow(),
        cap: line.cap,
        join: line.join,
        miter: line.miter,
        dashes,
        offset: length(scale, line.offset).narrow(),
    })
}

/// Whether the pen of line parameters under a matrix is in range, so that `pen` doesn't refuse it.
pub(crate) fn has_pen(m: &Matrix, line: &LineStyle) -> bool
    ensures { IsTrue result ↔ (pen_of m.now line.now ≢ None) }
{
    let scale = scale(m);
    are_lengths_short(scale, line) && half(width(scale, line.width)).is_some()
}

/// Whether the offset and all dashes and gaps are of a magnitude below 2^62.
fn are_lengths_short(scale: u64, line: &LineStyle) -> bool
    ensures { result ≡ (is_short scale line.now.offset && list_all (is_short scale) line.now.dashes) }
{
    is_short(scale, line.offset) && are_short(scale, line.lengths())
}

/// How many dots a unit of user space is long, by 1/65536, rounded down.
#[tactic(auto, unfolding(crate::specs::Stroke::scale_of))]
fn scale(m: &Matrix) -> u64
    ensures { result ≡ scale_of m.now }
{
    isqrt(det(m).unsigned_abs())
}

/// A number times the scale, in units of so many 1/2^32.
fn scaled(scale: u64, value: Fix, unit: u32) -> Wide
    requires { 0 < unit }
    ensures { result ≡ div_round (value *ℤ pos scale) (pos unit) }
{
    (value.wide() * Wide::of_size(u128::from(scale))).div_round(Wide::of(i64::from(unit)))
}

/// The width of a line in sub-dots, one dot at least.
fn width(scale: u64, width: Fix) -> Wide
    ensures value { result ≡ width_in scale width }
    ensures least { pos 256 ≤ℤ result }
{
    let width = scaled(scale, width, 16777216);
    if width.is_below(Wide::of(256)) {
        Wide::of(256)
    } else {
        width
    }
}

/// Half of a width of one dot at least, where that is below 2^31 sub-dots.
fn half(width: Wide) -> Option<Wide>
    requires { pos 256 ≤ℤ width }
    ensures value { result ≡ half_of width }
    ensures least { IfSome result (λ half. pos 128 ≤ℤ half) }
    ensures most { IfSome result (λ half. half ≤ℤ pos (2 ^ 30)) }
{
    if width.is_below(Wide::of(0x8000_0000)) {
        Some(width.div_round(Wide::of(2)))
    } else {
        None
    }
}

/// A length along a line, by 1/65536 of a dot.
fn length(scale: u64, length: Fix) -> Wide
    ensures { result ≡ length_in scale length }
{
    scaled(scale, length, 65536)
}

/// Whether that is of a magnitude below 2^62.
fn is_short(scale: u64, value: Fix) -> bool
    ensures { result ≡ is_short scale value }
{
    length(scale, value).size() < 0x4000_0000_0000_0000
}

fn are_short(scale: u64, lengths: &[Fix]) -> bool
    ensures { result ≡ list_all (is_short scale) lengths.now }
{
    lengths.iter().all(|length| is_short(scale, *length))
}

/// The lengths of dashes and gaps, by 1/65536 of a dot.
fn dashes(alloc: Global, scale: u64, lengths: &[Fix]) -> Result<Dashes, Grow>
    requires kept { IsDashArray lengths.now }
    requires short { list_all (is_short scale) lengths.now ≡ true }
    ensures ok { IfOk result (λ dashes. dashes ≡ map (dash_in scale) lengths.now) }
    ensures limit { result ≢ Err Grow.LimitCheck }
{
    let mut dashes = Dashes::new(alloc);
    for dash in lengths {
        dashes.push(length(scale, *dash).size() as u64)?;
    }
    Ok(dashes)
}
