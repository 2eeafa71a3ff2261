//! Which dots a mark covers, and the colour of a dot.
ghost use Rattle.std.specs.Prelude.{◌≡◌, ◌<◌, ◌≤◌, ◌^◌, ◌+◌, ◌-◌, ◌*◌, ℕ, List, min, ◌*ℤ◌, unsigned_abs, All, reverse};
ghost use Rattle.std.specs.List.{find, list_any, list_all};
ghost use Rattle.std.specs.Option.{option_copied};
ghost use Rattle.press_fault.specs.Plane.{CodeValue};
ghost use Rattle.page_model.specs.Marking.{painting_of, IsSuited};
ghost use Rattle.page_model.specs.Page.{HasKnownSource, IsNumbered, ink_source};
ghost use Rattle.page_model.specs.Sample.{code_at};
ghost use Rattle.page_model.specs.declared.page.Depth.{Depth};
ghost use Rattle.page_model.specs.Cover.{covers_dot, shape_holds, region_holds, disc_holds, image_holds, plain_rgb};
ghost use Rattle.page_model.specs.Cover.{dot_rgb, mark_rgb, ink_rgb, sample_ink, InkHasChannels, ImageHasChannels};
ghost use Rattle.page_model.specs.Cover.{HasChannels};

use crate::inside::{centre_of, do_rings_hold};
use crate::sample::{code_at, mask_paints, sample_at};
use crate::{Disc, Image, Ink, Mark, Page, Paint, Region, Rule, Shape};
use press_fault::Code;
use press_nums::Wide;

/// Whether a mark covers the dot of a row and a column, by the dot's centre (PostScript
/// Language Reference, third edition, 4.5 Painting).
#[tactic(auto, unfolding(crate::specs::Cover::covers_dot))]
pub fn covers(mark: &Mark, row: u32, col: u32) -> bool
    ensures { result ≡ covers_dot row col mark.now }
{
    (is_in_some_shape(mark.rule, mark.shapes.items(), row, col) || is_in_image(mark, row, col))
        && is_in_each_region(mark.clip.items(), row, col)
}

/// Whether the image of a mark has a sample at a dot, which a mask has to paint.
fn is_in_image(mark: &Mark, row: u32, col: u32) -> bool
    ensures { result ≡ image_holds row col mark.now.paint }
{
    match &mark.paint {
        Paint::Flat(_) => false,
        Paint::Image(image) => sample_at(image, row, col).is_some(),
        Paint::Mask(image, _) => match sample_at(image, row, col) {
            Some(sample) => mask_paints(image, sample),
            None => false,
        },
    }
}

fn is_in_some_shape(rule: Rule, shapes: &[Shape], row: u32, col: u32) -> bool
    ensures { result ≡ list_any (shape_holds rule row col) shapes.now }
{
    shapes
        .iter()
        .any(|shape| does_shape_hold(rule, shape, row, col))
}

fn is_in_each_region(regions: &[Region], row: u32, col: u32) -> bool
    ensures { result ≡ list_all (region_holds row col) regions.now }
{
    regions
        .iter()
        .all(|region| does_region_hold(region, row, col))
}

/// Whether a shape holds the centre of a dot, by an inside rule if it is a polygon.
pub fn does_shape_hold(rule: Rule, shape: &Shape, row: u32, col: u32) -> bool
    ensures { result ≡ shape_holds rule row col shape.now }
{
    match shape {
        Shape::Poly(rings) => do_rings_hold(rule, rings.items(), row, col),
        Shape::Disc(disc) => does_disc_hold(disc, row, col),
    }
}

/// Whether the centre of a dot is no further from a disc's centre than its radius.
#[tactic(auto, unfolding(crate::specs::Cover::disc_holds))]
fn does_disc_hold(disc: &Disc, row: u32, col: u32) -> bool
    ensures { result ≡ disc_holds disc.now row col }
{
    let across = square(centre_of(col) - disc.wide_x());
    let down = square(centre_of(row) - disc.wide_y());
    (across + down).is_at_most(square(disc.wide_r()))
}

fn square(a: Wide) -> Wide
    requires { unsigned_abs a < 2 ^ 46 }
    ensures value { result ≡ a *ℤ a }
    ensures bound { unsigned_abs result < 2 ^ 92 }
{
    a * a
}

/// Whether a region of a clip holds the centre of a dot.
pub fn does_region_hold(region: &Region, row: u32, col: u32) -> bool
    ensures { result ≡ region_holds row col region.now }
{
    do_rings_hold(region.rule, region.rings.items(), row, col)
}

/// The colours that the sources of a page give their codes.
pub trait Table {
    /// How many sources there are.
    ghost sources: { Self → ℕ };

    /// How many channels the codes of a source have.
    ghost channels: { Self → ℕ → ℕ };

    /// The colour of a source's code.
    ghost tint: { Self → ℕ → CodeValue → List ℕ };

    /// The red, green and blue, from 0 to 255, of a source's code.
    fn colour(&self, source: u32, code: Code) -> [u8; 3]
        requires known { source < sources self.now }
        requires code { code.n ≡ channels self.now source }
        ensures { result ≡ tint self.now source code };
}

/// The red, green and blue, from 0 to 255, of a plain code (PostScript Language Reference,
/// third edition, 7.2 Conversions among Device Color Spaces).
pub fn plain_rule(code: Code) -> [u8; 3]
    ensures { result ≡ plain_rgb code }
{
    let [first, second, third, black] = code.c;
    match code.n {
        1 => [first, first, first],
        3 => [first, second, third],
        _ => [
            light(first, black),
            light(second, black),
            light(third, black),
        ],
    }
}

fn light(ink: u8, black: u8) -> u8
    ensures { result ≡ 255 - min 255 (ink + black) }
{
    255 - ink.saturating_add(black)
}

/// The red, green and blue at a depth of 8 bits, so from 0 to 255, of the last mark that covers a
/// dot; white where none does.
#[tactic(auto, unfolding(crate::specs::Cover::dot_rgb))]
pub fn plain_dot<T: Table>(page: &Page, row: u32, col: u32, table: &T) -> [u8; 3]
    requires sources { page.now.sources ≤ T.sources table.now }
    requires channels { All (HasChannels (T.channels table.now)) page.now.marks }
    ensures { result ≡ dot_rgb Depth.Eight (T.tint table.now) page.now.marks row col }
{
    match topmost(page.marks.items(), row, col) {
        Some(mark) => mark_colour(mark, row, col, table),
        None => [255, 255, 255],
    }
}

/// The last mark that covers a dot.
fn topmost(marks: &[Mark], row: u32, col: u32) -> Option<&Mark>
    ensures { option_copied result ≡ find (covers_dot row col) (reverse marks.now) }
{
    marks.iter().rev().find(|mark| covers(mark, row, col))
}

/// The colour of a mark at a dot that it covers.
fn mark_colour<T: Table>(mark: &Mark, row: u32, col: u32, table: &T) -> [u8; 3]
    requires sources { HasKnownSource (T.sources table.now) mark.now }
    requires channels { HasChannels (T.channels table.now) mark.now }
    ensures { result ≡ mark_rgb Depth.Eight (T.tint table.now) row col mark.now }
{
    match &mark.paint {
        Paint::Flat(ink) => ink_colour(*ink, table),
        Paint::Image(image) => match sample_at(image, row, col) {
            Some(sample) => sample_colour(image, sample, table),
            None => [255, 255, 255],
        },
        Paint::Mask(_, ink) => ink_colour(*ink, table),
    }
}

/// The colour of a sample, by its image's source if there is one.
fn sample_colour<T: Table>(image: &Image, sample: u32, table: &T) -> [u8; 3]
    requires sample { sample < image.now.width * image.now.rows }
    requires sources { IsNumbered (T.sources table.now) image.now.source }
    requires channels { ImageHasChannels (T.channels table.now) image.now.channels image.now.source }
    ensures { result ≡ ink_rgb Depth.Eight (T.tint table.now) (sample_ink image.now.source (code_at image.now sample)) }
{
    let code = code_at(image, sample);
    match image.source {
        Some(source) => table.colour(source, code),
        None => plain_rule(code),
    }
}

fn ink_colour<T: Table>(ink: Ink, table: &T) -> [u8; 3]
    requires sources { IsNumbered (T.sources table.now) (ink_source ink) }
    requires channels { InkHasChannels (T.channels table.now) ink }
    ensures { result ≡ ink_rgb Depth.Eight (T.tint table.now) ink }
{
    match ink {
        Ink::Plain(code) => plain_rule(code),
        Ink::Linked { source, code } => table.colour(source, code),
    }
}
