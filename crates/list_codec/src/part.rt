//! Parts of commands at the front of bytes, which take no memory.
ghost use Rattle.std.specs.Prelude.{◌≡◌, ◌<◌, ◌^◌, unsigned_abs, [], ◌∷◌};
ghost use Rattle.list_codec.specs.Code.Reading.{Reads, point_at, disc_at, rule_at, code_at, ink_at, index_at};
ghost use Rattle.list_codec.specs.Code.Reading.{is_within, gray_at, rgb_at, cmyk_at, ink_of, rule_of};
ghost use Rattle.page_model.specs.declared.shape.Rule.TheVariants.{Nonzero, EvenOdd};

use crate::number::{byte_at, number_at, signed_at};
use page_model::{Disc, Ink, Rule};
use press_fault::{Code, Point};
use press_nums::Wide;

/// A point, told from the one before.
#[tactic(auto, unfolding(crate::specs::Code::Reading::point_at))]
pub fn point_at(before: Point, bytes: &[u8]) -> Option<(Point, &[u8])>
    ensures { Reads (λ x. (x.0, x.1.now)) result (point_at before bytes.now) }
{
    let Some((across, rest)) = signed_at(bytes) else {
        return None;
    };
    let Some((down, rest)) = signed_at(rest) else {
        return None;
    };
    let x = before.wide_x() + across;
    let y = before.wide_y() + down;
    if !is_within(x) || !is_within(y) {
        return None;
    }
    Some((Point::of_wide(x, y), rest))
}

/// Whether a coordinate is one of the plane: its magnitude is below 2^44.
fn is_within(z: Wide) -> bool
    ensures { result ≡ is_within z }
{
    z.size() < 1 << 44
}

/// A disc.
#[tactic(auto, unfolding(crate::specs::Code::Reading::disc_at))]
pub fn disc_at(bytes: &[u8]) -> Option<(Disc, &[u8])>
    ensures { Reads (λ x. (x.0, x.1.now)) result (disc_at bytes.now) }
{
    let Some((x, rest)) = signed_at(bytes) else {
        return None;
    };
    let Some((y, rest)) = signed_at(rest) else {
        return None;
    };
    let (r, rest) = number_at(rest)?;
    if !is_within(x) || !is_within(y) || r >= 1 << 44 {
        return None;
    }
    Some((Disc::new(Point::of_wide(x, y), r), rest))
}

/// An inside rule.
#[tactic(auto, unfolding(crate::specs::Code::Reading::rule_at))]
pub fn rule_at(bytes: &[u8]) -> Option<(Rule, &[u8])>
    ensures { Reads (λ x. (x.0, x.1.now)) result (rule_at bytes.now) }
{
    let (byte, rest) = byte_at(bytes)?;
    match byte {
        0 => Some((Rule::Nonzero, rest)),
        1 => Some((Rule::EvenOdd, rest)),
        _ => None,
    }
}

/// The place of an image in the page's table.
#[tactic(auto, unfolding(crate::specs::Code::Reading::index_at))]
pub fn index_at(bytes: &[u8]) -> Option<(u32, &[u8])>
    ensures { Reads (λ x. (x.0, x.1.now)) result (index_at bytes.now) }
{
    let (n, rest) = number_at(bytes)?;
    if n >= 1 << 32 {
        return None;
    }
    Some((n as u32, rest))
}

/// An ink.
#[tactic(auto, unfolding(crate::specs::Code::Reading::ink_at))]
pub fn ink_at(bytes: &[u8]) -> Option<(Ink, &[u8])>
    ensures { Reads (λ x. (x.0, x.1.now)) result (ink_at bytes.now) }
{
    let (channels, rest) = byte_at(bytes)?;
    let (place, rest) = number_at(rest)?;
    let Some((code, rest)) = code_at(channels, rest) else {
        return None;
    };
    if place == 0 {
        return Some((Ink::Plain(code), rest));
    }
    let source = place - 1;
    if source >= 1 << 32 {
        return None;
    }
    Some((
        Ink::Linked {
            source: source as u32,
            code,
        },
        rest,
    ))
}

/// A code of one, three or four channels.
#[tactic(auto, unfolding(crate::specs::Code::Reading::code_at))]
fn code_at(channels: u8, bytes: &[u8]) -> Option<(Code, &[u8])>
    ensures { Reads (λ x. (x.0, x.1.now)) result (code_at channels bytes.now) }
{
    match channels {
        1 => gray_at(bytes),
        3 => rgb_at(bytes),
        4 => cmyk_at(bytes),
        _ => None,
    }
}

fn gray_at(bytes: &[u8]) -> Option<(Code, &[u8])>
    ensures { Reads (λ x. (x.0, x.1.now)) result (gray_at bytes.now) }
{
    let (gray, rest) = byte_at(bytes)?;
    Some((Code::gray(gray), rest))
}

fn rgb_at(bytes: &[u8]) -> Option<(Code, &[u8])>
    ensures { Reads (λ x. (x.0, x.1.now)) result (rgb_at bytes.now) }
{
    let (red, rest) = byte_at(bytes)?;
    let (green, rest) = byte_at(rest)?;
    let (blue, rest) = byte_at(rest)?;
    Some((Code::rgb(red, green, blue), rest))
}

fn cmyk_at(bytes: &[u8]) -> Option<(Code, &[u8])>
    ensures { Reads (λ x. (x.0, x.1.now)) result (cmyk_at bytes.now) }
{
    let (cyan, rest) = byte_at(bytes)?;
    let (magenta, rest) = byte_at(rest)?;
    let (yellow, rest) = byte_at(rest)?;
    let (black, rest) = byte_at(rest)?;
    let code = Code {
        n: 4,
        c: [cyan, magenta, yellow, black],
    };
    Some((code, rest))
}
