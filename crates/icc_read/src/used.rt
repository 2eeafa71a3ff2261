//! The tags that a profile uses.
ghost use Rattle.std.specs.Prelude.{◌≡◌, ◌≤◌, false, length};
ghost use Rattle.std.specs.List.{list_all};
ghost use Rattle.std.specs.Option.{option_map_or};
ghost use Rattle.icc_read.specs.Table.{tag_of};
ghost use Rattle.icc_read.specs.Content.{has_other_type, is_misshapen};
ghost use Rattle.icc_read.specs.Tags.{has_tag, has_matrix, has_gray_curve, any_tag, has_wrong_type, has_misshapen};
ghost use Rattle.icc_read.specs.Tags.{forward_content, backward_content};
ghost use Rattle.icc_read.specs.Code.Premises.{IsTabled, HasChannels};

use crate::content::{Content, has_other_type, is_misshapen};
use crate::table::{channels_of, has_tag, is_gray, is_lab, is_rgb, tag_of};

/// The transforms to the connection space: `A2B0`, `A2B1` and `A2B2`.
pub(crate) const FORWARD: [u32; 3] = [0x4132_4230, 0x4132_4231, 0x4132_4232];
/// The transforms from it: `B2A0`, `B2A1` and `B2A2`.
pub(crate) const BACKWARD: [u32; 3] = [0x4232_4130, 0x4232_4131, 0x4232_4132];
/// The columns of the matrix: `rXYZ`, `gXYZ` and `bXYZ`.
pub(crate) const COLUMNS: [u32; 3] = [0x7258_595a, 0x6758_595a, 0x6258_595a];
/// Its curves: `rTRC`, `gTRC` and `bTRC`.
pub(crate) const CURVES: [u32; 3] = [0x7254_5243, 0x6754_5243, 0x6254_5243];
/// The curve of gray: `kTRC`.
pub(crate) const GRAY_CURVE: u32 = 0x6b54_5243;

/// What a transform to the connection space is.
pub(crate) fn forward_content(bytes: &[u8]) -> Content
    requires { 132 ≤ length bytes.now }
    ensures value { result ≡ forward_content bytes.now }
    ensures channels { HasChannels result }
{
    Content::Transform {
        forward: true,
        inputs: channels_of(bytes),
        lab: is_lab(bytes),
    }
}

/// What a transform from the connection space is.
pub(crate) fn backward_content(bytes: &[u8]) -> Content
    requires { 132 ≤ length bytes.now }
    ensures value { result ≡ backward_content bytes.now }
    ensures channels { HasChannels result }
{
    Content::Transform {
        forward: false,
        inputs: 3,
        lab: is_lab(bytes),
    }
}

/// Whether all tags of three signatures are there.
fn has_all(bytes: &[u8], signatures: [u32; 3]) -> bool
    requires { IsTabled bytes.now }
    ensures { result ≡ list_all (has_tag bytes.now) signatures }
{
    let [first, second, third] = signatures;
    has_tag(bytes, first) && has_tag(bytes, second) && has_tag(bytes, third)
}

/// Whether a profile of RGB and XYZ has a whole matrix.
#[tactic(auto, unfolding(crate::specs::Tags::has_matrix))]
pub(crate) fn has_matrix(bytes: &[u8]) -> bool
    requires { IsTabled bytes.now }
    ensures { result ≡ has_matrix bytes.now }
{
    is_rgb(bytes) && !is_lab(bytes) && has_all(bytes, COLUMNS) && has_all(bytes, CURVES)
}

/// Whether a profile of GRAY has its curve.
#[tactic(auto, unfolding(crate::specs::Tags::has_gray_curve))]
pub(crate) fn has_gray_curve(bytes: &[u8]) -> bool
    requires { IsTabled bytes.now }
    ensures { result ≡ has_gray_curve bytes.now }
{
    is_gray(bytes) && has_tag(bytes, GRAY_CURVE)
}

/// Whether the tag of a signature is there and of another type than its kind has.
fn is_wrong(bytes: &[u8], content: Content, signature: u32) -> bool
    requires tabled { IsTabled bytes.now }
    requires channels { HasChannels content }
    ensures { result ≡ option_map_or (has_other_type content) (tag_of bytes.now signature) false }
{
    match tag_of(bytes, signature) {
        None => false,
        Some(tag) => has_other_type(content, tag),
    }
}

/// Whether the tag of a signature is there and misshapen.
fn is_bad(bytes: &[u8], content: Content, signature: u32) -> bool
    requires tabled { IsTabled bytes.now }
    requires channels { HasChannels content }
    ensures { result ≡ option_map_or (is_misshapen content) (tag_of bytes.now signature) false }
{
    match tag_of(bytes, signature) {
        None => false,
        Some(tag) => is_misshapen(content, tag),
    }
}

/// Whether one of the tags of three signatures is of another type than its kind has.
fn any_wrong(bytes: &[u8], content: Content, signatures: [u32; 3]) -> bool
    requires tabled { IsTabled bytes.now }
    requires channels { HasChannels content }
    ensures { result ≡ any_tag bytes.now (has_other_type content) signatures }
{
    let [first, second, third] = signatures;
    is_wrong(bytes, content, first)
        || is_wrong(bytes, content, second)
        || is_wrong(bytes, content, third)
}

/// Whether one of the tags of three signatures is misshapen.
fn any_bad(bytes: &[u8], content: Content, signatures: [u32; 3]) -> bool
    requires tabled { IsTabled bytes.now }
    requires channels { HasChannels content }
    ensures { result ≡ any_tag bytes.now (is_misshapen content) signatures }
{
    let [first, second, third] = signatures;
    is_bad(bytes, content, first) || is_bad(bytes, content, second) || is_bad(bytes, content, third)
}

/// Whether a used tag of 8 bytes or more is of another type than its kind has.
#[tactic(auto, unfolding(crate::specs::Tags::has_wrong_type))]
pub(crate) fn has_wrong_type(bytes: &[u8]) -> bool
    requires { IsTabled bytes.now }
    ensures { result ≡ has_wrong_type bytes.now }
{
    any_wrong(bytes, forward_content(bytes), FORWARD)
        || (is_rgb(bytes) && any_wrong(bytes, backward_content(bytes), BACKWARD))
        || (is_rgb(bytes) && !is_lab(bytes) && any_wrong(bytes, Content::Column, COLUMNS))
        || (is_rgb(bytes) && !is_lab(bytes) && any_wrong(bytes, Content::Curve, CURVES))
        || (is_gray(bytes) && is_wrong(bytes, Content::Curve, GRAY_CURVE))
}

/// Whether a used tag is misshapen.
#[tactic(auto, unfolding(crate::specs::Tags::has_misshapen))]
pub(crate) fn has_misshapen(bytes: &[u8]) -> bool
    requires { IsTabled bytes.now }
    ensures { result ≡ has_misshapen bytes.now }
{
    any_bad(bytes, forward_content(bytes), FORWARD)
        || (is_rgb(bytes) && any_bad(bytes, backward_content(bytes), BACKWARD))
        || (is_rgb(bytes) && !is_lab(bytes) && any_bad(bytes, Content::Column, COLUMNS))
        || (is_rgb(bytes) && !is_lab(bytes) && any_bad(bytes, Content::Curve, CURVES))
        || (is_gray(bytes) && is_bad(bytes, Content::Curve, GRAY_CURVE))
}
