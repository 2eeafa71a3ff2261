//! What a tag of each kind has to be.
ghost use Rattle.std.specs.Prelude.{◌≡◌, ◌≤◌, ◌<◌, ◌+◌, ◌*◌, ◌^◌, ◌==◌, length};
ghost use Rattle.icc_power.specs.CurveTag.{type_of};
ghost use Rattle.icc_read.specs.Content.{is_other_column, is_bad_column, is_other_transform, has_bad_grid, node_count};
ghost use Rattle.icc_read.specs.Content.{is_bad_count, is_bad_mft1, is_bad_mft2, is_bad_transform, mft2, mft1};
ghost use Rattle.icc_read.specs.Content.{has_other_type, is_misshapen, mft2_size, is_stages, is_kind, is_shape};
ghost use Rattle.icc_read.specs.Code.Premises.{IsChannels, HasChannels};

use crate::table::XYZ;
use icc_power::{u16_at, u32_at};
use icc_v4lut::{PartFault, stages_fault};

/// The type of a lut of 8 bits.
const MFT1: u32 = 0x6d66_7431;
/// The type of a lut of 16 bits.
const MFT2: u32 = 0x6d66_7432;

/// The type of stages to the connection space.
const MAB: u32 = 0x6d41_4220;
/// The type of stages from it.
const MBA: u32 = 0x6d42_4120;

/// What a used tag is.
#[derive(Clone, Copy, Debug, PartialEq, Eq)]
pub(crate) enum Content {
    /// A transform to the connection space, else from it, of so many input channels, with the
    /// connection space Lab, else XYZ.
    Transform {
        forward: bool,
        inputs: u8,
        lab: bool,
    },
    /// A column of the matrix.
    Column,
    /// A curve.
    Curve,
}

/// Whether the type is that of a lut of 16 bits.
pub(crate) fn is_mft2(tag: &[u8]) -> bool
    requires { 4 ≤ length tag.now }
    ensures { result ≡ (type_of tag.now == mft2) }
{
    u32_at(tag, 0) == MFT2
}

/// Whether the type is that of a lut of 8 bits.
fn is_mft1(tag: &[u8]) -> bool
    requires { 4 ≤ length tag.now }
    ensures { result ≡ (type_of tag.now == mft1) }
{
    u32_at(tag, 0) == MFT1
}

/// Whether a tag of 8 bytes or more is of another type than a column.
#[tactic(auto, unfolding(crate::specs::Content::is_other_column))]
fn is_other_column(tag: &[u8]) -> bool
    ensures { result ≡ is_other_column tag.now }
{
    if tag.len() < 8 {
        return false;
    }
    u32_at(tag, 0) != XYZ
}

/// Whether a column is shorter than its three numbers.
#[tactic(auto, unfolding(crate::specs::Content::is_bad_column))]
fn is_bad_column(tag: &[u8]) -> bool
    ensures { result ≡ is_bad_column tag.now }
{
    tag.len() < 20
}

/// Whether the type is that of the stages of this way.
pub(crate) fn is_stages(forward: bool, tag: &[u8]) -> bool
    requires { 4 ≤ length tag.now }
    ensures { result ≡ is_stages forward tag.now }
{
    let stages = if forward { MAB } else { MBA };
    u32_at(tag, 0) == stages
}

/// Whether a fault of stages is that of a curve's type.
fn is_kind(fault: Option<PartFault>) -> bool
    ensures { result ≡ is_kind fault }
{
    match fault {
        Some(PartFault::Kind) => true,
        Some(PartFault::Shape) => false,
        None => false,
    }
}

/// Whether it is one of the shape.
fn is_shape(fault: Option<PartFault>) -> bool
    ensures { result ≡ is_shape fault }
{
    match fault {
        Some(PartFault::Kind) => false,
        Some(PartFault::Shape) => true,
        None => false,
    }
}

/// Whether a tag of 8 bytes or more is of another type than a transform, or has stages with a curve
/// of another type than curves have.
#[tactic(auto, unfolding(crate::specs::Content::is_other_transform))]
fn is_other_transform(forward: bool, inputs: u8, lab: bool, tag: &[u8]) -> bool
    requires { IsChannels inputs }
    ensures { result ≡ is_other_transform forward inputs lab tag.now }
{
    if tag.len() < 8 {
        return false;
    }
    if is_stages(forward, tag) {
        return is_kind(stages_fault(inputs, tag));
    }
    if is_mft2(tag) {
        return false;
    }
    if lab {
        return !is_mft1(tag);
    }
    true
}

/// Whether a lut has other channels, or fewer than two grid points.
fn has_bad_grid(inputs: u8, tag: &[u8]) -> bool
    requires { 48 ≤ length tag.now }
    ensures { result ≡ has_bad_grid inputs tag.now }
{
    if tag[8] != inputs {
        return true;
    }
    if tag[9] != 3 {
        return true;
    }
    tag[10] < 2
}

/// The values of a lattice of so many channels and grid points of each.
pub(crate) fn node_count(inputs: u8, grid: u8) -> usize
    requires { IsChannels inputs }
    ensures value { result ≡ grid ^ inputs * 3 }
    ensures bound { result ≤ 255 ^ 4 * 3 }
{
    let grid = usize::from(grid);
    match inputs {
        1 => grid * 3,
        3 => cube(grid) * 3,
        _ => fourth(grid) * 3,
    }
}

fn cube(grid: usize) -> usize
    requires { grid ≤ 255 }
    ensures value { result ≡ grid ^ 3 }
    ensures bound { result ≤ 255 ^ 3 }
{
    grid * grid * grid
}

fn fourth(grid: usize) -> usize
    requires { grid ≤ 255 }
    ensures value { result ≡ grid ^ 4 }
    ensures bound { result ≤ 255 ^ 4 }
{
    cube(grid) * grid
}

/// Whether a table can't have so many entries.
fn is_bad_count(count: u16) -> bool
    ensures { result ≡ is_bad_count count }
{
    count < 2 || 4096 < count
}

/// Whether a lut of 8 bits is misshapen.
#[tactic(auto, unfolding(crate::specs::Content::is_bad_mft1))]
fn is_bad_mft1(inputs: u8, tag: &[u8]) -> bool
    requires { IsChannels inputs }
    ensures { result ≡ is_bad_mft1 inputs tag.now }
{
    if tag.len() < 48 {
        return true;
    }
    if has_bad_grid(inputs, tag) {
        return true;
    }
    tag.len() < 48 + (usize::from(inputs) * 256 + node_count(inputs, tag[10]) + 3 * 256)
}

/// The bytes of a lut of 16 bits.
fn mft2_size(inputs: u8, tag: &[u8]) -> usize
    requires channels { IsChannels inputs }
    requires long { 52 ≤ length tag.now }
    ensures { result ≡ mft2_size inputs tag.now }
{
    let before = usize::from(inputs) * usize::from(u16_at(tag, 48));
    let after = 3 * usize::from(u16_at(tag, 50));
    52 + 2 * (before + node_count(inputs, tag[10]) + after)
}

/// Whether a lut of 16 bits is misshapen.
#[tactic(auto, unfolding(crate::specs::Content::is_bad_mft2))]
fn is_bad_mft2(inputs: u8, tag: &[u8]) -> bool
    requires { IsChannels inputs }
    ensures { result ≡ is_bad_mft2 inputs tag.now }
{
    if tag.len() < 52 {
        return true;
    }
    if has_bad_grid(inputs, tag) {
        return true;
    }
    if is_bad_count(u16_at(tag, 48)) {
        return true;
    }
    if is_bad_count(u16_at(tag, 50)) {
        return true;
    }
    tag.len() < mft2_size(inputs, tag)
}

/// Whether a transform is misshapen.
#[tactic(auto, unfolding(crate::specs::Content::is_bad_transform))]
fn is_bad_transform(forward: bool, inputs: u8, tag: &[u8]) -> bool
    requires { IsChannels inputs }
    ensures { result ≡ is_bad_transform forward inputs tag.now }
{
    if tag.len() < 8 {
        return true;
    }
    if is_stages(forward, tag) {
        return is_shape(stages_fault(inputs, tag));
    }
    if is_mft2(tag) {
        is_bad_mft2(inputs, tag)
    } else {
        is_bad_mft1(inputs, tag)
    }
}

/// Whether a tag of 8 bytes or more is of another type than its kind has.
pub(crate) fn has_other_type(content: Content, tag: &[u8]) -> bool
    requires { HasChannels content }
    ensures { result ≡ has_other_type content tag.now }
{
    match content {
        Content::Transform {
            forward,
            inputs,
            lab,
        } => is_other_transform(forward, inputs, lab, tag),
        Content::Column => is_other_column(tag),
        Content::Curve => icc_power::has_other_type(tag),
    }
}

/// Whether a tag is shorter than its content, or has numbers that its kind hasn't.
pub(crate) fn is_misshapen(content: Content, tag: &[u8]) -> bool
    requires { HasChannels content }
    ensures { result ≡ is_misshapen content tag.now }
{
    match content {
        Content::Transform {
            forward,
            inputs,
            lab: _,
        } => is_bad_transform(forward, inputs, tag),
        Content::Column => is_bad_column(tag),
        Content::Curve => icc_power::is_misshapen(tag),
    }
}
