//! Transforms, read from tags that have no fault.
ghost use Rattle.std.specs.Prelude.{◌≡◌, ◌≤◌, ◌+◌, ◌*◌, false, length, IfOk, Some};
ghost use Rattle.press_nums.specs.Whole.{IsWhole};
ghost use Rattle.icc_power.specs.CurveTag.{s15_at};
ghost use Rattle.icc_tables.specs.Lattice.{AreAtMost};
ghost use Rattle.icc_tables.specs.Stored.{nodes_of, IsTagAt};
ghost use Rattle.icc_model.specs.Profile.{IsSuitedTransform};
ghost use Rattle.icc_read.specs.Content.{is_other_transform, is_bad_transform};
ghost use Rattle.icc_read.specs.Read.{signed_numbers, bytes_from, words_from, lut8, lut16, transform_of};
ghost use Rattle.icc_read.specs.Code.Premises.{IsChannels, IsMft1, IsMft2};

use crate::content::{is_mft2, is_stages, node_count};
use icc_model::{Lut, NodeSize, Nodes, SharedBytes, Transform, Values};
use icc_power::{s15_at, u16_at};
use icc_tables::nodes_of_tag;
use icc_v4lut::stages_of;
use press_fault::Mem;
use std::alloc::Global;

/// The signed number of 32 bits at a place.
pub(crate) fn signed_at(tag: &[u8], at: usize) -> i32
    requires { at + 4 ≤ length tag.now }
    ensures value { result ≡ s15_at tag.now at }
    ensures whole { IsWhole result }
{
    s15_at(tag, at).get()
}

/// The matrix of a lut.
fn matrix_of(tag: &[u8]) -> [i32; 9]
    requires { 48 ≤ length tag.now }
    ensures { result ≡ signed_numbers tag.now 12 9 }
{
    [
        signed_at(tag, 12),
        signed_at(tag, 16),
        signed_at(tag, 20),
        signed_at(tag, 24),
        signed_at(tag, 28),
        signed_at(tag, 32),
        signed_at(tag, 36),
        signed_at(tag, 40),
        signed_at(tag, 44),
    ]
}

/// So many values of 8 bits, from a place on.
#[tactic(auto, using(icc_power::proofs::Listed::one_more), unfolding(crate::specs::Read::bytes_from))]
fn bytes_from(alloc: Global, tag: &[u8], at: usize, count: usize) -> Mem<Values>
    requires { at + count ≤ length tag.now }
    ensures items { IfOk result (λ values. values ≡ bytes_from tag.now at count) }
    ensures length { IfOk result (λ values. length values ≡ count) }
    ensures most { IfOk result (AreAtMost 255) }
{
    let mut values = Vec::with_capacity(alloc, count)?;
    for k in 0..count {
        values.push(u16::from(tag[at + k]))?;
    }
    Ok(Values::from_vec(values))
}

/// So many values of 16 bits, from a place on.
#[tactic(auto, using(icc_power::proofs::Listed::one_more), unfolding(crate::specs::Read::words_from))]
fn words_from(alloc: Global, tag: &[u8], at: usize, count: usize) -> Mem<Values>
    requires { at + 2 * count ≤ length tag.now }
    ensures items { IfOk result (λ values. values ≡ words_from tag.now at count) }
    ensures length { IfOk result (λ values. length values ≡ count) }
    ensures most { IfOk result (AreAtMost 65535) }
{
    let mut values = Vec::with_capacity(alloc, count)?;
    for k in 0..count {
        values.push(u16_at(tag, at + 2 * k))?;
    }
    Ok(Values::from_vec(values))
}

/// So many nodes of one byte each, from a place of a tag on. They stand in the profile's bytes, and
/// take no memory beside these.
fn bytes_in(bytes: &SharedBytes, offset: usize, tag: &[u8], at: usize, count: usize) -> Mem<Nodes>
    requires place { IsTagAt bytes.now offset tag.now }
    requires inside { at + count ≤ length tag.now }
    ensures items { IfOk result (λ nodes. nodes ≡ nodes_of NodeSize.Byte tag.now at count) }
    ensures length { IfOk result (λ nodes. length nodes ≡ count) }
    ensures most { IfOk result (AreAtMost 255) }
{
    Ok(nodes_of_tag(bytes, offset, tag, at, count, NodeSize::Byte)?)
}

/// Such nodes of two bytes each.
fn words_in(bytes: &SharedBytes, offset: usize, tag: &[u8], at: usize, count: usize) -> Mem<Nodes>
    requires place { IsTagAt bytes.now offset tag.now }
    requires inside { at + 2 * count ≤ length tag.now }
    ensures items { IfOk result (λ nodes. nodes ≡ nodes_of NodeSize.Word tag.now at count) }
    ensures length { IfOk result (λ nodes. length nodes ≡ count) }
    ensures most { IfOk result (AreAtMost 65535) }
{
    Ok(nodes_of_tag(bytes, offset, tag, at, count, NodeSize::Word)?)
}

/// A lut of 8 bits.
#[tactic(auto, unfolding(crate::specs::Read::lut8))]
fn lut8(alloc: Global, inputs: u8, bytes: &SharedBytes, offset: usize, tag: &[u8]) -> Mem<Lut>
    requires place { IsTagAt bytes.now offset tag.now }
    requires channels { IsChannels inputs }
    requires good { IsMft1 inputs tag.now }
    ensures { IfOk result (λ lut. lut ≡ lut8 inputs tag.now) }
{
    let grid = tag[10];
    let before = usize::from(inputs) * 256;
    let nodes = node_count(inputs, grid);
    Ok(Lut {
        wide: false,
        inputs,
        grid,
        matrix: matrix_of(tag),
        before_count: 256,
        after_count: 256,
        before: bytes_from(alloc, tag, 48, before)?,
        nodes: bytes_in(bytes, offset, tag, 48 + before, nodes)?,
        after: bytes_from(alloc, tag, 48 + before + nodes, 3 * 256)?,
    })
}

/// A lut of 16 bits.
#[tactic(auto, unfolding(crate::specs::Read::lut16))]
fn lut16(alloc: Global, inputs: u8, bytes: &SharedBytes, offset: usize, tag: &[u8]) -> Mem<Lut>
    requires place { IsTagAt bytes.now offset tag.now }
    requires channels { IsChannels inputs }
    requires good { IsMft2 inputs tag.now }
    ensures { IfOk result (λ lut. lut ≡ lut16 inputs tag.now) }
{
    let grid = tag[10];
    let before_count = u16_at(tag, 48);
    let after_count = u16_at(tag, 50);
    let before = usize::from(inputs) * usize::from(before_count);
    let nodes = node_count(inputs, grid);
    let after = 3 * usize::from(after_count);
    Ok(Lut {
        wide: true,
        inputs,
        grid,
        matrix: matrix_of(tag),
        before_count,
        after_count,
        before: words_from(alloc, tag, 52, before)?,
        nodes: words_in(bytes, offset, tag, 52 + 2 * before, nodes)?,
        after: words_from(alloc, tag, 52 + 2 * (before + nodes), after)?,
    })
}

/// The transform of a tag that is one of so many channels, and begins at this place of the profile.
#[tactic(auto, using(crate::proofs::Shapes::transform_long), unfolding(crate::specs::Read::transform_of))]
pub(crate) fn transform_of(
    alloc: Global,
    forward: bool,
    lab: bool,
    inputs: u8,
    bytes: &SharedBytes,
    offset: usize,
    tag: &[u8],
) -> Mem<Transform>
    requires place { IsTagAt bytes.now offset tag.now }
    requires channels { IsChannels inputs }
    requires way { forward ≡ false → inputs ≡ 3 }
    requires known { is_other_transform forward inputs lab tag.now ≡ false }
    requires shape { is_bad_transform forward inputs tag.now ≡ false }
    ensures value { IfOk result (λ transform. transform ≡ transform_of forward inputs tag.now) }
    ensures suited { IfOk result (λ transform. IsSuitedTransform forward lab inputs (Some transform)) }
{
    if is_stages(forward, tag) {
        return Ok(Transform::Stages(stages_of(alloc, forward, inputs, bytes, offset, tag)?));
    }
    if is_mft2(tag) {
        Ok(Transform::Lut(lut16(alloc, inputs, bytes, offset, tag)?))
    } else {
        Ok(Transform::Lut(lut8(alloc, inputs, bytes, offset, tag)?))
    }
}
