//! The parts of a profile, read from bytes that have no fault.
ghost use Rattle.std.specs.Prelude.{◌≡◌, ◌≤◌, true, false, length, IfOk, IsTrue, option_map, map, Some};
ghost use Rattle.std.specs.List.{list_all, flat_map};
ghost use Rattle.icc_model.specs.Profile.{IsSuitedTransform};
ghost use Rattle.icc_read.specs.Table.{tag_of};
ghost use Rattle.icc_read.specs.Tags.{has_tag, column_tags, curve_tags, is_lab, is_rgb};
ghost use Rattle.icc_read.specs.Tags.{channels_of};
ghost use Rattle.icc_read.specs.Read.{transform_of, transforms_of, forward_of, backward_of};
ghost use Rattle.icc_read.specs.Read.{column_of, curve_at, base_of};
ghost use Rattle.icc_read.specs.Code.Premises.{IsTabled, IsSound, IsSoundTag, AreSoundTags, IsChannels, AreSuited};

use crate::content::Content;
use crate::luts::{signed_at, transform_of};
use crate::table::{bytes_of, channels_of, entry_of, is_lab, is_rgb, tag_of};
use crate::used::{BACKWARD, COLUMNS, CURVES, FORWARD, GRAY_CURVE, has_gray_curve, has_matrix};
use icc_model::{Base, Curve, SharedBytes, Transform};
use icc_power::curve_of_tag;
use press_fault::Mem;
use std::alloc::Global;

/// The transform of a signature, if its tag is there.
fn transform_at(
    alloc: Global,
    bytes: &SharedBytes,
    forward: bool,
    lab: bool,
    inputs: u8,
    signature: u32,
) -> Mem<Option<Transform>>
    requires tabled { IsTabled bytes.now }
    requires channels { IsChannels inputs }
    requires way { forward ≡ false → inputs ≡ 3 }
    requires sound { IsSoundTag bytes.now (Content.Transform forward inputs lab) signature }
    ensures value { IfOk result (λ transform. transform
        ≡ option_map (transform_of forward inputs) (tag_of bytes.now signature)) }
    ensures suited { IfOk result (IsSuitedTransform forward lab inputs) }
{
    match entry_of(bytes.items(), signature) {
        None => Ok(None),
        Some(entry) => {
            let tag = bytes_of(bytes.items(), entry);
            let offset = entry.offset as usize;
            Ok(Some(transform_of(alloc, forward, lab, inputs, bytes, offset, tag)?))
        }
    }
}

/// The transforms of three signatures, those whose tags are there.
#[tactic(auto, using(crate::proofs::Sound::tags_first, crate::proofs::Sound::tags_second, crate::proofs::Sound::tags_third))]
fn transforms_of(
    alloc: Global,
    bytes: &SharedBytes,
    forward: bool,
    lab: bool,
    inputs: u8,
    signatures: [u32; 3],
) -> Mem<[Option<Transform>; 3]>
    requires tabled { IsTabled bytes.now }
    requires channels { IsChannels inputs }
    requires way { forward ≡ false → inputs ≡ 3 }
    requires sound { AreSoundTags bytes.now (Content.Transform forward inputs lab) signatures }
    ensures value { IfOk result (λ transforms. transforms ≡ transforms_of bytes.now forward inputs signatures) }
    ensures suited { IfOk result (AreSuited forward lab inputs) }
{
    let [first, second, third] = signatures;
    Ok([
        transform_at(alloc, bytes, forward, lab, inputs, first)?,
        transform_at(alloc, bytes, forward, lab, inputs, second)?,
        transform_at(alloc, bytes, forward, lab, inputs, third)?,
    ])
}

/// The transforms to the connection space.
pub(crate) fn forward_of(alloc: Global, bytes: &SharedBytes) -> Mem<[Option<Transform>; 3]>
    requires { IsSound bytes.now }
    ensures value { IfOk result (λ transforms. transforms ≡ forward_of bytes.now) }
    ensures suited { IfOk result (AreSuited true (is_lab bytes.now) (channels_of bytes.now)) }
{
    let lab = is_lab(bytes.items());
    let inputs = channels_of(bytes.items());
    transforms_of(alloc, bytes, true, lab, inputs, FORWARD)
}

/// The transforms from the connection space, which only a profile of RGB has.
#[tactic(auto, using(crate::proofs::Sound::none_suited))]
pub(crate) fn backward_of(alloc: Global, bytes: &SharedBytes) -> Mem<[Option<Transform>; 3]>
    requires { IsSound bytes.now }
    ensures value { IfOk result (λ transforms. transforms ≡ backward_of bytes.now) }
    ensures suited { IfOk result (AreSuited false (is_lab bytes.now) 3) }
{
    if is_rgb(bytes.items()) {
        transforms_of(alloc, bytes, false, is_lab(bytes.items()), 3, BACKWARD)
    } else {
        Ok([None, None, None])
    }
}

/// The bytes of the tag of a signature that is there.
fn required_tag(bytes: &[u8], signature: u32) -> &[u8]
    requires tabled { IsTabled bytes.now }
    requires there { has_tag bytes.now signature ≡ true }
    ensures { tag_of bytes.now signature ≡ Some result.now }
{
    match tag_of(bytes, signature) {
        Some(tag) => tag,
        None => unreachable!(),
    }
}

/// The bytes of a column that is there.
#[tactic(auto, unfolding(crate::specs::Content::is_bad_column))]
fn column_tag(bytes: &[u8], signature: u32) -> &[u8]
    requires tabled { IsTabled bytes.now }
    requires there { has_tag bytes.now signature ≡ true }
    requires sound { IsSoundTag bytes.now Content.Column signature }
    ensures value { tag_of bytes.now signature ≡ Some result.now }
    ensures long { 20 ≤ length result.now }
{
    required_tag(bytes, signature)
}

/// The columns of the matrix, one after another.
fn columns_of(bytes: &[u8]) -> [i32; 9]
    requires tabled { IsTabled bytes.now }
    requires there { list_all (has_tag bytes.now) column_tags ≡ true }
    requires sound { AreSoundTags bytes.now Content.Column column_tags }
    ensures { result ≡ flat_map (column_of bytes.now) column_tags }
{
    let [red, green, blue] = COLUMNS;
    let red = column_tag(bytes, red);
    let green = column_tag(bytes, green);
    let blue = column_tag(bytes, blue);
    [
        signed_at(red, 8),
        signed_at(red, 12),
        signed_at(red, 16),
        signed_at(green, 8),
        signed_at(green, 12),
        signed_at(green, 16),
        signed_at(blue, 8),
        signed_at(blue, 12),
        signed_at(blue, 16),
    ]
}

/// The curve of a signature whose tag is there.
fn curve_at(alloc: Global, bytes: &[u8], signature: u32) -> Mem<Curve>
    requires tabled { IsTabled bytes.now }
    requires there { has_tag bytes.now signature ≡ true }
    requires sound { IsSoundTag bytes.now Content.Curve signature }
    ensures { IfOk result (λ curve. curve ≡ curve_at bytes.now signature) }
{
    let (curve, _) = curve_of_tag(alloc, required_tag(bytes, signature))?;
    Ok(curve)
}

/// Whether the tags of two signatures are the same bytes.
fn share_bytes(bytes: &[u8], first: u32, second: u32) -> bool
    requires { IsTabled bytes.now }
    ensures { IsTrue result → tag_of bytes.now first ≡ tag_of bytes.now second }
{
    let Some(a) = entry_of(bytes, first) else {
        return false;
    };
    let Some(b) = entry_of(bytes, second) else {
        return false;
    };
    a.offset == b.offset && a.size == b.size
}

/// The curve of a signature: a copy of another signature's curve where both tags are the same
/// bytes, since to work out a curve takes longer.
fn curve_like(alloc: Global, bytes: &[u8], known: &Curve, other: u32, signature: u32) -> Mem<Curve>
    requires tabled { IsTabled bytes.now }
    requires there { has_tag bytes.now signature ≡ true }
    requires sound { IsSoundTag bytes.now Content.Curve signature }
    requires known { known.now ≡ curve_at bytes.now other }
    ensures { IfOk result (λ curve. curve ≡ curve_at bytes.now signature) }
{
    if share_bytes(bytes, other, signature) {
        return Ok(known.copy(alloc)?);
    }
    curve_at(alloc, bytes, signature)
}

/// The curves of the matrix.
fn curves_of(alloc: Global, bytes: &[u8]) -> Mem<[Curve; 3]>
    requires tabled { IsTabled bytes.now }
    requires there { list_all (has_tag bytes.now) curve_tags ≡ true }
    requires sound { AreSoundTags bytes.now Content.Curve curve_tags }
    ensures { IfOk result (λ curves. curves ≡ map (curve_at bytes.now) curve_tags) }
{
    let [red, green, blue] = CURVES;
    let first = curve_at(alloc, bytes, red)?;
    let second = curve_like(alloc, bytes, &first, red, green)?;
    let third = if share_bytes(bytes, red, blue) {
        first.copy(alloc)?
    } else {
        curve_like(alloc, bytes, &second, green, blue)?
    };
    Ok([first, second, third])
}

/// The matrix or the curve of gray, if there is one.
#[tactic(auto, unfolding(crate::specs::Read::base_of))]
pub(crate) fn base_of(alloc: Global, bytes: &[u8]) -> Mem<Option<Base>>
    requires { IsSound bytes.now }
    ensures { IfOk result (λ base. base ≡ base_of bytes.now) }
{
    if has_matrix(bytes) {
        let columns = columns_of(bytes);
        let curves = curves_of(alloc, bytes)?;
        Ok(Some(Base::Matrix { columns, curves }))
    } else if has_gray_curve(bytes) {
        let curve = curve_at(alloc, bytes, GRAY_CURVE)?;
        Ok(Some(Base::Gray { curve }))
    } else {
        Ok(None)
    }
}
