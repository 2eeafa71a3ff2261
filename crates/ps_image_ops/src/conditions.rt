//! What an image operator refuses of what it is told.
ghost use Rattle.std.specs.Prelude.{◌≡◌, ◌<◌, ◌≤◌, ◌==◌, ◌*◌, ◌-ℤ◌, ◌⊎◌, ◌↔◌, IfOk, IfSome, IsTrue, true, length};
ghost use Rattle.std.specs.Prelude.{pos, [], ◌∷◌, unsigned_abs};
ghost use Rattle.std.specs.List.{repeat};
ghost use Rattle.geo_matrix.specs.Affine.{det_of};
ghost use Rattle.gfx_state.specs.CurrentPage.{has_sample_room};
ghost use Rattle.img_map.specs.Map.{IsSmall};
ghost use Rattle.img_samples.specs.Gathering.{nothing_of};
ghost use Rattle.ps_gfx_ops.specs.Lines.{number_in};
ghost use Rattle.ps_image_ops.specs.Conditions.{bits_of, depth_of, is_whole_decode, sampling_by, sampling_of};
ghost use Rattle.ps_image_ops.specs.Conditions.{fits_page, paints_ones, is_turned, format_of};

use crate::parameters::{Decode, Parameters, size};
use geo_matrix::{Matrix, det};
use gfx_state::Gfx;
use img_map::is_small;
use img_samples::Gather;
use press_fault::{Mem, PsName};
use press_nums::{Fix, Whole, Wide};
use ps_gfx_ops::{matrix_of, numbers};
use ps_store::{Obj, Store, number};
use std::alloc::Global;

/// How an image is sampled: its columns and rows, the bits of a sample, and its matrix.
#[derive(Clone, Copy, Debug, PartialEq, Eq)]
pub(crate) struct Sampling {
    pub width: u32,
    pub height: u32,
    pub bits: u8,
    pub matrix: Matrix,
}

/// The sampling of an image or a mask that is told, each part in its range.
pub(crate) fn sampling_of(mask: bool, told: &Parameters, store: &Store) -> Result<Sampling, PsName>
    ensures value { result ≡ sampling_of mask told.now store.now }
    ensures bits { IfOk result (λ sampling.
        (sampling.bits ≡ 1) ⊎ (sampling.bits ≡ 2) ⊎ (sampling.bits ≡ 4) ⊎ (sampling.bits ≡ 8)) }
    ensures decode { IfOk result (λ sampling. is_whole_decode store.now told.now.channels told.now.decode ≡ true) }
{
    sampling_by(
        size(told.width),
        size(told.height),
        depth(mask, told.bits),
        is_whole_decode(store, told.channels, &told.decode),
        matrix_of(store.objects(told.matrix)),
    )
}

fn sampling_by(
    width: Option<u32>,
    height: Option<u32>,
    bits: Option<u8>,
    decode: bool,
    matrix: Result<Matrix, PsName>,
) -> Result<Sampling, PsName>
    requires { IfSome bits (λ bits. (bits ≡ 1) ⊎ (bits ≡ 2) ⊎ (bits ≡ 4) ⊎ (bits ≡ 8)) }
    ensures value { result ≡ sampling_by width height bits decode matrix }
    ensures bits { IfOk result (λ sampling.
        (sampling.bits ≡ 1) ⊎ (sampling.bits ≡ 2) ⊎ (sampling.bits ≡ 4) ⊎ (sampling.bits ≡ 8)) }
    ensures decode { IfOk result (λ sampling. decode ≡ true) }
{
    let (Some(width), Some(height), Some(bits), true, Ok(matrix)) = (
        width, height, bits, decode, matrix,
    ) else {
        return Err(PsName::RangeCheck);
    };
    Ok(Sampling {
        width,
        height,
        bits,
        matrix,
    })
}

/// An integer as the bits of a sample, where there are such; a mask has 1.
fn depth(mask: bool, n: Whole) -> Option<u8>
    ensures value { result ≡ depth_of mask n }
    ensures bits { IfSome result (λ bits. (bits ≡ 1) ⊎ (bits ≡ 2) ⊎ (bits ≡ 4) ⊎ (bits ≡ 8)) }
{
    match size(n) {
        Some(n) => bits_of(mask, n),
        None => None,
    }
}

fn bits_of(mask: bool, n: u32) -> Option<u8>
    ensures value { result ≡ bits_of mask n }
    ensures bits { IfSome result (λ bits. (bits ≡ 1) ⊎ (bits ≡ 2) ⊎ (bits ≡ 4) ⊎ (bits ≡ 8)) }
{
    if n == 1 {
        Some(1)
    } else if mask {
        None
    } else if n == 2 {
        Some(2)
    } else if n == 4 {
        Some(4)
    } else if n == 8 {
        Some(8)
    } else {
        None
    }
}

/// Whether Decode has two numbers for each channel, where it has any.
fn is_whole_decode(store: &Store, channels: u8, decode: &Decode) -> bool
    ensures { result ≡ is_whole_decode store.now channels decode.now }
{
    match decode {
        Decode::Numbers(p) => store.objects(*p).len() == 2 * usize::from(channels),
        Decode::Usual => true,
        Decode::Polarity(_) => true,
    }
}

/// The same sampling, where the current matrix has an inverse, no element is too large, and the page has
/// room for all of its samples.
pub(crate) fn on_page(channels: u8, sampling: Sampling, gfx: &Gfx) -> Result<Sampling, PsName>
    requires { channels ≤ 4 }
    ensures value { result ≡ fits_page channels sampling gfx.now }
    ensures inverse { IfOk result (λ sampling. 0 < unsigned_abs (det_of gfx.now.state.matrix)) }
    ensures current { IfOk result (λ sampling. IsSmall gfx.now.state.matrix) }
    ensures own { IfOk result (λ sampling. IsSmall sampling.matrix) }
    ensures few { IfOk result (λ sampling. sampling.width * sampling.height * channels ≤ 67108864) }
{
    let current = gfx.matrix();
    if !has_inverse(&current) {
        return Err(PsName::UndefinedResult);
    }
    if !is_small(&current) || !is_small(&sampling.matrix) {
        return Err(PsName::LimitCheck);
    }
    if !has_room(samples(channels, &sampling), gfx) {
        return Err(PsName::LimitCheck);
    }
    Ok(sampling)
}

/// How many samples all rows have.
fn samples(channels: u8, sampling: &Sampling) -> u128
    requires { channels ≤ 4 }
    ensures { result ≡ sampling.now.width * sampling.now.height * channels }
{
    u128::from(sampling.width) * u128::from(sampling.height) * u128::from(channels)
}

/// Whether the page has room for so many samples more.
#[tactic(auto, using(crate::proofs::Room::room))]
fn has_room(samples: u128, gfx: &Gfx) -> bool
    ensures value { result ≡ has_sample_room gfx.now.page samples }
    ensures few { IsTrue result → samples ≤ 67108864 }
{
    samples <= 67_108_864 && gfx.has_sample_room(samples as u64)
}

fn has_inverse(m: &Matrix) -> bool
    ensures { IsTrue result ↔ (0 < unsigned_abs (det_of m.now)) }
{
    det(m) != 0
}

/// An image or a mask of which nothing was delivered yet.
pub(crate) fn gather_of(
    alloc: Global,
    mask: bool,
    told: &Parameters,
    sampling: &Sampling,
    store: &Store,
) -> Mem<Gather>
    requires bits { (sampling.now.bits ≡ 1) ⊎ (sampling.now.bits ≡ 2) ⊎ (sampling.now.bits ≡ 4)
        ⊎ (sampling.now.bits ≡ 8) }
    requires channels { (told.now.channels ≡ 1) ⊎ (told.now.channels ≡ 3) ⊎ (told.now.channels ≡ 4) }
    requires decode { is_whole_decode store.now told.now.channels told.now.decode ≡ true }
    requires few { sampling.now.width * sampling.now.height * told.now.channels ≤ 67108864 }
    ensures { IfOk result (λ g. g ≡ nothing_of (format_of mask told.now sampling.now store.now)) }
{
    if mask {
        let ones = paints_ones(store, &told.decode);
        return Gather::mask(alloc, sampling.width, sampling.height, ones);
    }
    match &told.decode {
        Decode::Numbers(p) => {
            let decode = numbers(alloc, store.objects(*p))?;
            gather_by(alloc, told.channels, sampling, &decode)
        }
        Decode::Usual => usual_gather(alloc, told.channels, sampling),
        Decode::Polarity(_) => usual_gather(alloc, told.channels, sampling),
    }
}

/// An image whose samples stand for numbers from 0 to 1.
fn usual_gather(alloc: Global, channels: u8, sampling: &Sampling) -> Mem<Gather>
    requires bits { (sampling.now.bits ≡ 1) ⊎ (sampling.now.bits ≡ 2) ⊎ (sampling.now.bits ≡ 4)
        ⊎ (sampling.now.bits ≡ 8) }
    requires channels { (channels ≡ 1) ⊎ (channels ≡ 3) ⊎ (channels ≡ 4) }
    requires few { sampling.now.width * sampling.now.height * channels ≤ 67108864 }
    ensures { IfOk result (λ g. g ≡ nothing_of (record {
      width = sampling.now.width;
      height = sampling.now.height;
      bits = sampling.now.bits;
      channels = channels;
      decode = repeat channels (pos 0 ∷ pos 65536 ∷ []);
    })) }
{
    let (zero, one) = (Fix::of_int(0), Fix::of_int(1));
    match channels {
        1 => gather_by(alloc, 1, sampling, &[zero, one]),
        3 => gather_by(alloc, 3, sampling, &[zero, one, zero, one, zero, one]),
        _ => gather_by(
            alloc,
            channels,
            sampling,
            &[zero, one, zero, one, zero, one, zero, one],
        ),
    }
}

/// An image whose samples stand for these numbers.
fn gather_by(alloc: Global, channels: u8, sampling: &Sampling, decode: &[Fix]) -> Mem<Gather>
    requires bits { (sampling.now.bits ≡ 1) ⊎ (sampling.now.bits ≡ 2) ⊎ (sampling.now.bits ≡ 4)
        ⊎ (sampling.now.bits ≡ 8) }
    requires channels { (channels ≡ 1) ⊎ (channels ≡ 3) ⊎ (channels ≡ 4) }
    requires decode { length decode.now ≡ 2 * channels }
    requires few { sampling.now.width * sampling.now.height * channels ≤ 67108864 }
    ensures { IfOk result (λ g. g ≡ nothing_of (record {
      width = sampling.now.width;
      height = sampling.now.height;
      bits = sampling.now.bits;
      channels = channels;
      decode = decode.now;
    })) }
{
    Gather::new(
        alloc,
        sampling.width,
        sampling.height,
        sampling.bits,
        channels,
        decode,
    )
}

/// Whether samples of 1 paint of a mask.
fn paints_ones(store: &Store, decode: &Decode) -> bool
    ensures { result ≡ paints_ones store.now decode.now }
{
    match decode {
        Decode::Usual => false,
        Decode::Polarity(ones) => *ones,
        Decode::Numbers(p) => is_turned(store.objects(*p)),
    }
}

/// Whether objects are the numbers 1 and 0.
fn is_turned(objects: &[Obj]) -> bool
    ensures { result ≡ is_turned objects.now }
{
    match objects {
        [first, second] => is_one(first) && is_zero(second),
        _ => false,
    }
}

/// Whether an object is the number 1.
fn is_one(o: &Obj) -> bool
    ensures { result ≡ (unsigned_abs (number_in o.now -ℤ pos 65536) == 0) }
{
    (number_or_zero(o).wide() - Wide::of(65_536)).is_zero()
}

/// Whether an object is 0, or no number.
fn is_zero(o: &Obj) -> bool
    ensures { result ≡ (unsigned_abs (number_in o.now) == 0) }
{
    number_or_zero(o).wide().is_zero()
}

fn number_or_zero(o: &Obj) -> Fix
    ensures { result ≡ number_in o.now }
{
    match number(o) {
        Some(n) => n,
        None => Fix::of_int(0),
    }
}
