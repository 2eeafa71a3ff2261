//! The codes of all samples that there are.
ghost use Rattle.std.specs.Prelude.{◌≡◌, ◌+◌, ◌*◌, ◌-◌, ◌/◌, ◌%◌, ◌<◌, ◌≤◌, ◌^◌, pos, unsigned_abs, IfOk, ℕ, IsTrue};
ghost use Rattle.std.specs.Prelude.{◌↔◌};
ghost use Rattle.std.specs.Prelude.{slice_index, false, length, EachIndex};
ghost use Rattle.img_samples.specs.Decoding.{clamped, decoded, sample_code};
ghost use Rattle.img_samples.specs.Code.Tables.{table_code, IsTableOf};

use crate::SampleFormat;
use press_fault::Mem;
use press_nums::{Fix, Wide};
use std::alloc::Global;

/// The codes of all samples of a format: those of the first channel in order, then of the next. So
/// each is divided for once, and no sample of the data.
#[derive(Drop)]
pub(crate) struct CodeTable {
    pub(crate) codes: Vec<u8>,
    /// Whether samples have 8 bits and each is its own code.
    pub(crate) copies: bool,
}

impl CodeTable {
    /// The table of a format.
    pub(crate) fn new(alloc: Global, format: &SampleFormat) -> Mem<CodeTable>
        ensures { IfOk result (IsTableOf format.now) }
    {
        let codes = table_codes(alloc, format)?;
        let copies = does_copy(format, codes.as_slice());
        Ok(CodeTable { codes, copies })
    }

    /// The code of a sample in a channel.
    #[tactic(auto, using(crate::proofs::Tables::is_in_table, crate::proofs::Tables::found_in_table))]
    pub(crate) fn code(&self, format: &SampleFormat, channel: usize, sample: usize) -> u8
        requires table { IsTableOf format.now self.now }
        requires channel { channel < format.now.channels }
        requires sample { sample < 2 ^ format.now.bits }
        ensures { result ≡ sample_code format.now channel sample }
    {
        let codes = self.codes.as_slice();
        codes[channel * format.levels() + sample]
    }
}

fn table_codes(alloc: Global, format: &SampleFormat) -> Mem<Vec<u8>>
    ensures { IfOk result (λ codes. IsTableOf format.now (record { codes = codes; copies = false })) }
{
    let levels = format.levels();
    let mut codes = Vec::new(alloc);
    for k in 0..usize::from(format.channels) * levels {
        codes.push(sample_code(format, k / levels, k % levels))?;
    }
    Ok(codes)
}

/// Whether samples have 8 bits, and each code is the rest of its place by 256: the sample itself.
fn does_copy(format: &SampleFormat, codes: &[u8]) -> bool
    ensures eight { IsTrue result → format.now.bits ≡ 8 }
    ensures copies { IsTrue result → EachIndex codes.now (λ k. slice_index codes.now k ≡ k % 256) }
{
    if format.bits == 8 {
        are_places(codes)
    } else {
        false
    }
}

/// Whether each code is the rest of its place by 256.
fn are_places(codes: &[u8]) -> bool
    ensures { IsTrue result ↔ EachIndex codes.now (λ k. slice_index codes.now k ≡ k % 256) }
{
    for k in 0..codes.len() {
        if usize::from(codes[k]) != k % 256 {
            return false;
        }
    }
    true
}

/// The code of a sample in a channel, computed.
#[tactic(auto, unfolding(crate::specs::Decoding::sample_code))]
fn sample_code(format: &SampleFormat, channel: usize, sample: usize) -> u8
    requires channel { channel < format.now.channels }
    requires sample { sample < 2 ^ format.now.bits }
    ensures { result ≡ sample_code format.now channel sample }
{
    let decode = format.decode();
    let top = format.levels() - 1;
    decoded(top, decode[2 * channel], decode[2 * channel + 1], sample)
}

/// The code of a sample from 0 to `top`, where 0 stands for `low` and `top` for `high`.
#[tactic(auto, unfolding(crate::specs::Decoding::decoded))]
fn decoded(top: usize, low: Fix, high: Fix, sample: usize) -> u8
    requires some { 0 < top }
    requires few { top < 256 }
    requires sample { sample ≤ top }
    ensures { result ≡ decoded top low high sample }
{
    let sum = low.wide() * size(top - sample) + high.wide() * size(sample);
    clamped(sum.times(255).div_round(size(top * 65536)))
}

/// A small number, for sums and products.
fn size(n: usize) -> Wide
    requires { n < 2 ^ 24 }
    ensures value { result ≡ pos n }
    ensures bound { unsigned_abs result ≡ n }
{
    Wide::of_size(n as u128)
}

/// A whole number as a code: the nearest from 0 to 255.
fn clamped(n: Wide) -> u8
    ensures { result ≡ clamped n }
{
    if n.is_below(Wide::ZERO) {
        0
    } else if n.is_below(Wide::of(255)) {
        n.narrow() as u8
    } else {
        255
    }
}
