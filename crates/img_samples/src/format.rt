//! How the data of an image are read.
ghost use Rattle.std.specs.Prelude.{◌≡◌, ◌+◌, ◌*◌, ◌<◌, ◌≤◌, ◌^◌, ◌⊎◌, length, IfOk};
ghost use Rattle.img_samples.specs.Rows.{row_bytes};
ghost use Rattle.img_samples.specs.Code.Steps.{row_size};

use press_fault::Mem;
use press_nums::Fix;
use std::alloc::Global;
use std::marker::Model;

/// How the data of an image are read (PostScript Language Reference, third edition, 4.10 Images).
///
/// `width` and `height` count columns and rows of samples. `bits` is 1, 2, 4 or 8, `channels` 1, 3
/// or 4. `decode` has for each channel the numbers that the least and the greatest sample stand
/// for. All rows together have at most 67,108,864 codes.
#[derive(Drop)]
pub struct SampleFormat {
    pub width: u32,
    pub height: u32,
    pub bits: u8,
    pub channels: u8,
    decode: Vec<Fix>,
}

impl Model for SampleFormat {
    ghost use Rattle.img_samples.specs.Decoding.{SampleFormatValue, IsSampleFormat};

    ghost Value = { SampleFormatValue };

    ghost view = { λ f. record {
      width = f.width;
      height = f.height;
      bits = f.bits;
      channels = f.channels;
      decode = f.decode.items;
    } };

    ghost invariant = { λ f. IsSampleFormat (record {
      width = f.width;
      height = f.height;
      bits = f.bits;
      channels = f.channels;
      decode = f.decode.items;
    }) };
}

impl SampleFormat {
    /// A format with a copy of these numbers.
    pub fn new(
        alloc: Global,
        width: u32,
        height: u32,
        bits: u8,
        channels: u8,
        decode: &[Fix],
    ) -> Mem<SampleFormat>
        requires bits { (bits ≡ 1) ⊎ (bits ≡ 2) ⊎ (bits ≡ 4) ⊎ (bits ≡ 8) }
        requires channels { (channels ≡ 1) ⊎ (channels ≡ 3) ⊎ (channels ≡ 4) }
        requires decode { length decode.now ≡ 2 * channels }
        requires few { width * height * channels ≤ 67108864 }
        ensures { IfOk result (λ f. f ≡ record {
          width = width;
          height = height;
          bits = bits;
          channels = channels;
          decode = decode.now;
        }) }
    {
        Ok(SampleFormat {
            width,
            height,
            bits,
            channels,
            decode: Vec::from_slice(alloc, decode)?,
        })
    }

    /// What the least and the greatest sample of each channel stand for.
    pub fn decode(&self) -> &[Fix]
        ensures value { result.now ≡ self.now.decode }
        ensures length { length result.now ≡ 2 * self.now.channels }
    {
        &self.decode
    }

    /// How many channels a colour has.
    pub(crate) fn channel_count(&self) -> u8
        ensures value { result ≡ self.now.channels }
        ensures channels { (result ≡ 1) ⊎ (result ≡ 3) ⊎ (result ≡ 4) }
    {
        self.channels
    }

    /// How many rows of samples there are.
    pub(crate) fn rows(&self) -> u32
        ensures value { result ≡ self.now.height }
        ensures few { self.now.width * self.now.height * self.now.channels ≤ 67108864 }
    {
        self.height
    }

    /// How many codes a row has.
    pub(crate) fn row_size(&self) -> usize
        ensures value { result ≡ row_size self.now }
        ensures bound { result < 2 ^ 35 }
    {
        self.width as usize * usize::from(self.channels)
    }

    /// How many bytes a row takes.
    pub(crate) fn row_bytes(&self) -> usize
        ensures value { result ≡ row_bytes self.now }
        ensures bound { result < 2 ^ 38 }
    {
        (self.row_size() * usize::from(self.bits) + 7) / 8
    }

    /// How many samples of a channel differ from one another: two to the power of the bits.
    pub(crate) fn levels(&self) -> usize
        ensures value { result ≡ 2 ^ self.now.bits }
        ensures some { 2 ≤ result }
        ensures bound { result ≤ 256 }
    {
        match self.bits {
            1 => 2,
            2 => 4,
            4 => 16,
            _ => 256,
        }
    }
}
