//! An image whose data are being delivered.
ghost use Rattle.std.specs.Prelude.{◌≡◌, ◌+◌, ◌*◌, ◌-◌, ◌<◌, ◌≤◌, ◌^◌, ◌==◌, ◌⊎◌, ℕ, length, take, min, IfOk, OnErr};
ghost use Rattle.img_samples.specs.Decoding.{sample_code, mask_byte, mask_format};
ghost use Rattle.img_samples.specs.Gathering.{nothing_of, missing, fed};

use crate::SampleFormat;
use crate::rows::{Rows, add};
use crate::table::CodeTable;
use page_model::Bytes;
use press_fault::Mem;
use press_nums::Fix;
use std::alloc::Global;
use std::marker::Model;

/// An image whose data are being delivered, in pieces of any size (PostScript Language Reference,
/// third edition, 4.10 Images).
///
/// Only rows that came whole count. The room that it takes grows with what was delivered.
#[derive(Drop)]
pub struct Gather {
    format: SampleFormat,
    table: CodeTable,
    rows: Rows,
}

impl Model for Gather {
    ghost use Rattle.img_samples.specs.Gathering.{GatherValue, IsGather};
    ghost use Rattle.img_samples.specs.Code.Tables.{IsTableOf};
    ghost use Rattle.img_samples.specs.Code.Steps.{seen};

    ghost Value = { GatherValue };

    ghost view = { λ g. seen g.format g.rows };

    ghost invariant = { λ g. IsTableOf g.format g.table × IsGather (seen g.format g.rows) };
}

impl Gather {
    /// An image of `width` columns and `height` rows of samples, of which nothing was delivered
    /// yet. `bits` is 1, 2, 4 or 8 and `channels` 1, 3 or 4; `decode` has for each channel what the
    /// least and the greatest sample stand for. All rows have at most 67,108,864 codes.
    pub fn new(
        alloc: Global,
        width: u32,
        height: u32,
        bits: u8,
        channels: u8,
        decode: &[Fix],
    ) -> Mem<Gather>
        requires bits { (bits ≡ 1) ⊎ (bits ≡ 2) ⊎ (bits ≡ 4) ⊎ (bits ≡ 8) }
        requires channels { (channels ≡ 1) ⊎ (channels ≡ 3) ⊎ (channels ≡ 4) }
        requires decode { length decode.now ≡ 2 * channels }
        requires few { width * height * channels ≤ 67108864 }
        ensures { IfOk result (λ g. g ≡ nothing_of (record {
          width = width;
          height = height;
          bits = bits;
          channels = channels;
          decode = decode.now;
        })) }
    {
        let format = SampleFormat::new(alloc, width, height, bits, channels, decode)?;
        Gather::of_format(alloc, format)
    }

    /// A mask of so many columns and rows, of which nothing was delivered yet. Samples of 1 paint
    /// where `ones` is true, else samples of 0 (PostScript Language Reference, third edition, 8.2
    /// Operator Details, imagemask: the polarity, and Decode as its opposite).
    pub fn mask(alloc: Global, width: u32, height: u32, ones: bool) -> Mem<Gather>
        requires { width * height ≤ 67108864 }
        ensures value { IfOk result (λ g. g ≡ nothing_of (mask_format width height ones)) }
    {
        let (first, second) = if ones { (0, 1) } else { (1, 0) };
        Gather::new(
            alloc,
            width,
            height,
            1,
            1,
            &[Fix::of_int(first), Fix::of_int(second)],
        )
    }

    fn of_format(alloc: Global, format: SampleFormat) -> Mem<Gather>
        ensures { IfOk result (λ g. g ≡ nothing_of format) }
    {
        let table = CodeTable::new(alloc, &format)?;
        let rows = Rows {
            count: 0,
            codes: Vec::new(alloc),
            part: Vec::new(alloc),
        };
        Ok(Gather {
            format,
            table,
            rows,
        })
    }

    /// Takes bytes of data, as many as the image lacks, and answers how many: fewer than it was
    /// given exactly where the image is done with those. Out of memory leaves it as before.
    pub fn feed(&mut self, bytes: &[u8]) -> Mem<usize>
        ensures taken { IfOk result (λ n. n ≡ min (length bytes.now) (missing self.old)) }
        ensures ok { IfOk result (λ n. self.new ≡ fed self.old (take n bytes.now)) }
        ensures left { IfOk result (λ n. missing self.new ≡ missing self.old - n) }
        ensures format { self.new.format ≡ self.old.format }
        ensures err { OnErr result (self.new ≡ self.old) }
    {
        let (taken, _) = bytes.split_at(bytes.len().min(self.missing()));
        if taken.is_empty() {
            return Ok(0);
        }
        add(&mut self.rows, &self.format, &self.table, taken)?;
        Ok(taken.len())
    }

    /// How many bytes it lacks.
    pub fn missing(&self) -> usize
        ensures { result ≡ missing self.now }
    {
        let rows = (self.format.height - self.rows.count) as usize;
        self.format.row_bytes() * rows - self.rows.part.len()
    }

    /// Whether it has all of its rows, or takes none.
    pub fn done(&self) -> bool
        ensures { result ≡ (missing self.now == 0) }
    {
        self.missing() == 0
    }

    /// How many rows came whole.
    pub fn rows(&self) -> u32
        ensures { result ≡ self.now.rows }
    {
        self.rows.count
    }

    /// How many columns of samples it has.
    pub fn width(&self) -> u32
        ensures { result ≡ self.now.format.width }
    {
        self.format.width
    }

    /// How many channels a colour has.
    pub fn channels(&self) -> u8
        ensures value { result ≡ self.now.format.channels }
        ensures there { (result ≡ 1) ⊎ (result ≡ 3) ⊎ (result ≡ 4) }
    {
        self.format.channel_count()
    }

    /// How many codes the rows have that came whole.
    pub fn codes(&self) -> usize
        ensures count { result ≡ length self.now.codes }
        ensures size { result ≡ self.now.format.width * self.now.format.channels * self.now.rows }
        ensures few { result ≤ 67108864 }
    {
        // That all rows have few codes is what the proof wants of this.
        let _height = self.format.rows();
        self.rows.codes.len()
    }

    /// The codes of the rows that came whole, and no others. It takes no memory.
    pub fn finish(self) -> Bytes
        ensures value { result ≡ self.codes }
        ensures size { length result ≡ self.format.width * self.format.channels * self.rows }
    {
        let rows = self.rows;
        Bytes::from_vec(rows.codes)
    }
}
