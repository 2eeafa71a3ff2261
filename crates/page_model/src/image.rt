ghost use Rattle.std.specs.Prelude.{◌≡◌, [], ◌∷◌, ◌++◌, OnOk, OnErr};

use press_fault::Mem;
use press_nums::Wide;
use std::alloc::Global;
use std::marker::Model;

/// The codes of an image's samples: row by row, and in a sample channel by channel.
#[derive(Drop)]
pub struct Bytes {
    bytes: Vec<u8>,
}

impl Model for Bytes {
    ghost use Rattle.std.specs.Prelude.{ℕ, List};

    ghost Value = { List ℕ };

    ghost view = { λ b. b.bytes.items };
}

impl Bytes {
    /// No codes.
    pub fn new(alloc: Global) -> Self
        ensures { result ≡ [] }
    {
        Bytes {
            bytes: Vec::new(alloc),
        }
    }

    /// The same bytes; takes no memory.
    pub fn from_vec(bytes: Vec<u8>) -> Self
        ensures { result ≡ bytes.items }
    {
        Bytes { bytes }
    }

    /// The same bytes; takes no memory.
    pub fn into_vec(self) -> Vec<u8>
        ensures { result.items ≡ self }
    {
        self.bytes
    }

    /// Adds a code at the end. Out of memory leaves the list as before.
    pub fn push(&mut self, item: u8) -> Mem<()>
        ensures ok { OnOk result (self.new ≡ self.old ++ item ∷ []) }
        ensures err { OnErr result (self.new ≡ self.old) }
    {
        self.bytes.push(item)?;
        Ok(())
    }

    /// The codes, in order.
    pub fn items(&self) -> &[u8]
        ensures { result.now ≡ self.now }
    {
        &self.bytes
    }
}

/// A map from dots to samples, with the names of a PostScript matrix and one denominator.
///
/// The centre of the dot in column j and row i lies at
/// `((a*(2j+1) + c*(2i+1) + tx)/den, (b*(2j+1) + d*(2i+1) + ty)/den)`, in samples.
/// `a` to `d` have magnitude below 2^88, `tx` and `ty` below 2^111, and `0 < den < 2^89`.
#[derive(Clone, Copy, Debug, PartialEq, Eq)]
pub struct ImageMap {
    pub a: Wide,
    pub b: Wide,
    pub c: Wide,
    pub d: Wide,
    pub tx: Wide,
    pub ty: Wide,
    pub den: Wide,
}

impl Model for ImageMap {
    ghost use Rattle.page_model.specs.Image.{ImageMapValue, IsImageMap};

    ghost Value = { ImageMapValue };

    ghost view = { λ m. record { a = m.a; b = m.b; c = m.c; d = m.d; tx = m.tx; ty = m.ty; den = m.den } };

    ghost invariant = { λ m. IsImageMap (record {
      a = m.a;
      b = m.b;
      c = m.c;
      d = m.d;
      tx = m.tx;
      ty = m.ty;
      den =
          m.den;
    }) };

    ghost inverse = { λ v. record { a = v.a; b = v.b; c = v.c; d = v.d; tx = v.tx; ty = v.ty; den = v.den } };
}

/// A sampled image on the page (PostScript Language Reference, third edition, 4.10 Images).
///
/// `rows` counts the rows of samples that are there; `channels` is 1, 3 or 4; `codes` has
/// `width * rows * channels` bytes, at most 67,108,864. `source` is the number of the profile
/// that its codes go by. No dot is painted in a row of the page whose centre lies above `low` or
/// below `high`, which are heights in sub-dots.
#[derive(Drop)]
pub struct Image {
    pub width: u32,
    pub rows: u32,
    pub channels: u8,
    pub source: Option<u32>,
    pub codes: Bytes,
    pub map: ImageMap,
    pub low: i64,
    pub high: i64,
}

impl Model for Image {
    ghost use Rattle.page_model.specs.Image.{ImageValue, IsImage};

    ghost Value = { ImageValue };

    ghost view = { λ i. record {
      width = i.width;
      rows = i.rows;
      channels = i.channels;
      source = i.source;
      codes =
          i.codes;
      map = i.map;
      low = i.low;
      high = i.high;
    } };

    ghost invariant = { λ i. IsImage i.width i.rows i.channels i.codes };
}
