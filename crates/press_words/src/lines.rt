//! The lines on standard error that are asked for: the report and the sample page.
ghost use Rattle.std.specs.Prelude.{◌≡◌, ◌≤◌, ◌+◌, ◌*◌, ◌++◌, [], length, codes};
ghost use Rattle.hex.specs.Hex.{encode_lower};
ghost use Rattle.press_words.specs.Lines.{counted, report_line_of, sample_line_of};

use arrayvec::ArrayVec;
use hex::encode_to_slice;
use itoa::{Buffer, Integer};
use std::marker::Model;

/// What a run counts.
#[derive(Clone, Copy, Debug, PartialEq, Eq)]
pub struct Counts {
    /// The pages written whole.
    pub pages: u64,
    /// The leases of links.
    pub leases: u64,
    /// The distinct keys among these.
    pub keys: u64,
    /// The links built.
    pub built: u64,
    /// The links evicted.
    pub evicted: u64,
    /// The links that stay.
    pub resident: u64,
    /// The profiles of the words whose ID isn't the computed one.
    pub stale: u64,
}

impl Model for Counts {
    ghost use Rattle.press_words.specs.Lines.{CountsValue};

    ghost Value = { CountsValue };

    ghost view = { λ c. record {
      pages = c.pages;
      leases = c.leases;
      keys = c.keys;
      built = c.built;
      evicted = c.evicted;
      resident = c.resident;
      stale = c.stale;
    } };

    ghost inverse = { λ c. record {
      pages = c.pages;
      leases = c.leases;
      keys = c.keys;
      built = c.built;
      evicted = c.evicted;
      resident = c.resident;
      stale = c.stale;
    } };
}

/// A line of at most 512 bytes, held in itself.
#[derive(Drop)]
pub struct Line {
    bytes: ArrayVec<u8, 512>,
}

impl Model for Line {
    ghost use Rattle.std.specs.Prelude.{List, ℕ};

    ghost Value = { List ℕ };

    ghost view = { λ line. line.bytes.items };
}

impl Line {
    fn new() -> Line
        ensures { result ≡ [] }
    {
        Line {
            bytes: ArrayVec::new(),
        }
    }

    fn add(&mut self, piece: &[u8])
        requires { length self.old + length piece.now ≤ 512 }
        ensures text { self.new ≡ self.old ++ piece.now }
        ensures len { length self.new ≡ length self.old + length piece.now }
    {
        match self.bytes.try_extend_from_slice(piece) {
            Ok(()) => {}
            Err(_) => unreachable!(),
        }
    }

    /// Adds a word and its number.
    fn add_counted(&mut self, name: &[u8], n: u64)
        requires { length self.old + (length name.now + 20) ≤ 512 }
        ensures text { self.new ≡ self.old ++ counted name.now n }
        ensures len { length self.new ≤ length self.old + (length name.now + 20) }
    {
        self.add(name);
        self.add(Buffer::new().format(n).as_bytes());
    }

    /// The bytes of the line, with its end.
    pub fn bytes(&self) -> &[u8]
        ensures { result.now ≡ self.now }
    {
        self.bytes.as_slice()
    }
}

/// The line of a report.
pub fn report_line(counts: &Counts) -> Line
    ensures { result ≡ report_line_of counts.now }
{
    let mut line = Line::new();
    line.add_counted(b"render: pages ", counts.pages);
    line.add_counted(b" leases ", counts.leases);
    line.add_counted(b" keys ", counts.keys);
    line.add_counted(b" built ", counts.built);
    line.add_counted(b" evicted ", counts.evicted);
    line.add_counted(b" resident ", counts.resident);
    line.add_counted(b" stale ", counts.stale);
    line.add(b"\n");
    line
}

/// The line of the sample page with the number `n`: how many bytes were written, and their MD5 digest.
pub fn sample_line(n: u32, bytes: u64, digest: &[u8; 16]) -> Line
    ensures { result ≡ sample_line_of n bytes digest.now }
{
    let mut line = Line::new();
    line.add_counted(b"render: sample ", u64::from(n));
    line.add_counted(b" bytes ", bytes);
    line.add(b" md5 ");
    line.add(&digits_of(digest));
    line.add(b"\n");
    line
}

/// A digest in hexadecimal digits.
fn digits_of(digest: &[u8; 16]) -> [u8; 32]
    ensures { result ≡ encode_lower digest.now }
{
    let mut digits = [0; 32];
    match encode_to_slice(digest.as_slice(), &mut digits) {
        Ok(()) => digits,
        Err(_) => unreachable!(),
    }
}
