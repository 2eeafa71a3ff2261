//! A page, written.
ghost use Rattle.std.specs.Prelude.{◌≡◌, ◌≤◌, ◌+◌, ◌++◌, [], length, decimal, OnOk, OnErr};
ghost use Rattle.std.specs.List.{flat_map};
ghost use Rattle.press_ports.specs.Causes.{Rose};
ghost use Rattle.page_model.specs.Pages.{header, greatest_text};
ghost use Rattle.page_output.specs.Sheet.{dots_in, sheet};
ghost use Rattle.page_output.specs.Code.Taken.{PassesOn, PassesFront};

use crate::tally::{Tally, send_tallied};
use arrayvec::ArrayVec;
use itoa::Buffer;
use list_player::BandDots;
use page_model::Depth;
use press_ports::{Sink, WriteFault};
use std::marker::Model;

/// The header of a page, at most 32 bytes, held in itself.
#[derive(Drop)]
struct Header {
    bytes: ArrayVec<u8, 32>,
}

impl Model for Header {
    ghost use Rattle.std.specs.Prelude.{List, ℕ};

    ghost Value = { List ℕ };

    ghost view = { λ h. h.bytes.items };
}

impl Header {
    fn new() -> Header
        ensures { result ≡ [] }
    {
        Header {
            bytes: ArrayVec::new(),
        }
    }

    fn add(&mut self, piece: &[u8])
        requires { length self.old + length piece.now ≤ 32 }
        ensures text { self.new ≡ self.old ++ piece.now }
        ensures len { length self.new ≡ length self.old + length piece.now }
    {
        match self.bytes.try_extend_from_slice(piece) {
            Ok(()) => {}
            Err(_) => unreachable!(),
        }
    }

    fn add_number(&mut self, n: u32)
        requires { length self.old + 10 ≤ 32 }
        ensures text { self.new ≡ self.old ++ decimal n }
        ensures len { length self.new ≤ length self.old + 10 }
    {
        self.add(Buffer::new().format(n).as_bytes());
    }

    fn bytes(&self) -> &[u8]
        ensures { result.now ≡ self.now }
    {
        self.bytes.as_slice()
    }
}

/// The header of a page of this size.
#[tactic(auto, unfolding(page_model::specs::Pages::header))]
fn header_of(width: u32, height: u32, depth: Depth) -> Header
    ensures { result ≡ header depth width height }
{
    let mut header = Header::new();
    header.add(b"P6\n");
    header.add_number(width);
    header.add(b" ");
    header.add_number(height);
    header.add(b"\n");
    header.add(greatest_text(depth).as_bytes());
    header.add(b"\n");
    header
}

/// The greatest value of a depth in digits.
fn greatest_text(depth: Depth) -> &'static str
    ensures text { result.now ≡ greatest_text depth }
    ensures short { length result.now ≤ 5 }
{
    match depth {
        Depth::Eight => "255",
        Depth::Sixteen => "65535",
    }
}

/// Writes a page of this size in dots: the header as one piece, and then the dots of each band as one piece. The tally
/// takes in what the sink takes.
///
/// It fails only where the sink did, after a front of the page that isn't the whole.
pub fn write_page<O: Sink>(
    width: u32,
    height: u32,
    depth: Depth,
    bands: &[BandDots],
    out: &mut O,
    tally: &mut Tally,
) -> Result<(), WriteFault>
    ensures ok { OnOk result (PassesOn (O.written out.old) (O.written out.new) tally.old tally.new
        (sheet depth width height bands.now)) }
    ensures err { OnErr result (PassesFront (O.written out.old) (O.written out.new) tally.old tally.new
        (sheet depth width height bands.now)) }
    ensures failed { OnErr result (Rose (O.faults out.old) (O.faults out.new)) }
    ensures no_fault { OnOk result (O.faults out.new ≡ O.faults out.old) }
    ensures later { O.faults out.old ≤ O.faults out.new }
{
    let header = header_of(width, height, depth);
    match send_tallied(out, tally, header.bytes()) {
        Ok(()) => send_bands(bands, out, tally),
        Err(WriteFault) => Err(WriteFault),
    }
}

/// Writes the dots of each band as one piece.
fn send_bands<O: Sink>(bands: &[BandDots], out: &mut O, tally: &mut Tally) -> Result<(), WriteFault>
    ensures ok { OnOk result (PassesOn (O.written out.old) (O.written out.new) tally.old tally.new
        (flat_map dots_in bands.now)) }
    ensures err { OnErr result (PassesFront (O.written out.old) (O.written out.new) tally.old tally.new
        (flat_map dots_in bands.now)) }
    ensures failed { OnErr result (Rose (O.faults out.old) (O.faults out.new)) }
    ensures no_fault { OnOk result (O.faults out.new ≡ O.faults out.old) }
    ensures later { O.faults out.old ≤ O.faults out.new }
{
    for band in bands {
        match send_tallied(out, tally, band.dots.items()) {
            Ok(()) => {}
            Err(WriteFault) => return Err(WriteFault),
        }
    }
    Ok(())
}
