//! Reads every list of three bytes, and good lists with one byte changed.
//!
//! Standard output has a line for each group of lists: how many of them begin with a command, and a
//! sum of what those commands say. `tests/model/lists.py` prints the same by an independent reading.
#![tactic(auto)]

use list_codec::{Brief, CmdRoom};
use page_model::{Disc, Ink, Region, Ring, Rings, Rule, Shape};
use press_fault::{Code, Mem};
use std::alloc::Global;
use std::io;
use std::io::ErrorKind;

/// How many lists begin with a command, and a sum of what the commands say, which tells their order.
#[derive(Clone, Copy)]
struct Tally {
    read: u32,
    sum: u64,
}

impl Tally {
    fn new() -> Tally {
        Tally { read: 0, sum: 0 }
    }

    /// Reads the command at the front of a list, if there is one.
    fn read(&mut self, room: &mut CmdRoom, list: &[u8]) -> Mem<()> {
        let Some((brief, count)) = room.read(list)? else {
            return Ok(());
        };
        self.read = self.read.wrapping_add(1);
        self.add(count as u64);
        self.add_command(&brief, room.shapes());
        Ok(())
    }

    fn add(&mut self, n: u64) {
        self.sum = (self.sum ^ n).wrapping_mul(1099511628211);
    }

    fn add_signed(&mut self, z: i64) {
        self.add(z.cast_unsigned());
    }

    fn add_command(&mut self, brief: &Brief, shapes: &[Shape]) {
        match brief {
            Brief::Flat(ink) => self.add_ink(ink),
            Brief::Clip(clip) => self.add_clip(clip.items()),
            Brief::Draw(rule) => self.add_draw(*rule, shapes),
            Brief::Image(index) => self.add_index(4, *index),
            Brief::Mask(index) => self.add_index(5, *index),
        }
    }

    fn add_index(&mut self, tag: u64, index: u32) {
        self.add(tag);
        self.add(u64::from(index));
    }

    fn add_ink(&mut self, ink: &Ink) {
        self.add(1);
        match ink {
            Ink::Plain(code) => self.add_code(0, code),
            Ink::Linked { source, code } => self.add_code(u64::from(*source) + 1, code),
        }
    }

    fn add_code(&mut self, place: u64, code: &Code) {
        self.add(place);
        self.add(u64::from(code.n));
        for value in code.c {
            self.add(u64::from(value));
        }
    }

    fn add_clip(&mut self, regions: &[Region]) {
        self.add(2);
        self.add(regions.len() as u64);
        for region in regions {
            self.add_rule(region.rule);
            self.add_rings(region.rings.items());
        }
    }

    fn add_draw(&mut self, rule: Rule, shapes: &[Shape]) {
        self.add(3);
        self.add_rule(rule);
        self.add(shapes.len() as u64);
        for shape in shapes {
            self.add_shape(shape);
        }
    }

    fn add_rule(&mut self, rule: Rule) {
        match rule {
            Rule::Nonzero => self.add(0),
            Rule::EvenOdd => self.add(1),
        }
    }

    fn add_shape(&mut self, shape: &Shape) {
        match shape {
            Shape::Poly(rings) => self.add_poly(rings),
            Shape::Disc(disc) => self.add_disc(disc),
        }
    }

    fn add_poly(&mut self, rings: &Rings) {
        self.add(0);
        self.add_rings(rings.items());
    }

    fn add_disc(&mut self, disc: &Disc) {
        self.add(1);
        self.add_signed(disc.x);
        self.add_signed(disc.y);
        self.add(disc.r);
    }

    fn add_rings(&mut self, rings: &[Ring]) {
        self.add(rings.len() as u64);
        for ring in rings {
            self.add_ring(ring);
        }
    }

    fn add_ring(&mut self, ring: &Ring) {
        self.add(ring.items().len() as u64);
        for point in ring.items() {
            self.add_signed(point.x);
            self.add_signed(point.y);
        }
    }
}

/// All lists of three bytes that begin with this one.
fn lists_from(room: &mut CmdRoom, first: u8) -> Mem<Tally> {
    let mut tally = Tally::new();
    for second in 0..=255u8 {
        for third in 0..=255u8 {
            tally.read(room, &[first, second, third])?;
        }
    }
    Ok(tally)
}

/// A list with zeros behind it, and in the place of one byte each of the 256.
fn changed_lists(alloc: Global, room: &mut CmdRoom, list: &[u8], place: usize) -> Mem<Tally> {
    let mut bytes = Vec::from_slice(alloc, list)?;
    bytes.extend_from_slice(&[0; 9])?;
    let mut tally = Tally::new();
    for byte in 0..=255u8 {
        if let Some(changed) = bytes.get_mut(place) {
            *changed = byte;
        }
        tally.read(room, &bytes)?;
    }
    Ok(tally)
}

/// A change of the ink: a code of three channels, by a source.
const FLAT: &[u8] = &[0x01, 0x03, 0x80, 0x01, 0xFF, 0x00, 0x10];

/// A clip of two regions.
const CLIP: &[u8] = &[
    0x02, 0x02, 0x01, 0x01, 0x03, 0x00, 0x80, 0x08, 0x80, 0x08, 0x00, 0x00, 0xFF, 0x03, 0x00, 0x02,
    0x01, 0x04, 0x06, 0x00,
];

/// A rectangle.
const BLOCK: &[u8] = &[
    0x03, 0x00, 0x01, 0x00, 0x01, 0x04, 0x00, 0x80, 0x08, 0x80, 0x08, 0x00, 0x00, 0xFF, 0x03, 0xFF,
    0x07, 0x00,
];

/// A disc, a polygon of two rings and a disc at the edge of the plane.
const SHAPES: &[u8] = &[
    0x03, 0x01, 0x03, 0x01, 0x01, 0x80, 0x01, 0xAC, 0x02, 0x00, 0x02, 0x01, 0x06, 0x07, 0x02, 0x01,
    0x02, 0x03, 0x04, 0x01, 0xFE, 0xFF, 0xFF, 0xFF, 0xFF, 0xFF, 0x07, 0x00, 0xFF, 0xFF, 0xFF, 0xFF,
    0xFF, 0xFF, 0x03,
];

/// The greatest place of an image.
const IMAGE: &[u8] = &[0x04, 0xFF, 0xFF, 0xFF, 0xFF, 0x0F];

/// A mask.
const MASK: &[u8] = &[0x05, 0xAC, 0x02];

fn show_changed(rt: &HostRuntime, room: &mut CmdRoom, name: &str, list: &[u8]) -> io::Result<()> {
    for place in 0..list.len() {
        let Ok(tally) = changed_lists(rt.alloc(), room, list, place) else {
            return Err(io::Error::from(ErrorKind::OutOfMemory));
        };
        println!(rt;
            "{name}, byte {place}: {} commands, sum {}",
            tally.read, tally.sum
        )?;
    }
    Ok(())
}

fn main(rt: HostRuntime) -> io::Result<()> {
    let mut room = CmdRoom::new(rt.alloc());
    for first in 0..=255u8 {
        let Ok(tally) = lists_from(&mut room, first) else {
            return Err(io::Error::from(ErrorKind::OutOfMemory));
        };
        println!(rt;
            "three bytes from {first}: {} commands, sum {}",
            tally.read, tally.sum
        )?;
    }
    show_changed(&rt, &mut room, "flat", FLAT)?;
    show_changed(&rt, &mut room, "clip", CLIP)?;
    show_changed(&rt, &mut room, "block", BLOCK)?;
    show_changed(&rt, &mut room, "shapes", SHAPES)?;
    show_changed(&rt, &mut room, "image", IMAGE)?;
    show_changed(&rt, &mut room, "mask", MASK)
}
