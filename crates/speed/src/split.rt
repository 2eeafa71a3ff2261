//! How fast a page is split into bands: how many bytes all lists have, and a sum over them; the nanoseconds of it.

ghost use Rattle.std.specs.Prelude.{◌≡◌, ◌≤◌, ◌<◌, None, IfOk};
ghost use Rattle.page_model.specs.Page.{HasKnownSource};

use crate::{Size, no_memory};
use band_writer::{BandLists, split};
use page_model::{
    Clip, ClipNumber, Ink, Mark, Marks, Page, Paint, Ring, Rings, Rule, Shape, Shapes, point,
};
use press_fault::{Code, Mem, Point};
use std::alloc::Global;
use std::io;
use std::sync::Arc;
use std::time::Instant;

const WIDTH: u16 = 612;

const HEIGHT: u16 = 792;

/// Words of a generator, in order.
#[derive(Drop)]
struct Words {
    state: u64,
}

impl Words {
    /// The next word modulo a number.
    fn next(&mut self, most: u16) -> u16
        requires { 0 < most }
        ensures { result < most }
    {
        self.state = self
            .state
            .wrapping_mul(6364136223846793005)
            .wrapping_add(1442695040888963407);
        ((self.state >> 33) % u64::from(most)) as u16
    }
}

/// A place on the page, in whole dots.
fn dots(x: u16, y: u16) -> Point {
    point(256 * i32::from(x), 256 * i32::from(y))
}

/// A triangle anywhere on the page.
fn triangle(alloc: Global, words: &mut Words) -> Mem<Ring> {
    let mut ring = Ring::new(alloc);
    for _ in 0..3 {
        let x = words.next(WIDTH);
        ring.push(dots(x, words.next(HEIGHT)))?;
    }
    Ok(ring)
}

/// A rectangle from anywhere on the page, with sides of up to so many dots.
fn rectangle(alloc: Global, words: &mut Words, most: u16) -> Mem<Ring>
    requires some { 0 < most }
    requires few { most ≤ 1000 }
{
    let left = words.next(WIDTH);
    let top = words.next(HEIGHT);
    let right = left + 1 + words.next(most);
    let bottom = top + 1 + words.next(most);
    Ring::rectangle(alloc, dots(left, bottom), dots(right, top))
}

/// Any red, green and blue.
fn colour(words: &mut Words) -> Code {
    let red = words.next(256) as u8;
    let green = words.next(256) as u8;
    Code::rgb(red, green, words.next(256) as u8)
}

/// A mark of one ring, without a clip.
fn mark(alloc: Global, ring: Ring, code: Code) -> Mem<Mark>
    ensures source { IfOk result (HasKnownSource 0) }
    ensures number { IfOk result (λ mark. mark.clip_number ≡ None) }
{
    let mut shapes = Shapes::new(alloc);
    shapes.push(Shape::Poly(Rings::one(alloc, ring)?))?;
    Ok(Mark {
        rule: Rule::Nonzero,
        shapes: Arc::new(alloc, shapes)?,
        clip: Arc::new(alloc, Clip::new(alloc))?,
        clip_number: ClipNumber::none(),
        paint: Paint::Flat(Ink::Plain(code)),
    })
}

/// A page of so many marks: nine rectangles in colours of their own, and a triangle in the last one.
#[tactic(auto, using(crate::proofs::Unnumbered::unnumbered))]
fn page(alloc: Global, count: u32, most: u16) -> Mem<Page>
    requires marks { count ≤ 1000000 }
    requires some { 0 < most }
    requires few { most ≤ 1000 }
{
    let mut words = Words { state: 1 };
    let mut code = Code::gray(0);
    let mut marks = Marks::new(alloc);
    for k in 0..count {
        let ring = if k % 10 == 9 {
            triangle(alloc, &mut words)?
        } else {
            code = colour(&mut words);
            rectangle(alloc, &mut words, most)?
        };
        marks.push(mark(alloc, ring, code)?)?;
    }
    Ok(Page {
        width: u32::from(WIDTH),
        height: u32::from(HEIGHT),
        sources: 0,
        marks,
    })
}

/// How many bytes there are, and a sum over them.
#[derive(Clone, Copy)]
struct Sums {
    bytes: u64,
    sum: u64,
}

impl Sums {
    fn add(&mut self, list: &[u8]) {
        self.bytes = self.bytes.wrapping_add(list.len() as u64);
        for byte in list {
            self.sum = self.sum.wrapping_mul(31).wrapping_add(u64::from(*byte));
        }
    }
}

fn sums_of(lists: &BandLists) -> Sums {
    let mut sums = Sums { bytes: 0, sum: 0 };
    for band in 0..lists.bands() {
        sums.add(lists.list(band).bytes());
    }
    sums
}

fn case(rt: &HostRuntime, name: &str, page: &Page, rows: u32) -> io::Result<()>
    requires { 1 ≤ rows }
{
    let start = Instant::now(rt)?;
    let Ok(lists) = split(rt.alloc(), page, rows) else {
        return Err(no_memory());
    };
    let time = start.elapsed(rt)?.as_nanos();
    let sums = sums_of(&lists);
    println!(rt;
        "split, {name}: {} bands, {} bytes, sum {}",
        lists.bands(),
        sums.bytes,
        sums.sum
    )?;
    eprintln!(rt; "split, {name}: {time}")?;
    Ok(())
}

pub(crate) fn run(rt: &HostRuntime, size: Size) -> io::Result<()> {
    let (large, small) = match size {
        Size::Whole => (2_000, 100_000),
        Size::Short => (100, 1_000),
    };
    let Ok(sample) = page(rt.alloc(), large, 200) else {
        return Err(no_memory());
    };
    case(rt, "64 rows a band", &sample, 64)?;
    case(rt, "1 row a band", &sample, 1)?;
    let Ok(many) = page(rt.alloc(), small, 8) else {
        return Err(no_memory());
    };
    case(rt, "small marks, 64 rows a band", &many, 64)
}
