//! How fast polygons are filled row by row by the walk over their edges: how many spans, and a sum of their
//! places; the nanoseconds of making the walks, and of their rows.

ghost use Rattle.std.specs.Prelude.{◌≡◌, ◌≤◌, ◌<◌, ◌+◌};

use geo_fill::{EdgeWalk, Span, Spans};
use page_model::{Ring, Rings, Rule, Shape};
use press_fault::{Mem, Point};
use std::alloc::Global;
use std::io;
use std::time::Instant;

/// Words of a generator, in order.
#[derive(Drop)]
struct Words {
    state: u64,
}

impl Words {
    /// The next word modulo a number.
    fn next(&mut self, most: u16) -> u16
        requires { 0 < most }
        ensures { result < most }
    {
        self.state = self
            .state
            .wrapping_mul(6364136223846793005)
            .wrapping_add(1442695040888963407);
        ((self.state >> 33) % u64::from(most)) as u16
    }
}

/// A polygon's size and kind: so many corners, in a box of so many dots whose top left corner is at a
/// place.
#[derive(Clone, Copy)]
struct Plan {
    corners: u16,
    left: u16,
    top: u16,
    width: u16,
    height: u16,
    kind: Kind,
}

#[derive(Clone, Copy, PartialEq, Eq)]
enum Kind {
    /// Corners anywhere in the box.
    Scattered,
    /// Every other corner at the top, the others at the bottom.
    Steep,
    /// Each corner a little below the one before, and back up on the other side.
    Gentle,
}

fn corner(words: &mut Words, plan: &Plan, k: u16) -> Point
    requires width { 0 < plan.now.width }
    requires height { 0 < plan.now.height }
    requires corners { 0 < plan.now.corners }
{
    let x = u32::from(words.next(plan.width));
    let y = u32::from(words.next(plan.height));
    let sub = u32::from(words.next(256));
    let (left, top) = (u32::from(plan.left), u32::from(plan.top));
    let (width, height) = (u32::from(plan.width), u32::from(plan.height));
    let (dx, dy) = match plan.kind {
        Kind::Scattered => (x * 256 + sub, y * 256 + sub),
        Kind::Steep => (x * 256 + sub, if k % 2 == 0 { 0 } else { height * 256 }),
        Kind::Gentle => {
            let corners = u32::from(plan.corners);
            let half = corners / 2 + 1;
            let at = u32::from(k);
            if at < half {
                (x * 64 + sub, at * (height * 256 / half))
            } else {
                (
                    width * 256 - x * 64,
                    (half - (at - half).min(half)) * (height * 256 / half),
                )
            }
        }
    };
    Point::new(i64::from(left * 256 + dx), i64::from(top * 256 + dy))
}

fn polygon(alloc: Global, words: &mut Words, plan: &Plan) -> Mem<Shape>
    requires width { 0 < plan.now.width }
    requires height { 0 < plan.now.height }
    requires corners { 0 < plan.now.corners }
{
    let mut ring = Ring::new(alloc);
    for k in 0..plan.corners {
        ring.push(corner(words, plan, k))?;
    }
    let mut rings = Rings::new(alloc);
    rings.push(ring)?;
    Ok(Shape::Poly(rings))
}

/// How many spans there are, and a sum of their places.
#[derive(Clone, Copy)]
struct Sums {
    spans: u64,
    sum: u64,
}

impl Sums {
    fn add(&mut self, row: u32, spans: &[Span]) {
        for span in spans {
            self.spans = self.spans.wrapping_add(1);
            self.sum = self
                .sum
                .wrapping_mul(31)
                .wrapping_add(u64::from(row))
                .wrapping_add(u64::from(span.first).wrapping_mul(7))
                .wrapping_add(u64::from(span.end).wrapping_mul(11));
        }
    }
}

fn by_walk(
    walk: &mut EdgeWalk,
    first: u32,
    rows: u32,
    width: u32,
    out: &mut Spans,
    sums: &mut Sums,
) -> Mem<()>
    requires rows { walk.old.left ≡ rows }
    requires numbered { first + rows ≤ 4294967295 }
{
    for row in first..first + rows {
        walk.next_row(0, width, out)?;
        sums.add(row, out.items());
    }
    Ok(())
}

/// The nanoseconds of making the walks, and of their rows.
#[derive(Clone, Copy)]
struct Times {
    made: u128,
    walked: u128,
}

fn filled(
    rt: &HostRuntime,
    plan: &Plan,
    shape: &Shape,
    width: u32,
    out: &mut Spans,
    walked: &mut Sums,
    times: &mut Times,
) -> io::Result<()> {
    let (first, rows) = (u32::from(plan.top), u32::from(plan.height));
    let start = Instant::now(rt)?;
    if let Ok(mut walk) = EdgeWalk::new(rt.alloc(), shape, Rule::Nonzero, first, rows) {
        times.made = times.made.saturating_add(start.elapsed(rt)?.as_nanos());
        let start = Instant::now(rt)?;
        let _ = by_walk(&mut walk, first, rows, width, out, walked);
        times.walked = times.walked.saturating_add(start.elapsed(rt)?.as_nanos());
    }
    Ok(())
}

fn case(rt: &HostRuntime, name: &str, count: u16, plan: &Plan, width: u32) -> io::Result<()> {
    let mut words = Words { state: 1 };
    let mut walked = Sums { spans: 0, sum: 0 };
    let mut times = Times { made: 0, walked: 0 };
    let mut out = Spans::new(rt.alloc());
    for k in 0..count {
        let here = Plan {
            left: k % 37 * 30,
            top: k / 37 * 30,
            ..*plan
        };
        if here.width == 0 || here.height == 0 || here.corners == 0 {
            return Ok(());
        }
        if let Ok(shape) = polygon(rt.alloc(), &mut words, &here) {
            filled(rt, &here, &shape, width, &mut out, &mut walked, &mut times)?;
        }
    }
    println!(rt; "fill, {name}: {} spans, sum {}", walked.spans, walked.sum)?;
    eprintln!(rt; "fill, {name}: make {} walk {}", times.made, times.walked)?;
    Ok(())
}

pub(crate) fn run(rt: &HostRuntime) -> io::Result<()> {
    let eight = Plan {
        corners: 8,
        left: 0,
        top: 0,
        width: 5100,
        height: 6600,
        kind: Kind::Scattered,
    };
    let small = Plan {
        corners: 12,
        left: 0,
        top: 0,
        width: 20,
        height: 20,
        kind: Kind::Gentle,
    };
    let page = Plan {
        corners: 4000,
        left: 0,
        top: 0,
        width: 1240,
        height: 1754,
        kind: Kind::Gentle,
    };
    case(rt, "eight edges", 1, &eight, 5100)?;
    case(rt, "a thousand small", 1000, &small, 1240)?;
    case(rt, "four thousand gentle", 1, &page, 1240)?;
    case(
        rt,
        "four thousand scattered",
        1,
        &Plan {
            kind: Kind::Scattered,
            ..page
        },
        1240,
    )?;
    case(
        rt,
        "four thousand steep",
        1,
        &Plan {
            kind: Kind::Steep,
            ..page
        },
        1240,
    )?;
    Ok(())
}
