//! Masks of 4 columns and 3 rows, as text: `o` where a dot is open, row by row.
#![tactic(auto)]

ghost use Rattle.std.specs.Prelude.{◌≡◌, ◌≤◌};

use geo_clip::BandMask;
use page_model::{Clip, Region, Ring, Rings, Rule};
use press_fault::{Mem, Point};
use std::alloc::Global;
use std::sync::Arc;
use std::test::Fail;

/// Left, top, right and bottom, in dots.
type Sides = (u8, u8, u8, u8);

fn rectangle(alloc: Global, sides: Sides) -> Mem<Ring> {
    let (left, top, right, bottom) = sides;
    let corners = [(left, bottom), (right, bottom), (right, top), (left, top)];
    let mut ring = Ring::new(alloc);
    for (x, y) in corners {
        ring.push(Point::new(256 * i64::from(x), 256 * i64::from(y)))?;
    }
    Ok(ring)
}

fn region(alloc: Global, rule: Rule, rectangles: &[Sides]) -> Mem<Region> {
    let mut rings = Rings::new(alloc);
    for sides in rectangles {
        rings.push(rectangle(alloc, *sides)?)?;
    }
    Ok(Region {
        rule,
        rings: Arc::new(alloc, rings)?,
    })
}

/// A clip of two regions; the second goes by the nonzero rule.
fn clip_of(alloc: Global, rule: Rule, first: &[Sides], second: &[Sides]) -> Mem<Arc<Clip>> {
    let mut clip = Clip::new(alloc);
    clip.push(region(alloc, rule, first)?)?;
    clip.push(region(alloc, Rule::Nonzero, second)?)?;
    Ok(Arc::new(alloc, clip)?)
}

/// The mask from a row on, cut to one clip and then to another.
fn shown(alloc: Global, first: u8, before: &Arc<Clip>, clip: &Arc<Clip>) -> Mem<Vec<u8>> {
    let mut mask = BandMask::new(alloc, 4, u32::from(first), 3)?;
    mask.cut(before)?;
    mask.cut(clip)?;
    letters(alloc, &mask, u32::from(first))
}

fn letters(alloc: Global, mask: &BandMask, first: u32) -> Mem<Vec<u8>>
    requires width { mask.now.width ≡ 4 }
    requires first { mask.now.first ≡ first }
    requires rows { mask.now.rows ≡ 3 }
    requires small { first ≤ 255 }
{
    let mut text = Vec::new(alloc);
    for row in first..first + 3 {
        for col in 0..4 {
            text.push(if mask.open(row, col) { b'o' } else { b'.' })?;
        }
    }
    Ok(text)
}

/// The mask from a row on, cut to a clip of two regions.
fn cut(alloc: Global, row: u8, rule: Rule, first: &[Sides], second: &[Sides]) -> Mem<Vec<u8>> {
    let none = Arc::new(alloc, Clip::new(alloc))?;
    shown(alloc, row, &none, &clip_of(alloc, rule, first, second)?)
}

/// A name, the first region's rule and rectangles, the second region's, and the mask.
type Case = (
    &'static str,
    Rule,
    &'static [Sides],
    &'static [Sides],
    &'static [u8; 12],
);

const ALL: &[Sides] = &[(0, 0, 9, 9)];

#[test]
fn a_dot_is_open_in_every_region(rt: HostRuntime) -> Result<(), Fail> {
    let (nonzero, even_odd) = (Rule::Nonzero, Rule::EvenOdd);
    let nested: &'static [Sides] = &[(0, 0, 4, 3), (1, 1, 3, 2)];
    let cases: [Case; 8] = [
        (
            "disjoint",
            nonzero,
            &[(0, 0, 1, 1)],
            &[(2, 2, 3, 3)],
            b"............",
        ),
        (
            "overlapping",
            nonzero,
            &[(0, 0, 3, 2)],
            &[(2, 1, 4, 3)],
            b"......o.....",
        ),
        (
            "one in the other",
            nonzero,
            ALL,
            &[(1, 0, 3, 3)],
            b".oo..oo..oo.",
        ),
        ("nested, nonzero", nonzero, nested, ALL, b"oooooooooooo"),
        ("nested, even-odd", even_odd, nested, ALL, b"ooooo..ooooo"),
        (
            "two parts",
            nonzero,
            &[(0, 0, 1, 3), (3, 0, 4, 3)],
            ALL,
            b"o..oo..oo..o",
        ),
        ("without edges, first", nonzero, &[], ALL, b"............"),
        ("without edges, second", nonzero, ALL, &[], b"............"),
    ];
    for (name, rule, first, second, expected) in cases {
        let text = cut(rt.alloc(), 0, rule, first, second)?;
        assert_eq!(rt; text.as_slice(), expected.as_slice(), "{name}");
    }
    Ok(())
}

#[test]
fn a_band_has_its_own_rows(rt: HostRuntime) -> Result<(), Fail> {
    let cases = [
        ("to the first row", (0, 1, 4, 6), b"oooo........"),
        ("from the last row on", (0, 7, 4, 9), b"........oooo"),
        ("the first dot", (0, 5, 1, 6), b"o..........."),
        ("the last column, first row", (3, 5, 4, 6), b"...o........"),
        ("the first column, last row", (0, 7, 1, 8), b"........o..."),
        ("the last dot", (3, 7, 4, 8), b"...........o"),
        ("above the band", (0, 0, 4, 5), b"............"),
        ("below the band", (0, 8, 4, 9), b"............"),
    ];
    for (name, sides, expected) in cases {
        let text = cut(rt.alloc(), 5, Rule::Nonzero, &[sides], ALL)?;
        assert_eq!(rt; text.as_slice(), expected.as_slice(), "{name}");
    }
    Ok(())
}

#[test]
fn only_the_last_clip_counts(rt: HostRuntime) -> Result<(), Fail> {
    let alloc = rt.alloc();
    let small = clip_of(alloc, Rule::Nonzero, &[(1, 1, 2, 2)], ALL)?;
    let large = clip_of(alloc, Rule::Nonzero, &[(0, 0, 4, 2)], ALL)?;
    let again = clip_of(alloc, Rule::Nonzero, &[(0, 0, 4, 2)], ALL)?;
    let none = Arc::new(alloc, Clip::new(alloc))?;
    let cases = [
        ("a larger one", &small, &large, b"oooooooo...."),
        ("a smaller one", &large, &small, b".....o......"),
        ("an equal one", &large, &again, b"oooooooo...."),
        ("itself", &small, &small, b".....o......"),
        ("one without regions", &small, &none, b"oooooooooooo"),
        ("twice without regions", &none, &none, b"oooooooooooo"),
    ];
    for (name, before, clip, expected) in cases {
        let text = shown(alloc, 0, before, clip)?;
        assert_eq!(rt; text.as_slice(), expected.as_slice(), "{name}");
    }
    Ok(())
}

/// The first run of open dots of the middle row of a mask of 6 columns and 3 rows, from a column on.
fn run_in(alloc: Global, clip: &Arc<Clip>, from: u32, to: u32) -> Mem<Option<(u32, u32)>>
    requires { to ≤ 6 }
{
    let mut mask = BandMask::new(alloc, 6, 0, 3)?;
    mask.cut(clip)?;
    Ok(match mask.open_run(1, from, to) {
        Some(run) => Some((run.first, run.end)),
        None => None,
    })
}

#[test]
fn a_run_is_the_first_one_in_its_range(rt: HostRuntime) -> Result<(), Fail> {
    let parts: &[Sides] = &[(0, 0, 2, 3), (3, 1, 5, 2)];
    let clip = clip_of(rt.alloc(), Rule::Nonzero, parts, ALL)?;
    // name, the range's first column and its end, the run
    let cases = [
        ("from the left", 0, 6, Some((0, 2))),
        ("from within", 1, 6, Some((1, 2))),
        ("from a gap", 2, 6, Some((3, 5))),
        ("up to within", 2, 4, Some((3, 4))),
        ("in a gap", 2, 3, None),
        ("behind all", 5, 6, None),
        ("of no columns", 4, 4, None),
    ];
    for (name, from, to, expected) in cases {
        assert!(rt; to <= 6);
        let run = run_in(rt.alloc(), &clip, from, to)?;
        assert_eq!(rt; run, expected, "{name}");
    }
    Ok(())
}
