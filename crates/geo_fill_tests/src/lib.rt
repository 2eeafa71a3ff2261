//! Rows of shapes: spans found by hand, and walks over generated shapes against the test of each dot.
#![tactic(auto)]

ghost use Rattle.std.specs.Prelude.{◌≡◌, ◌≤◌, ◌<◌, ◌+◌};

use geo_fill::{EdgeWalk, Spans, region_spans, spans};
use page_model::{Disc, Region, Ring, Rings, Rule, Shape, does_shape_hold};
use press_fault::{Mem, Point};
use std::alloc::Global;
use std::sync::Arc;
use std::test::Fail;

fn ring(alloc: Global, corners: &[(u16, u16)]) -> Mem<Ring> {
    let mut ring = Ring::new(alloc);
    for (x, y) in corners {
        ring.push(Point::new(i64::from(*x), i64::from(*y)))?;
    }
    Ok(ring)
}

/// A polygon of one or two rings; corners are in sub-dots.
fn polygon(alloc: Global, first: &[(u16, u16)], second: &[(u16, u16)]) -> Mem<Shape> {
    let mut rings = Rings::new(alloc);
    rings.push(ring(alloc, first)?)?;
    rings.push(ring(alloc, second)?)?;
    Ok(Shape::Poly(rings))
}

/// The spans of a row as pairs, in a list that had another row's before.
fn found(
    alloc: Global,
    shape: &Shape,
    rule: Rule,
    row: u32,
    from: u32,
    to: u32,
) -> Mem<Vec<(u32, u32)>>
    requires { from ≤ to }
{
    let mut out = Spans::new(alloc);
    spans(shape, rule, 1, 0, 4, &mut out)?;
    spans(shape, rule, row, from, to, &mut out)?;
    let mut pairs = Vec::new(alloc);
    for span in out.items() {
        pairs.push((span.first, span.end))?;
    }
    Ok(pairs)
}

const NONE: &[(u32, u32)] = &[];

#[test]
fn rows_have_the_columns_of_a_polygon(rt: HostRuntime) -> Result<(), Fail> {
    let low: &[(u16, u16)] = &[(128, 896), (640, 896), (128, 384)];
    let high: &[(u16, u16)] = &[(640, 896), (640, 384), (128, 384)];
    let outer: &[(u16, u16)] = &[(0, 1024), (1024, 1024), (1024, 0), (0, 0)];
    let inner: &[(u16, u16)] = &[(256, 768), (768, 768), (768, 256), (256, 256)];
    let centres: &[(u16, u16)] = &[(128, 640), (640, 640), (640, 128), (128, 128)];
    let star: &[(u16, u16)] = &[(1152, 0), (1920, 2304), (0, 870), (2304, 870), (384, 2304)];
    let nothing: &[(u16, u16)] = &[];
    let (nonzero, even_odd) = (Rule::Nonzero, Rule::EvenOdd);
    let cases = [
        ("lower triangle, row 1", low, nothing, nonzero, 1, NONE),
        ("lower triangle, row 2", low, nothing, nonzero, 2, &[(0, 1)]),
        ("lower triangle, row 3", low, nothing, nonzero, 3, NONE),
        ("upper triangle, row 0", high, nothing, nonzero, 0, NONE),
        (
            "upper triangle, row 1",
            high,
            nothing,
            nonzero,
            1,
            &[(0, 2)],
        ),
        (
            "upper triangle, row 2",
            high,
            nothing,
            nonzero,
            2,
            &[(1, 2)],
        ),
        (
            "nested squares, row 0",
            outer,
            inner,
            even_odd,
            0,
            &[(0, 4)],
        ),
        (
            "nested squares, row 1",
            outer,
            inner,
            even_odd,
            1,
            &[(0, 1), (3, 4)],
        ),
        (
            "nested squares, nonzero",
            outer,
            inner,
            nonzero,
            1,
            &[(0, 4)],
        ),
        (
            "a ring given twice, nonzero",
            outer,
            outer,
            nonzero,
            2,
            &[(0, 4)],
        ),
        (
            "a ring given twice, even-odd",
            outer,
            outer,
            even_odd,
            2,
            NONE,
        ),
        (
            "edges through centres, row 0",
            centres,
            nothing,
            nonzero,
            0,
            &[(0, 2)],
        ),
        (
            "edges through centres, row 2",
            centres,
            nothing,
            nonzero,
            2,
            NONE,
        ),
        ("a star's top", star, nothing, even_odd, 2, &[(4, 5)]),
        (
            "a star's middle, nonzero",
            star,
            nothing,
            nonzero,
            4,
            &[(1, 8)],
        ),
        (
            "a star's middle, even-odd",
            star,
            nothing,
            even_odd,
            4,
            &[(1, 3), (6, 8)],
        ),
        (
            "a star's feet",
            star,
            nothing,
            nonzero,
            7,
            &[(2, 4), (5, 7)],
        ),
        (
            "one point and two",
            &[(128, 128)],
            &[(0, 0), (900, 900)],
            nonzero,
            1,
            NONE,
        ),
    ];
    for (name, first, second, rule, row, expected) in cases {
        let shape = polygon(rt.alloc(), first, second)?;
        let pairs = found(rt.alloc(), &shape, rule, row, 0, 12)?;
        assert_eq!(rt; pairs.as_slice(), expected, "{name}");
    }
    Ok(())
}

#[test]
fn spans_stay_in_their_range(rt: HostRuntime) -> Result<(), Fail> {
    let square = polygon(
        rt.alloc(),
        &[(0, 1024), (1024, 1024), (1024, 0), (0, 0)],
        &[],
    )?;
    let cases = [
        ("inside the square", 1, 3, [(1, 3)].as_slice()),
        ("over its right side", 2, 6, &[(2, 4)]),
        ("its last column", 3, 4, &[(3, 4)]),
        ("right of it", 4, 6, NONE),
        ("no column", 2, 2, NONE),
    ];
    for (name, from, to, expected) in cases {
        assert!(rt; from <= to);
        let pairs = found(rt.alloc(), &square, Rule::Nonzero, 0, from, to)?;
        assert_eq!(rt; pairs.as_slice(), expected, "{name}");
    }
    Ok(())
}

#[test]
fn a_disc_has_a_span_in_each_of_its_rows(rt: HostRuntime) -> Result<(), Fail> {
    let disc = Shape::Disc(Disc::new(Point::new(512, 512), 405));
    let cases = [
        (0, [(1, 3)].as_slice()),
        (1, &[(0, 4)]),
        (2, &[(0, 4)]),
        (3, &[(1, 3)]),
        (4, NONE),
    ];
    for (row, expected) in cases {
        let pairs = found(rt.alloc(), &disc, Rule::EvenOdd, row, 0, 4)?;
        assert_eq!(rt; pairs.as_slice(), expected, "row {row}");
    }
    Ok(())
}

/// A polygon of two rectangles that are a dot high; sides are in sub-dots.
fn two(alloc: Global, first: (u16, u16), second: (u16, u16)) -> Mem<Shape> {
    let corners = |(left, right): (u16, u16)| [(left, 256), (right, 256), (right, 0), (left, 0)];
    polygon(alloc, &corners(first), &corners(second))
}

#[test]
fn crossings_at_one_column_leave_no_gap(rt: HostRuntime) -> Result<(), Fail> {
    let (nonzero, even_odd) = (Rule::Nonzero, Rule::EvenOdd);
    let cases = [
        (
            "side by side",
            (0, 512),
            (512, 1024),
            nonzero,
            [(0, 4)].as_slice(),
        ),
        (
            "the right one first",
            (512, 1024),
            (0, 512),
            nonzero,
            &[(0, 4)],
        ),
        (
            "going round two ways",
            (0, 512),
            (1024, 512),
            nonzero,
            &[(0, 4)],
        ),
        (
            "side by side, even-odd",
            (0, 512),
            (512, 1024),
            even_odd,
            &[(0, 4)],
        ),
        (
            "a dot apart",
            (0, 256),
            (512, 768),
            nonzero,
            &[(0, 1), (2, 3)],
        ),
        (
            "less apart, round a centre",
            (0, 384),
            (400, 768),
            nonzero,
            &[(0, 1), (2, 3)],
        ),
        (
            "less apart, between centres",
            (0, 385),
            (400, 768),
            nonzero,
            &[(0, 3)],
        ),
        (
            "one over the other",
            (0, 768),
            (256, 1024),
            nonzero,
            &[(0, 4)],
        ),
        (
            "one over the other, even-odd",
            (0, 768),
            (256, 1024),
            even_odd,
            &[(0, 1), (3, 4)],
        ),
    ];
    for (name, first, second, rule, expected) in cases {
        let shape = two(rt.alloc(), first, second)?;
        let pairs = found(rt.alloc(), &shape, rule, 0, 0, 6)?;
        assert_eq!(rt; pairs.as_slice(), expected, "{name}");
    }
    Ok(())
}

#[test]
fn a_region_has_spans_by_its_own_rule(rt: HostRuntime) -> Result<(), Fail> {
    let alloc = rt.alloc();
    let cases = [
        (Rule::Nonzero, [(0, 4)].as_slice()),
        (Rule::EvenOdd, &[(0, 1), (3, 4)]),
    ];
    for (rule, expected) in cases {
        let mut rings = Rings::new(alloc);
        rings.push(ring(alloc, &[(0, 256), (768, 256), (768, 0), (0, 0)])?)?;
        rings.push(ring(alloc, &[(256, 256), (1024, 256), (1024, 0), (256, 0)])?)?;
        let mut out = Spans::new(alloc);
        let rings = Arc::new(alloc, rings)?;
        region_spans(&Region { rule, rings }, 0, 0, 6, &mut out)?;
        let mut pairs = Vec::new(alloc);
        for span in out.items() {
            pairs.push((span.first, span.end))?;
        }
        assert_eq!(rt; pairs.as_slice(), expected);
    }
    Ok(())
}

/// The rows that walks are asked for here, and their columns: edges begin above the first row, and cross
/// rows left and right of the columns.
const FIRST: u32 = 2;

const END: u32 = 8;

const FROM: u32 = 0;

const TO: u32 = 6;

/// The dots of the rows that a walk gives, as row and column.
fn walked(alloc: Global, shape: &Shape, rule: Rule, first: u32, end: u32) -> Mem<Vec<(u32, u32)>>
    requires { first ≤ end }
{
    let mut out = Spans::new(alloc);
    let mut dots = Vec::new(alloc);
    let mut walk = EdgeWalk::new(alloc, shape, rule, first, end - first)?;
    add_rows(&mut walk, first, end, &mut out, &mut dots)?;
    Ok(dots)
}

fn add_rows(
    walk: &mut EdgeWalk,
    first: u32,
    end: u32,
    out: &mut Spans,
    dots: &mut Vec<(u32, u32)>,
) -> Mem<()>
    requires order { first ≤ end }
    requires rows { walk.old.left + first ≡ end }
{
    for row in first..end {
        walk.next_row(FROM, TO, out)?;
        add_columns(row, out, dots)?;
    }
    Ok(())
}

fn add_columns(row: u32, out: &Spans, dots: &mut Vec<(u32, u32)>) -> Mem<()> {
    for span in out.items() {
        for col in span.first..span.end {
            dots.push((row, col))?;
        }
    }
    Ok(())
}

/// The dots of the rows that a shape holds by the test of each.
fn tested(alloc: Global, shape: &Shape, rule: Rule, first: u32, end: u32) -> Mem<Vec<(u32, u32)>> {
    let mut dots = Vec::new(alloc);
    for row in first..end {
        for col in FROM..TO {
            if does_shape_hold(rule, shape, row, col) {
                dots.push((row, col))?;
            }
        }
    }
    Ok(dots)
}

#[test]
fn a_walk_goes_down_the_rows(rt: HostRuntime) -> Result<(), Fail> {
    let low: &[(u16, u16)] = &[(128, 896), (640, 896), (128, 384)];
    let high: &[(u16, u16)] = &[(640, 896), (640, 384), (128, 384)];
    // name, corners, the dots of rows 0 to 3
    let cases = [
        ("the lower triangle", low, [(2, 0)].as_slice()),
        ("the upper triangle", high, &[(1, 0), (1, 1), (2, 1)]),
    ];
    for (name, corners, expected) in cases {
        let shape = polygon(rt.alloc(), corners, &[])?;
        let dots = walked(rt.alloc(), &shape, Rule::Nonzero, 0, 4)?;
        assert_eq!(rt; dots.as_slice(), expected, "{name}");
    }
    Ok(())
}

/// The next word of a generator, below 16.
fn next_word(state: &mut u64) -> u8
    ensures { result < 16 }
{
    *state = state
        .wrapping_mul(6364136223846793005)
        .wrapping_add(1442695040888963407);
    ((*state >> 33) % 16) as u8
}

/// A place on a grid of a dot's half, up to two dots outside of the rows and columns that are asked. So
/// edges run along rows, through centres and from a point to itself.
fn place(state: &mut u64) -> Point {
    let x = next_word(state) + next_word(state) / 8;
    let y = next_word(state) + next_word(state) / 2;
    let beside = next_word(state) / 15;
    Point::new(
        128 * i64::from(x) + i64::from(beside) - 256,
        128 * i64::from(y),
    )
}

/// A ring of so many corners, where every other corner may be one point.
fn generated(alloc: Global, state: &mut u64, corners: u16, one_point: bool) -> Mem<Shape> {
    let mut ring = Ring::new(alloc);
    for k in 0..corners {
        if one_point && k % 2 == 0 {
            ring.push(Point::new(1152, 1152))?;
        } else {
            ring.push(place(state))?;
        }
    }
    let mut rings = Rings::new(alloc);
    rings.push(ring)?;
    Ok(Shape::Poly(rings))
}

#[test]
fn a_walk_has_the_dots_of_generated_polygons(rt: HostRuntime) -> Result<(), Fail> {
    let alloc = rt.alloc();
    let mut state = 1;
    for k in 0_u16..60 {
        let shape = generated(alloc, &mut state, k % 9 + 1, false)?;
        let rule = if k % 2 == 0 {
            Rule::Nonzero
        } else {
            Rule::EvenOdd
        };
        let dots = walked(alloc, &shape, rule, FIRST, END)?;
        assert_eq!(rt;
            dots,
            tested(alloc, &shape, rule, FIRST, END)?,
            "polygon {k}"
        );
    }
    Ok(())
}

#[test]
fn a_walk_has_the_dots_of_edges_through_one_point(rt: HostRuntime) -> Result<(), Fail> {
    let alloc = rt.alloc();
    let mut state = 2;
    for rule in [Rule::Nonzero, Rule::EvenOdd] {
        let shape = generated(alloc, &mut state, 300, true)?;
        let dots = walked(alloc, &shape, rule, FIRST, END)?;
        assert_eq!(rt; dots, tested(alloc, &shape, rule, FIRST, END)?);
    }
    Ok(())
}

#[test]
fn a_walk_has_the_dots_of_generated_discs(rt: HostRuntime) -> Result<(), Fail> {
    let alloc = rt.alloc();
    let mut state = 3;
    for k in 0_u64..40 {
        let shape = Shape::Disc(Disc::new(place(&mut state), 32 * k));
        let dots = walked(alloc, &shape, Rule::Nonzero, FIRST, END)?;
        assert_eq!(rt;
            dots,
            tested(alloc, &shape, Rule::Nonzero, FIRST, END)?,
            "disc {k}"
        );
    }
    Ok(())
}
