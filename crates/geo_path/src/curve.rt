//! Points of a curve.
ghost use Rattle.std.specs.Prelude.{◌≡◌, length, ◌≤◌, ◌<◌, ◌^◌, ◌*◌, ◌+◌, ◌-◌, ◌++◌, ℤ, pos, unsigned_abs, ◌+ℤ◌, ◌-ℤ◌};
ghost use Rattle.std.specs.Prelude.{◌*ℤ◌, OnOk, OnErr};
ghost use Rattle.geo_matrix.specs.Affine.{IsNear};
ghost use Rattle.geo_path.specs.Curve.{apart, control_length, pieces_of, cubic, curve_at, curve_spot, curve_points};

use page_model::Ring;
use press_fault::{Mem, Point};
use press_nums::Wide;

/// The four control points of a curve.
#[derive(Clone, Copy, Debug, PartialEq, Eq)]
pub(crate) struct Bezier {
    pub p0: Point,
    pub p1: Point,
    pub p2: Point,
    pub p3: Point,
}

/// Adds the points of a curve behind its start.
#[tactic(auto, unfolding(crate::specs::Curve::curve_points))]
pub(crate) fn push_curve(ring: &mut Ring, c: &Bezier) -> Mem<()>
    requires p0 { IsNear c.now.p0 }
    requires p1 { IsNear c.now.p1 }
    requires p2 { IsNear c.now.p2 }
    requires p3 { IsNear c.now.p3 }
    ensures ok { OnOk result (ring.new ≡ ring.old ++ curve_points c.now.p0 c.now.p1 c.now.p2 c.now.p3) }
{
    let n = pieces(c);
    for i in 0..n {
        ring.push(point_of(c, n, i + 1))?;
    }
    Ok(())
}

/// How many points those are, from 8 to 64.
#[tactic(auto, unfolding(crate::specs::Curve::curve_points), using(crate::proofs::LengthLemmas::curve_length))]
pub(crate) fn curve_len(c: &Bezier) -> u64
    ensures value { result ≡ length (curve_points c.now.p0 c.now.p1 c.now.p2 c.now.p3) }
    ensures bound { result ≤ 64 }
{
    u64::from(pieces(c))
}

/// How many pieces stand for the curve.
fn pieces(c: &Bezier) -> u32
    ensures value { result ≡ pieces_of (control_length c.now.p0 c.now.p1 c.now.p2 c.now.p3) }
    ensures some { 8 ≤ result }
    ensures few { result ≤ 64 }
{
    let length = apart(c.p0, c.p1) + apart(c.p1, c.p2) + apart(c.p2, c.p3);
    if length <= 4096 {
        8
    } else if length <= 65536 {
        16
    } else if length <= 1048576 {
        32
    } else {
        64
    }
}

/// How far apart two points are along the axes.
fn apart(p: Point, q: Point) -> u128
    ensures value { result ≡ apart p q }
    ensures bound { result ≤ 2 ^ 46 }
{
    (q.wide_x() - p.wide_x()).size() + (q.wide_y() - p.wide_y()).size()
}

/// The end of piece `i` of `n`.
fn point_of(c: &Bezier, n: u32, i: u32) -> Point
    requires some { 0 < n }
    requires few { n ≤ 64 }
    requires within { i ≤ n }
    requires p0 { IsNear c.now.p0 }
    requires p1 { IsNear c.now.p1 }
    requires p2 { IsNear c.now.p2 }
    requires p3 { IsNear c.now.p3 }
    ensures { result ≡ curve_spot n c.now.p0 c.now.p1 c.now.p2 c.now.p3 i }
{
    Point::of_wide(
        coordinate(
            n,
            i,
            c.p0.wide_x(),
            c.p1.wide_x(),
            c.p2.wide_x(),
            c.p3.wide_x(),
        ),
        coordinate(
            n,
            i,
            c.p0.wide_y(),
            c.p1.wide_y(),
            c.p2.wide_y(),
            c.p3.wide_y(),
        ),
    )
}

/// One coordinate of that point.
fn coordinate(n: u32, i: u32, p0: Wide, p1: Wide, p2: Wide, p3: Wide) -> Wide
    requires some { 0 < n }
    requires few { n ≤ 64 }
    requires within { i ≤ n }
    requires p0 { unsigned_abs p0 < 2 ^ 31 }
    requires p1 { unsigned_abs p1 < 2 ^ 31 }
    requires p2 { unsigned_abs p2 < 2 ^ 31 }
    requires p3 { unsigned_abs p3 < 2 ^ 31 }
    ensures value { result ≡ curve_at n i p0 p1 p2 p3 }
    ensures near { unsigned_abs result < 2 ^ 31 }
{
    weighted(n - i, i, p0, p1, p2, p3).div_round(Wide::of(i64::from(cube(n, n, n))))
}

/// The control points by their weights: `j` pieces before the end and `i` behind the start.
fn weighted(j: u32, i: u32, p0: Wide, p1: Wide, p2: Wide, p3: Wide) -> Wide
    requires j { j ≤ 64 }
    requires i { i ≤ 64 }
    requires p0 { unsigned_abs p0 < 2 ^ 31 }
    requires p1 { unsigned_abs p1 < 2 ^ 31 }
    requires p2 { unsigned_abs p2 < 2 ^ 31 }
    requires p3 { unsigned_abs p3 < 2 ^ 31 }
    ensures value { result ≡ cubic j i p0 p1 p2 p3 }
    ensures bound { unsigned_abs result ≤ 2 ^ 60 }
{
    end(p0, j) + inner(p1, j, i) + inner(p2, i, j) + end(p3, i)
}

/// An end of the curve by its weight.
fn end(p: Wide, a: u32) -> Wide
    requires p { unsigned_abs p < 2 ^ 31 }
    requires a { a ≤ 64 }
    ensures value { result ≡ p *ℤ pos (a * a * a) }
    ensures bound { unsigned_abs result ≤ 2 ^ 56 }
{
    p.times(cube(a, a, a))
}

/// An inner control point by its weight.
fn inner(p: Wide, a: u32, b: u32) -> Wide
    requires p { unsigned_abs p < 2 ^ 31 }
    requires a { a ≤ 64 }
    requires b { b ≤ 64 }
    ensures value { result ≡ p *ℤ pos (3 * (a * a * b)) }
    ensures bound { unsigned_abs result ≤ 2 ^ 56 }
{
    p.times(3 * cube(a, a, b))
}

/// Three factors of at most 64.
fn cube(a: u32, b: u32, c: u32) -> u32
    requires a { a ≤ 64 }
    requires b { b ≤ 64 }
    requires c { c ≤ 64 }
    ensures value { result ≡ a * b * c }
    ensures bound { result ≤ 262144 }
{
    a * b * c
}
