//! The winding number of rings at a point, and what a rule makes of it.
ghost use Rattle.std.specs.Prelude.{◌≡◌, ◌≤◌, ◌<◌, ◌^◌, ◌+◌, ◌*◌, ℤ, length, unsigned_abs, int_le, ◌+ℤ◌, ◌-ℤ◌, ◌*ℤ◌};
ghost use Rattle.press_fault.specs.Plane.{IsWithin};
ghost use Rattle.page_model.specs.Inside.{centre, crosses_left, turn_of, ring_winding, winding, rings_hold};
ghost use Rattle.page_model.specs.Inside.{is_between as in_range};

use crate::{Ring, Rule};
use press_fault::Point;
use press_nums::Wide;

/// The centre of a row or a column, in sub-dots. Its number may be any that a `u32` has. Own rule: a
/// dot has 256 sub-dots a side, and its centre stands for the whole of it.
pub fn centre_of(k: u32) -> Wide
    ensures value { result ≡ centre k }
    ensures bound { IsWithin result }
{
    Wide::of(256 * i64::from(k) + 128)
}

/// Whether the line from the end of lesser y to the other one crosses the height `py` at or left of `px`.
#[tactic(auto, unfolding(crate::specs::Inside::crosses_left))]
fn crosses_at_left(low: Point, high: Point, px: Wide, py: Wide) -> bool
    requires px { IsWithin px }
    requires py { IsWithin py }
    ensures { result ≡ crosses_left low high px py }
{
    let height = high.wide_y() - low.wide_y();
    let across = product_of_differences(py - low.wide_y(), high.wide_x() - low.wide_x());
    (product_of_differences(low.wide_x(), height) + across).is_at_most(product_of_differences(
        px, height,
    ))
}

/// The product of two differences of coordinates, both in sub-dots, exact. Own rule: crossings are
/// compared by products, and never by a rounded quotient.
pub fn product_of_differences(a: Wide, b: Wide) -> Wide
    requires a { unsigned_abs a < 2 ^ 46 }
    requires b { unsigned_abs b < 2 ^ 46 }
    ensures value { result ≡ a *ℤ b }
    ensures bound { unsigned_abs result < 2 ^ 92 }
{
    a * b
}

/// What an edge adds to the winding number.
fn turn(from: Point, to: Point, px: Wide, py: Wide) -> Wide
    requires px { IsWithin px }
    requires py { IsWithin py }
    ensures value { result ≡ turn_of px py (from, to) }
    ensures bound { unsigned_abs result ≤ 1 }
{
    if is_between(from.wide_y(), to.wide_y(), py) && crosses_at_left(from, to, px, py) {
        Wide::of(1)
    } else if is_between(to.wide_y(), from.wide_y(), py) && crosses_at_left(to, from, px, py) {
        Wide::of(-1)
    } else {
        Wide::of(0)
    }
}

/// Whether `a <= height < b`: an edge from `a` to `b` crosses that height on its way down the page. All
/// three are in sub-dots. Own rule: an edge holds its upper end (its lesser y) and not its lower one, so
/// that a corner counts once (PostScript Language Reference, third edition, 4.5 Painting leaves this open).
pub fn is_between(a: Wide, b: Wide, height: Wide) -> bool
    ensures { result ≡ in_range a b height }
{
    a.is_at_most(height) && height.is_below(b)
}

/// The winding number of a closed ring.
fn ring_winding_at(points: &[Point], px: Wide, py: Wide) -> Wide
    requires px { IsWithin px }
    requires py { IsWithin py }
    ensures value { result ≡ ring_winding px py points.now }
    ensures bound { unsigned_abs result < 2 ^ 63 }
{
    let mut total = Wide::of(0);
    for i in 0..points.len() {
        let from = points[i];
        let to = points[(i + 1) % points.len()];
        total = total + turn(from, to, px, py);
    }
    total
}

/// The winding number of closed rings.
#[tactic(auto, unfolding(crate::specs::Inside::winding))]
pub(crate) fn winding_at(rings: &[Ring], px: Wide, py: Wide) -> Wide
    requires px { IsWithin px }
    requires py { IsWithin py }
    ensures value { result ≡ winding px py rings.now }
{
    let mut total = Wide::of(0);
    for ring in rings {
        total = total + ring_winding_at(ring.items(), px, py);
    }
    total
}

/// Whether rings hold the centre of a dot.
pub(crate) fn do_rings_hold(rule: Rule, rings: &[Ring], row: u32, col: u32) -> bool
    ensures { result ≡ rings_hold rule rings.now row col }
{
    let winding = winding_at(rings, centre_of(col), centre_of(row));
    match rule {
        Rule::Nonzero => !winding.is_zero(),
        Rule::EvenOdd => winding.is_odd(),
    }
}
