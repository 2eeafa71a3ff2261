//! A matrix as a target: its adjugate, its determinant, and its curves read backwards.
ghost use Rattle.std.specs.Prelude.{◌≡◌, ◌≤◌, ◌<◌, ◌^◌, ◌*◌, ◌+◌, ℤ, pos, ◌*ℤ◌, ◌≤ℤ◌, ◌<ℤ◌, unsigned_abs, IfOk, IsTrue};
ghost use Rattle.std.specs.Prelude.{length, slice_index};
ghost use Rattle.press_nums.specs.Rounding.{div_round};
ghost use Rattle.icc_tables.specs.Rounded.{clamped, rounded};
ghost use Rattle.icc_tables.specs.Pcs.{IsXyz};
ghost use Rattle.icc_model.specs.Direct.{AreWithin, dot, solved, is_invertible};
ghost use Rattle.link_build.specs.Code.Prepared.{inverted, IsInverseOf, IsNarrow};

use crate::back::back_of;
use crate::narrow::Narrow;
use icc_model::{Curve, Pcs, column, cross, determinant, solved};
use press_fault::Mem;
use press_nums::Wide;
use std::alloc::Global;
use std::marker::Model;

/// A matrix turned round. Rows and determinant have the signs of the adjugate. Where `narrow` is
/// true, 64 bits hold all that comes of them.
#[derive(Drop)]
pub(crate) struct Inverse {
    det: Wide,
    red_row: Pcs,
    green_row: Pcs,
    blue_row: Pcs,
    red: Vec<u16>,
    green: Vec<u16>,
    blue: Vec<u16>,
    narrow: bool,
}

impl Model for Inverse {
    ghost use Rattle.std.specs.Prelude.{IsTrue};
    ghost use Rattle.link_build.specs.Code.Prepared.{InverseValue, IsInverse, IsNarrow};

    ghost Value = { InverseValue };

    ghost view = { λ i. record {
      det = i.det;
      red_row = i.red_row;
      green_row = i.green_row;
      blue_row = i.blue_row;
      red = i.red.items;
      green = i.green.items;
      blue = i.blue.items;
    } };

    ghost invariant = { λ i. IsInverse (record {
      det = i.det;
      red_row = i.red_row;
      green_row = i.green_row;
      blue_row = i.blue_row;
      red = i.red.items;
      green = i.green.items;
      blue = i.blue.items;
    }) × (IsTrue i.narrow → IsNarrow i.det i.red_row i.green_row i.blue_row) };
}

impl Inverse {
    /// The inverse of a matrix with its curves.
    pub(crate) fn of(alloc: Global, columns: &[i32; 9], curves: &[Curve; 3]) -> Mem<Inverse>
        requires { IsTrue (is_invertible columns.now) }
        ensures { IfOk result (IsInverseOf columns.now curves.now) }
    {
        let red = column(columns, 0);
        let green = column(columns, 1);
        let blue = column(columns, 2);
        let det = determinant(&red, &green, &blue);
        let red_row = cross(&green, &blue);
        let green_row = cross(&blue, &red);
        let blue_row = cross(&red, &green);
        Ok(Inverse {
            narrow: are_narrow(det, &red_row, &green_row, &blue_row),
            det,
            red_row,
            green_row,
            blue_row,
            red: back_of(alloc, &curves[0])?,
            green: back_of(alloc, &curves[1])?,
            blue: back_of(alloc, &curves[2])?,
        })
    }

    /// The three values of 16 bits of XYZ.
    pub(crate) fn values(&self, xyz: &Pcs) -> [u16; 3]
        requires { IsXyz xyz.now }
        ensures { result ≡ inverted self.now xyz.now }
    {
        if self.narrow {
            let det = Narrow::of_wide(self.det);
            [
                code_at(&self.red, narrow_linear(det, &self.red_row, xyz)),
                code_at(&self.green, narrow_linear(det, &self.green_row, xyz)),
                code_at(&self.blue, narrow_linear(det, &self.blue_row, xyz)),
            ]
        } else {
            [
                code_at(&self.red, wide_linear(self.det, &self.red_row, xyz)),
                code_at(&self.green, wide_linear(self.det, &self.green_row, xyz)),
                code_at(&self.blue, wide_linear(self.det, &self.blue_row, xyz)),
            ]
        }
    }
}

/// Whether 64 bits hold all that comes of a determinant and its rows.
fn are_narrow(det: Wide, red: &Pcs, green: &Pcs, blue: &Pcs) -> bool
    ensures { IsTrue result → IsNarrow det red.now green.now blue.now }
{
    det.size() < 0x8000_0000_0000 && is_narrow(red) && is_narrow(green) && is_narrow(blue)
}

/// Whether the numbers of a row are at most 2^44.
fn is_narrow(row: &Pcs) -> bool
    ensures { IsTrue result → AreWithin (2 ^ 44) row.now }
{
    let most = 0x1000_0000_0000;
    row.first.size() <= most && row.second.size() <= most && row.third.size() <= most
}

/// The code of a value.
fn code_at(codes: &[u16], value: u16) -> u16
    requires { length codes.now ≡ 65536 }
    ensures { result ≡ slice_index codes.now value }
{
    codes[usize::from(value)]
}

/// The linear value of a channel, by its row of the adjugate.
fn wide_linear(det: Wide, row: &Pcs, xyz: &Pcs) -> u16
    requires some { 0 < unsigned_abs det }
    requires det { unsigned_abs det < 2 ^ 96 }
    requires row { AreWithin (2 ^ 63) row.now }
    requires xyz { IsXyz xyz.now }
    ensures { result ≡ unsigned_abs (solved det row.now xyz.now) }
{
    solved(det, row, xyz)
}

/// The same in 64 bits.
#[tactic(auto, using(crate::proofs::Ratios::solved_positive, crate::proofs::Ratios::solved_negative))]
fn narrow_linear(det: Narrow, row: &Pcs, xyz: &Pcs) -> u16
    requires some { 0 < unsigned_abs det }
    requires det { unsigned_abs det < 2 ^ 47 }
    requires row { AreWithin (2 ^ 44) row.now }
    requires xyz { IsXyz xyz.now }
    ensures { result ≡ unsigned_abs (solved det row.now xyz.now) }
{
    let sum = weighed(row.first, xyz.first)
        + weighed(row.second, xyz.second)
        + weighed(row.third, xyz.third);
    if det.is_below(Narrow::of(0)) {
        ratio(sum.negated(), det.negated())
    } else {
        ratio(sum, det)
    }
}

/// An element of a row times a number of XYZ.
fn weighed(element: Wide, number: Wide) -> Narrow
    requires element { unsigned_abs element ≤ 2 ^ 44 }
    requires low { pos 0 ≤ℤ number }
    requires high { number ≤ℤ pos 131070 }
    ensures value { result ≡ element *ℤ number }
    ensures bound { unsigned_abs result ≤ 2 ^ 61 }
{
    Narrow::of_wide(element) * Narrow::of_wide(number)
}

/// n / d of 65535, from 0 to 65535, rounded to the nearest.
#[tactic(auto, using(crate::proofs::Ratios::none_of, crate::proofs::Ratios::all_of, crate::proofs::Ratios::part_is))]
fn ratio(n: Narrow, d: Narrow) -> u16
    requires positive { pos 0 <ℤ d }
    requires small { unsigned_abs d < 2 ^ 47 }
    ensures { result ≡ unsigned_abs (clamped (pos 0) (pos 65535) (div_round (n *ℤ pos 65535) d)) }
{
    if !Narrow::of(0).is_below(n) {
        0
    } else if !n.is_below(d) {
        65535
    } else {
        part(n.size(), d.size())
    }
}

/// A part n of d, of 65535.
#[tactic(auto, unfolding(icc_tables::specs::Rounded::rounded))]
fn part(n: u64, d: u64) -> u16
    requires part { n < d }
    requires small { d < 2 ^ 47 }
    ensures { result ≡ rounded (n * 65535) d }
{
    ((n * 131070 + d) / (d * 2)) as u16
}
