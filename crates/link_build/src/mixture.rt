//! A matrix as a source: the shares of its columns in XYZ, worked out for each code.
ghost use Rattle.std.specs.Prelude.{◌≡◌, ◌≤◌, ◌<◌, ◌^◌, ◌*◌, ◌+◌, ℤ, pos, ◌*ℤ◌, ◌≤ℤ◌, unsigned_abs, IfOk, length};
ghost use Rattle.icc_tables.specs.Pcs.{IsXyz};
ghost use Rattle.icc_model.specs.Direct.{AreWithin};
ghost use Rattle.link_build.specs.Code.Prepared.{share_of, share_at, whole_of, mixture_of, AreShares, AreSmallShares};
ghost use Rattle.link_build.specs.Code.Prepared.{IsMixtureOf, AreBytes};

use crate::narrow::Narrow;
use icc_model::{Curve, Pcs, column, curve_at};
use icc_tables::in_xyz;
use press_fault::{Code, Mem};
use press_nums::Wide;
use std::alloc::Global;
use std::marker::Model;

/// What one channel adds to X, Y and Z, in 1/65535 of their own count.
#[derive(Clone, Copy)]
struct Share {
    first: Narrow,
    second: Narrow,
    third: Narrow,
}

impl Model for Share {
    ghost use Rattle.icc_tables.specs.Pcs.{PcsValue};

    ghost Value = { PcsValue };

    ghost view = { λ s. record { first = s.first; second = s.second; third = s.third } };

    ghost inverse = { λ v. record { first = v.first; second = v.second; third = v.third } };
}

/// The shares of the 256 codes of red, of green and of blue.
#[derive(Drop)]
pub(crate) struct Mixture {
    red: Vec<Share>,
    green: Vec<Share>,
    blue: Vec<Share>,
}

impl Model for Mixture {
    ghost use Rattle.link_build.specs.Code.Prepared.{MixtureValue, AreSmallShares};

    ghost Value = { MixtureValue };

    ghost view = { λ m. record { red = m.red.items; green = m.green.items; blue = m.blue.items } };

    ghost invariant = { λ m. AreSmallShares 256 m.red.items × AreSmallShares 256 m.green.items
        × AreSmallShares 256 m.blue.items };
}

impl Mixture {
    /// The shares of a matrix with its curves.
    pub(crate) fn of(alloc: Global, columns: &[i32; 9], curves: &[Curve; 3]) -> Mem<Mixture>
        ensures { IfOk result (IsMixtureOf columns.now curves.now) }
    {
        Ok(Mixture {
            red: shares_of(alloc, &column(columns, 0), &curves[0])?,
            green: shares_of(alloc, &column(columns, 1), &curves[1])?,
            blue: shares_of(alloc, &column(columns, 2), &curves[2])?,
        })
    }

    /// XYZ of a code.
    pub(crate) fn xyz(&self, code: Code) -> Pcs
        ensures value { result ≡ mixture_of self.now code.c }
        ensures range { IsXyz result }
    {
        let [r, g, b, _] = code.c;
        let red = share_at(&self.red, r);
        let green = share_at(&self.green, g);
        let blue = share_at(&self.blue, b);
        Pcs {
            first: whole_of(red.first, green.first, blue.first),
            second: whole_of(red.second, green.second, blue.second),
            third: whole_of(red.third, green.third, blue.third),
        }
    }
}

/// The shares of the 256 codes of a channel.
#[tactic(auto, using(crate::proofs::Tables::shares_more))]
fn shares_of(alloc: Global, column: &Pcs, curve: &Curve) -> Mem<Vec<Share>>
    requires { AreWithin (2 ^ 31) column.now }
    ensures { IfOk result (λ shares. AreShares column.now curve.now 256 shares.items) }
{
    let mut shares = Vec::with_capacity(alloc, 256)?;
    for code in 0..256u16 {
        shares.push(share_of(column, curve_at(curve, 257 * code)))?;
    }
    Ok(shares)
}

/// The share of a linear value.
fn share_of(column: &Pcs, linear: u16) -> Share
    requires { AreWithin (2 ^ 31) column.now }
    ensures value { result ≡ share_of column.now linear }
    ensures small { AreWithin (2 ^ 47) result }
{
    Share {
        first: times(column.first, linear),
        second: times(column.second, linear),
        third: times(column.third, linear),
    }
}

fn times(element: Wide, linear: u16) -> Narrow
    requires { unsigned_abs element ≤ 2 ^ 31 }
    ensures value { result ≡ element *ℤ pos linear }
    ensures bound { unsigned_abs result ≤ 2 ^ 47 }
{
    Narrow::of_wide(element.times(u32::from(linear)))
}

/// The share of a code.
fn share_at(shares: &[Share], code: u8) -> Share
    requires { AreSmallShares 256 shares.now }
    ensures value { result ≡ share_at shares.now code }
    ensures small { AreWithin (2 ^ 47) result }
{
    shares[usize::from(code)]
}

/// One number of XYZ of three shares.
fn whole_of(red: Narrow, green: Narrow, blue: Narrow) -> Wide
    requires red { unsigned_abs red ≤ 2 ^ 47 }
    requires green { unsigned_abs green ≤ 2 ^ 47 }
    requires blue { unsigned_abs blue ≤ 2 ^ 47 }
    ensures value { result ≡ whole_of red green blue }
    ensures low { pos 0 ≤ℤ result }
    ensures high { result ≤ℤ pos 131070 }
{
    in_xyz((red + green + blue).by_65535().wide())
}

/// The values of a code are bytes.
pub(crate) fn see_bytes(code: Code)
    ensures { AreBytes code.c }
{
    let [_red, _green, _blue, _black] = code.c;
}
