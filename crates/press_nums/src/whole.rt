//! The integers of a program.
ghost use Rattle.std.specs.Prelude.{◌≡◌, ◌<◌, ◌≤◌, ◌^◌, ℤ, pos, neg_ℤ, ◌+ℤ◌, ◌-ℤ◌, ◌*ℤ◌, unsigned_abs};
ghost use Rattle.press_nums.specs.Whole.{whole_of, whole_quotient_of, whole_rest_of, bits_of, whole_of_bits};

use crate::wide::Wide;
use std::marker::Model;

/// An integer of 32 bits, which contracts see as a whole number (PostScript Language Reference,
/// third edition, 3.3 Data Types and Objects).
#[derive(Clone, Copy, Debug, PartialEq, Eq, Hash)]
pub struct Whole {
    n: i32,
}

impl Model for Whole {
    ghost use Rattle.std.specs.Prelude.{ℤ};

    ghost Value = { ℤ };

    ghost view = { λ w. w.n };

    ghost inverse = { λ z. record { n = z } };
}

impl Whole {
    /// The integer of these 32 bits.
    pub fn of(n: i32) -> Whole
        ensures { result ≡ n }
    {
        Whole { n }
    }

    /// The same integer as a plain one.
    pub fn get(self) -> i32
        ensures { result ≡ self }
    {
        self.n
    }

    /// The same number, for sums and products that may leave 32 bits.
    pub fn wide(self) -> Wide
        ensures value { result ≡ self }
        ensures bound { unsigned_abs result ≤ 2 ^ 31 }
    {
        Wide::of(i64::from(self.n))
    }

    /// The negative, `None` exactly for -2^31.
    pub fn negated(self) -> Option<Whole>
        ensures { result ≡ whole_of (neg_ℤ self) }
    {
        whole_from(self.wide().negated())
    }

    /// The magnitude, `None` exactly for -2^31.
    pub fn magnitude(self) -> Option<Whole>
        ensures { result ≡ whole_of (pos (unsigned_abs self)) }
    {
        whole_from(Wide::of_size(self.wide().size()))
    }

    /// The 32 bits as an unsigned number, which is the value modulo 2^32.
    pub fn bits(self) -> u32
        ensures { result ≡ bits_of self }
    {
        i64::from(self.n).rem_euclid(0x1_0000_0000) as u32
    }

    /// The integer that has these 32 bits.
    pub fn of_bits(bits: u32) -> Whole
        ensures { result ≡ whole_of_bits bits }
    {
        if bits < 0x8000_0000 {
            Whole { n: bits as i32 }
        } else {
            Whole {
                n: (i64::from(bits) - 0x1_0000_0000) as i32,
            }
        }
    }
}

/// The integer of 32 bits that a whole number is, `None` exactly where it is none.
pub fn whole_from(n: Wide) -> Option<Whole>
    ensures { result ≡ whole_of n }
{
    if Wide::of(-0x8000_0000).is_at_most(n) && n.is_below(Wide::of(0x8000_0000)) {
        Some(Whole {
            n: n.narrow() as i32,
        })
    } else {
        None
    }
}

/// The sum, `None` exactly where it leaves 32 bits.
pub fn whole_add(a: Whole, b: Whole) -> Option<Whole>
    ensures { result ≡ whole_of (a +ℤ b) }
{
    whole_from(a.wide() + b.wide())
}

/// The difference, `None` exactly where it leaves 32 bits.
pub fn whole_sub(a: Whole, b: Whole) -> Option<Whole>
    ensures { result ≡ whole_of (a -ℤ b) }
{
    whole_from(a.wide() - b.wide())
}

/// The product, `None` exactly where it leaves 32 bits.
pub fn whole_mul(a: Whole, b: Whole) -> Option<Whole>
    ensures { result ≡ whole_of (a *ℤ b) }
{
    whole_from(a.wide() * b.wide())
}

/// The quotient truncated to zero, `None` exactly for a zero divisor and for -2^31 by -1.
pub fn whole_div(a: Whole, b: Whole) -> Option<Whole>
    ensures { result ≡ whole_quotient_of a b }
{
    if b.wide().is_zero() {
        None
    } else {
        whole_from(a.wide().quotient(b.wide()))
    }
}

/// What the truncated division leaves, with the sign of `a`; `None` exactly for a zero divisor.
pub fn whole_rem(a: Whole, b: Whole) -> Option<Whole>
    ensures { result ≡ whole_rest_of a b }
{
    if b.wide().is_zero() {
        None
    } else {
        whole_from(a.wide().rest(b.wide()))
    }
}
