//! Fixed-point numbers.
ghost use Rattle.std.specs.Prelude.{◌≡◌, ◌≤◌, ◌<◌, ◌^◌, ◌*◌, ℤ, pos, neg_ℤ, unsigned_abs, ◌+ℤ◌, ◌-ℤ◌, ◌*ℤ◌};
ghost use Rattle.press_nums.specs.Fix.{fix_of, product_of, quotient_of, floor_of, ceiling_of, nearest_of};
ghost use Rattle.press_nums.specs.Fix.{truncation_of, fix_root_of};

use crate::root::isqrt;
use crate::whole::Whole;
use crate::wide::Wide;
use std::marker::Model;

/// A number of 1/65536, from -2^47 to 2^47 - 1 of them: a real number of a program, whose form
/// the standard leaves open (PostScript Language Reference, third edition, 3.3 Data Types and
/// Objects).
#[derive(Clone, Copy, Debug, PartialEq, Eq, Hash)]
pub struct Fix {
    n: i64,
}

impl Model for Fix {
    ghost use Rattle.std.specs.Prelude.{ℤ};
    ghost use Rattle.press_nums.specs.Fix.{IsFix};

    ghost Value = { ℤ };

    ghost view = { λ f. f.n };

    ghost invariant = { λ f. IsFix f.n };

    ghost inverse = { λ z. record { n = z } };
}

impl Fix {
    /// The integer as a real number, exactly.
    pub fn of_int(v: i32) -> Fix
        ensures { result ≡ v *ℤ pos 65536 }
    {
        Fix {
            n: i64::from(v) * 65536,
        }
    }

    /// The integer as a real number, exactly.
    pub fn of_whole(v: Whole) -> Fix
        ensures { result ≡ v *ℤ pos 65536 }
    {
        Fix::of_int(v.get())
    }

    /// So many 1/65536; `None` exactly out of range, below -2^47 or from 2^47 on.
    pub fn of_raw(n: i64) -> Option<Fix>
        ensures { result ≡ fix_of n }
    {
        if -0x8000_0000_0000 <= n && n < 0x8000_0000_0000 {
            Some(Fix { n })
        } else {
            None
        }
    }

    /// How many 1/65536 it is.
    pub fn raw(self) -> i64
        ensures value { result ≡ self }
        ensures bound { unsigned_abs result ≤ 2 ^ 47 }
    {
        self.n
    }

    /// How many 1/65536 it is, for sums, products and comparisons.
    pub fn wide(self) -> Wide
        ensures value { result ≡ self }
        ensures bound { unsigned_abs result ≤ 2 ^ 47 }
    {
        Wide::of(self.n)
    }

    /// The negative, `None` exactly out of range.
    pub fn negated(self) -> Option<Fix>
        ensures { result ≡ fix_of (neg_ℤ self) }
    {
        fix_from(self.wide().negated())
    }

    /// The magnitude, `None` exactly out of range.
    pub fn magnitude(self) -> Option<Fix>
        ensures { result ≡ fix_of (pos (unsigned_abs self)) }
    {
        fix_from(Wide::of_size(self.wide().size()))
    }

    /// The greatest integer that isn't above this number.
    pub fn floor(self) -> Fix
        ensures { result ≡ floor_of self *ℤ pos 65536 }
    {
        Fix::of_whole(self.floored())
    }

    /// The greatest integer that isn't above this number, as an integer.
    pub fn floored(self) -> Whole
        ensures { result ≡ floor_of self }
    {
        Whole::of(self.n.div_euclid(65536) as i32)
    }

    /// The least integer that isn't below this number, `None` exactly out of range.
    pub fn ceiling(self) -> Option<Fix>
        ensures { result ≡ fix_of (ceiling_of self *ℤ pos 65536) }
    {
        let down = self.wide().negated().floor_quotient(Wide::of(65536));
        fix_from(down.negated().times(65536))
    }

    /// The nearest integer, a tie going up; `None` exactly out of range.
    pub fn round(self) -> Option<Fix>
        ensures { result ≡ fix_of (nearest_of self *ℤ pos 65536) }
    {
        fix_from(self.wide().div_round(Wide::of(65536)).times(65536))
    }

    /// The integer next to this number on the side of zero.
    pub fn truncate(self) -> Fix
        ensures { result ≡ truncation_of self *ℤ pos 65536 }
    {
        Fix::of_whole(self.truncated())
    }

    /// The integer next to this number on the side of zero, as an integer.
    pub fn truncated(self) -> Whole
        ensures { result ≡ truncation_of self }
    {
        Whole::of((self.n / 65536) as i32)
    }
}

/// The Fix of so many 1/65536, if there is one.
pub fn fix_from(raw: Wide) -> Option<Fix>
    ensures { result ≡ fix_of raw }
{
    if Wide::of(-0x8000_0000_0000).is_at_most(raw) && raw.is_below(Wide::of(0x8000_0000_0000)) {
        Some(Fix { n: raw.narrow() })
    } else {
        None
    }
}

/// The sum; `None` exactly out of range.
pub fn fix_add(a: Fix, b: Fix) -> Option<Fix>
    ensures { result ≡ fix_of (a +ℤ b) }
{
    fix_from(a.wide() + b.wide())
}

/// The difference; `None` exactly out of range.
pub fn fix_sub(a: Fix, b: Fix) -> Option<Fix>
    ensures { result ≡ fix_of (a -ℤ b) }
{
    fix_from(a.wide() - b.wide())
}

/// The exact product of two Fix, a count of 1/2^32.
pub fn wide_product(a: Fix, b: Fix) -> Wide
    ensures value { result ≡ a *ℤ b }
    ensures bound { unsigned_abs result ≤ 2 ^ 94 }
{
    a.wide() * b.wide()
}

/// The product, rounded to the nearest 1/65536, a tie going up; `None` exactly out of range.
pub fn fix_mul(a: Fix, b: Fix) -> Option<Fix>
    ensures { result ≡ product_of a b }
{
    fix_from(wide_product(a, b).div_round(Wide::of(65536)))
}

/// The quotient, rounded to the nearest 1/65536, a tie going up; `None` exactly for a zero divisor
/// and out of range.
pub fn fix_div(a: Fix, b: Fix) -> Option<Fix>
    ensures { result ≡ quotient_of a b }
{
    if b.wide().is_zero() {
        None
    } else {
        fix_from(a.wide().times(65536).div_round_signed(b.wide()))
    }
}

/// The Fix of so many 1/65536, for a caller that knows it to be in range.
pub fn fix_small(raw: Wide) -> Fix
    requires { unsigned_abs raw < 2 ^ 47 }
    ensures { result ≡ raw }
{
    Fix { n: raw.narrow() }
}

/// The square root of the magnitude, rounded down to 1/65536.
pub fn fix_root(a: Fix) -> Fix
    ensures { result ≡ fix_root_of a }
{
    fix_small(Wide::of_size(u128::from(isqrt(a.wide().size() * 65536))))
}
