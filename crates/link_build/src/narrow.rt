//! Whole numbers of 64 bits, which contracts see as plain integers.
ghost use Rattle.std.specs.Prelude.{◌≡◌, ◌≤◌, ◌<◌, ◌^◌, ◌+◌, ◌*◌, ℤ, pos, neg_ℤ, ◌<ℤ◌, int_lt, int_le, unsigned_abs};
ghost use Rattle.std.specs.Int.{int_div_euclid};
ghost use Rattle.press_nums.specs.Rounding.{div_round};

use press_nums::Wide;
use std::marker::Model;
use std::ops::{Add, Mul};

/// A whole number. A sum or a product has to stay below 2^63.
#[derive(Clone, Copy, Debug, PartialEq, Eq)]
pub(crate) struct Narrow {
    n: i64,
}

impl Model for Narrow {
    ghost use Rattle.std.specs.Prelude.{ℤ};

    ghost Value = { ℤ };

    ghost view = { λ s. s.n };

    ghost inverse = { λ z. record { n = z } };
}

impl Narrow {
    /// The same number.
    pub(crate) fn of(n: i64) -> Narrow
        ensures { result ≡ n }
    {
        Narrow { n }
    }

    /// The same number in 64 bits.
    pub(crate) fn of_wide(z: Wide) -> Narrow
        requires { unsigned_abs z < 2 ^ 63 }
        ensures { result ≡ z }
    {
        Narrow { n: z.narrow() }
    }

    /// The same number, with room for sums and products.
    pub(crate) fn wide(self) -> Wide
        ensures { result ≡ self }
    {
        Wide::of(self.n)
    }

    /// Whether it is below the other.
    pub(crate) fn is_below(self, other: Narrow) -> bool
        ensures { result ≡ int_lt self other }
    {
        self.n < other.n
    }

    /// The magnitude.
    pub(crate) fn size(self) -> u64
        ensures { result ≡ unsigned_abs self }
    {
        self.n.unsigned_abs()
    }

    /// The negative.
    pub(crate) fn negated(self) -> Narrow
        requires { unsigned_abs self < 2 ^ 63 }
        ensures { result ≡ neg_ℤ self }
    {
        Narrow { n: -self.n }
    }

    /// This number divided by 131070, rounded down.
    fn by_131070(self) -> Narrow
        ensures { result ≡ int_div_euclid self (pos 131070) }
    {
        Narrow {
            n: self.n.div_euclid(131070),
        }
    }

    /// This number divided by 65535, rounded to the nearest; a tie goes up.
    #[tactic(auto, unfolding(press_nums::specs::Rounding::div_round))]
    pub(crate) fn by_65535(self) -> Narrow
        requires { unsigned_abs self < 2 ^ 61 }
        ensures { result ≡ div_round self (pos 65535) }
    {
        (self * Narrow::of(2) + Narrow::of(65535)).by_131070()
    }
}

impl Add for Narrow {
    type Output = Narrow;

    ghost use Rattle.press_nums.specs.Code.Wide.{IsSum};
    ghost use Rattle.link_build.specs.Code.Narrow.{FitsSum};

    ghost can_add = { FitsSum };

    ghost add_gives = { IsSum };

    fn add(self, other: Narrow) -> Narrow {
        Narrow {
            n: self.n + other.n,
        }
    }
}

impl Mul for Narrow {
    type Output = Narrow;

    ghost use Rattle.press_nums.specs.Code.Wide.{IsProduct};
    ghost use Rattle.link_build.specs.Code.Narrow.{FitsProduct};

    ghost can_mul = { FitsProduct };

    ghost mul_gives = { IsProduct };

    fn mul(self, other: Narrow) -> Narrow {
        Narrow {
            n: self.n * other.n,
        }
    }
}
