//! Whole numbers of 64 bits, which contracts see as plain integers.
ghost use Rattle.std.specs.Prelude.{◌≡◌, ◌<◌, ◌≤◌, ◌^◌, unsigned_abs};

use crate::wide::Wide;
use std::marker::Model;

/// A whole number that is kept in 64 bits, for a field of a plain type. Its sums and products are
/// those of `Wide`.
#[derive(Clone, Copy, Debug, PartialEq, Eq)]
pub struct Short {
    n: i64,
}

impl Model for Short {
    ghost use Rattle.std.specs.Prelude.{ℤ};

    ghost Value = { ℤ };

    ghost view = { λ s. s.n };

    ghost inverse = { λ z. record { n = z } };
}

impl Short {
    /// The same number in 64 bits.
    pub fn of(z: Wide) -> Short
        requires { unsigned_abs z < 2 ^ 63 }
        ensures { result ≡ z }
    {
        Short { n: z.narrow() }
    }

    /// The same number, with room for sums and products.
    pub fn wide(self) -> Wide
        ensures value { result ≡ self }
        ensures bound { unsigned_abs result ≤ 2 ^ 63 }
    {
        Wide::of(self.n)
    }
}
