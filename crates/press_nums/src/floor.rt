//! Division that rounds down, with what is left.
ghost use Rattle.std.specs.Prelude.{◌≤◌, ◌<◌, ◌^◌, ◌+◌, ◌*◌, pos, ◌<ℤ◌, unsigned_abs};
ghost use Rattle.press_nums.specs.Floor.{IsFloorDivision};

use crate::wide::Wide;

/// A quotient that is rounded down, and what is left: from 0 on, and below the divisor.
#[derive(Clone, Copy, Debug, PartialEq, Eq)]
pub struct FloorDivision {
    pub quotient: Wide,
    pub remainder: Wide,
}

/// Divides by a positive number, and rounds down. The quotient's product with the divisor is no
/// further from zero than both numbers together.
#[tactic(auto, using(crate::proofs::Floors::floor_parts))]
pub fn divide_floor(n: Wide, d: Wide) -> FloorDivision
    requires positive { pos 0 <ℤ d }
    requires n_fits { unsigned_abs n < 2 ^ 125 }
    requires d_fits { unsigned_abs d < 2 ^ 125 }
    ensures division { IsFloorDivision n d result.quotient result.remainder }
    ensures bound { unsigned_abs result.quotient * unsigned_abs d ≤ unsigned_abs n + unsigned_abs d }
{
    let quotient = n.floor_quotient(d);
    FloorDivision {
        quotient,
        remainder: n - quotient * d,
    }
}
