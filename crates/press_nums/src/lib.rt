//! Whole and fixed-point numbers, with exact rounding.
//!
//! Proved against `specs/Rounding.antt`, `specs/Floor.antt`, `specs/Fix.antt`, `specs/Whole.antt`,
//! `specs/Roots.antt` and `specs/Decimal.antt`. Start with `wide.rt`: every number of the renderer is computed there.
//! A `Fix` is seen by its raw value, its count of 1/65536. Nothing here takes memory.
#![tactic(auto)]

mod decimal;
mod fix;
mod floor;
mod laws;
mod root;
mod short;
mod whole;
mod wide;

pub use decimal::{decimal_fix, power_of_ten};
pub use fix::{
    Fix, fix_add, fix_div, fix_from, fix_mul, fix_root, fix_small, fix_sub, wide_product,
};
pub use floor::{FloorDivision, divide_floor};
pub use laws::{bits_are_one_to_one, root_is_the_greatest, rounding_is_within_half};
pub use root::{icbrt, isqrt};
pub use short::Short;
pub use whole::{Whole, whole_add, whole_div, whole_from, whole_mul, whole_rem, whole_sub};
pub use wide::{Wide, div_round};
