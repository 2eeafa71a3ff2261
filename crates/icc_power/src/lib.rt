//! Exponent and parametric curves, read into 65,536 values.
//!
//! Proved against `specs/Power.antt`, `specs/Parametric.antt` and `specs/CurveTag.antt` (ICC.1:2010,
//! 10.5 curveType and 10.16 parametricCurveType). Start with `powers.rt`, then `parametric.rt` and
//! `tag.rt`; `laws.rt` has what holds of every exponent.
//! Powers count 1/2^32, parameters 1/65536, values have 16 bits.
#![tactic(auto)]

mod fields;
mod laws;
mod parametric;
mod powers;
mod tag;

pub use fields::{s15_at, u16_at, u32_at};
pub use laws::an_exponent_curve_rises;
pub use parametric::power_curve;
pub use powers::power;
pub use tag::{CurveFault, curve_of_tag, has_other_type, is_misshapen, read_curve, size_of};
