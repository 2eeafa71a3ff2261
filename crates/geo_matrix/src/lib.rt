//! Transformation matrices, user space and device space, sine and cosine.
//!
//! Proved against `specs/Affine.antt`, `specs/Product.antt`, `specs/Places.antt`, `specs/Sine.antt`
//! and `specs/Turn.antt` (PostScript Language Reference, third edition, 4.3 Coordinate Systems and
//! Transformations).
//! Start with `matrix.rt`, then `points.rt`. Real numbers are counts of 1/65536; points of the page
//! are whole sub-dots, 1/256 of a dot. Nothing here takes memory.
#![tactic(auto)]

mod angle;
mod laws;
mod matrix;
mod points;

pub use angle::{cosine, sine, turn};
pub use laws::{
    half_a_turn_negates_the_sine, identity_changes_no_matrix, quarter_turn_is_exact,
    sine_and_cosine_are_within_one,
};
pub use matrix::{Matrix, concat, det};
pub use points::{RealPoint, back, by_dots, device_of, to_dots, user_of};
