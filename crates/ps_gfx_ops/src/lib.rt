//! The operators on the graphics state and the marks of the page.
//!
//! Proved against `specs/Rows.antt` (PostScript Language Reference, third edition, 8.2 Operator Details).
//! Start with `rows.rt`.
#![tactic(auto)]

mod colours;
mod devices;
mod lines;
mod matrices;
mod paths;
mod points;
mod rectangles;
mod rows;
mod states;

pub use lines::numbers;
pub use matrices::{are_numbers, matrix_of};
pub use rows::run_gfx;
