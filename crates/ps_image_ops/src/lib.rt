//! Image operators: what they take and refuse, images that are being read, and the marks that they become.
//!
//! Proved against `specs/Rows.antt` (PostScript Language Reference, third edition, 4.10 Images, 8.2
//! Operator Details: image, colorimage, imagemask). Start with `rows.rt`, then `reading.rt`.
#![tactic(auto)]

mod conditions;
mod dictionary;
mod extent;
mod operands;
mod parameters;
mod reading;
mod rows;

pub use parameters::DataSource;
pub use reading::{Begun, Reading};
pub use rows::begin_image;
