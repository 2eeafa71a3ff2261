//! The interpreter: what a program means, its pages one at a time, and its end.
//!
//! Proved against `specs/Meaning.antt` (PostScript Language Reference, third edition, 3.5 Execution).
//! Start with `machine.rt`, then `body.rt`.
#![tactic(auto)]

mod body;
mod errors;
mod frames;
mod images;
mod machine;
mod opening;
mod reading;
mod setup;
mod turn;
mod unclosed;

pub use machine::Machine;
pub use setup::Setup;
pub use turn::{End, Event};
