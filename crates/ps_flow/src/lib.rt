//! The execution stack, and the operators on it.
#![tactic(auto)]

mod binding;
mod contents;
mod counter;
mod flow;
mod laws;
mod level;
mod places;
mod pushes;
mod rows;
mod visits;

pub use contents::{Objects, Pairs};
pub use counter::Counter;
pub use flow::{Flow, MAX_LEVELS};
pub use laws::bind_changes_exactly;
pub use level::{Level, NextObj, Offer};
pub use pushes::Pushes;
pub use rows::run_flow;
