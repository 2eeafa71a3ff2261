//! Tests of the turn lock over a room that at most one of four seats holds.
#![tactic(auto)]

mod room;
#[cfg(test)]
mod tests;

pub use room::Room;
