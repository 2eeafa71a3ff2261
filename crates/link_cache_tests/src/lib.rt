//! Scripts over a cache of letters, on two and three seats with one to three places: each step that is
//! noted in the journal, and each phase after it.
//!
//! Expected values were worked out by hand from the table of the steps in `cache_core`'s
//! `specs/Steps.antt`.
#![tactic(auto)]

mod letters;
mod player;
#[cfg(test)]
mod scripts;
