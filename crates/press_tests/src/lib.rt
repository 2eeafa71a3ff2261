//! Tests of `press_nums` and `press_fault`: numbers worked out by hand, and names as they are printed.
#![tactic(auto)]

mod names;
mod numbers;
