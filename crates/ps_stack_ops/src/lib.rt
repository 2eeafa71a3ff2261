//! Operators on the operand stack, arithmetic, comparison and logic, and `copy`.
//!
//! Proved against `specs/Rows.antt` (PostScript Language Reference, third edition, 8.2 Operator
//! Details). Start with `rows.rt`; the values that operators work out stand in `arithmetic.rt`,
//! `comparison.rt` and `logic.rt`.
#![tactic(auto)]

mod arithmetic;
mod comparison;
mod copying;
mod logic;
mod manipulation;
mod numbers;
mod rows;

pub use rows::run_stack;
