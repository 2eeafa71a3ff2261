//! Operators on data: strings, arrays, dictionaries, names, types, and reading from the program.
//!
//! `run_data` is proved to do what `specs/Rows.antt` says of each operator; the rows stand with their
//! kinds in the other files of `specs/`. Start with `rows.rt`, then `values.rt` and `composites.rt`.
#![tactic(auto)]

mod composites;
mod dictionaries;
mod elements;
mod intervals;
mod pairs;
mod reading;
mod rows;
mod values;

pub use rows::run_data;
