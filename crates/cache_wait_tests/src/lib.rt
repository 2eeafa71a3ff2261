//! Tests of the shared cache over letters: two seats with one maker that finds no memory and one
//! that does; two threads whose makers wait for each other.
#![tactic(auto)]

mod lending;
mod letters;
#[cfg(test)]
mod tests;
