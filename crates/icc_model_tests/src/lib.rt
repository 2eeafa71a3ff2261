//! Curves, lattices and the connection space at values worked out by another reading of the
//! definitions, `tests/model/colour.py`.
#![tactic(auto)]

#[cfg(test)]
mod curves;
#[cfg(test)]
mod lattices;
#[cfg(test)]
mod spaces;
