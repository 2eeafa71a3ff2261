//! Colours through whole profiles, and lattices of four channels, at values worked out by another
//! reading of the definitions: `tests/model/direct_colours.py` prints these tables. Their profiles
//! stand in `profiles.rt`, for the tests of crates above too.
#![tactic(auto)]

#[cfg(test)]
mod lattices;
#[cfg(test)]
mod luts;
#[cfg(test)]
mod matrices;
pub mod profiles;
