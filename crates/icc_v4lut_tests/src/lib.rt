//! Profiles with stages of version 4: what is wrong with their parts, and colours through them, at
//! values worked out by another reading of the definitions: `tests/model/stage_colours.py` prints these.
#![tactic(auto)]

#[cfg(test)]
mod colours;
#[cfg(test)]
mod faults;
pub mod tags;
