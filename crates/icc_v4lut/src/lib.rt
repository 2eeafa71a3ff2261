//! Stages of version 4, read from their tags.
//!
//! Proved against `specs/StagesTag.antt` (ICC.1:2010, 10.10 lutAToBType and 10.11 lutBToAType). Start
//! with `read.rt`, then `faults.rt` and `parts.rt`. Both faults are found before memory is asked for,
//! and a lattice is read where it stands.
#![tactic(auto)]

mod faults;
mod parts;
mod read;

pub use faults::{PartFault, stages_fault};
pub use read::{StageFault, read_stages, stages_of};
