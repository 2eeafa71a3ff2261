//! The stages of transforms of version 4.
//!
//! Proved against `specs/Stages.antt` and `specs/Cells.antt` (ICC.1:2010, 10.10 lutAToBType and 10.11
//! lutBToAType). Start with `stages.rt`, then `cells.rt`. Values have 16 bits. Nothing here takes
//! memory.
#![tactic(auto)]

mod cells;
mod stages;

pub use stages::{LatticeStage, MatrixStage, Stages, backward_at, forward_at};
