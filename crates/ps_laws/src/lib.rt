//! Laws of what a program means: facts about the definitions of `ps_machine` that no function needs, and that
//! show the definitions to say what they should.
//!
//! Each function of `laws.rt` is a statement, and does nothing. `specs/Limits.antt` has the limits of the stacks,
//! `specs/Stored.antt` what it is that all a state holds is of its store, `specs/Frames.antt` that as many operators
//! wait as guarded procedures run, `specs/Reached.antt` the states that a program comes to, and `specs/Ending.antt`
//! what it is that a program ends by a step of its own. The proofs go by the rows of the operators, a file for each
//! kind, and by a measure of the steps that are left (`proofs/Weight.antt`).
#![tactic(auto)]

mod laws;

pub use laws::{
    frames_at_start, frames_kept, frames_when_reached, limits_at_start, limits_kept,
    limits_when_reached, more_steps_change_nothing, programs_end, stored_at_start, stored_kept,
    stored_when_reached,
};
