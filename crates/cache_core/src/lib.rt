//! The cache of colour links as a machine of eight steps: entries, seats that build or hold one, and
//! seats that wait. It keeps no values; those are the concern of the crate above.
//!
//! Proved against `specs/Steps.antt` (when a step is legal and what it does) and `specs/Sound.antt`
//! (what every state keeps). Start with `step.rt`, then `state.rt`.
#![tactic(auto)]

mod changing;
mod laws;
mod state;
mod step;

pub use laws::{
    named_is_old_or_reserved_once, no_held_entry_is_evicted, none_is_published_twice,
    one_seat_is_lru, one_seat_walks, one_step_is_legal, steps_keep_soundness, steps_leave_others,
};
pub use state::{CoreState, MAX_CAPACITY, MAX_SEATS};
pub use step::{Entry, Phase, Step};
