//! A lock that threads take in turns, over a value that lists a claim for each seat: whoever takes
//! the turn finds its own claim listed as it left it.
//!
//! Proved against `specs/TurnRule.antt`, which each step of `specs/Steps.antt` keeps. Start with
//! `claim.rt`, then `lock.rt` and `lock/calls.rt`; `steps.rt` has the kinds of step.
//! What a contract says of `take_turn` and `rest` holds if they return: nothing is said of waiting.
#![tactic(auto)]

mod claim;
mod lock;
mod steps;
mod view;

pub use claim::{Claim, Listing};
pub use lock::{Chair, Pass, Turnstile};
pub use view::{Role, Stage, View};
