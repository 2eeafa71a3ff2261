//! Names, statuses and the small values that every crate of the renderer shares. Nothing here takes memory.
#![tactic(auto)]

mod memory;
mod names;
mod outcome;
mod plane;
mod refusals;

pub use memory::{Mem, NoMemory};
pub use names::{Name, ProfileFault, PsName};
pub use outcome::{Status, Which};
pub use plane::{Code, Point};
pub use refusals::{
    DictStackOverflow, DictStackUnderflow, ExecStackOverflow, Grow, LimitCheck, RangeCheck,
    StackOverflow, StackUnderflow, UndefinedResult,
};
