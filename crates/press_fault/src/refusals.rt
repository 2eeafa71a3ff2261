//! The refusals of calls that can be refused in one way, and why a store doesn't grow.
ghost use Rattle.std.specs.Prelude.{◌≡◌};

use crate::memory::NoMemory;
use std::alloc::{AllocError, AllocFailed};

/// A limit of the renderer is passed.
#[derive(Clone, Copy, Debug, PartialEq, Eq)]
pub struct LimitCheck;

/// A number has no value in range.
#[derive(Clone, Copy, Debug, PartialEq, Eq)]
pub struct UndefinedResult;

/// An operand has a value outside its range.
#[derive(Clone, Copy, Debug, PartialEq, Eq)]
pub struct RangeCheck;

/// The operand stack is full.
#[derive(Clone, Copy, Debug, PartialEq, Eq)]
pub struct StackOverflow;

/// The operand stack is empty.
#[derive(Clone, Copy, Debug, PartialEq, Eq)]
pub struct StackUnderflow;

/// The dictionary stack is full.
#[derive(Clone, Copy, Debug, PartialEq, Eq)]
pub struct DictStackOverflow;

/// The dictionary stack has none left that may go.
#[derive(Clone, Copy, Debug, PartialEq, Eq)]
pub struct DictStackUnderflow;

/// The execution stack is full.
#[derive(Clone, Copy, Debug, PartialEq, Eq)]
pub struct ExecStackOverflow;

/// Why a value that grows didn't.
#[derive(Clone, Copy, Debug, PartialEq, Eq)]
pub enum Grow {
    /// A limit of the renderer is passed.
    LimitCheck,
    /// Memory ran out.
    NoMemory,
}

impl From<NoMemory> for Grow {
    ghost use Rattle.press_fault.specs.declared.refusals.Grow.TheVariants.{NoMemory};

    ghost from_gives = { λ _ e. e ≡ NoMemory };

    fn from(_error: NoMemory) -> Grow {
        Grow::NoMemory
    }
}

impl From<AllocError> for Grow {
    ghost use Rattle.press_fault.specs.declared.refusals.Grow.TheVariants.{NoMemory};

    ghost from_gives = { λ _ e. e ≡ NoMemory };

    fn from(_error: AllocError) -> Grow {
        Grow::NoMemory
    }
}

impl<T: Drop> From<AllocFailed<T>> for Grow {
    ghost use Rattle.press_fault.specs.declared.refusals.Grow.TheVariants.{NoMemory};

    ghost from_gives = { λ _ e. e ≡ NoMemory };

    fn from(_error: AllocFailed<T>) -> Grow {
        Grow::NoMemory
    }
}
