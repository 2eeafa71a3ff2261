ghost use Rattle.std.specs.Prelude.{◌≡◌};

use press_fault::NoMemory;
use std::alloc::{AllocError, AllocFailed};

/// Why no command was read.
#[derive(Clone, Copy, Debug, PartialEq, Eq)]
pub enum Misread {
    NoMemory,
    /// No spelling is the front of the bytes.
    NoCommand,
}

impl From<NoMemory> for Misread {
    ghost use Rattle.list_codec.specs.declared.misread.Misread.TheVariants.{NoMemory};

    ghost from_gives = { λ _ e. e ≡ NoMemory };

    fn from(_error: NoMemory) -> Misread {
        Misread::NoMemory
    }
}

impl From<AllocError> for Misread {
    ghost use Rattle.list_codec.specs.declared.misread.Misread.TheVariants.{NoMemory};

    ghost from_gives = { λ _ e. e ≡ NoMemory };

    fn from(_error: AllocError) -> Misread {
        Misread::NoMemory
    }
}

impl<T: Drop> From<AllocFailed<T>> for Misread {
    ghost use Rattle.list_codec.specs.declared.misread.Misread.TheVariants.{NoMemory};

    ghost from_gives = { λ _ e. e ≡ NoMemory };

    fn from(_error: AllocFailed<T>) -> Misread {
        Misread::NoMemory
    }
}
