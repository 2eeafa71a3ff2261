//! Colour profiles read from their bytes.
//!
//! Proved against `specs/Faults.antt` and `specs/Read.antt` (ICC.1:2010, 7 Profile requirements, 8
//! Required tags, 10 Tag type definitions). Start with `read.rt`, then `faults.rt`, `used.rt` and
//! `content.rt`; `luts.rt` and `parts.rt` read what has no fault.
//! A profile with a fault takes no memory, and no list grows before its bytes were found.
#![tactic(auto)]

mod content;
mod faults;
mod identity;
mod luts;
mod parts;
mod read;
mod table;
mod used;

pub use identity::{IdState, id_state};
pub use read::{ReadProfile, read_profile};
