//! Objects.
ghost use Rattle.std.specs.Prelude.{◌≡◌};

use crate::oper::Oper;
use crate::symbol::Symbol;
use press_nums::{Fix, Whole};
use std::marker::Model;

/// A part of a string or an array: `len` places of the composite `id`, from `start` on.
#[derive(Clone, Copy, Debug, PartialEq, Eq)]
pub struct Part {
    pub id: u32,
    pub start: u32,
    pub len: u32,
}

impl Model for Part {
    ghost use Rattle.std.specs.Prelude.{◌≤◌, ◌+◌};
    ghost use Rattle.ps_store.specs.Parts.{PartValue};

    ghost Value = { PartValue };

    ghost view = { λ s. record { id = s.id; start = s.start; len = s.len } };

    ghost invariant = { λ s. s.start + s.len ≤ 65535 };

    ghost inverse = { λ p. record { id = p.id; start = p.start; len = p.len } };
}

/// An object (PostScript Language Reference, third edition, 3.3 Data Types and Objects). A
/// string or an array is a part of a composite of the store, a dictionary the number of one.
/// The flag of a name or an array says that it is executable. It has 24 bytes, and is repeated by
/// `again`, which takes no memory.
#[derive(Debug, PartialEq, Eq, Drop)]
pub enum Obj {
    Null,
    Mark,
    Bool(bool),
    Int(Whole),
    Real(Fix),
    Name(Symbol, bool),
    Text(Part),
    Array(Part, bool),
    Dict(u32),
    Oper(Oper),
    File,
}

/// Null, as an array that was just made holds.
impl Default for Obj {
    ghost use Rattle.std.specs.Prelude.{◌≡◌};
    ghost use Rattle.ps_store.specs.declared.obj.Obj.TheVariants.{Null};

    ghost is_default = { λ o. o ≡ Null };

    fn default() -> Obj {
        Obj::Null
    }
}

impl Obj {
    /// The same object once more. A string, an array and a dictionary are shared.
    pub fn again(&self) -> Obj
        ensures { result ≡ self.now }
    {
        match self {
            Obj::Null => Obj::Null,
            Obj::Mark => Obj::Mark,
            Obj::Bool(b) => Obj::Bool(*b),
            Obj::Int(n) => Obj::Int(*n),
            Obj::Real(raw) => Obj::Real(*raw),
            Obj::Name(name, executable) => Obj::Name(name.again(), *executable),
            Obj::Text(span) => Obj::Text(*span),
            Obj::Array(span, executable) => Obj::Array(*span, *executable),
            Obj::Dict(dict) => Obj::Dict(*dict),
            Obj::Oper(op) => Obj::Oper(*op),
            Obj::File => Obj::File,
        }
    }
}
