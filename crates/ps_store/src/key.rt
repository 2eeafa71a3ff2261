//! Keys of dictionaries.
ghost use Rattle.std.specs.Prelude.{◌≡◌};
ghost use Rattle.ps_store.specs.Keys.{object_of};

use crate::obj::Obj;
use crate::symbol::Symbol;
use press_nums::{Fix, Whole};
use std::hash::{Hash, Hasher};

/// A key of a dictionary. A string is the name of its bytes, and a number keeps its kind
/// (PostScript Language Reference, third edition, 3.3.9 Dictionary Objects).
#[derive(Debug, Drop)]
pub enum Key {
    Named(Symbol),
    Integer(Whole),
    Real(Fix),
    Truth(bool),
}

/// Why an object is no key.
#[derive(Clone, Copy, Debug, PartialEq, Eq)]
pub enum KeyFault {
    /// It is no name, string, number or boolean.
    NotAKey,
    /// It is a string of over 127 bytes.
    TooLong,
}

/// Two keys are one where they stand for the same: numbers by value, names by their bytes.
impl PartialEq for Key {
    ghost use Rattle.std.specs.Cmp.{partial_equiv_from_equiv};
    ghost use Rattle.ps_store.specs.Keys.{same_key};
    ghost use Rattle.ps_store.specs.KeyLaws.{same_key_equiv};

    ghost eq = { same_key };

    ghost laws = { partial_equiv_from_equiv same_key_equiv };

    fn eq(&self, other: &Key) -> bool {
        match (self, other) {
            (Key::Named(a), Key::Named(b)) => a == b,
            (Key::Integer(a), Key::Integer(b)) => Fix::of_whole(*a) == Fix::of_whole(*b),
            (Key::Integer(a), Key::Real(b)) => Fix::of_whole(*a) == *b,
            (Key::Real(a), Key::Integer(b)) => *a == Fix::of_whole(*b),
            (Key::Real(a), Key::Real(b)) => a == b,
            (Key::Truth(a), Key::Truth(b)) => a == b,
            _ => false,
        }
    }
}

impl Eq for Key {
    ghost use Rattle.ps_store.specs.KeyLaws.{same_key_equiv};

    ghost laws = { same_key_equiv };
}

impl Hash for Key {
    ghost use Rattle.ps_store.specs.Keys.{value_of, input_of};
    ghost use Rattle.ps_store.specs.KeyLaws.{same_keys_fed_alike};

    ghost hash_input = { λ k. input_of (value_of k) };

    ghost respects_eq = { same_keys_fed_alike };

    fn hash<H: Hasher>(&self, state: &mut H) {
        match self {
            Key::Named(name) => name.hash(state),
            Key::Integer(n) => Fix::of_whole(*n).hash(state),
            Key::Real(raw) => raw.hash(state),
            Key::Truth(b) => b.hash(state),
        }
    }
}

impl Key {
    /// The same key once more.
    pub fn again(&self) -> Key
        ensures { result ≡ self.now }
    {
        match self {
            Key::Named(name) => Key::Named(name.again()),
            Key::Integer(n) => Key::Integer(*n),
            Key::Real(raw) => Key::Real(*raw),
            Key::Truth(b) => Key::Truth(*b),
        }
    }

    /// The key as an object. A name is a literal one.
    pub fn object(&self) -> Obj
        ensures { result ≡ object_of self.now }
    {
        match self {
            Key::Named(name) => Obj::Name(name.again(), false),
            Key::Integer(n) => Obj::Int(*n),
            Key::Real(raw) => Obj::Real(*raw),
            Key::Truth(b) => Obj::Bool(*b),
        }
    }
}
