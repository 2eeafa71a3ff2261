//! The table of symbols, in which each name is kept once.
ghost use Rattle.std.specs.Prelude.{◌≡◌, ◌≤◌, length, IfSome, IfOk};

use crate::key::Key;
use crate::sought::{By, Sought};
use crate::symbol::Symbol;
use indexmap::IndexMap;
use press_fault::{Mem, Name};
use std::alloc::Global;

/// The names that are kept, by their bytes.
#[derive(Drop)]
pub(crate) struct Symbols {
    by_bytes: IndexMap<&'static [u8], Symbol>,
}

impl Symbols {
    /// No names.
    pub(crate) fn new(alloc: Global) -> Symbols {
        Symbols {
            by_bytes: IndexMap::new(alloc),
        }
    }

    /// The symbol of a name that is kept. It takes no memory.
    pub(crate) fn find(&self, name: &[u8]) -> Option<Symbol>
        ensures { IfSome result (λ symbol. symbol ≡ name.now) }
    {
        match self.by_bytes.get(name) {
            Some(symbol) => symbol_of(symbol, name),
            None => None,
        }
    }

    /// The symbol of a name, which is kept from now on.
    pub(crate) fn keep(&mut self, alloc: Global, name: &Name) -> Mem<Symbol>
        ensures { IfOk result (λ symbol. symbol ≡ name.now) }
    {
        match self.find(name.bytes()) {
            Some(symbol) => Ok(symbol),
            None => {
                let symbol = Symbol::new(alloc, name)?;
                self.by_bytes.insert(symbol.bytes(), symbol.again())?;
                Ok(symbol)
            }
        }
    }

    /// A key that a dictionary can hold: the name that it may be is kept from now on.
    pub(crate) fn key(&mut self, alloc: Global, key: &Sought) -> Mem<Key>
        ensures { IfOk result (λ made. made ≡ key.now) }
    {
        match &key.by {
            By::Key(key) => Ok(key.again()),
            By::Name(name) => Ok(Key::Named(self.keep(alloc, name)?)),
        }
    }

    /// The symbol of a short text.
    pub(crate) fn keep_text(&mut self, alloc: Global, text: &str) -> Mem<Symbol>
        requires { length text.now ≤ 127 }
        ensures { IfOk result (λ symbol. symbol ≡ text.now) }
    {
        match Name::of(text.as_bytes()) {
            Some(name) => self.keep(alloc, &name),
            None => unreachable!(),
        }
    }
}

/// The symbol, where it is the name.
fn symbol_of(symbol: &Symbol, name: &[u8]) -> Option<Symbol>
    ensures { IfSome result (λ symbol. symbol ≡ name.now) }
{
    if symbol.bytes() == name {
        Some(symbol.again())
    } else {
        None
    }
}
