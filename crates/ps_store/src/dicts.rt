//! The dictionary stack.
ghost use Rattle.std.specs.Prelude.{◌≡◌, ◌≤◌, ◌<◌, ◌∷◌, [], length, reverse, drop, Some, OnOk, OnErr, IfOk, slice_get};
ghost use Rattle.std.specs.Option.{option_copied};
ghost use Rattle.ps_store.specs.Dicts.{find_key, home_of};

use crate::entries::Entries;
use crate::key::Key;
use crate::obj::Obj;
use crate::sought::Sought;
use crate::store::{Composite, Store};
use crate::symbol::Symbol;
use arrayvec::ArrayVec;
use press_fault::{DictStackOverflow, DictStackUnderflow, Mem};
use std::marker::Model;

/// The number of `systemdict`, which holds the operators and can't be written.
pub const SYSTEMDICT: u32 = 0;

/// The number of `userdict`.
pub const USERDICT: u32 = 1;

/// The dictionary stack, of 2 to 20 dictionaries (PostScript Language Reference, third edition,
/// 3.4 Stacks). Contracts see their numbers, the top one first.
#[derive(Drop)]
pub struct Dicts {
    items: ArrayVec<u32, 20>,
}

impl Model for Dicts {
    ghost use Rattle.std.specs.Prelude.{◌≤◌, List, ℕ, reverse, length};

    ghost Value = { List ℕ };

    ghost view = { λ d. reverse d.items.items };

    ghost invariant = { λ d. 2 ≤ length d.items.items };
}

impl Dicts {
    /// Makes `systemdict` and `userdict`, both empty, and the stack that holds these two. After
    /// out of memory nothing is said of the store.
    pub fn new(store: &mut Store) -> Mem<Dicts>
        requires { store.old.made ≡ [] }
        ensures ok { IfOk result (λ dicts. dicts ≡ 1 ∷ 0 ∷ []) }
        ensures made { OnOk result (store.new ≡
            record store.old { made = Composite.Dict [] ∷ Composite.Dict [] ∷ [] }) }
    {
        let system = Entries::new(store.alloc);
        store.add(Composite::Dict(system), 0, 0)?;
        let user = Entries::new(store.alloc);
        store.add(Composite::Dict(user), 0, 0)?;
        let mut items = ArrayVec::new();
        items.push(SYSTEMDICT);
        items.push(USERDICT);
        Ok(Dicts { items })
    }

    /// Puts the dictionary of a number on top. A full stack refuses it, and is as before.
    pub fn push(&mut self, dict: u32) -> Result<(), DictStackOverflow>
        ensures ok { OnOk result (self.new ≡ dict ∷ self.old) }
        ensures room { OnOk result (length self.old < 20) }
        ensures full { OnErr result (length self.old ≡ 20) }
        ensures err { OnErr result (self.new ≡ self.old) }
    {
        match self.items.try_push(dict) {
            Ok(()) => Ok(()),
            Err(_) => Err(DictStackOverflow),
        }
    }

    /// Takes the top dictionary away, and answers its number. The lowest two stay: a stack of
    /// these alone refuses, and is as before.
    pub fn pop(&mut self) -> Result<u32, DictStackUnderflow>
        ensures ok { IfOk result (λ dict. self.old ≡ dict ∷ self.new) }
        ensures more { OnOk result (2 < length self.old) }
        ensures last { OnErr result (length self.old ≡ 2) }
        ensures err { OnErr result (self.new ≡ self.old) }
    {
        if self.items.len() <= 2 {
            return Err(DictStackUnderflow);
        }
        match self.items.pop() {
            Some(dict) => Ok(dict),
            None => Err(DictStackUnderflow),
        }
    }

    /// The number of dictionaries.
    pub fn len(&self) -> u32
        ensures length { result ≡ length self.now }
        ensures least { 2 ≤ result }
        ensures most { result ≤ 20 }
    {
        self.items.len() as u32
    }

    /// The number of the dictionary at a place, counted from 0 at the bottom.
    pub fn at(&self, place: u32) -> u32
        requires { place < length self.now }
        ensures { slice_get (reverse self.now) place ≡ Some result }
    {
        self.items[place as usize]
    }

    /// The number of the top dictionary.
    pub fn top(&self) -> u32
        ensures { self.now ≡ result ∷ drop 1 self.now }
    {
        self.items[self.items.len() - 1]
    }

    /// The value of a key in the topmost dictionary that has it.
    pub fn find<'a>(&self, store: &'a Store, key: &Sought) -> Option<&'a Obj>
        ensures { option_copied result ≡ find_key store.now self.now key.now }
    {
        find_from_top(&self.items, store, key)
    }

    /// The value of a name in the topmost dictionary that has it.
    pub fn find_name<'a>(&self, store: &'a Store, name: &Symbol) -> Option<&'a Obj>
        ensures { option_copied result ≡ find_key store.now self.now (Key.Named name.now) }
    {
        name_from_top(&self.items, store, name)
    }

    /// The number of the topmost dictionary that has a key, `None` where none has it.
    pub fn home(&self, store: &Store, key: &Sought) -> Option<u32>
        ensures { result ≡ home_of store.now self.now key.now }
    {
        home_in(&self.items, store, key)
    }
}

/// The value in the last dictionary of a list that has the key.
fn find_from_top<'a>(items: &[u32], store: &'a Store, key: &Sought) -> Option<&'a Obj>
    ensures { option_copied result ≡ find_key store.now (reverse items.now) key.now }
{
    let mut left = items;
    while let Some((dict, below)) = left.split_last() {
        if let Some(value) = store.look_up(*dict, key) {
            return Some(value);
        }
        left = below;
    }
    None
}

/// The value in the last dictionary of a list that has the name.
fn name_from_top<'a>(items: &[u32], store: &'a Store, name: &Symbol) -> Option<&'a Obj>
    ensures { option_copied result ≡ find_key store.now (reverse items.now) (Key.Named name.now) }
{
    let mut left = items;
    while let Some((dict, below)) = left.split_last() {
        if let Some(value) = store.look_up_name(*dict, name) {
            return Some(value);
        }
        left = below;
    }
    None
}

/// The last dictionary of a list that has the key.
fn home_in(items: &[u32], store: &Store, key: &Sought) -> Option<u32>
    ensures { result ≡ home_of store.now (reverse items.now) key.now }
{
    let mut left = items;
    while let Some((dict, lower)) = left.split_last() {
        if store.has(*dict, key) {
            return Some(*dict);
        }
        left = lower;
    }
    None
}
