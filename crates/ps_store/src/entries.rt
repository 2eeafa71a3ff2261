//! The entries of a dictionary.
ghost use Rattle.std.specs.Prelude.{◌≡◌, ◌≤◌, ◌<◌, [], length, not, OnOk, OnErr, IfOk, IsNone, slice_get};
ghost use Rattle.std.specs.Map.{lookup};
ghost use Rattle.std.specs.Option.{option_copied, option_map, is_some};
ghost use Rattle.std.specs.Map.Iter.{deref_pair};
ghost use Rattle.indexmap.specs.IndexMap.{insert_entry};
ghost use Rattle.ps_store.specs.Keys.{same_key};

use crate::key::Key;
use crate::marks::Marks;
use crate::obj::Obj;
use crate::sought::{By, Sought};
use crate::symbol::{Symbol, hash_of};
use crate::table::Table;
use press_fault::Mem;
use std::alloc::Global;
use std::marker::Model;

/// The most entries that a dictionary has.
pub const ENTRY_LIMIT: usize = 65_535;

/// The entries of a dictionary, in the order in which they were first defined.
#[derive(Drop)]
pub struct Entries {
    alloc: Global,
    marks: Marks,
    table: Table,
}

impl Model for Entries {
    ghost use Rattle.std.specs.Prelude.{List};
    ghost use Rattle.ps_store.specs.declared.obj.Obj.{Obj};
    ghost use Rattle.ps_store.specs.declared.key.Key.{Key};
    ghost use Rattle.ps_store.specs.Code.Entering.{entries_in_table, AreKept};

    ghost Value = { List (Key × Obj) };

    ghost view = { λ e. entries_in_table e.table };

    ghost invariant = { λ e. AreKept e.marks (entries_in_table e.table) };
}

impl Entries {
    /// No entries.
    pub fn new(alloc: Global) -> Entries
        ensures { result ≡ [] }
    {
        Entries {
            alloc,
            marks: Marks::none(),
            table: Table::new(alloc),
        }
    }

    /// How many entries there are.
    pub fn len(&self) -> usize
        ensures length { result ≡ length self.now }
        ensures bound { result ≤ 65535 }
    {
        self.table.len()
    }

    /// The value of a key. It takes no memory.
    pub fn look_up(&self, key: &Sought) -> Option<&Obj>
        ensures { option_copied result ≡ lookup (same_key key.now) self.now }
    {
        match &key.by {
            By::Key(key) => self.look_up_key(key),
            By::Name(name) => self.look_up_bytes(name.bytes()),
        }
    }

    /// The value of a key that a dictionary can hold.
    pub(crate) fn look_up_key(&self, key: &Key) -> Option<&Obj>
        ensures { option_copied result ≡ lookup (same_key key.now) self.now }
    {
        match key {
            Key::Named(name) => self.look_up_name(name),
            _ => self.table.look_up(key),
        }
    }

    /// The value of a name. It hashes no bytes.
    pub fn look_up_name(&self, name: &Symbol) -> Option<&Obj>
        ensures { option_copied result ≡ lookup (same_key (Key.Named name.now)) self.now }
    {
        if self.marks.has(name.kept_hash()) {
            self.table.look_up_name(name)
        } else {
            None
        }
    }

    /// The value of the name of these bytes, of which there is no symbol.
    fn look_up_bytes(&self, bytes: &[u8]) -> Option<&Obj>
        ensures { option_copied result ≡ lookup (same_key (Key.Named bytes.now)) self.now }
    {
        if self.marks.has(hash_of(bytes)) {
            self.table.look_up_bytes(bytes)
        } else {
            None
        }
    }

    /// The key and the value at a place, from 0, in the order of first definition.
    pub fn at(&self, place: usize) -> Option<(&Key, &Obj)>
        ensures { option_map deref_pair result ≡ slice_get self.now place }
    {
        self.table.at(place)
    }

    /// Gives a key a value, and tells whether it is a new key. One that is there keeps its
    /// place and its kind. Out of memory leaves the entries as before.
    pub fn define(&mut self, key: Key, value: Obj) -> Mem<bool>
        requires { IsNone (lookup (same_key key) self.old) → length self.old < 65535 }
        ensures ok { OnOk result (self.new ≡ insert_entry same_key self.old key value) }
        ensures is_new { IfOk result (λ is_new. is_new ≡ not (is_some (lookup (same_key key) self.old))) }
        ensures err { OnErr result (self.new ≡ self.old) }
    {
        let marks = self.marks.with(&key);
        let is_new = self.table.define(self.alloc, key, value)?;
        self.marks = marks;
        Ok(is_new)
    }
}
