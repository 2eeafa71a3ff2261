//! The table of a dictionary's entries: few stand in a list, more in a map.
ghost use Rattle.std.specs.Prelude.{◌≡◌, ◌<◌, [], length, not, OnOk, OnErr, IfOk, IfSome, MatchOption, None, Some};
ghost use Rattle.std.specs.Prelude.{◌++◌, ◌∷◌, slice_get, slice_set, slice_index_or};
ghost use Rattle.std.specs.Map.{lookup};
ghost use Rattle.std.specs.Map.Iter.{deref_pair};
ghost use Rattle.std.specs.Option.{option_copied, option_map, is_some};
ghost use Rattle.indexmap.specs.IndexMap.{insert_entry};
ghost use Rattle.ps_store.specs.Keys.{same_key};
ghost use Rattle.ps_store.specs.Code.Entering.{entries_in_table, IsFirstAt};

use crate::entries::ENTRY_LIMIT;
use crate::key::Key;
use crate::obj::Obj;
use crate::symbol::Symbol;
use indexmap::IndexMap;
use press_fault::Mem;
use std::alloc::Global;

/// The most entries that stand in a list, where each look-up goes through them.
const FEW: usize = 8;

/// The entries of a dictionary, in the order in which they were first defined.
#[derive(Drop)]
pub(crate) enum Table {
    Few(Vec<(Key, Obj)>),
    Many(Box<IndexMap<Key, Obj>>),
}

impl Table {
    /// No entries.
    pub(crate) fn new(alloc: Global) -> Table
        ensures { entries_in_table result ≡ [] }
    {
        Table::Few(Vec::new(alloc))
    }

    /// How many entries there are.
    pub(crate) fn len(&self) -> usize
        ensures { result ≡ length (entries_in_table self.now) }
    {
        match self {
            Table::Few(list) => list.len(),
            Table::Many(map) => map.len(),
        }
    }

    /// The value of a key.
    pub(crate) fn look_up(&self, key: &Key) -> Option<&Obj>
        ensures { option_copied result ≡ lookup (same_key key.now) (entries_in_table self.now) }
    {
        match self {
            Table::Few(list) => value_of(list, key),
            Table::Many(map) => map.get(key),
        }
    }

    /// The value of a name.
    pub(crate) fn look_up_name(&self, name: &Symbol) -> Option<&Obj>
        ensures { option_copied result ≡ lookup (same_key (Key.Named name.now)) (entries_in_table self.now) }
    {
        match self {
            Table::Few(list) => value_of_name(list, name),
            Table::Many(map) => value_in_map(map, name),
        }
    }

    /// The value of the name of these bytes, by going through the entries: no symbol has the bytes, so
    /// that a dictionary is seldom asked.
    pub(crate) fn look_up_bytes(&self, bytes: &[u8]) -> Option<&Obj>
        ensures { option_copied result ≡ lookup (same_key (Key.Named bytes.now)) (entries_in_table self.now) }
    {
        for place in 0..self.len() {
            let Some((key, value)) = self.at(place) else {
                unreachable!();
            };
            if is_spelled(key, bytes) {
                return Some(value);
            }
        }
        None
    }

    /// The key and the value at a place, from 0, in the order of first definition.
    pub(crate) fn at(&self, place: usize) -> Option<(&Key, &Obj)>
        ensures { option_map deref_pair result ≡ slice_get (entries_in_table self.now) place }
    {
        match self {
            Table::Few(list) => pair_at(list, place),
            Table::Many(map) => map.get_index(place),
        }
    }

    /// Gives a key a value, and tells whether it is a new key.
    pub(crate) fn define(&mut self, alloc: Global, key: Key, value: Obj) -> Mem<bool>
        ensures ok { OnOk result
            (entries_in_table self.new ≡ insert_entry same_key (entries_in_table self.old) key value) }
        ensures is_new { IfOk result
            (λ is_new. is_new ≡ not (is_some (lookup (same_key key) (entries_in_table self.old)))) }
        ensures err { OnErr result (entries_in_table self.new ≡ entries_in_table self.old) }
    {
        self.make_room(alloc)?;
        match self {
            Table::Few(list) => define_in_list(list, key, value),
            Table::Many(map) => {
                let before = map.insert(key, value)?;
                Ok(before.is_none())
            }
        }
    }

    /// Moves the entries of a full list into a map.
    fn make_room(&mut self, alloc: Global) -> Mem<()>
        ensures { entries_in_table self.new ≡ entries_in_table self.old }
    {
        let Table::Few(list) = self else {
            return Ok(());
        };
        if list.len() < FEW {
            return Ok(());
        }
        let Some(map) = map_of(alloc, list)? else {
            return Ok(());
        };
        *self = Table::Many(Box::new(alloc, map)?);
        Ok(())
    }
}

/// The value of a key in a list of entries.
fn value_of<'a>(list: &'a [(Key, Obj)], key: &Key) -> Option<&'a Obj>
    ensures { option_copied result ≡ lookup (same_key key.now) list.now }
{
    for at in 0..list.len() {
        let entry = &list[at];
        if *key == entry.0 {
            return Some(&entry.1);
        }
    }
    None
}

/// The value of a name in a list of entries.
fn value_of_name<'a>(list: &'a [(Key, Obj)], name: &Symbol) -> Option<&'a Obj>
    ensures { option_copied result ≡ lookup (same_key (Key.Named name.now)) list.now }
{
    for at in 0..list.len() {
        let entry = &list[at];
        if is_named(&entry.0, name) {
            return Some(&entry.1);
        }
    }
    None
}

/// Whether a key is the name.
fn is_named(key: &Key, name: &Symbol) -> bool
    ensures { result ≡ same_key (Key.Named name.now) key.now }
{
    match key {
        Key::Named(other) => *name == *other,
        _ => false,
    }
}

/// Whether a key is the name of these bytes.
fn is_spelled(key: &Key, bytes: &[u8]) -> bool
    ensures { result ≡ same_key (Key.Named bytes.now) key.now }
{
    match key {
        Key::Named(name) => bytes == name.bytes(),
        _ => false,
    }
}

/// The value of a name in a map, looked for first at the place where a dictionary had it last.
fn value_in_map<'a>(map: &'a IndexMap<Key, Obj>, name: &Symbol) -> Option<&'a Obj>
    ensures { option_copied result ≡ lookup (same_key (Key.Named name.now)) map.now.entries }
{
    match at_last_place(map, name) {
        Some(value) => Some(value),
        None => found_in_map(map, name),
    }
}

/// The value at the place where a dictionary had the name last, if its key is the name.
fn at_last_place<'a>(map: &'a IndexMap<Key, Obj>, name: &Symbol) -> Option<&'a Obj>
    ensures { IfSome result (λ o. Some o.now ≡ lookup (same_key (Key.Named name.now)) map.now.entries) }
{
    match map.get_index(name.last_place()) {
        Some((key, value)) => {
            if is_named(key, name) {
                Some(value)
            } else {
                None
            }
        }
        None => None,
    }
}

/// The value of a name in a map, whose place is noted.
#[inline(never)]
fn found_in_map<'a>(map: &'a IndexMap<Key, Obj>, name: &Symbol) -> Option<&'a Obj>
    ensures { option_copied result ≡ lookup (same_key (Key.Named name.now)) map.now.entries }
{
    match map.get_full(&Key::Named(name.again())) {
        Some((place, _, value)) => {
            name.found_at(noted(place));
            Some(value)
        }
        None => None,
    }
}

fn pair_at(list: &[(Key, Obj)], place: usize) -> Option<(&Key, &Obj)>
    ensures { option_map deref_pair result ≡ slice_get list.now place }
{
    match list.get(place) {
        Some(entry) => Some((&entry.0, &entry.1)),
        None => None,
    }
}

/// Gives a key a value in a list of entries, and tells whether it is a new key.
fn define_in_list(list: &mut Vec<(Key, Obj)>, key: Key, value: Obj) -> Mem<bool>
    ensures ok { OnOk result (list.new.items ≡ insert_entry same_key list.old.items key value) }
    ensures is_new { IfOk result (λ is_new. is_new ≡ not (is_some (lookup (same_key key) list.old.items))) }
    ensures err { OnErr result (list.new.items ≡ list.old.items) }
{
    match place_of(list, &key) {
        Some(at) => {
            replace_value(list, at, value);
            Ok(false)
        }
        None => {
            add_entry(list, key, value)?;
            Ok(true)
        }
    }
}

/// The place of a key in a list of entries.
fn place_of(list: &[(Key, Obj)], key: &Key) -> Option<usize>
    ensures { MatchOption result (lookup (same_key key.now) list.now ≡ None) (IsFirstAt key.now list.now) }
{
    for at in 0..list.len() {
        if *key == list[at].0 {
            return Some(at);
        }
    }
    None
}

/// Gives the key at a place another value.
fn replace_value(list: &mut [(Key, Obj)], at: usize, value: Obj)
    requires { at < length list.old }
    ensures { (d : Key × Obj) → list.new ≡ slice_set list.old at ((slice_index_or list.old at d).0, value) }
{
    let key = list[at].0.again();
    list[at] = (key, value);
}

/// Adds an entry. The list grows to twice its length, from one.
fn add_entry(list: &mut Vec<(Key, Obj)>, key: Key, value: Obj) -> Mem<()>
    ensures ok { OnOk result (list.new.items ≡ list.old.items ++ (key, value) ∷ []) }
    ensures err { OnErr result (list.new.items ≡ list.old.items) }
{
    if list.len() == list.capacity() {
        let more = list.len().max(1);
        list.reserve_exact(more)?;
    }
    list.push((key, value))?;
    Ok(())
}

/// A map of these entries; `None` where two of them have one key, which no dictionary has.
fn map_of(alloc: Global, list: &[(Key, Obj)]) -> Mem<Option<IndexMap<Key, Obj>>>
    ensures { IfOk result (λ made. IfSome made (λ map. map.entries ≡ list.now)) }
{
    let mut map = IndexMap::with_capacity(alloc, 2 * FEW)?;
    for at in 0..list.len() {
        let (key, value) = (list[at].0.again(), list[at].1.again());
        let before = map.insert(key, value)?;
        if before.is_some() {
            return Ok(None);
        }
    }
    Ok(Some(map))
}

/// A place as it is noted.
fn noted(place: usize) -> u32 {
    if place < ENTRY_LIMIT { place as u32 } else { 0 }
}
