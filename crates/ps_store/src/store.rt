//! The store of composites: strings, arrays and dictionaries.
//!
//! A read outside a composite gives null, 0 for a string, or nothing, and a write outside changes nothing.
ghost use Rattle.std.specs.Prelude.{◌≡◌, ◌≤◌, ◌<◌, ◌+◌, ◌*◌, ◌^◌, ◌++◌, ◌∷◌, [], ◌↔◌, ℕ, true, false, length, OnOk};
ghost use Rattle.std.specs.Prelude.{OnErr, IfOk, IfSome, IsErrOf, IsTrue, Some, None, replicate, slice_get};
ghost use Rattle.std.specs.Prelude.{slice_index_or};
ghost use Rattle.std.specs.Option.{option_copied};
ghost use Rattle.ps_store.specs.Store.{StoreValue, fits, with_new, with_composite, next_span, with_text, with_text_of};
ghost use Rattle.ps_store.specs.Store.{with_array, with_array_of, element, item, operator_of, object_at, object_in};
ghost use Rattle.ps_store.specs.Store.{bytes_of, objects_of, put_in, put_at, found, has, entries_of, entry_at};
ghost use Rattle.ps_store.specs.Store.{as_objects, with_dict, defined, is_new_in, is_full_of, with_entry};
ghost use Rattle.ps_store.specs.KeyOf.{key_of, name_key};
ghost use Rattle.ps_store.specs.TypeNames.{type_of};

use crate::composite::{Elements, StoredBytes};
use crate::entries::{ENTRY_LIMIT, Entries};
use crate::key::{Key, KeyFault};
use crate::numbers::byte_in;
use crate::obj::{Obj, Part};
use crate::oper::Oper;
use crate::sought::Sought;
use crate::symbol::Symbol;
use crate::symbols::Symbols;
use crate::type_names::TypeNames;
use press_fault::{Grow, Mem, Name};
use press_nums::Whole;
use std::alloc::Global;
use std::marker::Model;

/// A composite: a string, an array or a dictionary.
#[derive(Drop)]
pub enum Composite {
    Text(StoredBytes),
    Array(Elements),
    Dict(Entries),
}

/// The composites that a program made, numbered from 0 (PostScript Language Reference, third
/// edition, 3.7 Memory Management). None is ever taken away. A byte of a string counts 1 unit,
/// an element of an array 16, an entry of a dictionary 32. Names are kept beside them, each once, and
/// count nothing.
#[derive(Drop)]
pub struct Store {
    pub(crate) alloc: Global,
    pub(crate) made: Vec<Composite>,
    pub(crate) units: u64,
    pub(crate) symbols: Symbols,
    pub(crate) types: TypeNames,
}

impl Model for Store {
    ghost use Rattle.std.specs.Prelude.{◌≤◌};
    ghost use Rattle.ps_store.specs.Store.{StoreValue};

    ghost Value = { StoreValue };

    ghost view = { λ s. record { made = s.made.items; units = s.units } };

    ghost invariant = { λ s. s.units ≤ 268435456 };
}

impl Store {
    /// A store in which nothing was made, but for the names of the types.
    pub fn new(alloc: Global) -> Mem<Store>
        ensures { IfOk result (λ store. store ≡ record { made = []; units = 0 }) }
    {
        let mut symbols = Symbols::new(alloc);
        let types = TypeNames::new(alloc, &mut symbols)?;
        Ok(Store {
            alloc,
            made: Vec::new(alloc),
            units: 0,
            symbols,
            types,
        })
    }

    /// Whether so many more composites and units stay within the limits: 4,294,967,295
    /// composites and 268,435,456 units.
    pub fn fits(&self, composites: u32, units: u64) -> bool
        requires { units < 2 ^ 32 }
        ensures { result ≡ fits self.now composites units }
    {
        self.made.len() as u64 + u64::from(composites) <= 4_294_967_295
            && self.units + units <= 268_435_456
    }

    /// Makes a string of so many zero bytes. A refusal, by a limit or out of memory, leaves the
    /// store as it was.
    pub fn new_text(&mut self, len: u32) -> Result<Part, Grow>
        ensures ok { IfOk result (λ span. with_text self.old len ≡ Some (span, self.new)) }
        ensures limit { IsErrOf result Grow.LimitCheck ↔ (with_text self.old len ≡ None) }
        ensures err { OnErr result (self.new ≡ self.old) }
    {
        if len > 65_535 || !self.fits(1, u64::from(len)) {
            return Err(Grow::LimitCheck);
        }
        let bytes = StoredBytes::zeros(self.alloc, len as usize)?;
        Ok(self.add(Composite::Text(bytes), len, u64::from(len))?)
    }

    /// Makes a string of these bytes. A refusal, by a limit or out of memory, leaves the store
    /// as it was.
    pub fn new_text_of(&mut self, bytes: &[u8]) -> Result<Part, Grow>
        ensures ok { IfOk result (λ span. with_text_of self.old bytes.now ≡ Some (span, self.new)) }
        ensures limit { IsErrOf result Grow.LimitCheck ↔ (with_text_of self.old bytes.now ≡ None) }
        ensures err { OnErr result (self.new ≡ self.old) }
    {
        if bytes.len() > 65_535 || !self.fits(1, bytes.len() as u64) {
            return Err(Grow::LimitCheck);
        }
        let len = bytes.len() as u32;
        let bytes = StoredBytes::of(self.alloc, bytes)?;
        Ok(self.add(Composite::Text(bytes), len, u64::from(len))?)
    }

    /// Makes an array of so many nulls. A refusal, by a limit or out of memory, leaves the
    /// store as it was.
    pub fn new_array(&mut self, len: u32) -> Result<Part, Grow>
        ensures ok { IfOk result (λ span. with_array self.old len ≡ Some (span, self.new)) }
        ensures limit { IsErrOf result Grow.LimitCheck ↔ (with_array self.old len ≡ None) }
        ensures err { OnErr result (self.new ≡ self.old) }
    {
        if len > 65_535 || !self.fits(1, 16 * u64::from(len)) {
            return Err(Grow::LimitCheck);
        }
        let items = Elements::nulls(self.alloc, len as usize)?;
        Ok(self.add(Composite::Array(items), len, 16 * u64::from(len))?)
    }

    /// Makes an array of these objects. A refusal, by a limit or out of memory, leaves the
    /// store as it was.
    pub fn new_array_of(&mut self, items: &[Obj]) -> Result<Part, Grow>
        ensures ok { IfOk result (λ span. with_array_of self.old items.now ≡ Some (span, self.new)) }
        ensures limit { IsErrOf result Grow.LimitCheck ↔ (with_array_of self.old items.now ≡ None) }
        ensures err { OnErr result (self.new ≡ self.old) }
    {
        if items.len() > 65_535 || !self.fits(1, 16 * items.len() as u64) {
            return Err(Grow::LimitCheck);
        }
        let len = items.len() as u32;
        let items = Elements::of(self.alloc, items)?;
        Ok(self.add(Composite::Array(items), len, 16 * u64::from(len))?)
    }

    /// Adds a composite of so many places and units, and gives the whole of it.
    pub(crate) fn add(&mut self, c: Composite, len: u32, units: u64) -> Mem<Part>
        requires short { len ≤ 65535 }
        requires room { IsTrue (fits self.old 1 units) }
        ensures ok { IfOk result (λ span. (span ≡ next_span self.old len) × (self.new ≡ with_new self.old c units)) }
        ensures err { OnErr result (self.new ≡ self.old) }
    {
        let id = self.made.len() as u32;
        self.made.push(c)?;
        self.units += units;
        Ok(Part { id, start: 0, len })
    }

    /// Makes an empty dictionary, and answers its number. A refusal, by a limit or out of
    /// memory, leaves the store as it was.
    pub fn new_dict(&mut self) -> Result<u32, Grow>
        ensures ok { IfOk result (λ dict. with_dict self.old ≡ Some (dict, self.new)) }
        ensures limit { IsErrOf result Grow.LimitCheck ↔ (with_dict self.old ≡ None) }
        ensures err { OnErr result (self.new ≡ self.old) }
    {
        if !self.fits(1, 0) {
            return Err(Grow::LimitCheck);
        }
        let entries = Entries::new(self.alloc);
        let whole = self.add(Composite::Dict(entries), 0, 0)?;
        Ok(whole.id)
    }

    /// Gives a key of a dictionary a value. A key that is there keeps its place and its kind. A
    /// refusal, by a limit or out of memory, leaves the store as it was.
    pub fn define(&mut self, dict: u32, key: &Sought, value: Obj) -> Result<(), Grow>
        ensures ok { OnOk result (defined self.old dict key.now value ≡ Some self.new) }
        ensures limit { IsErrOf result Grow.LimitCheck ↔ (defined self.old dict key.now value ≡ None) }
        ensures err { OnErr result (self.new ≡ self.old) }
    {
        let id = dict as usize;
        if id >= self.made.len() {
            return Ok(());
        }
        // The key is looked up beforehand only where a new one would be refused.
        let has_room = !is_full(&self.made[id]) && self.fits(0, 32);
        if !has_room && is_missing(&self.made[id], key) {
            return Err(Grow::LimitCheck);
        }
        let key = self.symbols.key(self.alloc, key)?;
        let is_new = define_in(&mut self.made[id], key, value)?;
        if is_new {
            self.units += 32;
        }
        Ok(())
    }

    /// The element of an array, or the byte of a string as an integer, at a place of the part,
    /// from 0. Outside the composite it is null, or 0 for a string.
    pub fn get(&self, span: Part, at: u32) -> Obj
        ensures { result ≡ element self.now span at }
    {
        let place = span.start as usize + at as usize;
        match self.made.get(span.id as usize) {
            Some(c) => item_of(c, place),
            None => Obj::Null,
        }
    }

    /// The object that stands at a place of an array, `None` where there is none.
    pub fn at(&self, span: Part, at: u32) -> Option<&Obj>
        ensures value { option_copied result ≡ object_at self.now span at }
        ensures element { IfSome result (λ o. o.now ≡ element self.now span at) }
    {
        let place = span.start as usize + at as usize;
        match self.made.get(span.id as usize) {
            Some(Composite::Array(items)) => items.get(place),
            Some(Composite::Text(_)) => None,
            Some(Composite::Dict(_)) => None,
            None => None,
        }
    }

    /// The operator that stands at a place, `None` where something else does.
    pub fn operator_at(&self, span: Part, at: u32) -> Option<Oper>
        ensures { result ≡ operator_of (element self.now span at) }
    {
        let place = span.start as usize + at as usize;
        match self.made.get(span.id as usize) {
            Some(c) => operator_in(c, place),
            None => None,
        }
    }

    /// The bytes of a part of a string. A part of something else has none.
    pub fn bytes(&self, span: Part) -> &[u8]
        ensures { result.now ≡ bytes_of self.now span }
    {
        match self.made.get(span.id as usize) {
            Some(Composite::Text(bytes)) => bytes.part(span.start as usize, span.len as usize),
            Some(Composite::Array(_)) => &[],
            Some(Composite::Dict(_)) => &[],
            None => &[],
        }
    }

    /// The objects of a part of an array. A part of something else has none.
    pub fn objects(&self, span: Part) -> &[Obj]
        ensures { result.now ≡ objects_of self.now span }
    {
        match self.made.get(span.id as usize) {
            Some(Composite::Array(items)) => items.part(span.start as usize, span.len as usize),
            Some(Composite::Text(_)) => &[],
            Some(Composite::Dict(_)) => &[],
            None => &[],
        }
    }

    /// Puts an object into an array, or an integer from 0 to 255 as a byte into a string, at a
    /// place of the part, from 0. Outside the composite nothing changes.
    pub fn put(&mut self, span: Part, at: u32, value: Obj)
        ensures { self.new ≡ put_at self.old span at value }
    {
        let id = span.id as usize;
        if id < self.made.len() {
            let place = span.start as usize + at as usize;
            put_into(&mut self.made[id], place, value);
        }
    }

    /// The key that an object is (PostScript Language Reference, third edition, 3.3.9
    /// Dictionary Objects). A string is the name of its bytes, of which there are at most 127. It
    /// takes no memory.
    pub fn key_of(&self, o: &Obj) -> Result<Sought, KeyFault>
        ensures { result ≡ key_of self.now o.now }
    {
        match o {
            Obj::Name(name, _) => Ok(Sought::key(Key::Named(name.again()))),
            Obj::Int(n) => Ok(Sought::key(Key::Integer(*n))),
            Obj::Real(raw) => Ok(Sought::key(Key::Real(*raw))),
            Obj::Bool(b) => Ok(Sought::key(Key::Truth(*b))),
            Obj::Text(span) => self.key_of_bytes(self.bytes(*span)),
            _ => Err(KeyFault::NotAKey),
        }
    }

    fn key_of_bytes(&self, bytes: &[u8]) -> Result<Sought, KeyFault>
        ensures { result ≡ name_key bytes.now }
    {
        match Name::of(bytes) {
            Some(name) => Ok(self.named(name)),
            None => Err(KeyFault::TooLong),
        }
    }

    /// The key that a name is. It takes no memory.
    pub fn named(&self, name: Name) -> Sought
        ensures { result ≡ Key.Named name }
    {
        match self.symbols.find(name.bytes()) {
            Some(symbol) => Sought::key(Key::Named(symbol)),
            None => Sought::name(name),
        }
    }

    /// A key that a dictionary can hold. Of a name a symbol is made, if it has none yet.
    pub fn key(&mut self, key: &Sought) -> Mem<Key>
        ensures ok { IfOk result (λ made. made ≡ key.now) }
        ensures same { self.new ≡ self.old }
    {
        self.symbols.key(self.alloc, key)
    }

    /// The symbol of a name, made if there is none yet.
    pub fn symbol(&mut self, name: &Name) -> Mem<Symbol>
        ensures ok { IfOk result (λ symbol. symbol ≡ name.now) }
        ensures same { self.new ≡ self.old }
    {
        self.symbols.keep(self.alloc, name)
    }

    /// The symbol of a name that has one already. It takes no memory.
    pub fn known_symbol(&self, name: &Name) -> Option<Symbol>
        ensures { IfSome result (λ symbol. symbol ≡ name.now) }
    {
        self.symbols.find(name.bytes())
    }

    /// The name of an object's type. It takes no memory.
    pub fn type_name(&self, o: &Obj) -> Symbol
        ensures { result ≡ type_of o.now }
    {
        self.types.of(o)
    }

    /// The value of a key in a dictionary.
    pub fn look_up(&self, dict: u32, key: &Sought) -> Option<&Obj>
        ensures { option_copied result ≡ found self.now dict key.now }
    {
        match self.made.get(dict as usize) {
            Some(Composite::Dict(entries)) => entries.look_up(key),
            Some(Composite::Text(_)) => None,
            Some(Composite::Array(_)) => None,
            None => None,
        }
    }

    /// The value of a name in a dictionary.
    pub fn look_up_name(&self, dict: u32, name: &Symbol) -> Option<&Obj>
        ensures { option_copied result ≡ found self.now dict (Key.Named name.now) }
    {
        match self.made.get(dict as usize) {
            Some(Composite::Dict(entries)) => entries.look_up_name(name),
            Some(Composite::Text(_)) => None,
            Some(Composite::Array(_)) => None,
            None => None,
        }
    }

    /// Whether a dictionary has a key.
    pub fn has(&self, dict: u32, key: &Sought) -> bool
        ensures { result ≡ has self.now dict key.now }
    {
        match self.look_up(dict, key) {
            Some(_) => true,
            None => false,
        }
    }

    /// The number of entries of a dictionary.
    pub fn entries(&self, dict: u32) -> u32
        ensures length { result ≡ length (entries_of self.now dict) }
        ensures bound { result ≤ 65535 }
    {
        match self.made.get(dict as usize) {
            Some(Composite::Dict(entries)) => entries.len() as u32,
            Some(Composite::Text(_)) => 0,
            Some(Composite::Array(_)) => 0,
            None => 0,
        }
    }

    /// The key and the value of an entry, by its place in the order of first definition. The key is
    /// as it was first defined, a name as a literal one. Outside it gives two nulls.
    pub fn entry(&self, dict: u32, at: u32) -> (Obj, Obj)
        ensures { result ≡ entry_at self.now dict at }
    {
        match self.made.get(dict as usize) {
            Some(Composite::Dict(entries)) => pair_at(entries, at as usize),
            Some(Composite::Text(_)) => (Obj::Null, Obj::Null),
            Some(Composite::Array(_)) => (Obj::Null, Obj::Null),
            None => (Obj::Null, Obj::Null),
        }
    }
}

fn pair_at(entries: &Entries, at: usize) -> (Obj, Obj)
    ensures { result ≡ as_objects (slice_get entries.now at) }
{
    match entries.at(at) {
        Some((key, value)) => (key.object(), value.again()),
        None => (Obj::Null, Obj::Null),
    }
}

fn item_of(c: &Composite, i: usize) -> Obj
    ensures { result ≡ item (Some c.now) i }
{
    match c {
        Composite::Text(bytes) => Obj::Int(Whole::of(i32::from(bytes.at(i)))),
        Composite::Array(items) => items.at(i),
        Composite::Dict(_) => Obj::Null,
    }
}

fn put_into(c: &mut Composite, i: usize, value: Obj)
    ensures { c.new ≡ put_in c.old i value }
{
    match c {
        Composite::Text(bytes) => put_byte(bytes, i, &value),
        Composite::Array(items) => items.set(i, value),
        Composite::Dict(_) => {}
    }
}

fn put_byte(bytes: &mut StoredBytes, i: usize, value: &Obj)
    ensures { Composite.Text bytes.new ≡ put_in (Composite.Text bytes.old) i value.now }
{
    match value {
        Obj::Int(w) => bytes.set(i, byte_in(*w)),
        _ => {}
    }
}

/// Whether a dictionary lacks a key.
fn is_missing(c: &Composite, key: &Sought) -> bool
    ensures { result ≡ is_new_in c.now key.now }
{
    match c {
        Composite::Dict(entries) => match entries.look_up(key) {
            Some(_) => false,
            None => true,
        },
        Composite::Text(_) => false,
        Composite::Array(_) => false,
    }
}

fn is_full(c: &Composite) -> bool
    ensures { result ≡ is_full_of c.now }
{
    match c {
        Composite::Dict(entries) => entries.len() >= ENTRY_LIMIT,
        Composite::Text(_) => false,
        Composite::Array(_) => false,
    }
}

/// Gives a key of a dictionary a value, and tells whether it is a new key.
fn define_in(c: &mut Composite, key: Key, value: Obj) -> Mem<bool>
    requires { is_new_in c.old key ≡ true → is_full_of c.old ≡ false }
    ensures ok { OnOk result (c.new ≡ with_entry c.old key value) }
    ensures is_new { IfOk result (λ is_new. is_new ≡ is_new_in c.old key) }
    ensures err { OnErr result (c.new ≡ c.old) }
{
    match c {
        Composite::Dict(entries) => entries.define(key, value),
        Composite::Text(_) => Ok(false),
        Composite::Array(_) => Ok(false),
    }
}

fn operator_in(c: &Composite, i: usize) -> Option<Oper>
    ensures { result ≡ operator_of (item (Some c.now) i) }
{
    match c {
        Composite::Array(items) => items.operator_at(i),
        Composite::Text(_) => None,
        Composite::Dict(_) => None,
    }
}
