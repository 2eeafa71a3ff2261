//! Copies from one composite to another.
ghost use Rattle.std.specs.Prelude.{◌≡◌, ◌≤◌, ◌<◌, ◌+◌, ◌-◌, ◌*◌, ◌^◌, ◌++◌, ◌↔◌, length, take, drop, count_by, Some};
ghost use Rattle.std.specs.Prelude.{None, OnOk, OnErr, IsErrOf, IfOk, not, slice_get};
ghost use Rattle.std.specs.Option.{option_copied, is_some};
ghost use Rattle.std.specs.Map.{lookup};
ghost use Rattle.indexmap.specs.IndexMap.{insert_all};
ghost use Rattle.ps_store.specs.Keys.{same_key};
ghost use Rattle.ps_store.specs.Store.{piece};
ghost use Rattle.ps_store.specs.Copying.{placed, pasted, copied_part, lacks, extended, copied_entries};

use crate::composite::StoredBytes;
use crate::entries::{ENTRY_LIMIT, Entries};
use crate::key::Key;
use crate::obj::{Obj, Part};
use crate::store::{Composite, Store};
use press_fault::{Grow, Mem};
use std::mem;

impl Store {
    /// Copies the items of a part of a string or an array to the first places of another part,
    /// as they were before the first place was written (PostScript Language Reference, third
    /// edition, 8.2 copy). A part outside its composite changes nothing. It takes no memory.
    pub fn copy_part(&mut self, from: Part, to: Part)
        ensures { self.new ≡ copied_part self.old from to }
    {
        let id = to.id as usize;
        if id >= self.made.len() {
            return;
        }
        let (start, len, at) = (from.start as usize, from.len as usize, to.start as usize);
        if from.id == to.id {
            paste_within(&mut self.made[id], start, len, at);
            return;
        }
        let empty = Composite::Text(StoredBytes {
            bytes: Vec::new(self.alloc),
        });
        let mut target = mem::replace(&mut self.made[id], empty);
        let source = composite_at(&self.made, from.id as usize);
        paste_from(&mut target, source, start, len, at);
        self.made[id] = target;
    }

    /// Defines the entries of a dictionary in another one, in their order (PostScript Language
    /// Reference, third edition, 8.2 copy). Only keys that the other one lacks count against
    /// the limits. A limit refuses all of them, with the store as it was; after out of memory
    /// nothing is said of the store.
    pub fn copy_entries(&mut self, from: u32, to: u32) -> Result<(), Grow>
        ensures ok { OnOk result (copied_entries self.old from to ≡ Some self.new) }
        ensures limit { IsErrOf result Grow.LimitCheck ↔ (copied_entries self.old from to ≡ None) }
        ensures err { IsErrOf result Grow.LimitCheck → self.new ≡ self.old }
    {
        let id = to as usize;
        if from == to || id >= self.made.len() {
            return Ok(());
        }
        let empty = Composite::Dict(Entries::new(self.alloc));
        let mut target = mem::replace(&mut self.made[id], empty);
        let source = composite_at(&self.made, from as usize);
        let answer = extend_from(&mut target, source, 268_435_456 - self.units);
        self.made[id] = target;
        match answer {
            Ok(units) => {
                self.units += units;
                Ok(())
            }
            Err(refusal) => Err(refusal),
        }
    }
}

/// Defines the entries of a dictionary, if it is one, in another one, and gives the units that
/// they take.
fn extend_from(c: &mut Composite, source: Option<&Composite>, free: u64) -> Result<u64, Grow>
    ensures ok { IfOk result (λ units. extended (option_copied source.entry) free c.old ≡ Some (c.new, units)) }
    ensures bound { IfOk result (λ units. units ≤ free) }
    ensures limit { IsErrOf result Grow.LimitCheck ↔ (extended (option_copied source.entry) free c.old ≡ None) }
    ensures err { IsErrOf result Grow.LimitCheck → c.new ≡ c.old }
{
    match source {
        Some(source) => extend(c, source, free),
        None => Ok(0),
    }
}

fn extend(c: &mut Composite, source: &Composite, free: u64) -> Result<u64, Grow>
    ensures ok { IfOk result (λ units. extended (Some source.now) free c.old ≡ Some (c.new, units)) }
    ensures bound { IfOk result (λ units. units ≤ free) }
    ensures limit { IsErrOf result Grow.LimitCheck ↔ (extended (Some source.now) free c.old ≡ None) }
    ensures err { IsErrOf result Grow.LimitCheck → c.new ≡ c.old }
{
    match (c, source) {
        (Composite::Dict(target), Composite::Dict(source)) => extend_entries(target, source, free),
        _ => Ok(0),
    }
}

fn extend_entries(target: &mut Entries, source: &Entries, free: u64) -> Result<u64, Grow>
    ensures ok { IfOk result
        (λ units. extended (Some (Composite.Dict source.now)) free (Composite.Dict target.old) ≡
        Some (Composite.Dict target.new, units)) }
    ensures bound { IfOk result (λ units. units ≤ free) }
    ensures limit { IsErrOf result Grow.LimitCheck
        ↔ (extended (Some (Composite.Dict source.now)) free (Composite.Dict target.old) ≡ None) }
    ensures err { IsErrOf result Grow.LimitCheck → target.new ≡ target.old }
{
    let fresh = fresh_entries(target, source);
    let units = 32 * fresh as u64;
    if target.len() + fresh > ENTRY_LIMIT || units > free {
        return Err(Grow::LimitCheck);
    }
    define_all(target, source)?;
    Ok(units)
}

/// How many of the entries of a dictionary have keys that another one lacks.
fn fresh_entries(target: &Entries, source: &Entries) -> usize
    ensures value { result ≡ count_by (lacks target.now) source.now }
    ensures bound { result ≤ 65535 }
{
    let mut fresh = 0;
    for at in 0..source.len() {
        let Some((key, _)) = source.at(at) else {
            unreachable!();
        };
        fresh += usize::from(is_fresh(target, key));
    }
    fresh
}

fn is_fresh(target: &Entries, key: &Key) -> bool
    ensures { result ≡ not (is_some (lookup (same_key key.now) target.now)) }
{
    target.look_up_key(key).is_none()
}

/// Defines the entries of a dictionary in another one, in their order.
fn define_all(target: &mut Entries, source: &Entries) -> Mem<()>
    requires { length target.old + count_by (lacks target.old) source.now ≤ 65535 }
    ensures { OnOk result (target.new ≡ insert_all same_key target.old source.now) }
{
    for at in 0..source.len() {
        let Some((key, value)) = source.at(at) else {
            unreachable!();
        };
        target.define(key.again(), value.again())?;
    }
    Ok(())
}

fn composite_at(made: &[Composite], id: usize) -> Option<&Composite>
    ensures { option_copied result ≡ slice_get made.now id }
{
    made.get(id)
}

/// Copies a part of one string or array, if there is one, to places of another one.
fn paste_from(c: &mut Composite, source: Option<&Composite>, start: usize, len: usize, at: usize)
    requires part { start + len < 2 ^ 63 }
    requires place { at < 2 ^ 62 }
    ensures { c.new ≡ pasted (option_copied source.entry) start len at c.old }
{
    match source {
        Some(source) => paste(c, source, start, len, at),
        None => {}
    }
}

/// Copies a part of a string or an array to other places of the same one.
fn paste_within(c: &mut Composite, start: usize, len: usize, at: usize)
    requires part { start + len < 2 ^ 63 }
    requires place { at < 2 ^ 62 }
    ensures { c.new ≡ pasted (Some c.old) start len at c.old }
{
    match c {
        Composite::Text(bytes) => place_within(&mut bytes.bytes, start, len, at),
        Composite::Array(items) => place_objects_within(&mut items.items, start, len, at),
        Composite::Dict(_) => {}
    }
}

/// Copies a part of one string or array to places of another one.
fn paste(c: &mut Composite, source: &Composite, start: usize, len: usize, at: usize)
    requires part { start + len < 2 ^ 63 }
    requires place { at < 2 ^ 62 }
    ensures { c.new ≡ pasted (Some source.now) start len at c.old }
{
    match (c, source) {
        (Composite::Text(bytes), Composite::Text(from)) => {
            place(&mut bytes.bytes, at, from.part(start, len))
        }
        (Composite::Array(items), Composite::Array(from)) => {
            place_objects(&mut items.items, at, from.part(start, len))
        }
        _ => {}
    }
}

/// Puts bytes at the places of a list from one on, if it has these places.
fn place(list: &mut [u8], at: usize, items: &[u8])
    requires { at + length items.now < 2 ^ 64 }
    ensures { list.new ≡ placed list.old at items.now }
{
    let end = at + items.len();
    if end <= list.len() {
        list[at..end].copy_from_slice(items);
    }
}

/// Puts a part of a list of bytes at its places from one on, if it has these places.
fn place_within(list: &mut [u8], start: usize, len: usize, at: usize)
    requires part { start + len < 2 ^ 63 }
    requires place { at < 2 ^ 62 }
    ensures { list.new ≡ placed list.old at (piece list.old start len) }
{
    let held = list.len();
    if start + len <= held && at + len <= held {
        list.copy_within(start..start + len, at);
    }
}

/// Puts objects at the places of a list from one on, if it has these places.
fn place_objects(list: &mut [Obj], at: usize, items: &[Obj])
    requires { at + length items.now < 2 ^ 64 }
    ensures { list.new ≡ placed list.old at items.now }
{
    let end = at + items.len();
    if end <= list.len() {
        put_objects(list, at, items);
    }
}

fn put_objects(list: &mut [Obj], at: usize, items: &[Obj])
    requires { at + length items.now ≤ length list.old }
    ensures { list.new ≡ placed list.old at items.now }
{
    for i in 0..items.len() {
        list[at + i] = items[i].again();
    }
}

/// Puts a part of a list of objects at its places from one on, if it has these places.
fn place_objects_within(list: &mut [Obj], start: usize, len: usize, at: usize)
    requires part { start + len < 2 ^ 63 }
    requires place { at < 2 ^ 62 }
    ensures { list.new ≡ placed list.old at (piece list.old start len) }
{
    let held = list.len();
    if start + len <= held && at + len <= held {
        if at <= start {
            put_down(list, start, len, at);
        } else {
            put_up(list, start, len, at);
        }
    }
}

/// Puts a part of a list at earlier places of it, its first object first.
fn put_down(list: &mut [Obj], start: usize, len: usize, at: usize)
    requires part { start + len ≤ length list.old }
    requires down { at ≤ start }
    ensures { list.new ≡ placed list.old at (piece list.old start len) }
{
    for i in 0..len {
        list[at + i] = list[start + i].again();
    }
}

/// Puts a part of a list at later places of it, its last object first.
fn put_up(list: &mut [Obj], start: usize, len: usize, at: usize)
    requires place { at + len ≤ length list.old }
    requires up { start ≤ at }
    ensures { list.new ≡ placed list.old at (piece list.old start len) }
{
    for i in 0..len {
        let left = len - 1 - i;
        list[at + left] = list[start + left].again();
    }
}
