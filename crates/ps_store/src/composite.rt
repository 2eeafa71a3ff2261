//! The bytes of a string and the elements of an array.
ghost use Rattle.std.specs.Prelude.{◌≡◌, ◌+◌, ◌<◌, ◌^◌, length, IfOk, replicate, slice_get, slice_set, slice_index_or};
ghost use Rattle.std.specs.Option.{option_copied};
ghost use Rattle.ps_store.specs.Store.{piece, operator_of};

use crate::obj::Obj;
use crate::oper::Oper;
use press_fault::Mem;
use std::alloc::Global;
use std::marker::Model;

/// The bytes of a string.
#[derive(Drop)]
pub struct StoredBytes {
    pub(crate) bytes: Vec<u8>,
}

impl Model for StoredBytes {
    ghost use Rattle.std.specs.Prelude.{List, ℕ};

    ghost Value = { List ℕ };

    ghost view = { λ b. b.bytes.items };
}

impl StoredBytes {
    /// So many zeros.
    pub fn zeros(alloc: Global, len: usize) -> Mem<StoredBytes>
        ensures { IfOk result (λ b. b ≡ replicate len 0) }
    {
        Ok(StoredBytes {
            bytes: vec![in alloc; 0; len]?,
        })
    }

    /// Copies of these bytes.
    pub fn of(alloc: Global, bytes: &[u8]) -> Mem<StoredBytes>
        ensures { IfOk result (λ b. b ≡ bytes.now) }
    {
        Ok(StoredBytes {
            bytes: Vec::from_slice(alloc, bytes)?,
        })
    }

    /// How many there are.
    pub fn len(&self) -> usize
        ensures { result ≡ length self.now }
    {
        self.bytes.len()
    }

    /// So many bytes from one on, and none where there are fewer.
    pub fn part(&self, start: usize, len: usize) -> &[u8]
        requires { start + len < 2 ^ 64 }
        ensures { result.now ≡ piece self.now start len }
    {
        part_of(&self.bytes, start, len)
    }

    /// Writes one place; past the end it changes nothing.
    pub fn set(&mut self, at: usize, value: u8)
        ensures { self.new ≡ slice_set self.old at value }
    {
        if at < self.bytes.len() {
            self.bytes[at] = value;
        }
    }

    /// The byte at a place, and 0 outside.
    pub fn at(&self, at: usize) -> u8
        ensures { result ≡ slice_index_or self.now at 0 }
    {
        if at < self.bytes.len() {
            self.bytes[at]
        } else {
            0
        }
    }
}

/// The elements of an array.
#[derive(Drop)]
pub struct Elements {
    pub(crate) items: Vec<Obj>,
}

impl Model for Elements {
    ghost use Rattle.std.specs.Prelude.{List};
    ghost use Rattle.ps_store.specs.declared.obj.Obj.{Obj};

    ghost Value = { List Obj };

    ghost view = { λ e. e.items.items };
}

impl Elements {
    /// So many nulls.
    pub fn nulls(alloc: Global, len: usize) -> Mem<Elements>
        ensures { IfOk result (λ e. e ≡ replicate len Obj.Null) }
    {
        let mut items = Vec::with_capacity(alloc, len)?;
        for at in 0..len {
            let _ = at;
            items.push(Obj::Null)?;
        }
        Ok(Elements { items })
    }

    /// Copies of these objects.
    pub fn of(alloc: Global, items: &[Obj]) -> Mem<Elements>
        ensures { IfOk result (λ e. e ≡ items.now) }
    {
        let mut held = Vec::with_capacity(alloc, items.len())?;
        for at in 0..items.len() {
            held.push(items[at].again())?;
        }
        Ok(Elements { items: held })
    }

    /// How many there are.
    pub fn len(&self) -> usize
        ensures { result ≡ length self.now }
    {
        self.items.len()
    }

    /// So many objects from one on, and none where there are fewer.
    pub fn part(&self, start: usize, len: usize) -> &[Obj]
        requires { start + len < 2 ^ 64 }
        ensures { result.now ≡ piece self.now start len }
    {
        part_of(&self.items, start, len)
    }

    /// Writes one place; past the end it changes nothing.
    pub fn set(&mut self, at: usize, value: Obj)
        ensures { self.new ≡ slice_set self.old at value }
    {
        if at < self.items.len() {
            self.items[at] = value;
        }
    }

    /// The object at a place, from 0; `None` outside.
    pub fn get(&self, at: usize) -> Option<&Obj>
        ensures { option_copied result ≡ slice_get self.now at }
    {
        self.items.get(at)
    }

    /// The operator at a place, `None` where something else is.
    pub fn operator_at(&self, at: usize) -> Option<Oper>
        ensures { result ≡ operator_of (slice_index_or self.now at Obj.Null) }
    {
        if at < self.items.len() {
            as_operator(&self.items[at])
        } else {
            None
        }
    }

    /// The object at a place, and null outside.
    pub fn at(&self, at: usize) -> Obj
        ensures { result ≡ slice_index_or self.now at Obj.Null }
    {
        if at < self.items.len() {
            self.items[at].again()
        } else {
            Obj::Null
        }
    }
}

/// So many items of a list from one on, and none where it ends before.
fn part_of<X>(list: &[X], start: usize, len: usize) -> &[X]
    requires { start + len < 2 ^ 64 }
    ensures { result.now ≡ piece list.now start len }
{
    if start + len <= list.len() {
        let (_, rest) = list.split_at(start);
        let (part, _) = rest.split_at(len);
        part
    } else {
        &[]
    }
}

fn as_operator(o: &Obj) -> Option<Oper>
    ensures { result ≡ operator_of o.now }
{
    match o {
        Obj::Oper(op) => Some(*op),
        _ => None,
    }
}
