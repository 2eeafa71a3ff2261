//! Values that are letters, and their makers.
ghost use Rattle.std.specs.Prelude.{◌∷◌, []};

use link_cache::{Made, Maker, Order};
use press_fault::{Mem, NoMemory};
use press_ports::{Gate, HeldGate};
use std::alloc::Global;

/// A value that keeps its key, a letter.
#[derive(Drop)]
pub struct Letter {
    key: u8,
}

impl Made for Letter {
    type Key = u8;

    ghost mark = { λ k. k ∷ [] };

    ghost made_for = { λ l. l.key };

    fn key(&self) -> &u8 {
        &self.key
    }

    fn same(a: &u8, b: &u8) -> bool {
        *a == *b
    }

    fn copy_key(_alloc: Global, key: &u8) -> Mem<u8> {
        Ok(*key)
    }
}

/// Makes the value of a key from the key alone.
pub struct Plain;

impl Maker<Letter> for Plain {
    fn make(&self, _alloc: Global, order: &Order<Letter>) -> Mem<Letter> {
        Ok(Letter { key: *order.key() })
    }
}

/// Finds no memory.
pub struct Refusing;

impl Maker<Letter> for Refusing {
    fn make(&self, _alloc: Global, _order: &Order<Letter>) -> Mem<Letter> {
        Err(NoMemory)
    }
}

/// Begins a value, and ends it once a second one was begun.
#[derive(Drop)]
pub struct Meeting {
    pub gate: HeldGate,
}

impl Maker<Letter> for Meeting {
    fn make(&self, _alloc: Global, order: &Order<Letter>) -> Mem<Letter> {
        self.gate.pass(0);
        Ok(Letter { key: *order.key() })
    }
}
