//! Rounds of look, build, publish and release on a cache of 8 entries: a million, or a thousand. 16 keys are used
//! in turn, so each round past the first 8 evicts the least recently used entry. The journal is settled each 1,000
//! rounds.

ghost use Rattle.std.specs.Prelude.{◌∷◌, []};

use crate::{Size, no_memory};
use link_cache::{CacheState, Look, Made, Maker, Order, make};
use press_fault::Mem;
use std::alloc::Global;
use std::io;
use std::time::Instant;

const CAPACITY: u32 = 8;

const KEYS: u32 = 16;

/// The journal is settled after so many rounds.
const THOUSAND: u32 = 1_000;

/// A value that keeps its key.
#[derive(Drop)]
pub(crate) struct Number {
    key: u32,
}

impl Made for Number {
    type Key = u32;

    ghost mark = { λ k. k ∷ [] };

    ghost made_for = { λ n. n.key };

    fn key(&self) -> &u32 {
        &self.key
    }

    fn same(a: &u32, b: &u32) -> bool {
        *a == *b
    }

    fn copy_key(_alloc: Global, key: &u32) -> Mem<u32> {
        Ok(*key)
    }
}

/// Makes the value of a key from the key alone.
pub(crate) struct Plain;

impl Maker<Number> for Plain {
    fn make(&self, _alloc: Global, order: &Order<Number>) -> Mem<Number> {
        Ok(Number { key: *order.key() })
    }
}

/// Makes the value of an order, publishes it and gives the lease back.
fn build(alloc: Global, state: &mut CacheState<Number>, order: Order<Number>) -> Mem<()> {
    match make(alloc, &Plain, &order) {
        Ok((value, copy)) => {
            if state.is_in_order(&order) {
                let lease = state.publish(order, value, copy);
                state.release(lease);
            } else {
                state.withdraw(order);
            }
            Ok(())
        }
        Err(refusal) => {
            state.withdraw(order);
            Err(refusal)
        }
    }
}

/// One round of the one seat.
fn serve(alloc: Global, state: &mut CacheState<Number>, key: u32) -> Mem<()> {
    if !state.core().is_free(0) {
        return Ok(());
    }
    match state.look(0, &key)? {
        Look::Have(lease) => state.release(lease),
        Look::Build(order) => build(alloc, state, order)?,
        Look::Wait => {}
    }
    Ok(())
}

/// A thousand rounds, the first of a number, and the journal is settled.
fn serve_thousand(alloc: Global, state: &mut CacheState<Number>, first: u32) -> Mem<()> {
    for n in 0..THOUSAND {
        serve(alloc, state, first.wrapping_add(n) % KEYS)?;
    }
    if state.quiet() {
        state.settle();
    }
    Ok(())
}

fn serve_all(alloc: Global, thousands: u32) -> Mem<CacheState<Number>> {
    let mut state = CacheState::<Number>::new(alloc, CAPACITY, 1)?;
    for n in 0..thousands {
        serve_thousand(alloc, &mut state, n.wrapping_mul(THOUSAND))?;
    }
    Ok(state)
}

pub(crate) fn run(rt: &HostRuntime, size: Size) -> io::Result<()> {
    let thousands = size.rounds(1_000, 1);
    let start = Instant::now(rt)?;
    let Ok(state) = serve_all(rt.alloc(), thousands) else {
        return Err(no_memory());
    };
    let took = start.elapsed(rt)?;
    let counts = state.counts();
    println!(rt;
        "cache: {} leases, {} built, {} evicted, {} resident, {} keys, {} steps in the journal",
        counts.leases,
        counts.built,
        counts.evicted,
        counts.resident,
        counts.keys,
        state.journal().len()
    )?;
    eprintln!(rt; "cache: {} us", took.as_micros())?;
    Ok(())
}
