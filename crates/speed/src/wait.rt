//! Rounds of acquire and release on a shared cache of 8 places, a million or a thousand: by one thread, and by four
//! threads with a key each, whose values are ready after the first round. And four threads that ask for one key, whose
//! value takes seconds to make: three of them wait, and the processor time of the run tells what waiting costs.
ghost use Rattle.std.specs.Prelude.{◌≡◌, ◌∷◌, [], true, IfOk};
ghost use Rattle.link_cache.specs.CacheState.{empty_cache};
ghost use Rattle.turnstile.specs.Tokens.{id_of, lock_of};
ghost use Rattle.turnstile.specs.declared.claim.Claim.TheVariants.{Free};
ghost use Rattle.cache_wait.specs.Keys.{is_askable};

use crate::{Size, no_memory};
use cache_wait::{CacheName, Seat, SharedCache};
use link_cache::{CacheState, Made, Maker, Order};
use press_fault::Mem;
use std::alloc::Global;
use std::io;
use std::marker::Brand;
use std::sync::Wait;
use std::sync::ledger::Blank;
use std::thread::{Threads, join};
use std::time::Instant;

const CAPACITY: u32 = 8;

/// A value that keeps its key, and what the steps of its making gave.
#[derive(Drop)]
struct Number {
    key: u32,
    work: u64,
}

impl Made for Number {
    type Key = u32;

    ghost mark = { λ k. k ∷ [] };

    ghost made_for = { λ n. n.key };

    fn key(&self) -> &u32 {
        &self.key
    }

    fn same(a: &u32, b: &u32) -> bool {
        *a == *b
    }

    fn copy_key(_alloc: Global, key: &u32) -> Mem<u32> {
        Ok(*key)
    }
}

/// Makes the value of a key from the key alone, by so many steps.
#[derive(Drop)]
struct Steps {
    count: u32,
}

impl Maker<Number> for Steps {
    fn make(&self, _alloc: Global, order: &Order<Number>) -> Mem<Number> {
        let mut work = u64::from(*order.key());
        for _ in 0..self.count {
            work = work.wrapping_mul(6_364_136_223_846_793_005).rotate_left(7);
        }
        Ok(Number {
            key: *order.key(),
            work,
        })
    }
}

/// How often each thread leases its value, and who makes it.
#[derive(Drop)]
struct Job {
    rounds: u32,
    maker: Steps,
}

/// Leases and returns the value of a key so often, and counts the leases.
fn rounds<R: Wait, N: CacheName>(
    rt: &R,
    alloc: Global,
    cache: &SharedCache<Number, N>,
    seat: Seat<Number, N>,
    key: u32,
    job: &Job,
) -> u32
    requires cache { lock_of seat.pass ≡ id_of cache.now.lock }
    requires free { seat.pass.claim ≡ Free }
    requires askable { is_askable N.askable (key ∷ []) ≡ true }
{
    let mut seat = seat;
    let mut leases = 0u32;
    for _ in 0..job.rounds {
        if let Ok(lease) = cache.acquire(rt, alloc, &mut seat, &key, &job.maker) {
            cache.release(rt, &mut seat, lease);
            leases = leases.saturating_add(1);
        }
    }
    leases
}

/// The same by two threads, of a key each.
fn rounds_by_two<R: Threads + Wait + Sync, N: CacheName + Send + Sync>(
    rt: &R,
    alloc: Global,
    cache: &SharedCache<Number, N>,
    seats: (Seat<Number, N>, Seat<Number, N>),
    keys: (u32, u32),
    job: &Job,
) -> u32
    requires first { (lock_of seats.0.pass ≡ id_of cache.now.lock) × (seats.0.pass.claim ≡ Free)
        × (is_askable N.askable (keys.0 ∷ []) ≡ true) }
    requires second { (lock_of seats.1.pass ≡ id_of cache.now.lock) × (seats.1.pass.claim ≡ Free)
        × (is_askable N.askable (keys.1 ∷ []) ≡ true) }
{
    let (first, second) = seats;
    let (first_key, second_key) = keys;
    let (a, b) = join(
        rt,
        || -> u32
            requires { (lock_of first.pass ≡ id_of cache.now.lock) × (first.pass.claim ≡ Free)
                × (is_askable N.askable (first_key ∷ []) ≡ true) }
        { rounds(rt, alloc, cache, first, first_key, job) },
        || -> u32
            requires { (lock_of second.pass ≡ id_of cache.now.lock) × (second.pass.claim ≡ Free)
                × (is_askable N.askable (second_key ∷ []) ≡ true) }
        { rounds(rt, alloc, cache, second, second_key, job) },
    );
    a.saturating_add(b)
}

/// The leases of one thread, and the nanoseconds that they took; none without memory.
fn by_one<R: Wait, N: CacheName>(
    rt: &R,
    host: &HostRuntime,
    state: CacheState<Number>,
    blank: Blank,
    job: &Job,
) -> io::Result<(u32, u128)>
    requires state { state ≡ empty_cache 8 4 }
    requires size { (N.capacity ≡ 8) × (N.seats ≡ 4) }
    requires key { is_askable N.askable (0 ∷ []) ≡ true }
    requires blank { (blank.name ≡ N.name) × (blank.parts ≡ N.parts) × (blank.parts ≡ 2) }
{
    let alloc = host.alloc();
    let Ok((cache, mut seats)) = SharedCache::<Number, N>::open(alloc, state, 1, blank) else {
        return Err(no_memory());
    };
    let Some(seat) = seats.take() else {
        return Err(no_memory());
    };
    let start = Instant::now(host)?;
    let leases = rounds(rt, alloc, &cache, seat, 0, job);
    Ok((leases, start.elapsed(host)?.as_nanos()))
}

/// The leases of four threads, and the nanoseconds that they took; none without memory.
fn by_four<R: Threads + Wait + Sync, N: CacheName + Send + Sync>(
    rt: &R,
    host: &HostRuntime,
    state: CacheState<Number>,
    blank: Blank,
    keys: ((u32, u32), (u32, u32)),
    job: &Job,
) -> io::Result<(u32, u128)>
    requires state { state ≡ empty_cache 8 4 }
    requires size { (N.capacity ≡ 8) × (N.seats ≡ 4) }
    requires first { is_askable N.askable (keys.0.0 ∷ []) ≡ true }
    requires second { is_askable N.askable (keys.0.1 ∷ []) ≡ true }
    requires third { is_askable N.askable (keys.1.0 ∷ []) ≡ true }
    requires fourth { is_askable N.askable (keys.1.1 ∷ []) ≡ true }
    requires blank { (blank.name ≡ N.name) × (blank.parts ≡ N.parts) × (blank.parts ≡ 5) }
{
    let alloc = host.alloc();
    let Ok((cache, mut seats)) = SharedCache::<Number, N>::open(alloc, state, 4, blank) else {
        return Err(no_memory());
    };
    let Some(first) = seats.take() else {
        return Err(no_memory());
    };
    let Some(second) = seats.take() else {
        return Err(no_memory());
    };
    let Some(third) = seats.take() else {
        return Err(no_memory());
    };
    let Some(fourth) = seats.take() else {
        return Err(no_memory());
    };
    let start = Instant::now(host)?;
    let (a, b) = join(
        rt,
        || -> u32
            requires first { (lock_of first.pass ≡ id_of cache.lock) × (first.pass.claim ≡ Free)
                × (is_askable N.askable (keys.0.0 ∷ []) ≡ true) }
            requires second { (lock_of second.pass ≡ id_of cache.lock) × (second.pass.claim ≡ Free)
                × (is_askable N.askable (keys.0.1 ∷ []) ≡ true) }
        { rounds_by_two(rt, alloc, &cache, (first, second), keys.0, job) },
        || -> u32
            requires third { (lock_of third.pass ≡ id_of cache.lock) × (third.pass.claim ≡ Free)
                × (is_askable N.askable (keys.1.0 ∷ []) ≡ true) }
            requires fourth { (lock_of fourth.pass ≡ id_of cache.lock) × (fourth.pass.claim ≡ Free)
                × (is_askable N.askable (keys.1.1 ∷ []) ≡ true) }
        { rounds_by_two(rt, alloc, &cache, (third, fourth), keys.1, job) },
    );
    Ok((a.saturating_add(b), start.elapsed(host)?.as_nanos()))
}

fn empty(alloc: Global) -> io::Result<CacheState<Number>>
    ensures { IfOk result (λ state. state ≡ empty_cache 8 4) }
{
    match CacheState::new(alloc, CAPACITY, 4) {
        Ok(state) => Ok(state),
        Err(_) => Err(no_memory()),
    }
}

/// Prints the leases of one thread and of four, and the times.
pub(crate) fn run<R: Threads + Wait + Sync>(
    rt: &HostRuntime,
    threads: &R,
    size: Size,
) -> io::Result<()> {
    let alloc = rt.alloc();
    let job = Job {
        rounds: size.rounds(1_000_000, 1_000),
        maker: Steps { count: 0 },
    };
    let (leases, took) = by_one::<R, Brand>(threads, rt, empty(alloc)?, Blank::new(2), &job)?;
    println!(rt; "{leases} leases of one thread")?;
    eprintln!(rt; "one thread: {took} ns")?;
    let keys = ((0, 1), (2, 3));
    let (leases, took) = by_four::<R, Brand>(
        threads,
        rt,
        empty(alloc)?,
        Blank::new(5),
        keys,
        &job,
    )?;
    println!(rt; "{leases} leases of four threads")?;
    eprintln!(rt; "four threads: {took} ns")?;
    Ok(())
}

/// Prints the leases of four threads that ask for one value, which takes long to make, and the time.
pub(crate) fn run_waiting<R: Threads + Wait + Sync>(
    rt: &HostRuntime,
    threads: &R,
    size: Size,
) -> io::Result<()> {
    let job = Job {
        rounds: 1,
        maker: Steps {
            count: size.rounds(2_000_000_000, 1_000),
        },
    };
    let keys = ((0, 0), (0, 0));
    let state = empty(rt.alloc())?;
    let (leases, took) = by_four::<R, Brand>(threads, rt, state, Blank::new(5), keys, &job)?;
    println!(rt; "{leases} leases of one value")?;
    eprintln!(rt; "one value of four threads: {took} ns")?;
    Ok(())
}
