ghost use Rattle.std.specs.Prelude.{◌≡◌, ◌∷◌, [], true};
ghost use Rattle.link_cache.specs.CacheState.{empty_cache};
ghost use Rattle.turnstile.specs.Tokens.{id_of, lock_of};
ghost use Rattle.turnstile.specs.declared.claim.Claim.TheVariants.{Free};
ghost use Rattle.cache_wait.specs.Keys.{is_askable};

use crate::lending::{lend, lend_once, put_back_two, take_two};
use crate::letters::{Letter, Meeting, Plain, Refusing};
use cache_wait::{CacheName, SharedCache};
use link_cache::{CacheState, Counts};
use press_ports::HeldGate;
use std::alloc::Global;
use std::marker::Brand;
use std::sync::Wait;
use std::sync::ledger::Blank;
use std::test::*;
use std::thread::{Threads, join};

/// What two seats were lent, how many leases each was given, and what the cache counted.
type Lent = ([Option<u8>; 3], (u64, u64), Counts);

/// The first seat finds no memory for a letter, the second makes it, and the first has it then.
fn lent_in_turn<R: Wait, N: CacheName>(
    rt: &R,
    alloc: Global,
    state: CacheState<Letter>,
    blank: Blank,
) -> Option<Lent>
    requires state { state ≡ empty_cache 2 2 }
    requires size { (N.capacity ≡ 2) × (N.seats ≡ 2) }
    requires a { is_askable N.askable (97 ∷ []) ≡ true }
    requires blank { (blank.name ≡ N.name) × (blank.parts ≡ N.parts) × (blank.parts ≡ 3) }
{
    let Ok((cache, mut seats)) = SharedCache::<Letter, N>::open(alloc, state, 2, blank) else {
        return None;
    };
    let (mut first, mut second) = take_two(&mut seats)?;
    let refused = lend(rt, alloc, &cache, &mut first, b'a', &Refusing);
    let made = lend(rt, alloc, &cache, &mut second, b'a', &Plain);
    let kept = lend(rt, alloc, &cache, &mut first, b'a', &Refusing);
    let shares = (first.share(), second.share());
    put_back_two(&mut seats, first, second);
    let state = cache.shut(seats);
    Some(([refused, made, kept], shares, state.counts()))
}

/// The same, from an empty cache.
fn lent_in_turn_anew<R: Wait>(rt: &R, alloc: Global) -> Option<Lent> {
    let Ok(state) = CacheState::new(alloc, 2, 2) else {
        return None;
    };
    lent_in_turn::<R, Brand>(rt, alloc, state, Blank::new(3))
}

#[test]
fn a_refused_build_leaves_no_entry_and_the_next_is_kept(rt: HostRuntime) -> Result<(), Fail> {
    let found = lent_in_turn_anew(&rt, rt.alloc());
    let counts = Counts {
        leases: 3,
        built: 1,
        evicted: 0,
        resident: 1,
        keys: 1,
    };
    let expected = ([None, Some(b'a'), Some(b'a')], (2, 1), counts);
    assert_eq!(rt; found.ok_or("memory")?, expected);
    Ok(())
}

/// Two threads ask for a letter each, whose makers wait for each other.
fn lent_at_once<R: Threads + Wait + Sync, N: CacheName + Send + Sync>(
    rt: &R,
    alloc: Global,
    state: CacheState<Letter>,
    blank: Blank,
) -> Option<(Option<u8>, Option<u8>, bool)>
    requires state { state ≡ empty_cache 2 2 }
    requires size { (N.capacity ≡ 2) × (N.seats ≡ 2) }
    requires a { is_askable N.askable (97 ∷ []) ≡ true }
    requires b { is_askable N.askable (98 ∷ []) ≡ true }
    requires blank { (blank.name ≡ N.name) × (blank.parts ≡ N.parts) × (blank.parts ≡ 3) }
{
    let Ok((cache, mut seats)) = SharedCache::<Letter, N>::open(alloc, state, 2, blank) else {
        return None;
    };
    let (first, second) = take_two(&mut seats)?;
    let meeting = Meeting {
        gate: HeldGate::new(1_000_000_000),
    };
    let (a, b) = join(
        rt,
        || -> Option<u8>
            requires { (lock_of first.pass ≡ id_of cache.lock) × (first.pass.claim ≡ Free)
                × (is_askable N.askable (97 ∷ []) ≡ true) }
        { lend_once(rt, alloc, &cache, first, b'a', &meeting) },
        || -> Option<u8>
            requires { (lock_of second.pass ≡ id_of cache.lock) × (second.pass.claim ≡ Free)
                × (is_askable N.askable (98 ∷ []) ≡ true) }
        { lend_once(rt, alloc, &cache, second, b'b', &meeting) },
    );
    Some((a, b, meeting.gate.timed_out()))
}

/// The same, from an empty cache.
fn lent_at_once_anew<R: Threads + Wait + Sync>(
    rt: &R,
    alloc: Global,
) -> Option<(Option<u8>, Option<u8>, bool)> {
    let Ok(state) = CacheState::new(alloc, 2, 2) else {
        return None;
    };
    lent_at_once::<R, Brand>(rt, alloc, state, Blank::new(3))
}

#[test]
fn two_values_are_made_at_once(rt: HostRuntime) -> Result<(), Fail> {
    let found = lent_at_once_anew(&rt, rt.alloc());
    assert_eq!(rt; found, Some((Some(b'a'), Some(b'b'), false)));
    Ok(())
}
