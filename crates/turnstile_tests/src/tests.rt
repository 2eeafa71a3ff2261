ghost use Rattle.std.specs.Prelude.{◌≡◌, ◌<◌};
ghost use Rattle.turnstile_tests.specs.Passes.{IsReady};

use super::room::{claim_in_a_turn, visit};
use super::*;
use std::alloc::Global;
use std::sync::Wait;
use std::test::*;
use std::thread::{Threads, join};
use turnstile::{Claim, Listing, Pass, Turnstile};

/// Seat 0 claims, seat 1 looks, seat 0 frees its claim: what each found, and what is left.
fn two_turns<R: Wait>(rt: &R, alloc: Global) -> Option<[(Claim, Claim); 3]> {
    let Ok((lock, mut chair)) = Turnstile::new(alloc, Room::new(), 4) else {
        return None;
    };
    let mut first = lock.seat(&mut chair, 0);
    let mut second = lock.seat(&mut chair, 1);
    claim_in_a_turn(rt, &lock, &mut first, Claim::Holds(5));
    let by_second = claim_in_a_turn(rt, &lock, &mut second, Claim::Free);
    let by_first = claim_in_a_turn(rt, &lock, &mut first, Claim::Free);
    lock.seat_home(first, &mut chair);
    lock.seat_home(second, &mut chair);
    let room = lock.close(chair);
    Some([by_second, by_first, (room.claim(0), room.claim(1))])
}

#[test]
fn a_claim_is_seen_by_the_other_seat_until_it_is_freed(rt: HostRuntime) -> Result<(), Fail> {
    let found = two_turns(&rt, rt.alloc()).ok_or("memory")?;
    let held = (Claim::Holds(5), Claim::Free);
    assert_eq!(rt; found, [held, held, (Claim::Free, Claim::Free)]);
    Ok(())
}

/// Two threads visit the room so often each, at the same time where a second thread is to be had.
fn visits_by_two<R: Threads + Wait + Sync>(rt: &R, alloc: Global, times: u64) -> Option<u64> {
    let Ok((lock, mut chair)) = Turnstile::new(alloc, Room::new(), 4) else {
        return None;
    };
    let first = lock.seat(&mut chair, 0);
    let second = lock.seat(&mut chair, 1);
    let (first, second) = join(
        rt,
        || -> Pass<Room>
            requires { IsReady lock 0 first }
            ensures { IsReady lock 0 result }
        { visit(rt, &lock, first, times) },
        || -> Pass<Room>
            requires { IsReady lock 1 second }
            ensures { IsReady lock 1 result }
        { visit(rt, &lock, second, times) },
    );
    lock.seat_home(first, &mut chair);
    lock.seat_home(second, &mut chair);
    Some(lock.close(chair).visits())
}

#[test]
fn each_of_two_threads_rests_until_the_other_has_left(rt: HostRuntime) -> Result<(), Fail> {
    assert_eq!(rt; visits_by_two(&rt, rt.alloc(), 100), Some(200));
    Ok(())
}

/// Two passes visit the room so often each, by two threads.
fn visits_side_by_side<R: Threads + Wait + Sync>(
    rt: &R,
    lock: &Turnstile<Room>,
    passes: (Pass<Room>, Pass<Room>),
    times: u64,
) -> (Pass<Room>, Pass<Room>)
    requires first { IsReady lock.now passes.0.number passes.0 × (passes.0.number < 4) }
    requires second { IsReady lock.now passes.1.number passes.1 × (passes.1.number < 4) }
    ensures first { IsReady lock.now passes.0.number result.0 }
    ensures second { IsReady lock.now passes.1.number result.1 }
{
    let (first, second) = passes;
    join(
        rt,
        || -> Pass<Room>
            requires { IsReady lock.now first.number first × (first.number < 4) }
            ensures { IsReady lock.entry.now first.number result }
        { visit(rt, lock, first, times) },
        || -> Pass<Room>
            requires { IsReady lock.now second.number second × (second.number < 4) }
            ensures { IsReady lock.entry.now second.number result }
        { visit(rt, lock, second, times) },
    )
}

/// Four threads visit the room so often each, so that several of them rest at the same time.
fn visits_by_four<R: Threads + Wait + Sync>(rt: &R, alloc: Global, times: u64) -> Option<u64> {
    let Ok((lock, mut chair)) = Turnstile::new(alloc, Room::new(), 4) else {
        return None;
    };
    let low = (lock.seat(&mut chair, 0), lock.seat(&mut chair, 1));
    let high = (lock.seat(&mut chair, 2), lock.seat(&mut chair, 3));
    let (low, high) = join(
        rt,
        || -> (Pass<Room>, Pass<Room>)
            requires { IsReady lock 0 low.0 × IsReady lock 1 low.1 }
            ensures { IsReady lock 0 result.0 × IsReady lock 1 result.1 }
        { visits_side_by_side(rt, &lock, low, times) },
        || -> (Pass<Room>, Pass<Room>)
            requires { IsReady lock 2 high.0 × IsReady lock 3 high.1 }
            ensures { IsReady lock 2 result.0 × IsReady lock 3 result.1 }
        { visits_side_by_side(rt, &lock, high, times) },
    );
    lock.seat_home(low.0, &mut chair);
    lock.seat_home(low.1, &mut chair);
    lock.seat_home(high.0, &mut chair);
    lock.seat_home(high.1, &mut chair);
    Some(lock.close(chair).visits())
}

#[test]
fn each_of_four_threads_rests_until_it_is_woken(rt: HostRuntime) -> Result<(), Fail> {
    assert_eq!(rt; visits_by_four(&rt, rt.alloc(), 50), Some(200));
    Ok(())
}

/// A pass that went home, and the same number given out again.
fn number_again<R: Wait>(rt: &R, alloc: Global) -> Option<(Claim, Claim)> {
    let Ok((lock, mut chair)) = Turnstile::new(alloc, Room::new(), 4) else {
        return None;
    };
    let mut pass = lock.seat(&mut chair, 1);
    claim_in_a_turn(rt, &lock, &mut pass, Claim::Builds(7));
    claim_in_a_turn(rt, &lock, &mut pass, Claim::Free);
    lock.seat_home(pass, &mut chair);
    let mut again = lock.seat(&mut chair, 1);
    let found = claim_in_a_turn(rt, &lock, &mut again, Claim::Free);
    lock.seat_home(again, &mut chair);
    let _ = lock.close(chair);
    Some(found)
}

#[test]
fn a_number_that_went_home_is_given_out_again(rt: HostRuntime) -> Result<(), Fail> {
    let found = number_again(&rt, rt.alloc());
    assert_eq!(rt; found, Some((Claim::Free, Claim::Free)));
    Ok(())
}
