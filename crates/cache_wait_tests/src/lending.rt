//! Letters lent to two seats.
ghost use Rattle.std.specs.Prelude.{◌≡◌, ◌+◌, ◌∷◌, [], ℕ, true, Some, None, IfSome, vec_len};
ghost use Rattle.std.specs.Prelude.{is_some};
ghost use Rattle.std.specs.List.{list_all};
ghost use Rattle.turnstile.specs.Tokens.{id_of, lock_of, chair_lock};
ghost use Rattle.turnstile.specs.declared.claim.Claim.TheVariants.{Free};
ghost use Rattle.cache_wait.specs.Keys.{is_askable};

use crate::letters::Letter;
use cache_wait::{CacheName, Seat, Seats, SharedCache};
use link_cache::{Made, Maker};
use std::alloc::Global;
use std::sync::Wait;

/// Lends a letter to a seat, and takes it back. Answers the letter that was lent; none where there
/// was no memory.
pub fn lend<R: Wait, N: CacheName, M: Maker<Letter>>(
    rt: &R,
    alloc: Global,
    cache: &SharedCache<Letter, N>,
    seat: &mut Seat<Letter, N>,
    key: u8,
    maker: &M,
) -> Option<u8>
    requires cache { lock_of seat.old.pass ≡ id_of cache.now.lock }
    requires free { seat.old.pass.claim ≡ Free }
    requires askable { is_askable N.askable (key ∷ []) ≡ true }
    ensures cache { (lock_of seat.new.pass ≡ lock_of seat.old.pass)
        × (seat.new.pass.number ≡ seat.old.pass.number) }
    ensures free { seat.new.pass.claim ≡ Free }
{
    let Ok(lease) = cache.acquire(rt, alloc, seat, &key, maker) else {
        return None;
    };
    let letter = *lease.value().key();
    cache.release(rt, seat, lease);
    Some(letter)
}

/// The two seats of a cache that was just shared.
#[tactic(auto, using(crate::proofs::Two::both_taken))]
pub fn take_two<N: CacheName>(
    seats: &mut Seats<Letter, N>,
) -> Option<(Seat<Letter, N>, Seat<Letter, N>)>
    requires two { vec_len seats.old.slots ≡ 2 }
    requires here { list_all is_some seats.old.slots.items ≡ true }
    ensures others { (seats.new.chair ≡ seats.old.chair) × (seats.new.share ≡ seats.old.share) }
    ensures len { vec_len seats.new.slots ≡ vec_len seats.old.slots }
    ensures first { IfSome result (λ two. (lock_of two.0.pass ≡ chair_lock seats.old.chair)
        × (two.0.pass.claim ≡ Free)) }
    ensures second { IfSome result (λ two. (lock_of two.1.pass ≡ chair_lock seats.old.chair)
        × (two.1.pass.claim ≡ Free)) }
    ensures places { IfSome result (λ two. (two.0.pass.number ≡ 0) × (two.1.pass.number ≡ 1)
        × (seats.new.slots.items ≡ None ∷ None ∷ [])) }
{
    let first = seats.take()?;
    let second = seats.take()?;
    Some((first, second))
}

/// Puts both seats back.
pub fn put_back_two<N: CacheName>(
    seats: &mut Seats<Letter, N>,
    first: Seat<Letter, N>,
    second: Seat<Letter, N>,
)
    requires places { seats.old.slots.items ≡ None ∷ None ∷ [] }
    requires first { (lock_of first.pass ≡ chair_lock seats.old.chair) × (first.pass.claim ≡ Free)
        × (first.pass.number ≡ 0) }
    requires second { (lock_of second.pass ≡ chair_lock seats.old.chair)
        × (second.pass.claim ≡ Free) × (second.pass.number ≡ 1) }
    ensures others { (seats.new.chair ≡ seats.old.chair) × (seats.new.share ≡ seats.old.share) }
    ensures len { vec_len seats.new.slots ≡ vec_len seats.old.slots }
    ensures back { list_all is_some seats.new.slots.items ≡ true }
{
    seats.put_back(first);
    seats.put_back(second);
}

/// Lends a letter to a seat once.
pub fn lend_once<R: Wait, N: CacheName, M: Maker<Letter>>(
    rt: &R,
    alloc: Global,
    cache: &SharedCache<Letter, N>,
    seat: Seat<Letter, N>,
    key: u8,
    maker: &M,
) -> Option<u8>
    requires cache { lock_of seat.pass ≡ id_of cache.now.lock }
    requires free { seat.pass.claim ≡ Free }
    requires askable { is_askable N.askable (key ∷ []) ≡ true }
{
    let mut seat = seat;
    lend(rt, alloc, cache, &mut seat, key, maker)
}
