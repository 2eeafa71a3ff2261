//! The seats of a shared cache.
ghost use Rattle.std.specs.Prelude.{◌≡◌, ◌<◌, ◌≤◌, ◌+◌, ◌-◌, ◌^◌, ◌↔◌, ℕ, [], true, Some, None};
ghost use Rattle.std.specs.Prelude.{min, length, is_some, position, slice_get, slice_set};
ghost use Rattle.std.specs.Prelude.{vec_len, vec_capacity, IsTrue, IfSome, IfNone};
ghost use Rattle.std.specs.List.{list_all};
ghost use Rattle.turnstile.specs.Tokens.{id_of, lock_of, chair_lock, out_of};
ghost use Rattle.turnstile.specs.TurnRule.{IsMember};
ghost use Rattle.cache_wait.specs.Seats.{IsHome, AreAt, total_of, TakesFirst};
ghost use Rattle.turnstile.specs.declared.claim.Claim.TheVariants.{Free};
ghost use Rattle.turnstile.specs.declared.view.Stage.TheVariants.{Away};

use crate::locked::Locked;
use crate::name::CacheName;
use link_cache::Made;
use std::sync::ledger::Share;
use turnstile::{Chair, Claim, Pass, Turnstile};

/// The right of one thread to leases of a shared cache, one at a time. Its share of the ledger is
/// how many leases it was given.
#[derive(Drop)]
pub struct Seat<V: Made, N: CacheName> {
    pub(crate) pass: Pass<Locked<V, N>>,
    pub(crate) share: Share<N>,
    pub(crate) leases: u64,
    ghost away: { pass.seat.me.0.stage ≡ Away },
    ghost part: { share.parts ≡ 1 },
    ghost counted: { leases ≡ min share.amount (2 ^ 64 - 1) },
}

impl<V: Made, N: CacheName> Seat<V, N> {
    /// Whether no lease of the seat is out.
    pub fn free(&self) -> bool
        ensures { IsTrue result ↔ (self.now.pass.claim ≡ Free) }
    {
        self.pass.claim() == Claim::Free
    }

    /// How many leases the seat was given. The count stands still at its last value.
    pub fn share(&self) -> u64
        ensures { result ≡ min self.now.share.amount (2 ^ 64 - 1) }
    {
        self.leases
    }
}

/// The seats of a shared cache that aren't lent, each in the place of its number, and what takes
/// them back. A seat that is taken and dropped stays out, and its cache can't be shut.
#[derive(Drop)]
pub struct Seats<V: Made, N: CacheName> {
    pub(crate) chair: Chair<Locked<V, N>>,
    pub(crate) slots: Vec<Option<Seat<V, N>>>,
    pub(crate) share: Share<N>,
    ghost home: { AreAt (λ k s. IsHome (chair_lock chair) k s.pass) slots.items },
    ghost out: { (m : ℕ) → IsMember m (out_of chair) → m < vec_len slots },
}

impl<V: Made, N: CacheName> Seats<V, N> {
    /// The seat of the least number that is left; none exactly where none is left.
    pub fn take(&mut self) -> Option<Seat<V, N>>
        ensures others { (self.new.chair ≡ self.old.chair) × (self.new.share ≡ self.old.share) }
        ensures len { vec_len self.new.slots ≡ vec_len self.old.slots }
        ensures some { IfSome result (λ seat.
            (position is_some self.old.slots.items ≡ Some seat.pass.number)
            × (slice_get self.old.slots.items seat.pass.number ≡ Some (Some seat))
            × (self.new.slots.items ≡ slice_set self.old.slots.items seat.pass.number None)) }
        ensures seat { IfSome result (λ seat. (lock_of seat.pass ≡ chair_lock self.old.chair)
            × (seat.pass.claim ≡ Free)) }
        ensures total { IfSome result (λ seat. total_of (λ s. s.share.amount) self.old.slots.items
            ≡ seat.share.amount + total_of (λ s. s.share.amount) self.new.slots.items) }
        ensures none { IfNone result ((position is_some self.old.slots.items ≡ None)
            × (self.new.slots.items ≡ self.old.slots.items)) }
    {
        take_first(&mut self.slots)
    }

    /// Takes back a free seat that these seats gave, into the place of its number.
    pub fn put_back(&mut self, seat: Seat<V, N>)
        requires lock { lock_of seat.pass ≡ chair_lock self.old.chair }
        requires free { seat.pass.claim ≡ Free }
        requires out { slice_get self.old.slots.items seat.pass.number ≡ Some None }
        ensures others { (self.new.chair ≡ self.old.chair) × (self.new.share ≡ self.old.share) }
        ensures len { vec_len self.new.slots ≡ vec_len self.old.slots }
        ensures slots { self.new.slots.items
            ≡ slice_set self.old.slots.items seat.pass.number (Some seat) }
        ensures total { total_of (λ s. s.share.amount) self.new.slots.items
            ≡ total_of (λ s. s.share.amount) self.old.slots.items + seat.share.amount }
    {
        let number = seat.pass.number();
        put(&mut self.slots, number as usize, seat);
    }
}

/// The first place that has something.
fn first_full<T>(places: &[Option<T>]) -> Option<usize>
    ensures first { result ≡ position is_some places.now }
    ensures within { IfSome result (λ k. k < length places.now) }
{
    places.iter().position(|place| place.is_some())
}

/// Takes what is in the first place that has something.
fn take_first<T>(places: &mut Vec<Option<T>>) -> Option<T>
    ensures len { vec_len places.new ≡ vec_len places.old }
    ensures first { TakesFirst result places.old.items places.new.items }
{
    let Some(k) = first_full(places) else {
        return None;
    };
    places[k].take()
}

/// Puts something into an empty place.
fn put<T: Drop>(places: &mut Vec<Option<T>>, k: usize, item: T)
    requires { slice_get places.old.items k ≡ Some None }
    ensures len { vec_len places.new ≡ vec_len places.old }
    ensures items { places.new.items ≡ slice_set places.old.items k (Some item) }
{
    places[k] = Some(item);
}

/// Gives out the seats below `count`, each into its place and with one part of the share.
pub(crate) fn give_out<V: Made, N: CacheName>(
    lock: &Turnstile<Locked<V, N>>,
    chair: &mut Chair<Locked<V, N>>,
    slots: &mut Vec<Option<Seat<V, N>>>,
    share: &mut Share<N>,
    count: u32,
)
    requires lock { chair_lock chair.old ≡ id_of lock.now }
    requires count { count ≤ lock.now.seats }
    requires room { (count ≤ vec_capacity slots.old) × (slots.old.items ≡ []) }
    requires none { out_of chair.old ≡ [] }
    requires parts { share.old.parts ≡ count + 1 }
    ensures lock { chair_lock chair.new ≡ id_of lock.now }
    ensures share { (share.new.parts ≡ 1) × (share.new.amount ≡ share.old.amount) }
    ensures seats { vec_len slots.new ≡ count }
    ensures here { list_all is_some slots.new.items ≡ true }
    ensures home { AreAt (λ k s. IsHome (chair_lock chair.new) k s.pass) slots.new.items }
    ensures total { total_of (λ s. s.share.amount) slots.new.items ≡ 0 }
    ensures out { (m : ℕ) → IsMember m (out_of chair.new) → m < vec_len slots.new }
{
    for number in 0..count {
        let pass = lock.seat(chair, number);
        let part = share.split_off(1, 0);
        slots.push_reserved(Some(Seat {
            pass,
            share: part,
            leases: 0,
        }));
    }
}

/// Takes the passes of all seats home, and merges their shares.
pub(crate) fn take_home<V: Made, N: CacheName>(
    lock: &Turnstile<Locked<V, N>>,
    chair: &mut Chair<Locked<V, N>>,
    slots: &mut Vec<Option<Seat<V, N>>>,
    share: &mut Share<N>,
)
    requires lock { chair_lock chair.old ≡ id_of lock.now }
    requires here { list_all is_some slots.old.items ≡ true }
    requires home { AreAt (λ k s. IsHome (chair_lock chair.old) k s.pass) slots.old.items }
    requires out { (m : ℕ) → IsMember m (out_of chair.old) → m < vec_len slots.old }
    ensures chair { (chair_lock chair.new ≡ id_of lock.now) × (out_of chair.new ≡ []) }
    ensures parts { share.new.parts ≡ share.old.parts + vec_len slots.old }
    ensures amount { share.new.amount
        ≡ share.old.amount + total_of (λ s. s.share.amount) slots.old.items }
{
    while let Some(slot) = slots.pop() {
        let Some(seat) = slot else { unreachable!() };
        let Seat {
            pass,
            share: part,
            leases: _,
        } = seat;
        lock.seat_home(pass, chair);
        share.merge(part);
    }
}
