//! What lies under the lock: the cache, and the book of its leases.
ghost use Rattle.std.specs.Prelude.{◌≡◌, ◌<◌, ◌+◌, true, length, OnErr, IfOk, IsTrue};
ghost use Rattle.link_cache.specs.CacheState.{counts_of};
ghost use Rattle.link_cache.specs.Look.{look_value};
ghost use Rattle.link_cache.specs.Orders.{IsInOrder};
ghost use Rattle.turnstile.specs.declared.claim.Claim.TheVariants.{Free, Builds, Holds};
ghost use Rattle.cache_wait.specs.Claims.{claim_at, claim_from, leases_told};
ghost use Rattle.cache_wait.specs.Claims.{LeavesOtherClaims, FitsLook};
ghost use Rattle.cache_wait.specs.Keys.{is_askable, are_askable};

use crate::name::CacheName;
use cache_core::Phase;
use link_cache::{CacheState, Lease, Look, Made, Order};
use press_fault::Mem;
use std::sync::Arc;
use std::sync::ledger::{Book, Share};
use turnstile::{Claim, Listing};

/// The cache and the book of its leases, which agree; of the size, and for the keys, of its name.
#[derive(Drop)]
pub struct Locked<V: Made, N: CacheName> {
    pub state: CacheState<V>,
    pub leases: Book<N>,
    ghost counted: { leases.total ≡ (counts_of state).leases },
    ghost sized: { (state.core.capacity ≡ N.capacity) × (length state.core.phases ≡ N.seats) },
    ghost asked: { are_askable N.askable state.named ≡ true },
}

impl<V: Made, N: CacheName> Listing for Locked<V, N> {
    ghost use Rattle.cache_wait.specs.Claims.{claim_at};

    ghost listed = { λ locked seat. claim_at locked.state seat };

    fn claim(&self, seat: u32) -> Claim {
        claim_from(self.state.core().phase(seat))
    }
}

/// What a seat in a phase claims.
fn claim_from(phase: Phase) -> Claim
    ensures { result ≡ claim_from phase }
{
    match phase {
        Phase::Building(res) => Claim::Builds(res),
        Phase::Holding(res) => Claim::Holds(res),
        _ => Claim::Free,
    }
}

/// How many leases were given, or will be, where a seat was told this.
fn leases_told<V: Made>(look: &Look<V>) -> u64
    ensures { result ≡ leases_told (look_value look.now) }
{
    match look {
        Look::Have(_) => 1,
        Look::Build(_) => 1,
        Look::Wait => 0,
    }
}

impl<V: Made, N: CacheName> Locked<V, N> {
    /// Looks for a key, for a seat that claims nothing. What it is given counts in its share.
    pub fn look(&mut self, seat: u32, key: &V::Key, share: &mut Share<N>) -> Mem<Look<V>>
        requires seat { seat < N.seats }
        requires free { claim_at self.old.state seat ≡ Free }
        requires askable { is_askable N.askable (V.mark key.now) ≡ true }
        requires part { 0 < share.old.parts }
        ensures parts { share.new.parts ≡ share.old.parts }
        ensures others { LeavesOtherClaims seat self.old.state self.new.state }
        ensures ok { IfOk result (λ look.
            FitsLook seat (V.mark key.now) (look_value look) (claim_at self.new.state seat)) }
        ensures share { IfOk result
            (λ look. share.new.amount ≡ share.old.amount + leases_told (look_value look)) }
        ensures err { OnErr result ((claim_at self.new.state seat ≡ Free)
            × (share.new.amount ≡ share.old.amount)) }
    {
        let look = self.state.look(seat, key)?;
        let leases = leases_told(&look);
        self.leases.add(share, leases);
        Ok(look)
    }

    /// Whether the entry that an order builds is of the order's key, so that its value may be
    /// published.
    pub fn is_in_order(&self, order: &Order<V>) -> bool
        ensures { IsTrue result → IsInOrder self.now.state order.now }
    {
        self.state.is_in_order(order)
    }

    /// Publishes the value of an order. The seat then holds the entry.
    pub fn publish(&mut self, order: Order<V>, value: Arc<V>, copy: Arc<V>) -> Lease<V>
        requires value { V.mark (V.made_for value.value) ≡ order.mark }
        requires copy { V.mark (V.made_for copy.value) ≡ order.mark }
        requires order { IsInOrder self.old.state order }
        requires builds { claim_at self.old.state order.seat ≡ Builds order.res }
        ensures lease { result ≡ order }
        ensures own { claim_at self.new.state order.seat ≡ Holds order.res }
        ensures others { LeavesOtherClaims order.seat self.old.state self.new.state }
    {
        self.state.publish(order, value, copy)
    }

    /// Withdraws an order: its entry goes, and who waits for it is called.
    pub fn withdraw(&mut self, order: Order<V>)
        requires builds { claim_at self.old.state order.seat ≡ Builds order.res }
        ensures own { claim_at self.new.state order.seat ≡ Free }
        ensures others { LeavesOtherClaims order.seat self.old.state self.new.state }
    {
        self.state.withdraw(order);
    }

    /// Gives a lease back.
    pub fn release(&mut self, lease: Lease<V>)
        requires holds { claim_at self.old.state lease.seat ≡ Holds lease.res }
        ensures own { claim_at self.new.state lease.seat ≡ Free }
        ensures others { LeavesOtherClaims lease.seat self.old.state self.new.state }
    {
        self.state.release(lease);
    }
}
