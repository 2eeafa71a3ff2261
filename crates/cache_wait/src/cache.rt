//! The shared cache: leases taken and given back, each in a turn of the lock.
ghost use Rattle.std.specs.Prelude.{◌≡◌, ◌≢◌, ◌<◌, ◌≤◌, ◌+◌, ℕ, true, length, vec_len, is_some};
ghost use Rattle.std.specs.Prelude.{OnErr, IfOk, IfErr};
ghost use Rattle.std.specs.List.{list_all};
ghost use Rattle.cache_core.specs.Steps.{is_quiet};
ghost use Rattle.link_cache.specs.CacheState.{counts_of};
ghost use Rattle.link_cache.specs.Look.{look_value, Waits};
ghost use Rattle.turnstile.specs.declared.claim.Claim.TheVariants.{Free, Builds, Holds};
ghost use Rattle.turnstile.specs.Tokens.{id_of, lock_of, chair_lock, out_of, IsAway};
ghost use Rattle.cache_wait.specs.Claims.{FitsLook};
ghost use Rattle.cache_wait.specs.Keys.{is_askable, are_askable};
ghost use Rattle.cache_wait.specs.Seats.{total_of};

use crate::locked::Locked;
use crate::name::CacheName;
use crate::seats::{Seat, Seats, give_out, take_home};
use link_cache::{CacheState, Lease, Look, Made, Maker, Order};
use press_fault::{Mem, NoMemory};
use std::alloc::Global;
use std::sync::ledger::{Blank, Share};
use std::sync::{Arc, Wait};
use turnstile::{Pass, Turnstile};

/// A cache that several threads share, each by a seat of its own.
#[derive(Drop)]
pub struct SharedCache<V: Made, N: CacheName> {
    pub(crate) lock: Turnstile<Locked<V, N>>,
    ghost seated: { lock.seats ≡ N.seats },
}

impl<V: Made, N: CacheName> SharedCache<V, N> {
    /// Shares a quiet cache among so many of its seats. The lock is made for all of its seats, and
    /// those that aren't given out claim nothing.
    ///
    /// Out of memory hands the cache back; no other cause does.
    #[tactic(auto, using(crate::proofs::Places::quiet_free))]
    pub fn open(
        alloc: Global,
        state: CacheState<V>,
        seats: u32,
        blank: Blank,
    ) -> Result<(SharedCache<V, N>, Seats<V, N>), CacheState<V>>
        requires quiet { is_quiet state.core ≡ true }
        requires seats { (0 < seats) × (seats ≤ length state.core.phases) }
        requires size { (state.core.capacity ≡ N.capacity) × (length state.core.phases ≡ N.seats) }
        requires keys { are_askable N.askable state.named ≡ true }
        requires blank { (blank.name ≡ N.name) × (blank.parts ≡ N.parts)
            × (blank.parts ≡ seats + 1) }
        ensures lock { IfOk result (λ made. chair_lock made.1.chair ≡ id_of made.0.lock) }
        ensures share { IfOk result (λ made. (made.1.share.parts ≡ 1)
            × (made.1.share.amount ≡ (counts_of state).leases)) }
        ensures seats { IfOk result (λ made. (vec_len made.1.slots ≡ seats)
            × (list_all is_some made.1.slots.items ≡ true)) }
        ensures total { IfOk result
            (λ made. total_of (λ s. s.share.amount) made.1.slots.items ≡ 0) }
        ensures err { IfErr result (λ back. back ≡ state) }
    {
        let Ok(mut slots) = Vec::with_capacity(alloc, seats as usize) else {
            return Err(state);
        };
        let all = state.core().seats();
        let before = state.counts().leases;
        let (mut leases, mut share) = blank.open::<N>();
        leases.add(&mut share, before);
        match Turnstile::new(alloc, Locked { state, leases }, all) {
            Err(Locked { state, leases: _ }) => Err(state),
            Ok((lock, mut chair)) => {
                give_out(&lock, &mut chair, &mut slots, &mut share, seats);
                let given = Seats {
                    chair,
                    slots,
                    share,
                };
                Ok((SharedCache { lock }, given))
            }
        }
    }

    /// Lends a seat the value of a key: it is looked for, and made where it isn't there. While
    /// another seat makes it, or there is no place, the call waits. The value is made without the
    /// lock, so that two seats make theirs at the same time.
    ///
    /// Out of memory leaves the seat free, and where the value couldn't be made its entry is gone.
    pub fn acquire<R: Wait, M: Maker<V>>(
        &self,
        rt: &R,
        alloc: Global,
        seat: &mut Seat<V, N>,
        key: &V::Key,
        maker: &M,
    ) -> Mem<Lease<V>>
        requires cache { lock_of seat.old.pass ≡ id_of self.now.lock }
        requires free { seat.old.pass.claim ≡ Free }
        requires askable { is_askable N.askable (V.mark key.now) ≡ true }
        ensures cache { (lock_of seat.new.pass ≡ lock_of seat.old.pass)
            × (seat.new.pass.number ≡ seat.old.pass.number) }
        ensures key { IfOk result (λ lease. lease.mark ≡ V.mark key.now) }
        ensures seat { IfOk result (λ lease. (lease.seat ≡ seat.old.pass.number)
            × (seat.new.pass.claim ≡ Holds lease.res)) }
        ensures share { IfOk result (λ _. seat.new.share.amount ≡ seat.old.share.amount + 1) }
        ensures err { OnErr result (seat.new.pass.claim ≡ Free) }
        ensures few { (seat.old.share.amount ≤ seat.new.share.amount)
            × (seat.new.share.amount ≤ seat.old.share.amount + 1) }
    {
        let Seat {
            pass,
            share,
            leases,
        } = seat;
        let look = self.look(rt, pass, share, key)?;
        *leases = leases.saturating_add(1);
        match look {
            Look::Have(lease) => Ok(lease),
            Look::Build(order) => self.build(rt, alloc, pass, order, maker),
            Look::Wait => unreachable!(),
        }
    }

    /// Gives a lease back, in one turn.
    pub fn release<R: Wait>(&self, rt: &R, seat: &mut Seat<V, N>, lease: Lease<V>)
        requires cache { lock_of seat.old.pass ≡ id_of self.now.lock }
        requires lease { (lease.seat ≡ seat.old.pass.number)
            × (seat.old.pass.claim ≡ Holds lease.res) }
        ensures cache { (lock_of seat.new.pass ≡ lock_of seat.old.pass)
            × (seat.new.pass.number ≡ seat.old.pass.number) }
        ensures free { seat.new.pass.claim ≡ Free }
        ensures share { seat.new.share.amount ≡ seat.old.share.amount }
    {
        let Seat {
            pass,
            share: _,
            leases: _,
        } = seat;
        let mut locked = self.lock.take_turn(rt, pass);
        locked.release(lease);
        self.lock.leave_turn(pass, locked);
    }

    /// Ends the sharing, once every seat is back. The cache is quiet, and its leases are those
    /// before the sharing and those of all seats.
    #[tactic(auto, using(crate::proofs::Places::all_free))]
    pub fn shut(self, seats: Seats<V, N>) -> CacheState<V>
        requires lock { chair_lock seats.chair ≡ id_of self.lock }
        requires back { list_all is_some seats.slots.items ≡ true }
        requires parts { seats.share.parts + vec_len seats.slots ≡ N.parts }
        ensures quiet { is_quiet result.core ≡ true }
        ensures size { (result.core.capacity ≡ N.capacity) × (length result.core.phases ≡ N.seats) }
        ensures keys { are_askable N.askable result.named ≡ true }
        ensures leases { (counts_of result).leases
            ≡ seats.share.amount + total_of (λ s. s.share.amount) seats.slots.items }
    {
        let Seats {
            mut chair,
            mut slots,
            mut share,
        } = seats;
        let SharedCache { lock } = self;
        take_home(&lock, &mut chair, &mut slots, &mut share);
        let Locked { state, mut leases } = lock.close(chair);
        leases.audit(&mut share);
        state
    }

    /// Looks for a key until the answer isn't to wait, resting between two looks.
    fn look<R: Wait>(
        &self,
        rt: &R,
        pass: &mut Pass<Locked<V, N>>,
        share: &mut Share<N>,
        key: &V::Key,
    ) -> Mem<Look<V>>
        requires lock { (lock_of pass.old ≡ id_of self.now.lock) × IsAway pass.old }
        requires free { pass.old.claim ≡ Free }
        requires askable { is_askable N.askable (V.mark key.now) ≡ true }
        requires part { share.old.parts ≡ 1 }
        ensures lock { (lock_of pass.new ≡ lock_of pass.old) × IsAway pass.new
            × (pass.new.number ≡ pass.old.number) }
        ensures ok { IfOk result
            (λ look. FitsLook pass.old.number (V.mark key.now) (look_value look) pass.new.claim) }
        ensures served { IfOk result (λ look. look_value look ≢ Waits) }
        ensures share { IfOk result (λ _. share.new.amount ≡ share.old.amount + 1) }
        ensures err { OnErr result ((pass.new.claim ≡ Free)
            × (share.new.amount ≡ share.old.amount)) }
        ensures part { share.new.parts ≡ 1 }
    {
        let seat = pass.number();
        let mut locked = self.lock.take_turn(rt, pass);
        for _ in rt.forever() {
            let look = match locked.look(seat, key, share) {
                Ok(look) => look,
                Err(NoMemory) => {
                    self.lock.leave_turn(pass, locked);
                    return Err(NoMemory);
                }
            };
            match look {
                Look::Wait => locked = self.lock.rest(rt, pass, locked),
                Look::Have(lease) => {
                    self.lock.leave_turn(pass, locked);
                    return Ok(Look::Have(lease));
                }
                Look::Build(order) => {
                    self.lock.leave_turn(pass, locked);
                    return Ok(Look::Build(order));
                }
            }
        }
        unreachable!()
    }

    /// Makes the value of an order without the lock, and publishes it in a turn. Where it can't be
    /// made, or the entry isn't the order's any more, the order is withdrawn.
    fn build<R: Wait, M: Maker<V>>(
        &self,
        rt: &R,
        alloc: Global,
        pass: &mut Pass<Locked<V, N>>,
        order: Order<V>,
        maker: &M,
    ) -> Mem<Lease<V>>
        requires lock { (lock_of pass.old ≡ id_of self.now.lock) × IsAway pass.old }
        requires builds { (order.seat ≡ pass.old.number) × (pass.old.claim ≡ Builds order.res) }
        ensures lock { (lock_of pass.new ≡ lock_of pass.old) × IsAway pass.new
            × (pass.new.number ≡ pass.old.number) }
        ensures ok { IfOk result (λ lease. (lease ≡ order) × (pass.new.claim ≡ Holds order.res)) }
        ensures err { OnErr result (pass.new.claim ≡ Free) }
    {
        let made = make(alloc, maker, &order);
        let mut locked = self.lock.take_turn(rt, pass);
        if let Ok((value, copy)) = made {
            if locked.is_in_order(&order) {
                let lease = locked.publish(order, value, copy);
                self.lock.leave_turn(pass, locked);
                return Ok(lease);
            }
        }
        locked.withdraw(order);
        self.lock.leave_turn(pass, locked);
        Err(NoMemory)
    }
}

/// The value of an order, and another pointer to it.
fn make<V: Made, M: Maker<V>>(alloc: Global, maker: &M, order: &Order<V>) -> Mem<(Arc<V>, Arc<V>)>
    ensures value { IfOk result (λ made. V.mark (V.made_for made.0.value) ≡ order.now.mark) }
    ensures copy { IfOk result (λ made. V.mark (V.made_for made.1.value) ≡ order.now.mark) }
{
    let value = Arc::new(alloc, maker.make(alloc, order)?)?;
    let copy = Arc::try_clone(&value)?;
    Ok((value, copy))
}
