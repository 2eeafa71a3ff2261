//! The cache.
ghost use Rattle.std.specs.Prelude.{◌≡◌, ◌≢◌, ◌<◌, ◌≤◌, ◌+◌, ◌^◌, ◌++◌, ◌∷◌, [], ℕ, ◌↔◌, IsTrue, true, map, length};
ghost use Rattle.std.specs.Prelude.{slice_get, IfOk, OnOk, OnErr, replicate, vec_len, vec_capacity, option_map, Some};
ghost use Rattle.cache_core.specs.CoreState.{CoreStateValue};
ghost use Rattle.cache_core.specs.Steps.{is_legal, after, asked, is_free_seat, is_quiet, settled, IsAsking};
ghost use Rattle.cache_core.specs.Sound.{IsSound};
ghost use Rattle.cache_core.specs.Lookup.{entry_of, phase_of};
ghost use Rattle.cache_core.specs.declared.step.Phase.TheVariants.{Idle, Holding};
ghost use Rattle.cache_core.specs.declared.step.Step.TheVariants.{Hit, Evict, Reserve, Publish, Withdraw, Release};
ghost use Rattle.link_cache.specs.CacheState.{IsNaming, cleared, did, did_if, Looked, counts_of, settled_cache, asking};
ghost use Rattle.link_cache.specs.CacheState.{told_by, empty_cache};
ghost use Rattle.link_cache.specs.Counting.{all_owed};
ghost use Rattle.link_cache.specs.Kept.{AreUnlike, IsRun, named_with, IsPlain, IsNew};
ghost use Rattle.link_cache.specs.Look.{look_value};
ghost use Rattle.link_cache.specs.Orders.{IsInOrder};
ghost use Rattle.link_cache.specs.Claims.{claim_of, claim_if, LeavesOthers, ClaimsTold};

use crate::counts::{Counts, Past};
use crate::leases::{Lease, Look, Order};
use crate::made::Made;
use crate::noting;
use crate::slots::{self, Slot};
use cache_core::{CoreState, Phase, Step};
use press_fault::Mem;
use std::alloc::Global;
use std::marker::Model;
use std::sync::Arc;

/// Values by keys, the machine that says which are kept, and the journal of its steps.
#[derive(Drop)]
pub struct CacheState<V: Made> {
    alloc: Global,
    named: Vec<V::Key>,
    slots: Vec<Slot<V>>,
    opening: CoreState,
    core: CoreState,
    journal: Vec<Step>,
    past: Past,
}

impl<V: Made> Model for CacheState<V> {
    ghost use Rattle.std.specs.Prelude.{map, ◌≤◌, ◌+◌, vec_capacity, vec_len};
    ghost use Rattle.link_cache.specs.CacheState.{CacheStateValue};

    ghost Value = { CacheStateValue };

    ghost use Rattle.link_cache.specs.Kept.{IsKept};
    ghost use Rattle.link_cache.specs.Counting.{all_owed};

    ghost view = { λ s. record {
      named = map V.mark s.named.items;
      opening = s.opening;
      core = s.core;
      journal =
          s.journal.items;
      past = s.past;
    } };

    ghost invariant = { λ s. (vec_len s.journal + all_owed s.core.phases ≤ vec_capacity s.journal)
        × IsKept (map V.mark s.named.items) s.slots.items s.opening s.core s.journal.items s.past };
}

impl<V: Made> CacheState<V> {
    /// An empty cache.
    pub fn new(alloc: Global, capacity: u32, seats: u32) -> Mem<CacheState<V>>
        requires capacity { capacity ≤ 64 }
        requires seats { seats ≤ 16 }
        ensures { IfOk result (λ state. state ≡ empty_cache capacity seats) }
    {
        let opening = CoreState::new(alloc, capacity, seats)?;
        let core = CoreState::new(alloc, capacity, seats)?;
        Ok(CacheState {
            alloc,
            named: Vec::new(alloc),
            slots: Vec::new(alloc),
            opening,
            core,
            journal: Vec::new(alloc),
            past: Past {
                steps: 0,
                leases: 0,
                built: 0,
                evicted: 0,
            },
        })
    }

    /// The keys in the order in which a look first made a step for them. No two are the same.
    pub fn named(&self) -> &[V::Key]
        ensures value { map V.mark result.now ≡ self.now.named }
        ensures unlike { AreUnlike self.now.named }
        ensures many { 0 < (counts_of self.now).evicted → self.now.core.capacity < length self.now.named }
    {
        &self.named
    }

    /// The steps since the opening.
    pub fn journal(&self) -> &[Step]
        ensures value { result.now ≡ self.now.journal }
        ensures run { IsRun self.now.opening self.now.core self.now.journal self.now.past }
    {
        &self.journal
    }

    /// The machine before the steps of the journal.
    pub fn opening(&self) -> &CoreState
        ensures value { result.now ≡ self.now.opening }
        ensures sound { IsSound self.now.opening }
    {
        // Its own reader says that it is sound.
        let _ = self.opening.entries();
        &self.opening
    }

    /// The machine.
    pub fn core(&self) -> &CoreState
        ensures value { result.now ≡ self.now.core }
        ensures sound { IsSound self.now.core }
    {
        &self.core
    }

    /// Whether no seat builds or holds.
    pub fn quiet(&self) -> bool
        ensures { result ≡ is_quiet self.now.core }
    {
        self.core.quiet()
    }

    /// What was done since the cache was made.
    pub fn counts(&self) -> Counts
        ensures value { result ≡ counts_of self.now }
        ensures balance { result.built ≡ result.evicted + result.resident }
    {
        let journal = self.journal.as_slice();
        Counts {
            leases: self.past.leases + noting::leases(journal) as u64,
            built: self.past.built + noting::reservations(journal) as u64
                - noting::withdrawals(journal) as u64,
            evicted: self.past.evicted + noting::evictions(journal) as u64,
            resident: self.core.entries().len() as u64,
            keys: self.named.len() as u64,
        }
    }

    /// Counts the journal and empties it, and makes every seat idle.
    pub fn settle(&mut self)
        requires { is_quiet self.old.core ≡ true }
        ensures value { self.new ≡ settled_cache self.old }
        ensures counts { counts_of self.new ≡ counts_of self.old }
    {
        let counts = self.counts();
        self.past = Past {
            steps: self.past.steps + self.journal.len() as u64,
            leases: counts.leases,
            built: counts.built,
            evicted: counts.evicted,
        };
        self.journal.clear();
        self.core.settle();
        self.opening.copy_from(&self.core);
    }

    /// Looks for a key. A seat that neither builds nor holds is given a lease, or an order to make the
    /// value, or has to wait. Where there is no memory, or 2^61 steps were made, nothing changes.
    pub fn look(&mut self, seat: u32, key: &V::Key) -> Mem<Look<V>>
        requires { is_free_seat self.old.core.phases seat ≡ true }
        ensures ok { IfOk result (λ look. (place : ℕ) ×
            Looked seat (V.mark key.now) self.old (look_value look) self.new place) }
        ensures err { OnErr result (self.new ≡ self.old) }
        ensures own { IfOk result (λ look. ClaimsTold (look_value look) (claim_of self.new seat)) }
        ensures others { LeavesOthers seat self.old self.new }
    {
        self.look_for(seat, key)
    }

    /// Looks for a key, by the step that is legal.
    fn look_for(&mut self, seat: u32, key: &V::Key) -> Mem<Look<V>>
        requires { is_free_seat self.old.core.phases seat ≡ true }
        ensures ok { IfOk result (λ look. (place : ℕ) ×
            Looked seat (V.mark key.now) self.old (look_value look) self.new place) }
        ensures err { OnErr result (self.new ≡ self.old) }
    {
        let (place, name) = self.naming(key)?;
        let step = self.ask(seat, place as u64);
        match step {
            Step::Hit {
                seat: asker,
                key: number,
                res,
            } => {
                let value = self.value_of(asker, number, res)?;
                self.take_step(step, name)?;
                Ok(Look::Have(Lease { seat, res, value }))
            }
            Step::Reserve {
                seat: asker,
                key: number,
                res,
            } => {
                let key = V::copy_key(self.alloc, key)?;
                self.reserve(asker, number, res, name)?;
                Ok(Look::Build(Order { seat, res, key }))
            }
            Step::Evict {
                seat: asker,
                key: number,
                res: gone,
            } => {
                let key = V::copy_key(self.alloc, key)?;
                let res = self.replace(asker, number, gone, name)?;
                Ok(Look::Build(Order { seat, res, key }))
            }
            Step::WaitKey { .. } => {
                self.take_step(step, name)?;
                Ok(Look::Wait)
            }
            Step::WaitRoom { .. } => {
                self.take_step(step, name)?;
                Ok(Look::Wait)
            }
            _ => unreachable!(),
        }
    }

    /// The place of a key in the list of keys, and the name to give to it where it isn't there yet.
    fn naming(&self, key: &V::Key) -> Mem<(usize, Option<V::Key>)>
        ensures { IfOk result (λ found. IsNaming self.now.named (V.mark key.now) found.0 (option_map V.mark found.1)) }
    {
        let place = slots::place_of_key::<V>(&self.named, key);
        if place < self.named.len() {
            Ok((place, None))
        } else {
            let name = V::copy_key(self.alloc, key)?;
            Ok((place, Some(name)))
        }
    }

    /// The step by which a free seat asks for a key.
    fn ask(&self, seat: u32, place: u64) -> Step
        requires { is_free_seat self.now.core.phases seat ≡ true }
        ensures value { result ≡ asked self.now.core seat place }
        ensures legal { is_legal self.now.core result ≡ true }
        ensures asks { IsAsking seat place result }
    {
        self.core.ask(seat, place)
    }

    /// Another pointer to the value of a hit.
    fn value_of(&self, seat: u32, place: u64, res: u64) -> Mem<Arc<V>>
        requires { is_legal self.now.core (Hit seat place res) ≡ true }
        ensures { IfOk result (λ value. slice_get self.now.named place ≡ Some (V.mark (V.made_for value.value))) }
    {
        slots::value_of(&self.slots, res)
    }

    /// Does a step that leaves the entries as they are.
    fn take_step(&mut self, step: Step, name: Option<V::Key>) -> Mem<()>
        requires legal { is_legal self.old.core step ≡ true }
        requires plain { IsPlain step }
        requires new { IsNew self.old.named (option_map V.mark name) }
        ensures ok { OnOk result (self.new ≡ did self.old (named_with self.old.named (option_map V.mark name))
            (step ∷ [])) }
        ensures err { OnErr result (self.new ≡ self.old) }
    {
        noting::make_room::<V>(
            &mut self.named,
            &mut self.slots,
            &mut self.journal,
            self.past.steps,
        )?;
        noting::name::<V>(&mut self.named, name);
        noting::note(&mut self.core, &mut self.journal, step);
        Ok(())
    }

    /// Reserves a place for a key.
    fn reserve(&mut self, seat: u32, place: u64, res: u64, name: Option<V::Key>) -> Mem<()>
        requires legal { is_legal self.old.core (Reserve seat place res) ≡ true }
        requires new { IsNew self.old.named (option_map V.mark name) }
        requires within { place < length (named_with self.old.named (option_map V.mark name)) }
        ensures ok { OnOk result (self.new ≡ did self.old (named_with self.old.named (option_map V.mark name))
            (Reserve seat place res ∷ [])) }
        ensures err { OnErr result (self.new ≡ self.old) }
    {
        noting::make_room::<V>(
            &mut self.named,
            &mut self.slots,
            &mut self.journal,
            self.past.steps,
        )?;
        noting::name::<V>(&mut self.named, name);
        noting::note(
            &mut self.core,
            &mut self.journal,
            Step::Reserve {
                seat,
                key: place,
                res,
            },
        );
        noting::add_slot(&mut self.slots, res);
        Ok(())
    }

    /// Evicts an entry for a key and reserves a place for it, and answers the new residency.
    fn replace(&mut self, seat: u32, place: u64, gone: u64, name: Option<V::Key>) -> Mem<u64>
        requires legal { is_legal self.old.core (Evict seat place gone) ≡ true }
        requires new { IsNew self.old.named (option_map V.mark name) }
        requires within { place < length (named_with self.old.named (option_map V.mark name)) }
        ensures value { IfOk result (λ res. res ≡ self.old.core.next_res) }
        ensures ok { OnOk result (self.new ≡ did self.old (named_with self.old.named (option_map V.mark name))
            (Evict seat place gone ∷ Reserve seat place self.old.core.next_res ∷ [])) }
        ensures err { OnErr result (self.new ≡ self.old) }
    {
        noting::make_room::<V>(
            &mut self.named,
            &mut self.slots,
            &mut self.journal,
            self.past.steps,
        )?;
        let res = self.core.next_res();
        noting::name::<V>(&mut self.named, name);
        noting::note(
            &mut self.core,
            &mut self.journal,
            Step::Evict {
                seat,
                key: place,
                res: gone,
            },
        );
        slots::remove(&mut self.slots, gone);
        noting::note(
            &mut self.core,
            &mut self.journal,
            Step::Reserve {
                seat,
                key: place,
                res,
            },
        );
        noting::add_slot(&mut self.slots, res);
        Ok(res)
    }

    /// Whether the entry that an order's seat builds is of the order's key, as `publish` asks. The
    /// order of a look is in order until it is handed back.
    pub fn is_in_order(&self, order: &Order<V>) -> bool
        ensures { IsTrue result ↔ IsInOrder self.now order.now }
    {
        if !self.core.phase(order.seat).is_building(order.res) {
            return true;
        }
        match self.core.entry(order.res) {
            Some(entry) => self.is_named(entry.key, &order.key),
            None => true,
        }
    }

    /// Whether a key is the one of a number.
    fn is_named(&self, number: u64, key: &V::Key) -> bool
        ensures { IsTrue result ↔ (slice_get self.now.named number ≡ Some (V.mark key.now)) }
    {
        match self.named.get(number as usize) {
            Some(name) => V::same(name, key),
            None => false,
        }
    }

    /// Hands in the value of an order. Where the cache lists the order's seat as building its entry,
    /// the entry keeps `value`; else nothing changes. The lease has `copy`, which the caller made
    /// before, since making it can be refused.
    pub fn publish(&mut self, order: Order<V>, value: Arc<V>, copy: Arc<V>) -> Lease<V>
        requires value { V.mark (V.made_for value.value) ≡ order.mark }
        requires copy { V.mark (V.made_for copy.value) ≡ order.mark }
        requires order { IsInOrder self.old order }
        ensures lease { result ≡ order }
        ensures step { self.new ≡ did_if (is_legal self.old.core (Publish order.seat order.res)) self.old
            (Publish order.seat order.res) }
        ensures own { claim_of self.new order.seat
            ≡ claim_if (is_legal self.old.core (Publish order.seat order.res)) (Holding order.res)
            (claim_of self.old order.seat) }
        ensures others { LeavesOthers order.seat self.old self.new }
    {
        self.hand_in(order, value, copy)
    }

    /// Hands in the value of an order.
    fn hand_in(&mut self, order: Order<V>, value: Arc<V>, copy: Arc<V>) -> Lease<V>
        requires value { V.mark (V.made_for value.value) ≡ order.mark }
        requires copy { V.mark (V.made_for copy.value) ≡ order.mark }
        requires order { IsInOrder self.old order }
        ensures lease { result ≡ order }
        ensures step { self.new ≡ did_if (is_legal self.old.core (Publish order.seat order.res)) self.old
            (Publish order.seat order.res) }
    {
        let Order { seat, res, key: _ } = order;
        let step = Step::Publish { seat, res };
        if self.core.legal(&step) {
            noting::note(&mut self.core, &mut self.journal, step);
            slots::fill(&mut self.slots, res, value);
        }
        Lease {
            seat,
            res,
            value: copy,
        }
    }

    /// Hands an order back without a value. Where the cache lists the order's seat as building its
    /// entry, the entry goes; else nothing changes.
    pub fn withdraw(&mut self, order: Order<V>)
        ensures step { self.new ≡ did_if (is_legal self.old.core (Withdraw order.seat order.res)) self.old
            (Withdraw order.seat order.res) }
        ensures own { claim_of self.new order.seat
            ≡ claim_if (is_legal self.old.core (Withdraw order.seat order.res)) Idle (claim_of self.old order.seat) }
        ensures others { LeavesOthers order.seat self.old self.new }
    {
        let Order { seat, res, key: _ } = order;
        self.give_up(seat, res);
    }

    /// Gives a lease back. Where the cache doesn't list its seat as holding it, nothing changes.
    pub fn release(&mut self, lease: Lease<V>)
        ensures step { self.new ≡ did_if (is_legal self.old.core (Release lease.seat lease.res)) self.old
            (Release lease.seat lease.res) }
        ensures own { claim_of self.new lease.seat
            ≡ claim_if (is_legal self.old.core (Release lease.seat lease.res)) Idle (claim_of self.old lease.seat) }
        ensures others { LeavesOthers lease.seat self.old self.new }
    {
        let Lease {
            seat,
            res,
            value: _,
        } = lease;
        self.give_back(seat, res);
    }

    /// Gives back or withdraws what a seat holds or builds.
    pub fn clear(&mut self, seat: u32)
        ensures step { self.new ≡ cleared self.old seat (phase_of self.old.core.phases seat) }
        ensures own { claim_of self.new seat ≡ Idle }
        ensures others { LeavesOthers seat self.old self.new }
    {
        self.end_claim(seat)
    }

    /// Gives back or withdraws what a seat holds or builds.
    fn end_claim(&mut self, seat: u32)
        ensures { self.new ≡ cleared self.old seat (phase_of self.old.core.phases seat) }
    {
        match self.core.phase(seat) {
            Phase::Building(res) => self.give_up(seat, res),
            Phase::Holding(res) => self.give_back(seat, res),
            _ => {}
        }
    }

    /// Withdraws what a seat builds, if it builds it.
    fn give_up(&mut self, seat: u32, res: u64)
        ensures { self.new ≡ did_if (is_legal self.old.core (Withdraw seat res)) self.old (Withdraw seat res) }
    {
        let step = Step::Withdraw { seat, res };
        if self.core.legal(&step) {
            noting::note(&mut self.core, &mut self.journal, step);
            slots::remove(&mut self.slots, res);
        }
    }

    /// Gives back what a seat holds, if it holds it.
    fn give_back(&mut self, seat: u32, res: u64)
        ensures { self.new ≡ did_if (is_legal self.old.core (Release seat res)) self.old (Release seat res) }
    {
        let step = Step::Release { seat, res };
        if self.core.legal(&step) {
            noting::note(&mut self.core, &mut self.journal, step);
        }
    }
}
