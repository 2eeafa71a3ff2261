//! The state of the machine.
ghost use Rattle.std.specs.Prelude.{◌≡◌, ◌<◌, ◌≤◌, ◌+◌, ◌^◌, ◌-◌, [], length, true, IfOk, map, replicate, vec_len};
ghost use Rattle.std.specs.Prelude.{vec_capacity};
ghost use Rattle.std.specs.List.{list_all};
ghost use Rattle.cache_core.specs.Lookup.{phase_of, entry_of};
ghost use Rattle.cache_core.specs.Steps.{is_legal, after, asked, is_free_seat, is_full, settled, is_quiet, idle};
ghost use Rattle.cache_core.specs.Steps.{empty_core, entries_after, phases_after, next_after, grows_by, IsAsking};
ghost use Rattle.cache_core.specs.Sound.{IsSound};
ghost use Rattle.cache_core.specs.declared.step.Phase.TheVariants.{Idle};

use crate::changing;
use crate::step::{Entry, Phase, Step};
use press_fault::Mem;
use std::alloc::Global;
use std::marker::Model;

/// The most entries that a cache may hold.
pub const MAX_CAPACITY: u32 = 64;

/// The most seats.
pub const MAX_SEATS: u32 = 16;

/// A state of the machine. Every state is sound. No call but `new` takes memory.
#[derive(Drop)]
pub struct CoreState {
    entries: Vec<Entry>,
    phases: Vec<Phase>,
    capacity: u32,
    next_res: u64,
}

impl Model for CoreState {
    ghost use Rattle.std.specs.Prelude.{◌≤◌, vec_capacity, vec_len};
    ghost use Rattle.cache_core.specs.CoreState.{CoreStateValue};
    ghost use Rattle.cache_core.specs.Sound.{IsSound};

    ghost Value = { CoreStateValue };

    ghost view = { λ s. record {
      capacity = s.capacity;
      entries = s.entries.items;
      phases = s.phases.items;
      next_res =
          s.next_res;
    } };

    ghost invariant = { λ s. (s.capacity ≤ vec_capacity s.entries) × (s.capacity ≤ 64) × (vec_len s.phases ≤ 16)
        × IsSound (record {
          capacity = s.capacity;
          entries = s.entries.items;
          phases = s.phases.items;
          next_res = s.next_res;
        }) };
}

impl CoreState {
    /// No entries, and every seat idle.
    pub fn new(alloc: Global, capacity: u32, seats: u32) -> Mem<CoreState>
        requires capacity { capacity ≤ 64 }
        requires seats { seats ≤ 16 }
        ensures { IfOk result (λ core. core ≡ empty_core capacity seats) }
    {
        let entries = Vec::with_capacity(alloc, capacity as usize)?;
        let mut phases = Vec::new(alloc);
        phases.resize(seats as usize, Phase::Idle)?;
        Ok(CoreState {
            entries,
            phases,
            capacity,
            next_res: 0,
        })
    }

    /// The entries, the least recently used first.
    pub fn entries(&self) -> &[Entry]
        ensures value { result.now ≡ self.now.entries }
        ensures sound { IsSound self.now }
        ensures few { length self.now.entries ≤ 64 }
        ensures seats { length self.now.phases ≤ 16 }
    {
        &self.entries
    }

    /// The entry of a residency, if there is one.
    pub fn entry(&self, res: u64) -> Option<Entry>
        ensures { result ≡ entry_of self.now.entries res }
    {
        changing::entry_of(&self.entries, res).copied()
    }

    /// What a seat is doing; what is no seat is idle.
    pub fn phase(&self, seat: u32) -> Phase
        ensures { result ≡ phase_of self.now.phases seat }
    {
        changing::phase_at(&self.phases, seat as usize)
    }

    /// How many entries there may be.
    pub fn capacity(&self) -> u32
        ensures { result ≡ self.now.capacity }
    {
        self.capacity
    }

    /// How many seats there are.
    pub fn seats(&self) -> u32
        ensures { result ≡ length self.now.phases }
    {
        self.phases.len() as u32
    }

    /// The residency of the next entry.
    pub fn next_res(&self) -> u64
        ensures { result ≡ self.now.next_res }
    {
        self.next_res
    }

    /// Whether there is such a seat, and it neither builds nor holds.
    pub fn is_free(&self, seat: u32) -> bool
        ensures { result ≡ is_free_seat self.now.phases seat }
    {
        changing::is_free_seat(&self.phases, seat as usize)
    }

    /// Whether no seat builds or holds.
    pub fn quiet(&self) -> bool
        ensures { result ≡ is_quiet self.now }
    {
        changing::are_all_free(&self.phases)
    }

    /// Whether a step is legal. It may be asked of any step.
    #[tactic(auto, unfolding(crate::specs::Steps::is_legal))]
    pub fn legal(&self, step: &Step) -> bool
        ensures { result ≡ is_legal self.now step.now }
    {
        match *step {
            Step::Hit { seat, key, res } => {
                self.is_free(seat) && changing::is_ready(&self.entries, res, key)
            }
            Step::Evict { seat, key, res } => {
                self.is_free(seat)
                    && (changing::lacks_key(&self.entries, key)
                        && (self.is_full()
                            && changing::is_first_to_go(&self.phases, &self.entries, res)))
            }
            Step::Reserve { seat, key, res } => {
                self.is_free(seat)
                    && (changing::lacks_key(&self.entries, key)
                        && (!self.is_full() && res == self.next_res))
            }
            Step::Publish { seat, res } => self.phase(seat).is_building(res),
            Step::Withdraw { seat, res } => self.phase(seat).is_building(res),
            Step::Release { seat, res } => self.phase(seat).is_holding(res),
            Step::WaitKey { seat, key, res } => {
                self.is_free(seat)
                    && (changing::is_of_key(&self.entries, res, key)
                        && changing::is_built(&self.phases, res))
            }
            Step::WaitRoom { seat, key } => {
                self.is_free(seat)
                    && (changing::lacks_key(&self.entries, key)
                        && (self.is_full() && changing::are_all_used(&self.phases, &self.entries)))
            }
        }
    }

    fn is_full(&self) -> bool
        ensures { result ≡ is_full self.now }
    {
        self.capacity as usize <= self.entries.len()
    }

    /// The one legal step by which a free seat asks for a key.
    #[tactic(auto, unfolding(crate::specs::Steps::asked))]
    pub fn ask(&self, seat: u32, key: u64) -> Step
        ensures { result ≡ asked self.now seat key }
    {
        match changing::entry_of_key(&self.entries, key) {
            Some(entry) => {
                if entry.ready {
                    Step::Hit {
                        seat,
                        key,
                        res: entry.res,
                    }
                } else {
                    Step::WaitKey {
                        seat,
                        key,
                        res: entry.res,
                    }
                }
            }
            None => {
                if self.is_full() {
                    match changing::first_to_go(&self.phases, &self.entries) {
                        Some(entry) => Step::Evict {
                            seat,
                            key,
                            res: entry.res,
                        },
                        None => Step::WaitRoom { seat, key },
                    }
                } else {
                    Step::Reserve {
                        seat,
                        key,
                        res: self.next_res,
                    }
                }
            }
        }
    }

    /// Does a legal step.
    pub fn apply(&mut self, step: Step)
        requires legal { is_legal self.old step ≡ true }
        requires next { self.old.next_res < 2 ^ 64 - 1 }
        ensures { self.new ≡ after self.old step }
    {
        change_entries(&mut self.entries, &step);
        change_all_phases(&mut self.phases, &step);
        self.next_res = next_after(self.next_res, &step);
    }

    /// Makes every seat idle.
    pub fn settle(&mut self)
        requires { is_quiet self.old ≡ true }
        ensures { self.new ≡ settled self.old }
    {
        make_all_idle(&mut self.phases);
    }

    /// Becomes as another state of the same capacity and seats.
    pub fn copy_from(&mut self, other: &CoreState)
        requires capacity { self.old.capacity ≡ other.now.capacity }
        requires seats { length self.old.phases ≡ length other.now.phases }
        ensures { self.new ≡ other.now }
    {
        self.entries.clear();
        match self.entries.extend_from_slice(&other.entries) {
            Ok(()) => {}
            Err(_) => unreachable!(),
        }
        self.phases.copy_from_slice(&other.phases);
        self.next_res = other.next_res;
    }
}

fn next_after(next: u64, step: &Step) -> u64
    requires { next < 2 ^ 64 - 1 }
    ensures { result ≡ next_after next step.now }
{
    match *step {
        Step::Reserve { .. } => next + 1,
        _ => next,
    }
}

fn change_all_phases(phases: &mut Vec<Phase>, step: &Step)
    ensures items { phases.new.items ≡ phases_after phases.old.items step.now }
    ensures len { vec_len phases.new ≡ vec_len phases.old }
{
    change_phases(phases, step);
}

fn make_all_idle(phases: &mut Vec<Phase>)
    ensures items { phases.new.items ≡ map idle phases.old.items }
    ensures len { vec_len phases.new ≡ vec_len phases.old }
{
    changing::make_idle(phases);
}

#[tactic(auto, unfolding(crate::specs::Steps::entries_after))]
fn change_entries(entries: &mut Vec<Entry>, step: &Step)
    requires { vec_len entries.old + grows_by step.now ≤ vec_capacity entries.old }
    ensures items { entries.new.items ≡ entries_after entries.old.items step.now }
    ensures capacity { vec_capacity entries.old ≤ vec_capacity entries.new }
{
    match *step {
        Step::Reserve { key, res, .. } => changing::add(
            entries,
            Entry {
                key,
                res,
                ready: false,
            },
        ),
        Step::Publish { res, .. } => changing::build(entries, res),
        Step::Release { res, .. } => changing::use_last(entries, res),
        Step::Evict { res, .. } => changing::remove(entries, res),
        Step::Withdraw { res, .. } => changing::remove(entries, res),
        _ => {}
    }
}

#[tactic(auto, unfolding(crate::specs::Steps::phases_after))]
fn change_phases(phases: &mut [Phase], step: &Step)
    ensures { phases.new ≡ phases_after phases.old step.now }
{
    match *step {
        Step::Hit { seat, res, .. } => {
            changing::set_phase(phases, seat as usize, Phase::Holding(res))
        }
        Step::Evict { .. } => {}
        Step::Reserve { seat, res, .. } => {
            changing::set_phase(phases, seat as usize, Phase::Building(res))
        }
        Step::Publish { seat, res } => {
            changing::call_by_key(phases, res);
            changing::set_phase(phases, seat as usize, Phase::Holding(res))
        }
        Step::Withdraw { seat, res } => {
            changing::call_by_both(phases, res);
            changing::set_phase(phases, seat as usize, Phase::Idle)
        }
        Step::Release { seat, res } => {
            changing::set_phase(phases, seat as usize, Phase::Idle);
            changing::give_back(phases, res)
        }
        Step::WaitKey { seat, res, .. } => {
            changing::set_phase(phases, seat as usize, Phase::WaitKey(res))
        }
        Step::WaitRoom { seat, .. } => {
            changing::set_phase(phases, seat as usize, Phase::WaitRoom)
        }
    }
}
