//! A step of the machine with its entry in the journal, and the room for it.
ghost use Rattle.std.specs.Prelude.{◌≡◌, ◌<◌, ◌≤◌, ◌+◌, ◌-◌, ◌^◌, ◌++◌, ◌∷◌, [], true, map, OnOk, vec_len};
ghost use Rattle.std.specs.Prelude.{vec_capacity, option_map, count_by, None};
ghost use Rattle.cache_core.specs.Steps.{is_legal, after};
ghost use Rattle.link_cache.specs.Kept.{named_with};
ghost use Rattle.cache_core.specs.Replay.{is_lease, is_reserve, is_evict, is_withdraw};

use crate::made::Made;
use crate::slots::Slot;
use cache_core::{CoreState, Step};
use press_fault::{Mem, NoMemory};

/// Room in the journal that a look sees to: what all seats may owe, and its own steps.
const ROOM: usize = 36;

/// A look past this number of steps is refused for want of memory.
const MOST_STEPS: u64 = 1 << 61;

/// Room for one more key, one more value and the steps of a look.
pub fn make_room<V: Made>(
    named: &mut Vec<V::Key>,
    slots: &mut Vec<Slot<V>>,
    journal: &mut Vec<Step>,
    steps: u64,
) -> Mem<()>
    requires { steps ≤ 2 ^ 62 }
    ensures named { named.new.items ≡ named.old.items }
    ensures slots { slots.new.items ≡ slots.old.items }
    ensures journal { journal.new.items ≡ journal.old.items }
    ensures capacity { vec_capacity journal.old ≤ vec_capacity journal.new }
    ensures named_room { OnOk result (vec_len named.new < vec_capacity named.new) }
    ensures slots_room { OnOk result (vec_len slots.new < vec_capacity slots.new) }
    ensures journal_room { OnOk result (vec_len journal.new + 36 ≤ vec_capacity journal.new) }
    ensures few { OnOk result (steps + vec_len journal.new < 2 ^ 61) }
{
    if journal.len() as u64 >= MOST_STEPS || steps + journal.len() as u64 >= MOST_STEPS {
        return Err(NoMemory);
    }
    named.reserve(1)?;
    slots.reserve(1)?;
    journal.reserve(ROOM)?;
    Ok(())
}

/// Does a legal step and notes it.
pub fn note(core: &mut CoreState, journal: &mut Vec<Step>, step: Step)
    requires legal { is_legal core.old step ≡ true }
    requires next { core.old.next_res < 2 ^ 64 - 1 }
    requires room { vec_len journal.old < vec_capacity journal.old }
    ensures core { core.new ≡ after core.old step }
    ensures journal { journal.new.items ≡ journal.old.items ++ step ∷ [] }
    ensures capacity { vec_capacity journal.old ≤ vec_capacity journal.new }
    ensures len { vec_len journal.new ≡ vec_len journal.old + 1 }
{
    core.apply(step);
    match journal.push(step) {
        Ok(()) => {}
        Err(_) => unreachable!(),
    }
}

/// Names a key, if there is one to name.
pub fn name<V: Made>(named: &mut Vec<V::Key>, name: Option<V::Key>)
    requires { vec_len named.old < vec_capacity named.old }
    ensures { map V.mark named.new.items ≡ named_with (map V.mark named.old.items) (option_map V.mark name) }
{
    if let Some(key) = name {
        match named.push(key) {
            Ok(()) => {}
            Err(_) => unreachable!(),
        }
    }
}

/// Adds an empty place.
pub fn add_slot<V: Made>(slots: &mut Vec<Slot<V>>, res: u64)
    requires { vec_len slots.old < vec_capacity slots.old }
    ensures { slots.new.items ≡ slots.old.items ++ record { res = res; mark = None } ∷ [] }
{
    match slots.push(Slot { res, value: None }) {
        Ok(()) => {}
        Err(_) => unreachable!(),
    }
}

fn is_lease(step: &Step) -> bool
    ensures { result ≡ is_lease step.now }
{
    match step {
        Step::Hit { .. } => true,
        Step::Reserve { .. } => true,
        _ => false,
    }
}

fn is_reserve(step: &Step) -> bool
    ensures { result ≡ is_reserve step.now }
{
    match step {
        Step::Reserve { .. } => true,
        _ => false,
    }
}

fn is_evict(step: &Step) -> bool
    ensures { result ≡ is_evict step.now }
{
    match step {
        Step::Evict { .. } => true,
        _ => false,
    }
}

fn is_withdraw(step: &Step) -> bool
    ensures { result ≡ is_withdraw step.now }
{
    match step {
        Step::Withdraw { .. } => true,
        _ => false,
    }
}

pub fn leases(journal: &[Step]) -> usize
    ensures { result ≡ count_by is_lease journal.now }
{
    journal.iter().filter(|step| is_lease(step)).count()
}

pub fn reservations(journal: &[Step]) -> usize
    ensures { result ≡ count_by is_reserve journal.now }
{
    journal.iter().filter(|step| is_reserve(step)).count()
}

pub fn evictions(journal: &[Step]) -> usize
    ensures { result ≡ count_by is_evict journal.now }
{
    journal.iter().filter(|step| is_evict(step)).count()
}

pub fn withdrawals(journal: &[Step]) -> usize
    ensures { result ≡ count_by is_withdraw journal.now }
{
    journal.iter().filter(|step| is_withdraw(step)).count()
}
