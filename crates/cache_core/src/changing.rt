//! What a step reads and changes in the lists of entries and phases.
ghost use Rattle.std.specs.Prelude.{◌≡◌, ◌<◌, ◌≤◌, ◌+◌, ◌&&◌, ◌==◌, not, [], ◌∷◌, ◌++◌, false, true, map, filter, find};
ghost use Rattle.std.specs.Prelude.{length, slice_index_or, slice_set, vec_len, vec_capacity};
ghost use Rattle.std.specs.List.{list_any, list_all};
ghost use Rattle.std.specs.Option.{option_copied};
ghost use Rattle.cache_core.specs.Lookup.{phase_of, is_building, is_holding, is_using, is_free, has_res, has_key};
ghost use Rattle.cache_core.specs.Lookup.{entry_of, passes, lacks_key, may_go, is_used};
ghost use Rattle.cache_core.specs.Steps.{is_free_seat, without, built, idle, called_by_key, called_by_room};
ghost use Rattle.cache_core.specs.Steps.{called_by_both, used_last, given_back};

use crate::step::{Entry, Phase};

pub fn phase_at(phases: &[Phase], seat: usize) -> Phase
    ensures { result ≡ phase_of phases.now seat }
{
    if seat < phases.len() {
        phases[seat]
    } else {
        Phase::Idle
    }
}

impl Phase {
    pub fn is_building(&self, res: u64) -> bool
        ensures { result ≡ is_building res self.now }
    {
        match self {
            Phase::Building(r) => *r == res,
            _ => false,
        }
    }

    pub fn is_holding(&self, res: u64) -> bool
        ensures { result ≡ is_holding res self.now }
    {
        match self {
            Phase::Holding(r) => *r == res,
            _ => false,
        }
    }

    fn is_using(&self, res: u64) -> bool
        ensures { result ≡ is_using res self.now }
    {
        self.is_building(res) || self.is_holding(res)
    }

    fn is_free(&self) -> bool
        ensures { result ≡ is_free self.now }
    {
        match self {
            Phase::Building(_) => false,
            Phase::Holding(_) => false,
            _ => true,
        }
    }
}

pub fn is_free_seat(phases: &[Phase], seat: usize) -> bool
    ensures { result ≡ is_free_seat phases.now seat }
{
    seat < phases.len() && phase_at(phases, seat).is_free()
}

pub fn is_built(phases: &[Phase], res: u64) -> bool
    ensures { result ≡ list_any (is_building res) phases.now }
{
    phases.iter().any(|phase| phase.is_building(res))
}

pub fn is_held(phases: &[Phase], res: u64) -> bool
    ensures { result ≡ list_any (is_holding res) phases.now }
{
    phases.iter().any(|phase| phase.is_holding(res))
}

pub fn is_used(phases: &[Phase], entry: &Entry) -> bool
    ensures { result ≡ is_used phases.now entry.now }
{
    phases.iter().any(|phase| phase.is_using(entry.res))
}

pub fn entry_of(entries: &[Entry], res: u64) -> Option<&Entry>
    ensures { option_copied result ≡ entry_of entries.now res }
{
    entries.iter().find(|entry| entry.res == res)
}

fn has_key(entries: &[Entry], key: u64) -> bool
    ensures { result ≡ list_any (has_key key) entries.now }
{
    entries.iter().any(|entry| entry.key == key)
}

pub fn lacks_key(entries: &[Entry], key: u64) -> bool
    ensures { result ≡ lacks_key key entries.now }
{
    !has_key(entries, key)
}

fn may_go(phases: &[Phase], entry: &Entry) -> bool
    ensures { result ≡ may_go phases.now entry.now }
{
    entry.ready && !is_held(phases, entry.res)
}

pub fn first_to_go<'a>(phases: &[Phase], entries: &'a [Entry]) -> Option<&'a Entry>
    ensures { option_copied result ≡ find (may_go phases.now) entries.now }
{
    entries.iter().find(|entry| may_go(phases, entry))
}

pub fn are_all_used(phases: &[Phase], entries: &[Entry]) -> bool
    ensures { result ≡ list_all (is_used phases.now) entries.now }
{
    entries.iter().all(|entry| is_used(phases, entry))
}

impl Entry {
    fn is_other(&self, res: u64) -> bool
        ensures { result ≡ not (has_res res self.now) }
    {
        !(self.res == res)
    }

    fn built(&self, res: u64) -> Entry
        ensures { result ≡ built res self.now }
    {
        Entry {
            key: self.key,
            res: self.res,
            ready: self.ready || self.res == res,
        }
    }
}

impl Phase {
    fn called_by_key(&self, res: u64) -> Phase
        ensures { result ≡ called_by_key res self.now }
    {
        match self {
            Phase::WaitKey(r) if *r == res => Phase::Called,
            _ => *self,
        }
    }

    fn called_by_room(&self) -> Phase
        ensures { result ≡ called_by_room self.now }
    {
        match self {
            Phase::WaitRoom => Phase::Called,
            _ => *self,
        }
    }

    fn called_by_both(&self, res: u64) -> Phase
        ensures { result ≡ called_by_both res self.now }
    {
        self.called_by_key(res).called_by_room()
    }
}

/// Takes the entry of a residency away.
pub fn remove(entries: &mut Vec<Entry>, res: u64)
    ensures items { entries.new.items ≡ without res entries.old.items }
    ensures capacity { vec_capacity entries.new ≡ vec_capacity entries.old }
{
    entries.retain(|entry| entry.is_other(res));
}

/// Marks the entry of a residency as ready.
pub fn build(entries: &mut [Entry], res: u64)
    ensures { entries.new ≡ map (built res) entries.old }
{
    for entry in entries.iter_mut() {
        *entry = entry.built(res);
    }
}

/// Calls those who wait for the entry of a residency.
pub fn call_by_key(phases: &mut [Phase], res: u64)
    ensures { phases.new ≡ map (called_by_key res) phases.old }
{
    for phase in phases.iter_mut() {
        *phase = phase.called_by_key(res);
    }
}

/// Calls those who wait for room.
pub fn call_by_room(phases: &mut [Phase])
    ensures { phases.new ≡ map called_by_room phases.old }
{
    for phase in phases.iter_mut() {
        *phase = phase.called_by_room();
    }
}

/// Calls those who wait for the entry of a residency, and those who wait for room.
pub fn call_by_both(phases: &mut [Phase], res: u64)
    ensures { phases.new ≡ map (called_by_both res) phases.old }
{
    for phase in phases.iter_mut() {
        *phase = phase.called_by_both(res);
    }
}

/// Makes every phase idle.
pub fn make_idle(phases: &mut [Phase])
    ensures { phases.new ≡ map idle phases.old }
{
    for phase in phases.iter_mut() {
        *phase = Phase::Idle;
    }
}

pub fn are_all_free(phases: &[Phase]) -> bool
    ensures { result ≡ list_all is_free phases.now }
{
    phases.iter().all(|phase| phase.is_free())
}

/// Whether the entry of a residency is of a key and ready.
pub fn is_ready(entries: &[Entry], res: u64, key: u64) -> bool
    ensures { result ≡ passes (λ e. e.key == key && e.ready) (entry_of entries.now res) }
{
    match entry_of(entries, res) {
        Some(entry) => entry.key == key && entry.ready,
        None => false,
    }
}

/// Whether the entry of a residency is of a key.
pub fn is_of_key(entries: &[Entry], res: u64, key: u64) -> bool
    ensures { result ≡ passes (has_key key) (entry_of entries.now res) }
{
    match entry_of(entries, res) {
        Some(entry) => entry.key == key,
        None => false,
    }
}

/// Whether the first entry that may go is the one of a residency.
pub fn is_first_to_go(phases: &[Phase], entries: &[Entry], res: u64) -> bool
    ensures { result ≡ passes (has_res res) (find (may_go phases.now) entries.now) }
{
    match first_to_go(phases, entries) {
        Some(entry) => entry.res == res,
        None => false,
    }
}

pub fn entry_of_key(entries: &[Entry], key: u64) -> Option<&Entry>
    ensures { option_copied result ≡ find (has_key key) entries.now }
{
    entries.iter().find(|entry| entry.key == key)
}

/// Adds an entry at the end.
pub fn add(entries: &mut Vec<Entry>, entry: Entry)
    requires { vec_len entries.old + 1 ≤ vec_capacity entries.old }
    ensures items { entries.new.items ≡ entries.old.items ++ entry ∷ [] }
    ensures capacity { vec_capacity entries.old ≤ vec_capacity entries.new }
{
    match entries.push(entry) {
        Ok(()) => {}
        Err(_) => unreachable!(),
    }
}

/// Moves the entry of a residency to the end.
pub fn use_last(entries: &mut Vec<Entry>, res: u64)
    ensures items { entries.new.items ≡ used_last res entries.old.items }
    ensures capacity { vec_capacity entries.old ≤ vec_capacity entries.new }
{
    let last = entry_of(entries, res).copied();
    remove(entries, res);
    if let Some(entry) = last {
        add(entries, entry);
    }
}

/// Changes the phase of a seat.
pub fn set_phase(phases: &mut [Phase], seat: usize, phase: Phase)
    ensures { phases.new ≡ slice_set phases.old seat phase }
{
    if seat < phases.len() {
        phases[seat] = phase;
    }
}

/// Calls those who wait for room, where no seat holds the entry of a residency.
pub fn give_back(phases: &mut [Phase], res: u64)
    ensures { phases.new ≡ given_back res phases.old }
{
    if !is_held(phases, res) {
        call_by_room(phases);
    }
}
