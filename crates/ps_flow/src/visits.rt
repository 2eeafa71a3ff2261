//! The procedures that `bind` has reached.
ghost use Rattle.std.specs.Prelude.{◌≡◌, ℕ, [], ◌+◌, ◌<◌, ◌^◌, true, OnOk, IfOk, OnSome, slice_get};
ghost use Rattle.ps_flow.specs.Code.Visits.{with_visit, with_found};
ghost use Rattle.ps_flow.specs.Code.Places.{AreAdded, AreFound, AreSeen, IsDone, is_seen, nothing_in_hand, passed};
ghost use Rattle.ps_flow.specs.Binding.{has, procedure_of, procedure_at};

use crate::places::Places;
use indexmap::IndexSet;
use press_fault::Mem;
use ps_store::{Obj, Part, Store};
use std::alloc::Global;
use std::marker::Model;

/// A procedure by its composite, its start and its length, to be found again.
#[derive(Clone, Copy, Debug, PartialEq, Eq, Hash)]
pub(crate) struct Visit {
    pub(crate) id: u32,
    pub(crate) start: u32,
    pub(crate) len: u32,
}

impl Model for Visit {
    ghost use Rattle.std.specs.Prelude.{◌≤◌, ◌+◌};
    ghost use Rattle.ps_store.specs.Parts.{PartValue};

    ghost Value = { PartValue };

    ghost view = { λ v. record { id = v.id; start = v.start; len = v.len } };

    ghost invariant = { λ v. v.start + v.len ≤ 65535 };

    ghost inverse = { λ p. record { id = p.id; start = p.start; len = p.len } };
}

impl Visit {
    fn of(p: Part) -> Visit
        ensures { result ≡ p }
    {
        Visit {
            id: p.id,
            start: p.start,
            len: p.len,
        }
    }

    pub(crate) fn span(&self) -> Part
        ensures { result ≡ self.now }
    {
        Part {
            id: self.id,
            start: self.start,
            len: self.len,
        }
    }
}

/// The procedures that were reached, each once. Contracts see them as a list, in the order in which they were reached.
#[derive(Drop)]
pub(crate) struct Visits {
    procedures: IndexSet<Visit>,
}

impl Model for Visits {
    ghost use Rattle.std.specs.Prelude.{List};
    ghost use Rattle.ps_store.specs.Parts.{PartValue};

    ghost Value = { List PartValue };

    ghost view = { λ v. v.procedures.keys };
}

impl Visits {
    pub(crate) fn new(alloc: Global) -> Visits
        ensures { result ≡ [] }
    {
        Visits {
            procedures: IndexSet::new(alloc),
        }
    }

    /// The procedure at a place.
    pub(crate) fn at(&self, place: usize) -> Option<Part>
        ensures value { result ≡ slice_get self.now place }
        ensures bound { OnSome result (place + 1 < 2 ^ 64) }
    {
        let _len = self.procedures.len();
        match self.procedures.get_index(place) {
            Some(visit) => Some(visit.span()),
            None => None,
        }
    }

    /// Adds a procedure, where it isn't there.
    pub(crate) fn add(&mut self, p: Part) -> Mem<()>
        ensures { OnOk result (self.new ≡ with_visit self.old p) }
    {
        self.procedures.insert_full(Visit::of(p))?;
        Ok(())
    }

    /// Adds what was found, where it is a procedure.
    fn add_found(&mut self, found: Option<Part>) -> Mem<()>
        ensures { OnOk result (self.new ≡ with_found self.old found) }
    {
        match found {
            Some(p) => self.add(p),
            None => Ok(()),
        }
    }
}

/// The places of the procedures that are reached from one through elements, with it, each once.
pub(crate) fn places_reached(alloc: Global, store: &Store, p: Part) -> Mem<Places>
    ensures { IfOk result (AreFound store.now p) }
{
    let mut visits = Visits::new(alloc);
    let mut places = Places::new(alloc);
    visits.add(p)?;
    let mut number = 0;
    while let Some(q) = visits.at(number) {
        look_at(&mut visits, &mut places, store, q)?;
        number += 1;
    }
    Ok(places)
}

/// Looks at the places of a procedure that weren't looked at, and adds the procedures that stand there.
fn look_at(visits: &mut Visits, places: &mut Places, store: &Store, p: Part) -> Mem<()>
    requires seen { AreSeen store.now visits.old places.old nothing_in_hand 0 }
    requires visited { has visits.old p ≡ true }
    ensures seen { OnOk result (AreSeen store.now visits.new places.new nothing_in_hand 0) }
    ensures done { OnOk result (IsDone places.new p) }
    ensures kept { OnOk result ((id k : ℕ) → is_seen places.old id k ≡ true → is_seen places.new id k ≡ true) }
    ensures added { OnOk result (AreAdded store.now p visits.old visits.new) }
{
    let mut at = 0;
    while at < p.len {
        at = look_once(visits, places, store, p, at)?;
    }
    Ok(())
}

/// Looks at a place of a procedure, or passes those from it on that were looked at. Answers the place behind.
fn look_once(visits: &mut Visits, places: &mut Places, store: &Store, p: Part, at: u32) -> Mem<u32>
    requires within { at < p.len }
    requires seen { AreSeen store.now visits.old places.old p at }
    requires visited { has visits.old p ≡ true }
    ensures further { IfOk result (λ next. at < next) }
    ensures seen { IfOk result (λ next. AreSeen store.now visits.new places.new p next) }
    ensures kept { OnOk result ((id k : ℕ) → is_seen places.old id k ≡ true → is_seen places.new id k ≡ true) }
    ensures added { OnOk result (AreAdded store.now p visits.old visits.new) }
{
    match places.behind(p, at) {
        Some(behind) => {
            pass(places, p, at, behind)?;
            Ok(behind - p.start)
        }
        None => {
            visits.add_found(procedure_at(store, p, at))?;
            places.mark(p, at)?;
            Ok(at + 1)
        }
    }
}

/// Notes that the places up to the end of a part are passed with those from one of its places on.
fn pass(places: &mut Places, p: Part, at: u32, behind: u32) -> Mem<()>
    requires { at < p.len }
    ensures { OnOk result (places.new ≡ passed places.old p at behind) }
{
    if behind < p.start + p.len {
        places.mark(p, at)?;
    }
    Ok(())
}

/// The procedure at a place of one, if there is one.
fn procedure_at(store: &Store, p: Part, at: u32) -> Option<Part>
    ensures { result ≡ procedure_at store.now p at }
{
    match store.at(p, at) {
        Some(o) => as_procedure(o),
        None => None,
    }
}

fn as_procedure(o: &Obj) -> Option<Part>
    ensures { result ≡ procedure_of o.now }
{
    match o {
        Obj::Array(p, true) => Some(*p),
        _ => None,
    }
}
