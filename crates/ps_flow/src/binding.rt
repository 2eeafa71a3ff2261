//! `bind`.
ghost use Rattle.std.specs.Prelude.{◌≡◌, OnOk, option_and_then};
ghost use Rattle.ps_store.specs.Store.{object_at, operator_of};
ghost use Rattle.ps_flow.specs.Binding.{bind_store, operator_named};
ghost use Rattle.std.specs.Map.{keys_of};
ghost use Rattle.ps_flow.specs.Code.BindSteps.{replaced, bound_at, bound_from, bound_all};

use crate::places::Places;
use crate::visits::places_reached;
use press_fault::Mem;
use ps_store::{Dicts, Obj, Oper, Part, Store};
use std::alloc::Global;

/// Replaces the executable names whose value is an operator, in a procedure and in all that are reached through
/// elements, at each place once, also where they overlap.
pub(crate) fn bind_procedure(alloc: Global, store: &mut Store, dicts: &Dicts, p: Part) -> Mem<()>
    ensures { OnOk result (store.new ≡ bind_store dicts.now store.old p) }
{
    let places = places_reached(alloc, store, p)?;
    bind_all(store, dicts, &places);
    Ok(())
}

fn bind_all(store: &mut Store, dicts: &Dicts, places: &Places)
    ensures { store.new ≡ bound_all dicts.now store.old (keys_of places.now) }
{
    let mut number = 0;
    while let Some(p) = places.at(number) {
        bind_part(store, dicts, p);
        number += 1;
    }
}

fn bind_part(store: &mut Store, dicts: &Dicts, p: Part)
    ensures { store.new ≡ bound_from dicts.now store.old p 0 p.len }
{
    for at in 0..p.len {
        bind_place(store, dicts, p, at);
    }
}

fn bind_place(store: &mut Store, dicts: &Dicts, p: Part, at: u32)
    ensures { store.new ≡ bound_at dicts.now store.old p at }
{
    if let Some(op) = operator_at(store, dicts, p, at) {
        store.put(p, at, Obj::Oper(op));
    }
}

/// The operator that is the value of the executable name at a place.
fn operator_at(store: &Store, dicts: &Dicts, p: Part, at: u32) -> Option<Oper>
    ensures { result ≡ option_and_then (operator_named dicts.now store.now) (object_at store.now p at) }
{
    match store.at(p, at) {
        Some(o) => operator_named(store, dicts, o),
        None => None,
    }
}

/// The operator that is the value of an executable name.
fn operator_named(store: &Store, dicts: &Dicts, o: &Obj) -> Option<Oper>
    ensures { result ≡ operator_named dicts.now store.now o.now }
{
    match o {
        Obj::Name(name, true) => match dicts.find_name(store, name) {
            Some(value) => as_operator(value),
            None => None,
        },
        _ => None,
    }
}

fn as_operator(o: &Obj) -> Option<Oper>
    ensures { result ≡ operator_of o.now }
{
    match o {
        Obj::Oper(op) => Some(*op),
        _ => None,
    }
}
