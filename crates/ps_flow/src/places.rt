//! The places of composites that `bind` has looked at.
ghost use Rattle.std.specs.Prelude.{◌≡◌, ◌<◌, ◌+◌, ◌^◌, [], OnOk, OnSome};
ghost use Rattle.std.specs.Option.{option_map};
ghost use Rattle.std.specs.Prelude.{slice_get};
ghost use Rattle.std.specs.Map.{lookup};
ghost use Rattle.indexmap.specs.IndexMap.{insert_entry};
ghost use Rattle.ps_flow.specs.Binding.{same_part};
ghost use Rattle.ps_flow.specs.Code.Places.{place_of};

use crate::visits::Visit;
use indexmap::IndexMap;
use press_fault::Mem;
use ps_store::Part;
use std::alloc::Global;
use std::marker::Model;

/// The places that were looked at, each once, in that order. With each stands a later place of its composite: the
/// places before that one were looked at too. Contracts see a place as a part of length 1.
#[derive(Drop)]
pub(crate) struct Places {
    seen: IndexMap<Visit, u32>,
}

impl Model for Places {
    ghost use Rattle.std.specs.Prelude.{List, ℕ};
    ghost use Rattle.ps_store.specs.Parts.{PartValue};

    ghost Value = { List (PartValue × ℕ) };

    ghost view = { λ p. p.seen.entries };
}

impl Places {
    pub(crate) fn new(alloc: Global) -> Places
        ensures { result ≡ [] }
    {
        Places {
            seen: IndexMap::new(alloc),
        }
    }

    /// The place behind those that were looked at from a place of a part on, `None` where it wasn't looked at.
    pub(crate) fn behind(&self, p: Part, at: u32) -> Option<u32>
        requires { at < p.len }
        ensures { result ≡ lookup (same_part (place_of p.id (p.start + at))) self.now }
    {
        self.seen.get(&place(p, at)).copied()
    }

    /// Notes that the places of a part from this one on are looked at, up to its end.
    pub(crate) fn mark(&mut self, p: Part, at: u32) -> Mem<()>
        requires { at < p.len }
        ensures { OnOk result
            (self.new ≡ insert_entry same_part self.old (place_of p.id (p.start + at)) (p.start + p.len)) }
    {
        self.seen.insert(place(p, at), p.start + p.len)?;
        Ok(())
    }

    /// The place that was looked at after so many others.
    pub(crate) fn at(&self, number: usize) -> Option<Part>
        ensures value { result ≡ option_map (λ e. e.0) (slice_get self.now number) }
        ensures bound { OnSome result (number + 1 < 2 ^ 64) }
    {
        let _len = self.seen.len();
        match self.seen.get_index(number) {
            Some((visit, _)) => Some(visit.span()),
            None => None,
        }
    }
}

/// A place of a part.
fn place(p: Part, at: u32) -> Visit
    requires { at < p.len }
    ensures { result ≡ place_of p.id (p.start + at) }
{
    Visit {
        id: p.id,
        start: p.start + at,
        len: 1,
    }
}
