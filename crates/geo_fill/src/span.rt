ghost use Rattle.std.specs.Prelude.{◌≡◌, [], ◌∷◌, ◌++◌, OnOk, OnErr};
ghost use Rattle.geo_fill.specs.Spans.{AreApart, EndBefore};

use crate::EdgeWalk;
use crate::crossing::Crossing;
use press_fault::Mem;
use std::alloc::Global;
use std::marker::Model;
use std::mem;

/// The columns from `first` up to and without `end` of one row. A span is never empty.
#[derive(Clone, Copy, Debug, PartialEq, Eq)]
pub struct Span {
    pub first: u32,
    pub end: u32,
}

impl Model for Span {
    ghost use Rattle.std.specs.Prelude.{◌<◌};
    ghost use Rattle.geo_fill.specs.Spans.{SpanValue};

    ghost Value = { SpanValue };

    ghost view = { λ s. record { first = s.first; end = s.end } };

    ghost invariant = { λ s. s.first < s.end };

    ghost inverse = { λ v. record { first = v.first; end = v.end } };
}

/// Spans of one row: they rise, and leave a gap between each and the next.
#[derive(Drop)]
pub struct Spans {
    alloc: Global,
    spans: Vec<Span>,
    /// Room for the crossings of a row, kept from one row to the next.
    crossings: Vec<Crossing>,
    /// Room for the edges of a shape of which one row is asked.
    walk: EdgeWalk,
}

impl Model for Spans {
    ghost use Rattle.std.specs.Prelude.{List};
    ghost use Rattle.geo_fill.specs.Spans.{SpanValue, AreApart};

    ghost Value = { List SpanValue };

    ghost view = { λ s. s.spans.items };

    ghost invariant = { λ s. AreApart s.spans.items };
}

impl Spans {
    /// No spans.
    pub fn new(alloc: Global) -> Self
        ensures { result ≡ [] }
    {
        Spans {
            alloc,
            spans: Vec::new(alloc),
            crossings: Vec::new(alloc),
            walk: EdgeWalk::idle(alloc),
        }
    }

    /// Adds a span behind all others; each of them ends before its first column. Out of memory
    /// leaves the spans as before.
    #[tactic(auto, using(crate::proofs::Apart::apart_more))]
    pub fn push(&mut self, span: Span) -> Mem<()>
        requires { EndBefore span.first self.old }
        ensures ok { OnOk result (self.new ≡ self.old ++ span ∷ []) }
        ensures err { OnErr result (self.new ≡ self.old) }
    {
        self.spans.push(span)?;
        Ok(())
    }

    /// Takes all spans away, and keeps the room.
    pub fn clear(&mut self)
        ensures { self.new ≡ [] }
    {
        self.spans.clear();
    }

    /// The spans, from left to right.
    pub fn items(&self) -> &[Span]
        ensures value { result.now ≡ self.now }
        ensures apart { AreApart self.now }
    {
        &self.spans
    }

    /// Room for the crossings of a row. The spans stay.
    pub(crate) fn take_room(&mut self) -> Vec<Crossing>
        ensures room { result.items ≡ [] }
        ensures same { self.new ≡ self.old }
    {
        let mut room = mem::replace(&mut self.crossings, Vec::new(self.alloc));
        room.clear();
        room
    }

    /// Gives the room back, for the next row.
    pub(crate) fn keep_room(&mut self, room: Vec<Crossing>)
        ensures { self.new ≡ self.old }
    {
        self.crossings = room;
    }

    /// A walk to begin anew, in the room that there is. The spans stay.
    pub(crate) fn take_walk(&mut self) -> EdgeWalk
        ensures { self.new ≡ self.old }
    {
        mem::replace(&mut self.walk, EdgeWalk::idle(self.alloc))
    }

    /// Gives its room back, for the next row.
    pub(crate) fn keep_walk(&mut self, walk: EdgeWalk)
        ensures { self.new ≡ self.old }
    {
        self.walk = walk;
    }
}
