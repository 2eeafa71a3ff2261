//! The open dots of one row.
ghost use Rattle.std.specs.Prelude.{◌≡◌, ◌≤◌, ◌<◌, ◌⊎◌, ℕ, true, false, ◌&&◌, [], ◌∷◌, ◌++◌, length, slice_index_or};
ghost use Rattle.std.specs.Prelude.{OnOk, OnErr, MatchOption};
ghost use Rattle.geo_fill.specs.Spans.{SpanValue, have_column, AreApart, EndBefore, HaveJust};
ghost use Rattle.geo_clip.specs.Mask.{IsFirstRun};
ghost use Rattle.geo_clip.specs.Code.Meeting.{has, HaveBoth, IsShared, IsMetBy, ArePassed, IsNextSpan};

use geo_fill::{Span, Spans};
use press_fault::Mem;
use std::alloc::Global;
use std::marker::Model;
use std::mem;

/// The open dots of a row as spans, which rise and leave a gap between each and the next. So a row
/// of a clip that is one rectangle is one span.
#[derive(Drop)]
pub(crate) struct RowSpans {
    spans: Vec<Span>,
}

impl Model for RowSpans {
    ghost use Rattle.std.specs.Prelude.{List};
    ghost use Rattle.geo_fill.specs.Spans.{SpanValue, AreApart};

    ghost Value = { List SpanValue };

    ghost view = { λ r. r.spans.items };

    ghost invariant = { λ r. AreApart r.spans.items };
}

impl RowSpans {
    /// A row without open dots. It takes no memory.
    pub(crate) fn new(alloc: Global) -> RowSpans
        ensures { result ≡ [] }
    {
        RowSpans {
            spans: Vec::new(alloc),
        }
    }

    /// Opens the dots of the columns up to and without `width`, and no others.
    pub(crate) fn open_all(&mut self, width: u32) -> Mem<()>
        ensures { OnOk result (HaveJust self.new 0 width (λ col. true)) }
    {
        self.spans.clear();
        if 0 < width {
            self.push(Span {
                first: 0,
                end: width,
            })?;
        }
        Ok(())
    }

    /// Adds a span behind all others.
    #[tactic(auto, using(geo_fill::proofs::Apart::apart_more))]
    fn push(&mut self, span: Span) -> Mem<()>
        requires { EndBefore span.first self.old }
        ensures { OnOk result (self.new ≡ self.old ++ span ∷ []) }
    {
        self.spans.push(span)?;
        Ok(())
    }

    /// Closes the dots outside of the spans. `room` is room to work in.
    pub(crate) fn keep(&mut self, spans: &Spans, room: &mut RowSpans) -> Mem<()>
        ensures { OnOk result (HaveBoth self.new self.old spans.now) }
    {
        room.meet(&self.spans, spans.items())?;
        mem::swap(self, room);
        Ok(())
    }

    /// Opens the dots that are in a span of each of two lists, and closes the others. Out of memory
    /// leaves dots of either kind.
    pub(crate) fn meet(&mut self, one: &[Span], other: &[Span]) -> Mem<()>
        requires one { AreApart one.now }
        requires other { AreApart other.now }
        ensures { OnOk result (HaveBoth self.new one.now other.now) }
    {
        self.spans.clear();
        let mut i = 0;
        let mut j = 0;
        while i < one.len() && j < other.len() {
            let s = one[i];
            let t = other[j];
            self.add_shared(s, t)?;
            if s.end <= t.end {
                i += 1;
            } else {
                j += 1;
            }
        }
        Ok(())
    }

    /// Opens the dots that two spans share. They are behind all that are open.
    fn add_shared(&mut self, s: Span, t: Span) -> Mem<()>
        requires { EndBefore s.first self.old ⊎ EndBefore t.first self.old }
        ensures { OnOk result (IsMetBy s t self.old self.new) }
    {
        match shared(s, t) {
            Some(both) => {
                self.push(both)?;
                Ok(())
            }
            None => Ok(()),
        }
    }

    /// Whether the dot of a column is open.
    #[tactic(auto, using(crate::proofs::Meeting::opened))]
    pub(crate) fn is_open(&self, col: u32) -> bool
        ensures { result ≡ have_column self.now col }
    {
        match next_span(&self.spans, col) {
            Some(span) => span.first <= col,
            None => false,
        }
    }

    /// The first open dots of the columns from `from` up to and without `to` that follow one
    /// another.
    pub(crate) fn open_run(&self, from: u32, to: u32) -> Option<Span>
        ensures { MatchOption result
            ((col : ℕ) → from ≤ col → col < to → have_column self.now col ≡ false)
            (IsFirstRun from to (have_column self.now)) }
    {
        let span = next_span(&self.spans, from)?;
        if span.first >= to || from >= to {
            return None;
        }
        Some(Span {
            first: span.first.max(from),
            end: span.end.min(to),
        })
    }
}

/// The first span that ends behind a column.
fn next_span(spans: &[Span], col: u32) -> Option<Span>
    requires { AreApart spans.now }
    ensures { MatchOption result
        ((c : ℕ) → col ≤ c → have_column spans.now c ≡ false)
        (IsNextSpan col spans.now) }
{
    let place = place_behind(spans, col);
    if place >= spans.len() {
        return None;
    }
    Some(spans[place])
}

/// The place of the first span that ends behind a column, by halving; the number of spans where
/// there is none.
fn place_behind(spans: &[Span], col: u32) -> usize
    requires { AreApart spans.now }
    ensures inside { result ≤ length spans.now }
    ensures passed { ArePassed col result spans.now }
    ensures next { (s : SpanValue) → result < length spans.now →
        col < (slice_index_or spans.now result s).end }
{
    let mut low = 0;
    let mut high = spans.len();
    while low < high {
        let middle = low + (high - low) / 2;
        let span = spans[middle];
        if span.end <= col {
            low = middle + 1;
        } else {
            high = middle;
        }
    }
    low
}

/// The columns that two spans share.
fn shared(s: Span, t: Span) -> Option<Span>
    ensures { MatchOption result ((col : ℕ) → (has s col && has t col) ≡ false) (IsShared s t) }
{
    let first = s.first.max(t.first);
    let end = s.end.min(t.end);
    if first < end {
        Some(Span { first, end })
    } else {
        None
    }
}
