//! The rows of a band.
ghost use Rattle.std.specs.Prelude.{◌≡◌, ◌<◌, ◌≤◌, ◌+◌, ◌^◌, [], take, length, slice_index_or, OnOk, IfOk, MatchOption};
ghost use Rattle.std.specs.Prelude.{ℕ, false};
ghost use Rattle.page_model.specs.declared.shape.Shape.TheVariants.{Poly};
ghost use Rattle.geo_fill.specs.Spans.{have_column};
ghost use Rattle.geo_fill.specs.Walk.{Walks};
ghost use Rattle.geo_clip.specs.Mask.{IsFirstRun};
ghost use Rattle.geo_clip.specs.Code.Rows.{ShowRows};

use crate::row::RowSpans;
use geo_fill::{EdgeWalk, Span, Spans};
use page_model::Region;
use press_fault::Mem;
use std::alloc::Global;
use std::marker::Model;
use std::mem;

/// The open dots of a band, row by row.
#[derive(Drop)]
pub(crate) struct BandRows {
    rows: Vec<RowSpans>,
}

impl Model for BandRows {
    ghost use Rattle.std.specs.Prelude.{List};
    ghost use Rattle.geo_fill.specs.Spans.{SpanValue};

    ghost Value = { List (List SpanValue) };

    ghost view = { λ b. b.rows.items };
}

/// What a cut works in, kept from one to the next: a walk over a region, the spans of its row, and
/// those that the row has in common with the clip.
#[derive(Drop)]
pub(crate) struct CutRoom {
    walk: EdgeWalk,
    spans: Spans,
    met: RowSpans,
}

impl CutRoom {
    /// A room that takes no memory yet.
    pub(crate) fn new(alloc: Global) -> CutRoom {
        CutRoom {
            walk: EdgeWalk::idle(alloc),
            spans: Spans::new(alloc),
            met: RowSpans::new(alloc),
        }
    }
}

impl BandRows {
    /// Rows of open dots.
    pub(crate) fn new(alloc: Global, width: u32, first: u32, rows: u32) -> Mem<BandRows>
        ensures size { IfOk result (λ band. length band ≡ rows) }
        ensures shown { IfOk result (λ band. ShowRows band width first rows []) }
    {
        let mut band = Vec::new(alloc);
        for _row in 0..rows {
            band.push(RowSpans::new(alloc))?;
        }
        let mut band = BandRows { rows: band };
        band.open_all(width, first, rows)?;
        Ok(band)
    }

    /// Whether the dot of a row, counted from the band's first on, and a column is open.
    pub(crate) fn is_open(&self, row: u32, col: u32) -> bool
        requires { row < length self.now }
        ensures { result ≡ have_column (slice_index_or self.now row []) col }
    {
        self.rows[row as usize].is_open(col)
    }

    /// The first open dots of a row, counted from the band's first on, that follow one another.
    pub(crate) fn open_run(&self, row: u32, from: u32, to: u32) -> Option<Span>
        requires { row < length self.now }
        ensures { MatchOption result
            ((col : ℕ) → from ≤ col → col < to → have_column (slice_index_or self.now row []) col ≡ false)
            (IsFirstRun from to (have_column (slice_index_or self.now row []))) }
    {
        self.rows[row as usize].open_run(from, to)
    }

    /// Opens the dots that every region holds, and closes the others. The band's first row is a
    /// page's row `first`. Out of memory leaves dots of either kind.
    pub(crate) fn show(
        &mut self,
        room: &mut CutRoom,
        width: u32,
        first: u32,
        rows: u32,
        regions: &[Region],
    ) -> Mem<()>
        requires size { length self.old ≡ rows }
        requires numbered { first + rows ≤ 2 ^ 32 }
        ensures size { length self.new ≡ rows }
        ensures ok { OnOk result (ShowRows self.new width first rows regions.now) }
    {
        self.open_all(width, first, rows)?;
        for at in 0..regions.len() {
            self.show_region(room, width, first, rows, regions, at)?;
        }
        Ok(())
    }

    /// Opens all dots.
    fn open_all(&mut self, width: u32, first: u32, rows: u32) -> Mem<()>
        requires size { length self.old ≡ rows }
        ensures size { length self.new ≡ rows }
        ensures shown { OnOk result (ShowRows self.new width first rows []) }
    {
        for i in 0..rows {
            let row = &mut self.rows[i as usize];
            row.open_all(width)?;
        }
        Ok(())
    }

    /// Closes the dots outside of one region more.
    fn show_region(
        &mut self,
        room: &mut CutRoom,
        width: u32,
        first: u32,
        rows: u32,
        regions: &[Region],
        at: usize,
    ) -> Mem<()>
        requires size { length self.old ≡ rows }
        requires numbered { first + rows ≤ 2 ^ 32 }
        requires inside { at < length regions.now }
        requires shown { ShowRows self.old width first rows (take at regions.now) }
        ensures size { length self.new ≡ rows }
        ensures ok { OnOk result (ShowRows self.new width first rows (take (at + 1) regions.now)) }
    {
        let region = &regions[at];
        room.walk.restart_region(region, first, rows)?;
        self.keep_rows(
            &mut room.walk,
            &mut room.spans,
            &mut room.met,
            width,
            first,
            rows,
            region,
            regions,
            at,
        )
    }

    /// Closes the dots outside of a region, of which the regions before it are shown, along a walk
    /// over it.
    fn keep_rows(
        &mut self,
        walk: &mut EdgeWalk,
        spans: &mut Spans,
        met: &mut RowSpans,
        width: u32,
        first: u32,
        rows: u32,
        region: &Region,
        regions: &[Region],
        at: usize,
    ) -> Mem<()>
        requires size { length self.old ≡ rows }
        requires numbered { first + rows ≤ 2 ^ 32 }
        requires inside { at < length regions.now }
        requires region { region.now ≡ slice_index_or regions.now at region.now }
        requires shown { ShowRows self.old width first rows (take at regions.now) }
        requires walks { Walks (Poly region.now.rings) region.now.rule first rows walk.old }
        ensures size { length self.new ≡ rows }
        ensures ok { OnOk result (ShowRows self.new width first rows (take (at + 1) regions.now)) }
    {
        for i in 0..rows {
            walk.next_row(0, width, spans)?;
            let row = &mut self.rows[i as usize];
            row.keep(spans, met)?;
        }
        Ok(())
    }
}
