//! The clip of what is painted in a band.
ghost use Rattle.std.specs.Prelude.{◌≡◌, ◌+◌, ◌<◌, ◌≤◌, ◌^◌, ◌&&◌, [], ℕ, true, OnOk, OnErr, IfOk, Some, length};
ghost use Rattle.std.specs.Prelude.{◌*◌, slice_index_or};
ghost use Rattle.std.specs.Arc.{arc_value};
ghost use Rattle.page_model.specs.Cover.{ImageHasChannels};
ghost use Rattle.geo_fill.specs.Spans.{have_column, is_in};
ghost use Rattle.geo_clip.specs.Mask.{IsRowOfBand, is_open};
ghost use Rattle.img_map.specs.declared.row.Pick.TheVariants.{Outside as NoSample, At as Number};
ghost use Rattle.img_map.specs.Picks.{picked};
ghost use Rattle.list_player.specs.Painting.{given_where, sample_dot, mask_dot, IsPainted};
ghost use Rattle.list_player.specs.Code.Steps.{lent_dot, code_dot};
ghost use Rattle.list_player.specs.Memo.{Remembers};

use crate::Lent;
use crate::dot::Dot;
use crate::memo::Memo;
use crate::row::{DotRow, InkRow};
use geo_clip::BandMask;
use geo_fill::Span;
use img_map::Pick;
use page_model::{Clip, Image};
use press_fault::Mem;
use std::alloc::Global;
use std::marker::Model;
use std::sync::Arc;

/// The clip of what is painted in a band: its mask, which is asked only where the clip has regions.
#[derive(Drop)]
pub(crate) struct BandClip {
    width: u32,
    first: u32,
    rows: u32,
    mask: BandMask,
    cuts: bool,
}

impl Model for BandClip {
    ghost use Rattle.std.specs.Prelude.{◌≡◌, ◌+◌, ◌≤◌, ◌^◌, false, []};
    ghost use Rattle.geo_clip.specs.Mask.{BandMaskValue};

    ghost Value = { BandMaskValue };

    ghost view = { λ c. record { width = c.width; first = c.first; rows = c.rows; regions = c.mask.regions } };

    ghost invariant = { λ c. (c.cuts ≡ false → c.mask.regions ≡ []) × (c.mask.width ≡ c.width)
        × (c.mask.first ≡ c.first) × (c.mask.rows ≡ c.rows) × (c.first + c.rows ≤ 2 ^ 32) };
}

impl BandClip {
    /// A clip that cuts nothing, in a band of so many rows and columns.
    pub(crate) fn new(alloc: Global, width: u32, first: u32, rows: u32) -> Mem<BandClip>
        requires { first + rows ≤ 2 ^ 32 }
        ensures { IfOk result (λ clip.
            clip ≡ record { width = width; first = first; rows = rows; regions = [] }) }
    {
        Ok(BandClip {
            width,
            first,
            rows,
            mask: BandMask::new(alloc, width, first, rows)?,
            cuts: false,
        })
    }

    /// How many columns the band has.
    pub(crate) fn width(&self) -> u32
        ensures { result ≡ self.now.width }
    {
        self.width
    }

    /// The number of its first row on the page.
    pub(crate) fn first(&self) -> u32
        ensures value { result ≡ self.now.first }
        ensures numbered { self.now.first + self.now.rows ≤ 2 ^ 32 }
    {
        self.first
    }

    /// How many rows it has.
    pub(crate) fn rows(&self) -> u32
        ensures { result ≡ self.now.rows }
    {
        self.rows
    }

    /// Another clip in place of the one before.
    pub(crate) fn cut(&mut self, clip: &Arc<Clip>) -> Mem<()>
        ensures ok { OnOk result (self.new ≡ record self.old { regions = arc_value clip.now }) }
        ensures err { OnErr result (self.new ≡ self.old) }
    {
        self.mask.cut(clip)?;
        self.cuts = !clip.items().is_empty();
        Ok(())
    }

    /// Puts an ink over the dots of spans that the clip leaves open. The row has this number on the page.
    pub(crate) fn put<T: Copy>(
        &self,
        row: &mut DotRow<T>,
        spans: &[Span],
        number: u32,
        ink: &mut InkRow<T>,
    ) -> Mem<()>
        requires row { IsRowOfBand self.now number }
        requires range { (col : ℕ) → have_column spans.now col ≡ true → col < self.now.width }
        requires within { length row.old ≡ self.now.width }
        ensures ok { OnOk result (IsPainted
            (λ col. given_where (Some ink.old) (have_column spans.now col && is_open self.now.regions number col))
            row.old row.new) }
        ensures same { ink.new ≡ ink.old }
    {
        if self.cuts {
            return row.put_open_spans(spans, &self.mask, number, ink);
        }
        row.put_spans(spans, ink)
    }

    /// Puts the dots of the samples of a row over those that the clip leaves open.
    pub(crate) fn put_samples<T: Dot, L: Lent>(
        &self,
        row: &mut DotRow<T>,
        picks: &Vec<Pick>,
        number: u32,
        image: &Image,
        memo: &mut Memo<T>,
        loan: &L,
    )
        requires row { IsRowOfBand self.now number }
        requires within { length row.old ≡ self.now.width }
        requires picks { length picks.now.items ≡ self.now.width }
        requires inside { (k n : ℕ) → k < length picks.now.items → slice_index_or picks.now.items k NoSample
            ≡ Number n → n < image.now.width * image.now.rows }
        requires channels { ImageHasChannels (λ source. L.channels loan.now) image.now.channels image.now.source }
        requires memo { Remembers (lent_dot T.dot T.depth (L.colour loan.now) (L.wide loan.now)) memo.old.told.items }
        ensures put { IsPainted (λ col. given_where
            (sample_dot (code_dot T.dot T.depth (L.colour loan.now) (L.wide loan.now) image.now.source) image.now
            (picked (slice_index_or picks.now.items col NoSample)))
            (is_open self.now.regions number col)) row.old row.new }
        ensures memo { Remembers (lent_dot T.dot T.depth (L.colour loan.now) (L.wide loan.now)) memo.new.told.items }
    {
        if self.cuts {
            row.put_open_samples(picks, &self.mask, number, self.width, image, memo, loan);
        } else {
            row.put_samples(picks, 0, self.width, image, memo, loan);
        }
    }

    /// Puts an ink over the dots that a mask's samples paint and the clip leaves open.
    pub(crate) fn put_mask<T: Copy>(
        &self,
        row: &mut DotRow<T>,
        picks: &Vec<Pick>,
        number: u32,
        image: &Image,
        dot: T,
    )
        requires row { IsRowOfBand self.now number }
        requires within { length row.old ≡ self.now.width }
        requires picks { length picks.now.items ≡ self.now.width }
        requires inside { (k n : ℕ) → k < length picks.now.items → slice_index_or picks.now.items k NoSample
            ≡ Number n → n < image.now.width * image.now.rows }
        ensures put { IsPainted (λ col. given_where
            (mask_dot dot image.now (picked (slice_index_or picks.now.items col NoSample)))
            (is_open self.now.regions number col)) row.old row.new }
    {
        if self.cuts {
            row.put_open_mask(picks, &self.mask, number, self.width, image, dot);
        } else {
            row.put_mask(picks, 0, self.width, image, dot);
        }
    }
}
