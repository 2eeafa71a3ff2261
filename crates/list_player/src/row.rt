//! The dots of one row.
ghost use Rattle.std.specs.Prelude.{◌≡◌, ◌+◌, ◌-◌, ◌≤◌, ◌<◌, ◌++◌, ◌&&◌, ℕ, List, length, take, drop, replicate};
ghost use Rattle.std.specs.Prelude.{OnOk, true, Some};
ghost use Rattle.std.specs.Prelude.{MatchOption, IfOk};
ghost use Rattle.geo_fill.specs.Spans.{is_in, have_column};
ghost use Rattle.geo_clip.specs.Mask.{IsRowOfBand, is_open};
ghost use Rattle.std.specs.Prelude.{◌*◌, slice_index_or};
ghost use Rattle.page_model.specs.Cover.{ImageHasChannels};
ghost use Rattle.img_map.specs.declared.row.Pick.TheVariants.{Outside as NoSample, At as Number};
ghost use Rattle.img_map.specs.Picks.{picked};
ghost use Rattle.list_player.specs.Painting.{given_where, sample_dot, mask_dot, IsPainted};
ghost use Rattle.list_player.specs.Code.Steps.{lent_dot, code_dot};
ghost use Rattle.list_player.specs.Memo.{Remembers};

use crate::Lent;
use crate::dot::Dot;
use crate::memo::Memo;
use crate::picture::{put_mask, put_samples};
use geo_clip::BandMask;
use geo_fill::Span;
use img_map::Pick;
use page_model::Image;
use press_fault::Mem;
use std::alloc::Global;
use std::marker::Model;

/// A dot as often as it was needed, so that a run is copied and not written dot by dot.
#[derive(Drop)]
pub(crate) struct InkRow<T: Copy> {
    dot: T,
    dots: Vec<T>,
}

impl<T: Copy> Model for InkRow<T> {
    ghost use Rattle.std.specs.Prelude.{◌≡◌, length, replicate};

    ghost Value = { T };

    ghost view = { λ r. r.dot };

    ghost invariant = { λ r. r.dots.items ≡ replicate (length r.dots.items) r.dot };
}

impl<T: Copy> InkRow<T> {
    /// A row of this dot. It takes no memory yet.
    pub(crate) fn new(alloc: Global, dot: T) -> InkRow<T>
        ensures { result ≡ dot }
    {
        InkRow {
            dot,
            dots: Vec::new(alloc),
        }
    }

    /// Another dot, in the room that there is.
    pub(crate) fn change(&mut self, dot: T)
        ensures { self.new ≡ dot }
    {
        self.dots.clear();
        self.dot = dot;
    }

    /// Puts the dot over those of a row from a column up to and without another.
    pub(crate) fn put(&mut self, row: &mut Vec<T>, first: usize, end: usize) -> Mem<()>
        requires order { first ≤ end }
        requires within { end ≤ length row.old.items }
        ensures ok { OnOk result (IsPainted (λ col. given_where (Some self.old) (is_in first end col))
            row.old.items row.new.items) }
        ensures same { self.new ≡ self.old }
    {
        grow(&mut self.dots, self.dot, end - first)?;
        put_from(row, first, end, &self.dots, self.dot);
        Ok(())
    }
}

/// Adds a dot to a row of it, until there are so many.
fn grow<T: Copy>(dots: &mut Vec<T>, dot: T, count: usize) -> Mem<()>
    requires { dots.old.items ≡ replicate (length dots.old.items) dot }
    ensures same { dots.new.items ≡ replicate (length dots.new.items) dot }
    ensures ok { OnOk result (count ≤ length dots.new.items) }
{
    if dots.len() < count {
        dots.resize(count, dot)?;
    }
    Ok(())
}

/// Puts dots of one kind over those of a row, from a column up to and without another.
fn put_from<T: Copy>(row: &mut Vec<T>, first: usize, end: usize, dots: &Vec<T>, dot: T)
    requires order { first ≤ end }
    requires within { end ≤ length row.old.items }
    requires dots { dots.now.items ≡ replicate (length dots.now.items) dot }
    requires enough { end - first ≤ length dots.now.items }
    ensures { IsPainted (λ col. given_where (Some dot) (is_in first end col)) row.old.items row.new.items }
{
    let (run, _) = dots.split_at(end - first);
    put_listed(row, first, run);
}

/// `put_run` of a list: a function of its own, so that its caller sees the whole list.
fn put_listed<T: Copy>(row: &mut Vec<T>, first: usize, dots: &[T])
    requires { first + length dots.now ≤ length row.old.items }
    ensures { row.new.items
        ≡ take first row.old.items ++ (dots.now ++ drop (first + length dots.now) row.old.items) }
{
    put_run(row, first, dots);
}

/// Puts dots over those of a row from a column on.
fn put_run<T: Copy>(row: &mut [T], first: usize, dots: &[T])
    requires { first + length dots.now ≤ length row.old }
    ensures { row.new ≡ take first row.old ++ (dots.now ++ drop (first + length dots.now) row.old) }
{
    let (_, rest) = row.split_at_mut(first);
    let (run, _) = rest.split_at_mut(dots.len());
    run.copy_from_slice(dots);
}

/// The first column of a span, and the one behind its last.
fn ends_of(span: &Span) -> (u32, u32)
    ensures first { result.0 ≡ span.now.first }
    ensures end { result.1 ≡ span.now.end }
    ensures some { result.0 < result.1 }
{
    (span.first, span.end)
}

/// The dots of a row.
#[derive(Drop)]
pub(crate) struct DotRow<T: Copy> {
    dots: Vec<T>,
}

impl<T: Copy> Model for DotRow<T> {
    ghost use Rattle.std.specs.Prelude.{List};

    ghost Value = { List T };

    ghost view = { λ r. r.dots.items };
}

impl<T: Copy> DotRow<T> {
    /// So many dots of one kind.
    pub(crate) fn of(alloc: Global, dot: T, width: u32) -> Mem<DotRow<T>>
        ensures { IfOk result (λ row. row ≡ replicate width dot) }
    {
        let mut dots = Vec::new(alloc);
        dots.resize(width as usize, dot)?;
        Ok(DotRow { dots })
    }

    /// The dots, from the left.
    pub(crate) fn items(&self) -> &[T]
        ensures { result.now ≡ self.now }
    {
        &self.dots
    }

    /// Puts an ink over the dots of the columns from `first` up to and without `end`.
    fn put_span(&mut self, first: u32, end: u32, ink: &mut InkRow<T>) -> Mem<()>
        requires order { first ≤ end }
        requires within { end ≤ length self.old }
        ensures ok { OnOk result (IsPainted (λ col. given_where (Some ink.old) (is_in first end col))
            self.old self.new) }
        ensures same { ink.new ≡ ink.old }
    {
        ink.put(&mut self.dots, first as usize, end as usize)
    }

    /// Puts an ink over the dots of spans.
    pub(crate) fn put_spans(&mut self, spans: &[Span], ink: &mut InkRow<T>) -> Mem<()>
        requires { (col : ℕ) → have_column spans.now col ≡ true → col < length self.old }
        ensures ok { OnOk result (IsPainted (λ col. given_where (Some ink.old) (have_column spans.now col))
            self.old self.new) }
        ensures same { ink.new ≡ ink.old }
    {
        for span in spans {
            let (first, end) = ends_of(span);
            self.put_span(first, end, ink)?;
        }
        Ok(())
    }

    /// Puts an ink over the dots that a mask leaves open, in the columns from `first` up to and without `end`. The row
    /// has this number on the page.
    fn put_open_span(
        &mut self,
        first: u32,
        end: u32,
        mask: &BandMask,
        row: u32,
        ink: &mut InkRow<T>,
    ) -> Mem<()>
        requires row { IsRowOfBand mask.now row }
        requires order { first ≤ end }
        requires range { end ≤ mask.now.width }
        requires within { end ≤ length self.old }
        ensures ok { OnOk result (IsPainted
            (λ col. given_where (Some ink.old) (is_in first end col && is_open mask.now.regions row col))
            self.old self.new) }
        ensures same { ink.new ≡ ink.old }
    {
        let mut from = first;
        while let Some(run) = mask.open_run(row, from, end) {
            let (begins, ends) = ends_of(&run);
            self.put_span(begins, ends, ink)?;
            from = ends;
        }
        Ok(())
    }

    /// Puts an ink over the dots of spans that a mask leaves open. The row has this number on the page.
    pub(crate) fn put_open_spans(
        &mut self,
        spans: &[Span],
        mask: &BandMask,
        row: u32,
        ink: &mut InkRow<T>,
    ) -> Mem<()>
        requires row { IsRowOfBand mask.now row }
        requires range { (col : ℕ) → have_column spans.now col ≡ true → col < mask.now.width }
        requires within { (col : ℕ) → have_column spans.now col ≡ true → col < length self.old }
        ensures ok { OnOk result (IsPainted
            (λ col. given_where (Some ink.old) (have_column spans.now col && is_open mask.now.regions row col))
            self.old self.new) }
        ensures same { ink.new ≡ ink.old }
    {
        for span in spans {
            let (first, end) = ends_of(span);
            self.put_open_span(first, end, mask, row, ink)?;
        }
        Ok(())
    }
}

impl<T: Dot> DotRow<T> {
    /// Puts the dots of samples over those of the columns from `from` up to and without `to`.
    pub(crate) fn put_samples<L: Lent>(
        &mut self,
        picks: &Vec<Pick>,
        from: u32,
        to: u32,
        image: &Image,
        memo: &mut Memo<T>,
        loan: &L,
    )
        requires order { from ≤ to }
        requires within { to ≤ length self.old }
        requires picks { to ≤ length picks.now.items }
        requires inside { (k n : ℕ) → k < length picks.now.items → slice_index_or picks.now.items k NoSample
            ≡ Number n → n < image.now.width * image.now.rows }
        requires channels { ImageHasChannels (λ source. L.channels loan.now) image.now.channels image.now.source }
        requires memo { Remembers (lent_dot T.dot T.depth (L.colour loan.now) (L.wide loan.now)) memo.old.told.items }
        ensures put { IsPainted (λ col. given_where
            (sample_dot (code_dot T.dot T.depth (L.colour loan.now) (L.wide loan.now) image.now.source) image.now
            (picked (slice_index_or picks.now.items col NoSample)))
            (is_in from to col)) self.old self.new }
        ensures memo { Remembers (lent_dot T.dot T.depth (L.colour loan.now) (L.wide loan.now)) memo.new.told.items }
    {
        put_samples(
            &mut self.dots,
            picks,
            from as usize,
            to as usize,
            image,
            memo,
            loan,
        );
    }

    /// Puts the dots of samples over those that a mask leaves open, in the columns before `width`. The row has this
    /// number on the page.
    pub(crate) fn put_open_samples<L: Lent>(
        &mut self,
        picks: &Vec<Pick>,
        mask: &BandMask,
        row: u32,
        width: u32,
        image: &Image,
        memo: &mut Memo<T>,
        loan: &L,
    )
        requires row { IsRowOfBand mask.now row }
        requires range { width ≤ mask.now.width }
        requires within { width ≤ length self.old }
        requires picks { width ≤ length picks.now.items }
        requires inside { (k n : ℕ) → k < length picks.now.items → slice_index_or picks.now.items k NoSample
            ≡ Number n → n < image.now.width * image.now.rows }
        requires channels { ImageHasChannels (λ source. L.channels loan.now) image.now.channels image.now.source }
        requires memo { Remembers (lent_dot T.dot T.depth (L.colour loan.now) (L.wide loan.now)) memo.old.told.items }
        ensures put { IsPainted (λ col. given_where
            (sample_dot (code_dot T.dot T.depth (L.colour loan.now) (L.wide loan.now) image.now.source) image.now
            (picked (slice_index_or picks.now.items col NoSample)))
            (is_in 0 width col && is_open mask.now.regions row col)) self.old self.new }
        ensures memo { Remembers (lent_dot T.dot T.depth (L.colour loan.now) (L.wide loan.now)) memo.new.told.items }
    {
        let mut from = 0;
        while let Some(run) = mask.open_run(row, from, width) {
            let (begins, ends) = ends_of(&run);
            self.put_samples(picks, begins, ends, image, memo, loan);
            from = ends;
        }
    }
}

impl<T: Copy> DotRow<T> {
    /// Puts an ink over the dots that a mask's samples paint, in the columns from `from` up to and without `to`.
    pub(crate) fn put_mask(&mut self, picks: &Vec<Pick>, from: u32, to: u32, image: &Image, dot: T)
        requires order { from ≤ to }
        requires within { to ≤ length self.old }
        requires picks { to ≤ length picks.now.items }
        requires inside { (k n : ℕ) → k < length picks.now.items → slice_index_or picks.now.items k NoSample
            ≡ Number n → n < image.now.width * image.now.rows }
        ensures { IsPainted (λ col. given_where
            (mask_dot dot image.now (picked (slice_index_or picks.now.items col NoSample)))
            (is_in from to col)) self.old self.new }
    {
        put_mask(
            &mut self.dots,
            picks,
            from as usize,
            to as usize,
            image,
            dot,
        );
    }

    /// Puts an ink over the dots that a mask's samples paint and another mask leaves open, in the columns before
    /// `width`. The row has this number on the page.
    pub(crate) fn put_open_mask(
        &mut self,
        picks: &Vec<Pick>,
        mask: &BandMask,
        row: u32,
        width: u32,
        image: &Image,
        dot: T,
    )
        requires row { IsRowOfBand mask.now row }
        requires range { width ≤ mask.now.width }
        requires within { width ≤ length self.old }
        requires picks { width ≤ length picks.now.items }
        requires inside { (k n : ℕ) → k < length picks.now.items → slice_index_or picks.now.items k NoSample
            ≡ Number n → n < image.now.width * image.now.rows }
        ensures { IsPainted (λ col. given_where
            (mask_dot dot image.now (picked (slice_index_or picks.now.items col NoSample)))
            (is_in 0 width col && is_open mask.now.regions row col)) self.old self.new }
    {
        let mut from = 0;
        while let Some(run) = mask.open_run(row, from, width) {
            let (begins, ends) = ends_of(&run);
            self.put_mask(picks, begins, ends, image, dot);
            from = ends;
        }
    }
}
