//! A band that is drawn: its rows of dots, what paints them, and their bytes.
ghost use Rattle.std.specs.Prelude.{◌≡◌, ◌+◌, ◌*◌, ◌<◌, ◌≤◌, ◌^◌, ◌++◌, ◌&&◌, [], ℕ, List, length, replicate};
ghost use Rattle.std.specs.Prelude.{slice_index_or};
ghost use Rattle.std.specs.Prelude.{OnOk, OnErr, IfOk, Some};
ghost use Rattle.std.specs.List.{flat_map, list_any};
ghost use Rattle.std.specs.Arc.{arc_value};
ghost use Rattle.page_model.specs.Cover.{shape_holds, white, ImageHasChannels};
ghost use Rattle.page_model.specs.Sample.{sample_at};
ghost use Rattle.geo_clip.specs.Mask.{is_open};
ghost use Rattle.img_map.specs.declared.row.Pick.TheVariants.{Outside as NoSample, At as Number};
ghost use Rattle.img_map.specs.Picks.{HaveSamples};
ghost use Rattle.list_player.specs.Painting.{given_where, sample_dot, mask_dot, ArePainted, IsBand};
ghost use Rattle.list_player.specs.Code.Steps.{lent_dot, code_dot};
ghost use Rattle.list_player.specs.Memo.{Remembers};

use crate::Lent;
use crate::clip::BandClip;
use crate::dot::Dot;
use crate::memo::Memo;
use crate::row::{DotRow, InkRow};
use crate::rows::{PaintRoom, put_shapes, rows_of};
use img_map::{Pick, picks_are_of_the_image, row_samples};
use page_model::{Bytes, Clip, Image, Rule, Shape};
use press_fault::Mem;
use std::alloc::Global;
use std::sync::Arc;

/// A band that is being drawn: its rows, its clip, and what painting works in.
#[derive(Drop)]
pub(crate) struct Band<T: Copy> {
    rows: Vec<DotRow<T>>,
    clip: BandClip,
    room: PaintRoom,
    ink: InkRow<T>,
    /// Room for the samples of a row.
    picks: Vec<Pick>,
}

impl<T: Dot> Band<T> {
    /// White rows, `count` of them from the page's row `first` on, and a clip that cuts nothing.
    pub(crate) fn new(alloc: Global, width: u32, first: u32, count: u32) -> Mem<Band<T>>
        requires { first + count ≤ 2 ^ 32 }
        ensures rows { IfOk result (λ band. band.rows.items ≡ replicate count (replicate width
            (T.dot (white T.depth)))) }
        ensures clip { IfOk result (λ band.
            band.clip ≡ record { width = width; first = first; rows = count; regions = [] }) }
        ensures band { IfOk result (λ band. IsBand band.clip band.rows.items) }
    {
        let white = T::white();
        Ok(Band {
            rows: rows_of(alloc, white, width, count)?,
            clip: BandClip::new(alloc, width, first, count)?,
            room: PaintRoom::new(alloc),
            ink: InkRow::new(alloc, white),
            picks: Vec::new(alloc),
        })
    }

    /// How many rows it has.
    pub(crate) fn count(&self) -> u32
        ensures { result ≡ self.now.clip.rows }
    {
        self.clip.rows()
    }

    /// Another clip in place of the one before.
    pub(crate) fn cut(&mut self, clip: &Arc<Clip>) -> Mem<()>
        ensures clip { OnOk result (self.new.clip ≡ record self.old.clip { regions = arc_value clip.now }) }
        ensures rows { self.new.rows ≡ self.old.rows }
    {
        self.clip.cut(clip)
    }

    /// Paints shapes with a dot, where the clip leaves dots open.
    pub(crate) fn draw(&mut self, shapes: &[Shape], rule: Rule, dot: T) -> Mem<()>
        requires { IsBand self.old.clip self.old.rows.items }
        ensures ok { OnOk result (ArePainted self.old.clip.first self.old.clip.rows (λ row col. given_where (Some dot)
            (list_any (shape_holds rule row col) shapes.now && is_open self.old.clip.regions row col))
            self.old.rows.items self.new.rows.items) }
        ensures clip { self.new.clip ≡ self.old.clip }
    {
        self.ink.change(dot);
        put_shapes(
            &mut self.rows,
            &mut self.room,
            shapes,
            rule,
            &self.clip,
            &mut self.ink,
        )
    }

    /// Paints the samples of an image, where the clip leaves dots open.
    pub(crate) fn picture<L: Lent>(
        &mut self,
        image: &Image,
        memo: &mut Memo<T>,
        loan: &L,
    ) -> Mem<()>
        requires band { IsBand self.old.clip self.old.rows.items }
        requires channels { ImageHasChannels (λ source. L.channels loan.now) image.now.channels image.now.source }
        requires memo { Remembers (lent_dot T.dot T.depth (L.colour loan.now) (L.wide loan.now)) memo.old.told.items }
        ensures ok { OnOk result (ArePainted self.old.clip.first self.old.clip.rows (λ row col. given_where
            (sample_dot (code_dot T.dot T.depth (L.colour loan.now) (L.wide loan.now) image.now.source) image.now
            (sample_at image.now row col)) (is_open self.old.clip.regions row col))
            self.old.rows.items self.new.rows.items) }
        ensures clip { self.new.clip ≡ self.old.clip }
        ensures memo { Remembers (lent_dot T.dot T.depth (L.colour loan.now) (L.wide loan.now)) memo.new.told.items }
    {
        make_room(&mut self.picks, self.clip.width())?;
        put_image(
            &mut self.rows,
            &mut self.picks,
            image,
            &self.clip,
            memo,
            loan,
        );
        Ok(())
    }

    /// Paints a dot through a mask, where the clip leaves dots open.
    pub(crate) fn mask(&mut self, image: &Image, dot: T) -> Mem<()>
        requires { IsBand self.old.clip self.old.rows.items }
        ensures ok { OnOk result (ArePainted self.old.clip.first self.old.clip.rows (λ row col. given_where
            (mask_dot dot image.now (sample_at image.now row col)) (is_open self.old.clip.regions row col))
            self.old.rows.items self.new.rows.items) }
        ensures clip { self.new.clip ≡ self.old.clip }
    {
        make_room(&mut self.picks, self.clip.width())?;
        put_through(&mut self.rows, &mut self.picks, image, &self.clip, dot);
        Ok(())
    }

    /// The bytes of its dots, row by row from the top.
    pub(crate) fn bytes(&self, alloc: Global) -> Mem<Bytes>
        ensures { IfOk result (λ bytes. bytes ≡ flat_map (flat_map T.bytes) self.now.rows.items) }
    {
        let dots = (self.clip.width() as usize).saturating_mul(self.rows.len());
        bytes_of(alloc, &self.rows, dots.saturating_mul(T::size()))
    }
}

/// Makes room for the samples of a row of so many dots.
fn make_room(picks: &mut Vec<Pick>, width: u32) -> Mem<()>
    ensures { OnOk result (length picks.new.items ≡ width) }
{
    picks.resize(width as usize, Pick::Outside)?;
    Ok(())
}

/// The samples of the dots of a row of the page, in place of those in the list.
fn pick_row(picks: &mut Vec<Pick>, image: &Image, row: u32)
    requires { length picks.old.items ≤ 2 ^ 32 }
    ensures size { length picks.new.items ≡ length picks.old.items }
    ensures samples { HaveSamples image.now row 0 picks.new.items }
    ensures inside { (k n : ℕ) → k < length picks.new.items → slice_index_or picks.new.items k NoSample ≡ Number n →
        n < image.now.width * image.now.rows }
{
    pick_dots(picks, image, row);
}

/// `pick_row` of a slice: a function of its own, so that its caller sees the whole list.
fn pick_dots(picks: &mut [Pick], image: &Image, row: u32)
    requires { length picks.old ≤ 2 ^ 32 }
    ensures samples { HaveSamples image.now row 0 picks.new }
    ensures inside { (k n : ℕ) → k < length picks.new → slice_index_or picks.new k NoSample ≡ Number n →
        n < image.now.width * image.now.rows }
{
    row_samples(image, row, 0, picks);
    picks_are_of_the_image();
}

/// Paints the samples of an image over the rows of a band.
fn put_image<T: Dot, L: Lent>(
    rows: &mut Vec<DotRow<T>>,
    picks: &mut Vec<Pick>,
    image: &Image,
    clip: &BandClip,
    memo: &mut Memo<T>,
    loan: &L,
)
    requires band { IsBand clip.now rows.old.items }
    requires picks { length picks.old.items ≡ clip.now.width }
    requires channels { ImageHasChannels (λ source. L.channels loan.now) image.now.channels image.now.source }
    requires memo { Remembers (lent_dot T.dot T.depth (L.colour loan.now) (L.wide loan.now)) memo.old.told.items }
    ensures put { ArePainted clip.now.first clip.now.rows (λ row col. given_where
        (sample_dot (code_dot T.dot T.depth (L.colour loan.now) (L.wide loan.now) image.now.source) image.now
        (sample_at image.now row col)) (is_open clip.now.regions row col)) rows.old.items rows.new.items }
    ensures memo { Remembers (lent_dot T.dot T.depth (L.colour loan.now) (L.wide loan.now)) memo.new.told.items }
{
    for i in 0..clip.rows() {
        pick_row(picks, image, clip.first() + i);
        let row = &mut rows[i as usize];
        clip.put_samples(row, picks, clip.first() + i, image, memo, loan);
    }
}

/// Paints a dot through a mask over the rows of a band.
fn put_through<T: Copy>(
    rows: &mut Vec<DotRow<T>>,
    picks: &mut Vec<Pick>,
    image: &Image,
    clip: &BandClip,
    dot: T,
)
    requires band { IsBand clip.now rows.old.items }
    requires picks { length picks.old.items ≡ clip.now.width }
    ensures { ArePainted clip.now.first clip.now.rows (λ row col. given_where
        (mask_dot dot image.now (sample_at image.now row col)) (is_open clip.now.regions row col))
        rows.old.items rows.new.items }
{
    for i in 0..clip.rows() {
        pick_row(picks, image, clip.first() + i);
        let row = &mut rows[i as usize];
        clip.put_mask(row, picks, clip.first() + i, image, dot);
    }
}

/// The bytes of the dots of rows, in room for so many.
fn bytes_of<T: Dot>(alloc: Global, rows: &Vec<DotRow<T>>, room: usize) -> Mem<Bytes>
    ensures { IfOk result (λ bytes. bytes ≡ flat_map (flat_map T.bytes) rows.now.items) }
{
    let mut bytes = Vec::with_capacity(alloc, room)?;
    for row in rows {
        T::put_all(&mut bytes, row.items())?;
    }
    Ok(Bytes::from_vec(bytes))
}
