//! Playing the list of a band: its marks drawn in order, each with the colours of its source.
ghost use Rattle.std.specs.Prelude.{◌≡◌, ◌+◌, ◌-◌, ◌*◌, ◌<◌, ◌≤◌, ◌++◌, ◌^◌, ℕ, List, length, replicate, true, false};
ghost use Rattle.std.specs.Prelude.{IfOk, OnOk, OnErr};
ghost use Rattle.std.specs.Prelude.{Contains, option_map, map, All, [], None, Some, MatchOption, IfSome};
ghost use Rattle.std.specs.List.{slice_get};
ghost use Rattle.std.specs.Option.{option_copied, option_to_list};
ghost use Rattle.std.specs.List.{flat_map};
ghost use Rattle.std.specs.Arc.{arc_value};
ghost use Rattle.press_fault.specs.Plane.{CodeValue};
ghost use Rattle.page_model.specs.Marking.{MarkValue};
ghost use Rattle.page_model.specs.Page.{ink_source as source_of_ink};
ghost use Rattle.page_model.specs.Cover.{HasChannels, white};
ghost use Rattle.page_model.specs.Pages.{band_count, rows_of_band};
ghost use Rattle.page_model.specs.declared.shape.Shape.{Shape as AnyShape};
ghost use Rattle.list_codec.specs.Command.{brief_value};
ghost use Rattle.band_writer.specs.Bands.{needs_of};
ghost use Rattle.band_writer.specs.Listing.{opening};
ghost use Rattle.list_player.specs.Painting.{ArePainted, IsBand};
ghost use Rattle.list_player.specs.Memo.{Remembers};
ghost use Rattle.list_player.specs.Playing.{SayMarks, dots_of, tint_at};
ghost use Rattle.list_player.specs.Code.Steps.{lent_at, lent_dot, loan_tint, marks_dot, cmd_marks, cmd_source};
ghost use Rattle.list_player.specs.Code.Steps.{ink_after};
ghost use Rattle.list_player.specs.Code.Steps.{clip_after, CmdHasChannels, AreServable, NeedsNow, GoesBy, IsPlayed};
ghost use Rattle.list_player.specs.Code.Steps.{HasPlayed, ShowMarks, is_served as serves, awaited};
ghost use Rattle.band_writer.specs.Parts.{AreSpellings};

use crate::colours::Unlinked;
use crate::dot::Dot;
use crate::drawing::Band;
use crate::memo::Memo;
use crate::picture::ink_dot;
use crate::{BandDots, Colours, Lent};
use band_writer::{BandList, PageParts};
use list_codec::{Brief, CmdRoom};
use page_model::{Depth, Image, Ink, Rule};
use press_fault::{Code, Mem};
use std::alloc::Global;
use std::sync::Arc;

/// Draws a band of a page from its list. The list and the parts are of one split; the depth is that of the parts.
///
/// It lends exactly the sources that the band needs, in order, one at a time, and gives each back, also where memory
/// runs out.
pub fn play<C: Colours>(
    alloc: Global,
    list: &BandList,
    parts: &PageParts,
    colours: &mut C,
) -> Mem<BandDots>
    requires rows { 0 < parts.now.band }
    requires band { list.now.band < band_count parts.now.height parts.now.band }
    requires known { (marks : List MarkValue) → SayMarks parts.now.images list.now.bytes marks →
        All (λ source. Contains (C.sources colours.old) source) (needs_of marks) }
    requires channels { (marks : List MarkValue) → SayMarks parts.now.images list.now.bytes marks →
        All (HasChannels (C.channels colours.old)) marks }
    requires free { C.is_busy colours.old ≡ false }
    ensures dots { (marks : List MarkValue) → SayMarks parts.now.images list.now.bytes marks →
        IfOk result (λ dots. dots ≡ dots_of
        (tint_at parts.now.depth (C.colour colours.old) (C.wide colours.old)) parts.now list.now.band marks) }
    ensures lent { (marks : List MarkValue) → SayMarks parts.now.images list.now.bytes marks →
        OnOk result (C.lent colours.new
        ≡ option_map (λ sources. sources ++ needs_of marks) (C.lent colours.old)) }
    ensures tries { (marks : List MarkValue) → SayMarks parts.now.images list.now.bytes marks →
        OnOk result (C.tries colours.new ≡ C.tries colours.old + length (needs_of marks)) }
    ensures few { (marks : List MarkValue) → SayMarks parts.now.images list.now.bytes marks →
        OnErr result (C.tries colours.new ≤ C.tries colours.old + length (needs_of marks)) }
    ensures free { C.is_busy colours.new ≡ false }
{
    match parts.depth {
        Depth::Eight => play_at::<[u8; 3], C>(alloc, list, parts, colours),
        Depth::Sixteen => play_at::<[u8; 6], C>(alloc, list, parts, colours),
    }
}

/// Draws a band of a page from its list, where no mark of it goes by a source. The list and the parts are of one split;
/// the depth is that of the parts.
pub fn play_plain(alloc: Global, list: &BandList, parts: &PageParts) -> Mem<BandDots>
    requires rows { 0 < parts.now.band }
    requires band { list.now.band < band_count parts.now.height parts.now.band }
    requires plain { (marks : List MarkValue) → SayMarks parts.now.images list.now.bytes marks →
        needs_of marks ≡ [] }
    ensures { (colour wide : ℕ → CodeValue → List ℕ) (marks : List MarkValue) →
        SayMarks parts.now.images list.now.bytes marks →
        IfOk result (λ dots. dots ≡ dots_of (tint_at parts.now.depth colour wide) parts.now list.now.band marks) }
{
    match parts.depth {
        Depth::Eight => plain_at::<[u8; 3]>(alloc, list, parts),
        Depth::Sixteen => plain_at::<[u8; 6]>(alloc, list, parts),
    }
}

/// Draws a band whose marks go by no source, at the depth of a kind of dot.
fn plain_at<T: Dot>(alloc: Global, list: &BandList, parts: &PageParts) -> Mem<BandDots>
    requires rows { 0 < parts.now.band }
    requires band { list.now.band < band_count parts.now.height parts.now.band }
    requires depth { parts.now.depth ≡ T.depth }
    requires plain { (marks : List MarkValue) → SayMarks parts.now.images list.now.bytes marks →
        needs_of marks ≡ [] }
    ensures { (colour wide : ℕ → CodeValue → List ℕ) (marks : List MarkValue) →
        SayMarks parts.now.images list.now.bytes marks →
        IfOk result (λ dots. dots ≡ dots_of (tint_at parts.now.depth colour wide) parts.now list.now.band marks) }
{
    let band = list.band();
    let mut playing = Playing::<T>::new(alloc, parts, band)?;
    playing.play_unlinked(parts.images.items(), list.bytes())?;
    let dots = playing.finish(alloc, band)?;
    Ok(dots)
}

/// Draws a band at the depth of a kind of dot.
fn play_at<T: Dot, C: Colours>(
    alloc: Global,
    list: &BandList,
    parts: &PageParts,
    colours: &mut C,
) -> Mem<BandDots>
    requires rows { 0 < parts.now.band }
    requires band { list.now.band < band_count parts.now.height parts.now.band }
    requires depth { parts.now.depth ≡ T.depth }
    requires known { (marks : List MarkValue) → SayMarks parts.now.images list.now.bytes marks →
        All (λ source. Contains (C.sources colours.old) source) (needs_of marks) }
    requires channels { (marks : List MarkValue) → SayMarks parts.now.images list.now.bytes marks →
        All (HasChannels (C.channels colours.old)) marks }
    requires free { C.is_busy colours.old ≡ false }
    ensures dots { (marks : List MarkValue) → SayMarks parts.now.images list.now.bytes marks →
        IfOk result (λ dots. dots ≡ dots_of
        (tint_at parts.now.depth (C.colour colours.old) (C.wide colours.old)) parts.now list.now.band marks) }
    ensures lent { (marks : List MarkValue) → SayMarks parts.now.images list.now.bytes marks →
        OnOk result (C.lent colours.new
        ≡ option_map (λ sources. sources ++ needs_of marks) (C.lent colours.old)) }
    ensures tries { (marks : List MarkValue) → SayMarks parts.now.images list.now.bytes marks →
        OnOk result (C.tries colours.new ≡ C.tries colours.old + length (needs_of marks)) }
    ensures few { (marks : List MarkValue) → SayMarks parts.now.images list.now.bytes marks →
        OnErr result (C.tries colours.new ≤ C.tries colours.old + length (needs_of marks)) }
    ensures free { C.is_busy colours.new ≡ false }
{
    let band = list.band();
    let mut playing = Playing::<T>::new(alloc, parts, band)?;
    playing.play_list(alloc, parts.images.items(), list.bytes(), colours)?;
    let dots = playing.finish(alloc, band)?;
    Ok(dots)
}

/// A band that is being drawn from its list.
#[derive(Drop)]
struct Playing<T: Copy> {
    band: Band<T>,
    memo: Memo<T>,
    /// The ink that holds.
    ink: Ink,
    commands: CmdRoom,
    /// The source that the next command needs, where it is another than the last loan's.
    need: Option<u32>,
}

impl<T: Dot> Playing<T> {
    /// A band of a page, without marks.
    fn new(alloc: Global, parts: &PageParts, band: u32) -> Mem<Playing<T>>
        requires rows { 0 < parts.now.band }
        requires band { band < band_count parts.now.height parts.now.band }
        ensures rows { IfOk result (λ playing. playing.band.rows.items
            ≡ replicate (rows_of_band parts.now.height parts.now.band band)
            (replicate parts.now.width (T.dot (white T.depth)))) }
        ensures clip { IfOk result (λ playing. playing.band.clip ≡ record {
          width = parts.now.width;
          first = band * parts.now.band;
          rows = rows_of_band parts.now.height parts.now.band band;
          regions = [];
        }) }
        ensures band { IfOk result (λ playing. IsBand playing.band.clip playing.band.rows.items) }
        ensures ink { IfOk result (λ playing. playing.ink ≡ opening.ink) }
        ensures need { IfOk result (λ playing. playing.need ≡ None) }
    {
        let (height, rows) = (parts.height, parts.band);
        let first = first_of(height, rows, band);
        let count = count_of(height, rows, first, band);
        Ok(Playing {
            band: Band::new(alloc, parts.width, first, count)?,
            memo: Memo::new(alloc),
            ink: Ink::Plain(Code::gray(0)),
            commands: CmdRoom::new(alloc),
            need: None,
        })
    }

    /// Plays a list from its beginning, over white rows.
    fn play_list<C: Colours>(
        &mut self,
        alloc: Global,
        images: &[Arc<Image>],
        bytes: &[u8],
        colours: &mut C,
    ) -> Mem<()>
        requires band { IsBand self.old.band.clip self.old.band.rows.items }
        requires white { (tint : ℕ → CodeValue → List ℕ) → ShowMarks T.dot T.depth tint self.old.band.clip.width
            self.old.band.clip.first self.old.band.clip.rows [] self.old.band.rows.items }
        requires clip { self.old.band.clip.regions ≡ [] }
        requires ink { self.old.ink ≡ opening.ink }
        requires need { self.old.need ≡ None }
        requires spellings { AreSpellings bytes.now }
        requires known { (marks : List MarkValue) → SayMarks (map arc_value images.now) bytes.now marks →
            All (λ source. Contains (C.sources colours.old) source) (needs_of marks) }
        requires channels { (marks : List MarkValue) → SayMarks (map arc_value images.now) bytes.now marks →
            All (HasChannels (C.channels colours.old)) marks }
        requires free { C.is_busy colours.old ≡ false }
        ensures shown { (marks : List MarkValue) → SayMarks (map arc_value images.now) bytes.now marks →
            OnOk result (ShowMarks T.dot T.depth (tint_at T.depth (C.colour colours.old) (C.wide colours.old))
            self.old.band.clip.width self.old.band.clip.first self.old.band.clip.rows marks self.new.band.rows.items) }
        ensures clip { OnOk result (self.new.band.clip
            ≡ record self.old.band.clip { regions = self.new.band.clip.regions }) }
        ensures lent { (marks : List MarkValue) → SayMarks (map arc_value images.now) bytes.now marks →
            OnOk result (C.lent colours.new
            ≡ option_map (λ sources. sources ++ needs_of marks) (C.lent colours.old)) }
        ensures tries { (marks : List MarkValue) → SayMarks (map arc_value images.now) bytes.now marks →
            OnOk result (C.tries colours.new ≡ C.tries colours.old + length (needs_of marks)) }
        ensures few { (marks : List MarkValue) → SayMarks (map arc_value images.now) bytes.now marks →
            OnErr result (C.tries colours.new ≤ C.tries colours.old + length (needs_of marks)) }
        ensures free { C.is_busy colours.new ≡ false }
    {
        let mut rest = self.run(images, bytes, &Unlinked)?;
        while let Some(source) = self.need {
            let loan = colours.lend(alloc, source)?;
            let ran = self.run(images, rest, &loan);
            colours.give_back(loan);
            rest = ran?;
        }
        Ok(())
    }

    /// Plays a list whose marks go by no source, from its beginning, over white rows.
    fn play_unlinked(&mut self, images: &[Arc<Image>], bytes: &[u8]) -> Mem<()>
        requires band { IsBand self.old.band.clip self.old.band.rows.items }
        requires white { (tint : ℕ → CodeValue → List ℕ) → ShowMarks T.dot T.depth tint self.old.band.clip.width
            self.old.band.clip.first self.old.band.clip.rows [] self.old.band.rows.items }
        requires clip { self.old.band.clip.regions ≡ [] }
        requires ink { self.old.ink ≡ opening.ink }
        requires need { self.old.need ≡ None }
        requires spellings { AreSpellings bytes.now }
        requires plain { (marks : List MarkValue) → SayMarks (map arc_value images.now) bytes.now marks →
            needs_of marks ≡ [] }
        ensures shown { (tint : ℕ → CodeValue → List ℕ) (marks : List MarkValue) →
            SayMarks (map arc_value images.now) bytes.now marks → OnOk result (ShowMarks T.dot T.depth tint
            self.old.band.clip.width self.old.band.clip.first self.old.band.clip.rows marks self.new.band.rows.items) }
        ensures clip { OnOk result (self.new.band.clip
            ≡ record self.old.band.clip { regions = self.new.band.clip.regions }) }
    {
        self.run(images, bytes, &Unlinked)?;
        Ok(())
    }

    /// Plays on with a loan of the source that is needed, up to the next command that needs another one, or to the end.
    /// It answers the commands that are left.
    fn run<'b, L: Lent>(
        &mut self,
        images: &[Arc<Image>],
        bytes: &'b [u8],
        loan: &L,
    ) -> Mem<&'b [u8]>
        requires band { IsBand self.old.band.clip self.old.band.rows.items }
        requires servable { AreServable self.old.need (L.channels loan.now) (map arc_value images.now) self.old.ink
            bytes.now }
        requires next { NeedsNow (map arc_value images.now) self.old.ink bytes.now self.old.need }
        ensures band { OnOk result (IsBand self.new.band.clip self.new.band.rows.items) }
        ensures clip { OnOk result (self.new.band.clip
            ≡ record self.old.band.clip { regions = self.new.band.clip.regions }) }
        ensures next { IfOk result (λ rest. NeedsNow (map arc_value images.now) self.new.ink rest.now self.new.need) }
        ensures less { IfOk result (λ rest. IfSome self.old.need (λ source.
            length rest.now + awaited self.new.need < length bytes.now + 1)) }
        ensures played { (tint : ℕ → CodeValue → List ℕ) (whole : List MarkValue) (met : List ℕ) →
            GoesBy self.old.need tint (lent_at T.depth (L.colour loan.now) (L.wide loan.now)) →
            IsPlayed T.dot T.depth tint (map arc_value images.now) whole met self.old.need
            self.old.band.clip self.old.band.rows.items self.old.ink bytes.now →
            IfOk result (λ rest. HasPlayed T.dot T.depth tint (map arc_value images.now) whole
            (met ++ option_to_list self.old.need) self.new.need
            self.new.band.clip self.new.band.rows.items self.new.ink rest.now) }
    {
        let source = self.need;
        self.need = None;
        self.memo.forget(loan)?;
        self.run_on(images, bytes, source, loan)
    }

    /// Plays on with the loan of a source.
    fn run_on<'b, L: Lent>(
        &mut self,
        images: &[Arc<Image>],
        bytes: &'b [u8],
        source: Option<u32>,
        loan: &L,
    ) -> Mem<&'b [u8]>
        requires free { self.old.need ≡ None }
        requires band { IsBand self.old.band.clip self.old.band.rows.items }
        requires memo { Remembers (lent_dot T.dot T.depth (L.colour loan.now) (L.wide loan.now))
            self.old.memo.told.items }
        requires servable { AreServable source (L.channels loan.now) (map arc_value images.now) self.old.ink bytes.now }
        requires next { NeedsNow (map arc_value images.now) self.old.ink bytes.now source }
        ensures band { OnOk result (IsBand self.new.band.clip self.new.band.rows.items) }
        ensures clip { OnOk result (self.new.band.clip
            ≡ record self.old.band.clip { regions = self.new.band.clip.regions }) }
        ensures next { IfOk result (λ rest. NeedsNow (map arc_value images.now) self.new.ink rest.now self.new.need) }
        ensures less { IfOk result (λ rest. IfSome source (λ lent.
            length rest.now + awaited self.new.need < length bytes.now + 1)) }
        ensures played { (tint : ℕ → CodeValue → List ℕ) (whole : List MarkValue) (met : List ℕ) →
            GoesBy source tint (lent_at T.depth (L.colour loan.now) (L.wide loan.now)) →
            IsPlayed T.dot T.depth tint (map arc_value images.now) whole met source
            self.old.band.clip self.old.band.rows.items self.old.ink bytes.now →
            IfOk result (λ rest. HasPlayed T.dot T.depth tint (map arc_value images.now) whole
            (met ++ option_to_list source) self.new.need
            self.new.band.clip self.new.band.rows.items self.new.ink rest.now) }
    {
        let mut rest = bytes;
        while let Some((brief, count)) = self.commands.read(rest)? {
            let need = source_of(&brief, self.ink, images);
            if !is_served(source, need) {
                self.need = need;
                return Ok(rest);
            }
            self.obey(brief, images, loan)?;
            let (_, after) = rest.split_at(count);
            rest = after;
        }
        Ok(rest)
    }

    /// Does what a command says; a code that goes by a source goes by the loan.
    fn obey<L: Lent>(&mut self, brief: Brief, images: &[Arc<Image>], loan: &L) -> Mem<()>
        requires band { IsBand self.old.band.clip self.old.band.rows.items }
        requires memo { Remembers (lent_dot T.dot T.depth (L.colour loan.now) (L.wide loan.now))
            self.old.memo.told.items }
        requires channels { CmdHasChannels (λ source. L.channels loan.now) (map arc_value images.now) self.old.ink
            (brief_value brief self.old.commands) }
        ensures painted { OnOk result (ArePainted self.old.band.clip.first self.old.band.clip.rows
            (marks_dot T.dot T.depth (loan_tint T.depth (L.colour loan.now) (L.wide loan.now))
            (cmd_marks (map arc_value images.now) self.old.ink self.old.band.clip.regions
            (brief_value brief self.old.commands)))
            self.old.band.rows.items self.new.band.rows.items) }
        ensures clip { OnOk result (self.new.band.clip
            ≡ clip_after self.old.band.clip (brief_value brief self.old.commands)) }
        ensures ink { OnOk result (self.new.ink ≡ ink_after self.old.ink (brief_value brief self.old.commands)) }
        ensures need { self.new.need ≡ self.old.need }
        ensures memo { Remembers (lent_dot T.dot T.depth (L.colour loan.now) (L.wide loan.now))
            self.new.memo.told.items }
    {
        match brief {
            Brief::Flat(ink) => {
                self.ink = ink;
                Ok(())
            }
            Brief::Clip(clip) => self.band.cut(&clip),
            Brief::Draw(rule) => {
                let dot = ink_dot(&mut self.memo, self.ink, loan);
                self.band.draw(self.commands.shapes(), rule, dot)?;
                Ok(())
            }
            Brief::Image(place) => match image_at(images, place) {
                Some(image) => {
                    self.band.picture(image, &mut self.memo, loan)?;
                    Ok(())
                }
                None => Ok(()),
            },
            Brief::Mask(place) => match image_at(images, place) {
                Some(image) => {
                    let dot = ink_dot(&mut self.memo, self.ink, loan);
                    self.band.mask(image, dot)?;
                    Ok(())
                }
                None => Ok(()),
            },
        }
    }

    /// The band's dots in bytes.
    fn finish(&self, alloc: Global, band: u32) -> Mem<BandDots>
        ensures { IfOk result (λ dots. dots ≡ record {
          band = band;
          rows = self.now.band.clip.rows;
          dots = flat_map (flat_map T.bytes) self.now.band.rows.items;
        }) }
    {
        Ok(BandDots {
            band,
            rows: self.band.count(),
            dots: self.band.bytes(alloc)?,
        })
    }
}

/// The number of the first row of a band, on a page of so many rows in bands of so many.
#[tactic(auto, using(crate::proofs::Counts::band_begins))]
fn first_of(height: u32, rows: u32, band: u32) -> u32
    requires rows { 0 < rows }
    requires band { band < band_count height rows }
    ensures value { result ≡ band * rows }
    ensures inside { result < height }
{
    band * rows
}

/// How many rows a band has, by the number of its first.
#[tactic(auto, using(crate::proofs::Counts::rows_are))]
fn count_of(height: u32, rows: u32, first: u32, band: u32) -> u32
    requires first { first ≡ band * rows }
    requires inside { first < height }
    ensures value { result ≡ rows_of_band height rows band }
    ensures numbered { first + result ≤ 2 ^ 32 }
{
    rows.min(height - first)
}

/// The image of a place in the page's table.
fn image_at(images: &[Arc<Image>], place: u32) -> Option<&Image>
    ensures { option_copied result ≡ slice_get (map arc_value images.now) place }
{
    match images.get(place as usize) {
        Some(image) => Some(image),
        None => None,
    }
}

/// The source of a command's colours, by the ink that holds and the page's images, if it has one.
fn source_of(brief: &Brief, ink: Ink, images: &[Arc<Image>]) -> Option<u32>
    ensures { (shapes : List AnyShape) →
        result ≡ cmd_source (map arc_value images.now) ink (brief_value brief.now shapes) }
{
    match brief {
        Brief::Flat(_) => None,
        Brief::Clip(_) => None,
        Brief::Draw(_) => ink_source(ink),
        Brief::Image(place) => match image_at(images, *place) {
            Some(image) => image.source,
            None => None,
        },
        Brief::Mask(place) => match image_at(images, *place) {
            Some(_) => ink_source(ink),
            None => None,
        },
    }
}

/// The source of an ink, if it has one.
fn ink_source(ink: Ink) -> Option<u32>
    ensures { result ≡ source_of_ink ink }
{
    match ink {
        Ink::Plain(_) => None,
        Ink::Linked { source, code: _ } => Some(source),
    }
}

/// Whether a command can be played with the loan of a source, or without one.
fn is_served(loan: Option<u32>, need: Option<u32>) -> bool
    ensures { result ≡ serves loan need }
{
    match need {
        None => true,
        Some(source) => match loan {
            None => false,
            Some(lent) => lent == source,
        },
    }
}
