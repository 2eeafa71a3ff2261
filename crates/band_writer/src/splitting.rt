//! Splitting a page.
ghost use Rattle.std.specs.Prelude.{◌≡◌, ◌≤◌, ◌<◌, ◌^◌, ◌++◌, ◌∷◌, [], ℕ, List, IfOk, OnOk, length, nat_le, nat_lt};
ghost use Rattle.std.specs.Prelude.{replicate};
ghost use Rattle.std.specs.Prelude.{◌&&◌};
ghost use Rattle.page_model.specs.Marking.{MarkValue};
ghost use Rattle.page_model.specs.Pages.{band_count};
ghost use Rattle.list_codec.specs.Command.{IsCmd};
ghost use Rattle.list_codec.specs.Spelling.{cmd_bytes};
ghost use Rattle.band_writer.specs.Bands.{meets, mark_images};
ghost use Rattle.band_writer.specs.Listing.{paint_cmd};
ghost use Rattle.band_writer.specs.Parts.{IsSplit, IsSpelling, IsSuitedMark};
ghost use Rattle.band_writer.specs.Code.Drafts.{IsAdded, empty_draft};
ghost use Rattle.band_writer.specs.Code.Working.{IsUnderWay};

use crate::draft::Draft;
use crate::lists::BandLists;
use crate::parts::{Images, PageParts};
use list_codec::{put_draw, put_image, put_mask};
use page_model::{Depth, Mark, Page, Paint, reach};
use press_fault::Mem;
use std::alloc::Global;
use std::sync::Arc;

/// Splits a page into bands of so many rows, at a depth of 8 bits; the last may have fewer. Each mark
/// is spelled once, and its bytes stand in each band of which it reaches a row.
pub fn split(alloc: Global, page: &Page, height: u32) -> Mem<BandLists>
    requires { 1 ≤ height }
    ensures { IfOk result (IsSplit page.now height) }
{
    let mut work = Work::new(alloc, page.height, height)?;
    for mark in page.marks.items() {
        work.add(mark)?;
    }
    let parts = PageParts {
        width: page.width,
        height: page.height,
        band: height,
        depth: Depth::Eight,
        images: work.images,
    };
    BandLists::of(alloc, parts, work.drafts)
}

/// A page on its way into bands.
#[derive(Drop)]
struct Work {
    /// How many rows the page has.
    height: u32,
    /// How many rows a band has.
    band: u32,
    drafts: Vec<Draft>,
    images: Images,
    /// The spelling of what paints the last mark; its room is used again.
    painted: Vec<u8>,
}

impl Work {
    /// The bands of a page of so many rows, each of so many, without marks.
    fn new(alloc: Global, height: u32, band: u32) -> Mem<Work>
        requires { 1 ≤ band }
        ensures { IfOk result (IsUnderWay height band []) }
    {
        Ok(Work {
            height,
            band,
            drafts: empty_drafts(alloc, height.div_ceil(band))?,
            images: Images::new(alloc),
            painted: Vec::new(alloc),
        })
    }

    /// Adds a mark to the bands that it meets, and its image to the table.
    fn add(&mut self, mark: &Mark) -> Mem<()>
        requires band { 1 ≤ self.old.band }
        requires count { length self.old.drafts.items ≡ band_count self.old.height self.old.band }
        requires few { length self.old.images < 2 ^ 32 }
        ensures { (rows band_rows : ℕ) (marks : List MarkValue) → IsUnderWay rows band_rows marks self.old →
            OnOk result (IsUnderWay rows band_rows (marks ++ mark.now ∷ []) self.new) }
    {
        self.painted.clear();
        let place = self.images.items().len() as u32;
        spell(&mut self.painted, mark, place)?;
        let (from, to) = bands_of(mark, self.height, self.band);
        add_to(&mut self.drafts, mark, &self.painted, from, to)?;
        keep_image(&mut self.images, mark)
    }
}

/// So many drafts without commands.
fn empty_drafts(alloc: Global, count: u32) -> Mem<Vec<Draft>>
    ensures { IfOk result (λ drafts. drafts.items ≡ replicate count empty_draft) }
{
    let mut drafts = Vec::with_capacity(alloc, count as usize)?;
    for _band in 0..count {
        drafts.push(Draft::new(alloc))?;
    }
    Ok(drafts)
}

/// Spells the command that paints a mark, whose image, if it has one, has a place in the table.
fn spell(to: &mut Vec<u8>, mark: &Mark, place: u32) -> Mem<()>
    requires { to.old.items ≡ [] }
    ensures ok { OnOk result (to.new.items ≡ cmd_bytes (paint_cmd place mark.now mark.now.paint)) }
    ensures command { OnOk result (IsCmd (paint_cmd place mark.now mark.now.paint)) }
    ensures suited { IsSuitedMark mark.now }
{
    match &mark.paint {
        Paint::Flat(_) => put_draw(to, mark.rule, &mark.shapes),
        Paint::Image(_) => put_image(to, place),
        Paint::Mask(_, _) => put_mask(to, place),
    }
}

/// The bands that a mark meets, on a page of so many rows: from the first up to and without the second.
fn bands_of(mark: &Mark, height: u32, band_rows: u32) -> (u32, u32)
    requires { 1 ≤ band_rows }
    ensures order { result.0 ≤ result.1 }
    ensures within { result.1 ≤ band_count height band_rows }
    ensures bands { (band : ℕ) → meets height band_rows band mark.now ≡ (nat_le result.0 band && nat_lt band result.1) }
{
    let (first, end) = reach(mark, height);
    if first == end {
        return (0, 0);
    }
    (first / band_rows, (end - 1) / band_rows + 1)
}

/// Adds a mark to the drafts of some bands.
fn add_to(drafts: &mut Vec<Draft>, mark: &Mark, painted: &[u8], from: u32, to: u32) -> Mem<()>
    requires order { from ≤ to }
    requires within { to ≤ length drafts.old.items }
    requires painted { IsSpelling painted.now }
    ensures { OnOk result
        (IsAdded (λ band. nat_le from band && nat_lt band to) mark.now painted.now drafts.old.items drafts.new.items) }
{
    for band in from..to {
        let draft = &mut drafts[band as usize];
        draft.add(mark, painted)?;
    }
    Ok(())
}

/// Puts the image of a mark, if it has one, into the table.
fn keep_image(images: &mut Images, mark: &Mark) -> Mem<()>
    ensures { OnOk result (images.new ≡ images.old ++ mark_images mark.now) }
{
    match &mark.paint {
        Paint::Flat(_) => Ok(()),
        Paint::Image(image) => images.push(Arc::try_clone(image)?),
        Paint::Mask(image, _) => images.push(Arc::try_clone(image)?),
    }
}
