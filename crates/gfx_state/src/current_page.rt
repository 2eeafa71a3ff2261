//! The current page: the marks so far.
ghost use Rattle.std.specs.Prelude.{◌≡◌, ◌≤◌, ◌*◌, true, OnOk, OnErr};
ghost use Rattle.page_model.specs.Page.{HasKnownSource, HaveNumberedClips};
ghost use Rattle.gfx_state.specs.Points.{all_points, paint_samples};
ghost use Rattle.gfx_state.specs.CurrentPage.{blank_page, with_mark, has_room, has_sample_room, has_image_room};

use page_model::{Mark, Marks, Page};
use press_fault::Mem;
use std::alloc::Global;
use std::marker::Model;

/// The most marks of a page.
const MARKS: usize = 1_000_000;

/// The most points of a page's marks.
pub(crate) const POINTS: u64 = 4_194_304;

/// The most samples of a page's images and masks.
const SAMPLES: u64 = 67_108_864;

/// The current page: its marks, and the counts that its limits speak of.
#[derive(Drop)]
pub(crate) struct CurrentPage {
    marks: Marks,
    /// The points of all shapes, a disc counting as one.
    points: u64,
    /// The samples of all images and masks, one for each channel of each place.
    samples: u64,
    /// How many source profiles the marks go by.
    sources: u32,
}

impl Model for CurrentPage {
    ghost use Rattle.gfx_state.specs.CurrentPage.{CurrentPageValue, IsCurrentPage};

    ghost Value = { CurrentPageValue };

    ghost view = { λ p. record { marks = p.marks; sources = p.sources } };

    ghost invariant = { λ p. IsCurrentPage p.marks p.points p.samples p.sources };
}

impl CurrentPage {
    /// A page without marks.
    pub(crate) fn blank(alloc: Global) -> CurrentPage
        ensures { result ≡ blank_page }
    {
        CurrentPage {
            marks: Marks::new(alloc),
            points: 0,
            samples: 0,
            sources: 0,
        }
    }

    /// Whether there is room for one more mark of so many points.
    pub(crate) fn has_room(&self, points: u64) -> bool
        ensures { result ≡ has_room self.now points }
    {
        self.marks.items().len() < MARKS && points <= POINTS - self.points
    }

    /// Whether there is room for so many samples more.
    pub(crate) fn has_sample_room(&self, samples: u64) -> bool
        ensures { result ≡ has_sample_room self.now samples }
    {
        samples <= SAMPLES - self.samples
    }

    /// Whether there is room for one more image or mask of so many samples.
    pub(crate) fn has_image_room(&self, samples: u64) -> bool
        ensures { result ≡ has_image_room self.now samples }
    {
        self.marks.items().len() < MARKS && self.has_sample_room(samples)
    }

    /// Adds a mark of shapes of so many points, for which there is room. Out of memory leaves the page
    /// as before.
    pub(crate) fn push_shapes(&mut self, mark: Mark, points: u64) -> Mem<()>
        requires points { points ≡ all_points mark.shapes }
        requires samples { paint_samples mark.paint ≡ 0 }
        requires room { has_room self.old points ≡ true }
        requires known { HasKnownSource self.old.sources mark }
        ensures ok { OnOk result (self.new ≡ with_mark self.old mark) }
        ensures err { OnErr result (self.new ≡ self.old) }
    {
        self.marks.push(mark)?;
        self.points += points;
        Ok(())
    }

    /// Adds the mark of an image or a mask of so many samples, for which there is room. Out of memory
    /// leaves the page as before.
    pub(crate) fn push_image(&mut self, mark: Mark, samples: u64) -> Mem<()>
        requires points { all_points mark.shapes ≡ 0 }
        requires samples { samples ≡ paint_samples mark.paint }
        requires room { has_image_room self.old samples ≡ true }
        requires known { HasKnownSource self.old.sources mark }
        ensures ok { OnOk result (self.new ≡ with_mark self.old mark) }
        ensures err { OnErr result (self.new ≡ self.old) }
    {
        self.marks.push(mark)?;
        self.samples += samples;
        Ok(())
    }

    /// The page of this size in dots.
    pub(crate) fn into_page(self, width: u32, height: u32) -> Page
        requires width { width ≤ 16384 }
        requires height { height ≤ 16384 }
        requires dots { width * height ≤ 67108864 }
        requires numbered { HaveNumberedClips self.marks }
        ensures page { result ≡ record { width = width; height = height; sources = self.sources; marks = self.marks } }
        ensures plain { result.sources ≡ 0 }
    {
        Page {
            width,
            height,
            sources: self.sources,
            marks: self.marks,
        }
    }
}
