//! Marks that are added to the page.
ghost use Rattle.std.specs.Prelude.{◌≡◌, ◌↔◌, true, Some, None, OnOk, OnErr, IfOk, IsErrOf, IsTrue, [], length};
ghost use Rattle.std.specs.Arc.{arc_value};
ghost use Rattle.page_model.specs.Image.{ImageValue};
ghost use Rattle.page_model.specs.Marking.{painting_of, IsSuited, Flatly};
ghost use Rattle.page_model.specs.Page.{IsNumbered, painting_source};
ghost use Rattle.gfx_state.specs.CurrentPage.{has_room, has_sample_room, has_image_room};
ghost use Rattle.gfx_state.specs.Graphics.{painted, filled, marked, mark_with, ink_of, added, with_paint, image_marked};
ghost use Rattle.gfx_state.specs.Graphics.{with_image};
ghost use Rattle.gfx_state.specs.Points.{ring_points, all_points, paint_samples};

use crate::current_page::POINTS;
use crate::gfx::Gfx;
use crate::points::{points_up_to, shape_points_up_to};
use crate::state::State;
use page_model::{Clip, Image, Ink, Mark, Paint, Rings, Rule, Shape, Shapes};
use press_fault::{Grow, Mem};
use std::sync::Arc;

impl Gfx {
    /// Adds a mark of rings in the current colour, refused exactly where the page has no room for
    /// it.
    pub fn mark_rings(&mut self, rule: Rule, rings: Rings) -> Result<(), Grow>
        ensures ok { OnOk result (painted self.old rule rings ≡ Some self.new) }
        ensures limit { IsErrOf result Grow.LimitCheck ↔ (painted self.old rule rings ≡ None) }
        ensures err { OnErr result (self.new ≡ self.old) }
    {
        let Some(points) = points_up_to(&rings, POINTS) else {
            return Err(Grow::LimitCheck);
        };
        if !self.has_room(points) {
            return Err(Grow::LimitCheck);
        }
        self.add_rings(rule, rings, points)?;
        Ok(())
    }

    /// Fills the path and empties it, refused exactly where the page has no room for the mark.
    ///
    /// One mark of one polygon of all subpaths, the curves cut into pieces; none without a point.
    /// The room is asked before the path is flattened, so a refusal takes no memory.
    #[tactic(auto, using(crate::proofs::PointLemmas::filled_points))]
    pub fn mark_fill(&mut self, rule: Rule) -> Result<(), Grow>
        ensures ok { OnOk result (filled self.old rule ≡ Some self.new) }
        ensures limit { IsErrOf result Grow.LimitCheck ↔ (filled self.old rule ≡ None) }
        ensures err { OnErr result (self.new ≡ self.old) }
    {
        if self.path().count() > 0 {
            let points = self.path().flat_count();
            if !self.has_room(points) {
                return Err(Grow::LimitCheck);
            }
            let rings = self.path().flatten()?.into_rings(self.alloc)?;
            self.add_rings(rule, rings, points)?;
        }
        self.new_path();
        Ok(())
    }

    /// Whether the page has room for one more mark of so many points: it has fewer than 1,000,000
    /// marks, and would have at most 4,194,304 points. Own rule: both limits.
    pub fn has_room(&self, points: u64) -> bool
        ensures { result ≡ has_room self.now.page points }
    {
        self.page.has_room(points)
    }

    /// Whether the page has room for so many samples more, one for each channel of each place: it would
    /// have at most 67,108,864. An operator asks so of an image's whole height before it reads any
    /// of it. Own rule: the limit.
    pub fn has_sample_room(&self, samples: u64) -> bool
        ensures { result ≡ has_sample_room self.now.page samples }
    {
        self.page.has_sample_room(samples)
    }

    /// Whether the page has room for one more image or mask of so many samples, those of the rows that
    /// came: it has fewer than 1,000,000 marks, and would have at most 67,108,864 samples. Own rule:
    /// both limits.
    pub fn has_image_room(&self, samples: u64) -> bool
        ensures { result ≡ has_image_room self.now.page samples }
    {
        self.page.has_image_room(samples)
    }

    /// Adds a mark of the shapes of a stroke, if there are any, refused exactly where the page has
    /// no room for it.
    pub(crate) fn mark_shapes(&mut self, shapes: Shapes) -> Result<(), Grow>
        ensures ok { OnOk result (marked self.old shapes ≡ Some self.new) }
        ensures limit { IsErrOf result Grow.LimitCheck ↔ (marked self.old shapes ≡ None) }
        ensures err { OnErr result (self.new ≡ self.old) }
    {
        if shapes.items().is_empty() {
            return Ok(());
        }
        let Some(points) = shape_points_up_to(&shapes, POINTS) else {
            return Err(Grow::LimitCheck);
        };
        if !self.has_room(points) {
            return Err(Grow::LimitCheck);
        }
        self.add_shapes(Rule::Nonzero, shapes, points)?;
        Ok(())
    }

    /// Adds an image, or a mask in the current colour, cut by the current clip; marks share it.
    ///
    /// It is refused exactly where the page has no room for its samples, and a refusal leaves all as
    /// it was. The source of an image is one that the page counts; a mask has one channel and no
    /// source (PostScript Language Reference, third edition, 4.10 Images, 8.2 `image`, `imagemask`).
    pub fn mark_image(&mut self, image: Arc<Image>, mask: bool) -> Result<(), Grow>
        requires source { IsNumbered self.old.page.sources (arc_value image).source }
        requires mask { IsTrue mask → ((arc_value image).channels ≡ 1) × ((arc_value image).source ≡ None) }
        ensures ok { OnOk result (image_marked self.old (arc_value image) mask ≡ Some self.new) }
        ensures limit { IsErrOf result Grow.LimitCheck ↔ (image_marked self.old (arc_value image) mask ≡ None) }
        ensures err { OnErr result (self.new ≡ self.old) }
    {
        let samples = image.codes.items().len() as u64;
        if !self.has_image_room(samples) {
            return Err(Grow::LimitCheck);
        }
        if mask {
            let ink = self.ink();
            self.add_image(Paint::Mask(image, ink), samples)?;
            return Ok(());
        }
        self.add_image(Paint::Image(image), samples)?;
        Ok(())
    }

    /// The ink of the current colour.
    fn ink(&self) -> Ink
        ensures { result ≡ ink_of self.now.state }
    {
        Ink::Plain(self.state.code)
    }

    /// Adds a mark of rings of so many points, for which there is room.
    fn add_rings(&mut self, rule: Rule, rings: Rings, points: u64) -> Mem<()>
        requires points { points ≡ ring_points rings }
        requires room { has_room self.old.page points ≡ true }
        ensures ok { OnOk result (painted self.old rule rings ≡ Some self.new) }
        ensures err { OnErr result (self.new ≡ self.old) }
    {
        let mut shapes = Shapes::with_room(self.alloc, 1)?;
        shapes.push(Shape::Poly(rings))?;
        self.add_shapes(rule, shapes, points)
    }

    /// Adds a mark of shapes of so many points in the current colour, for which there is room.
    fn add_shapes(&mut self, rule: Rule, shapes: Shapes, points: u64) -> Mem<()>
        requires points { points ≡ all_points shapes }
        requires room { has_room self.old.page points ≡ true }
        ensures ok { OnOk result (self.new ≡ added self.old rule shapes Flatly) }
        ensures err { OnErr result (self.new ≡ self.old) }
    {
        let shapes = Arc::new(self.alloc, shapes)?;
        let paint = Paint::Flat(self.ink());
        let mark = cut_mark(rule, shapes, paint, &self.state, &self.no_clip)?;
        self.page.push_shapes(mark, points)
    }

    /// Adds the mark of an image or a mask of so many samples, for which there is room.
    fn add_image(&mut self, paint: Paint, samples: u64) -> Mem<()>
        requires suited { IsSuited [] (painting_of paint) }
        requires samples { samples ≡ paint_samples (painting_of paint) }
        requires source { IsNumbered self.old.page.sources (painting_source (painting_of paint)) }
        requires room { has_image_room self.old.page samples ≡ true }
        ensures ok { OnOk result (self.new ≡ with_paint self.old Rule.Nonzero [] (painting_of paint)) }
        ensures err { OnErr result (self.new ≡ self.old) }
    {
        let shapes = Arc::new(self.alloc, Shapes::new(self.alloc))?;
        let mark = cut_mark(Rule::Nonzero, shapes, paint, &self.state, &self.no_clip)?;
        self.page.push_image(mark, samples)
    }
}

/// A mark of shapes that paints with this, cut by a state's clip.
fn cut_mark(
    rule: Rule,
    shapes: Arc<Shapes>,
    paint: Paint,
    state: &State,
    no_clip: &Arc<Clip>,
) -> Mem<Mark>
    requires none { arc_value no_clip.now ≡ [] }
    requires suited { IsSuited (arc_value shapes) (painting_of paint) }
    ensures { IfOk result (λ mark. mark ≡ mark_with state.now rule (arc_value shapes) (painting_of paint)) }
{
    Ok(Mark {
        rule,
        clip_number: state.clip_number,
        shapes,
        clip: state.clip_or(no_clip)?,
        paint,
    })
}
