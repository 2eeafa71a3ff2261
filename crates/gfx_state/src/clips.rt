//! The clip: the regions that each mark is cut to.
ghost use Rattle.std.specs.Prelude.{◌≡◌, ◌≤◌, ◌↔◌, ◌∷◌, ◌++◌, [], length, nat_lt, Some, None, OnOk, OnErr, IfOk};
ghost use Rattle.std.specs.Prelude.{IsErrOf};
ghost use Rattle.std.specs.Arc.{arc_value};
ghost use Rattle.gfx_state.specs.Graphics.{clipped, clipped_to, with_clip, with_initial_clip, region_of, next_number};

use crate::gfx::Gfx;
use geo_path::Path;
use page_model::{Clip, ClipNumber, Region, Rule};
use press_fault::{Grow, Mem};
use std::alloc::Global;
use std::sync::Arc;

/// The most regions of a clip.
const REGIONS: usize = 256;

/// The greatest number of a clip.
const LAST_NUMBER: u32 = 4_294_967_294;

impl Gfx {
    /// Cuts the clip to the path, which stays; refused exactly where the clip has 256 regions.
    ///
    /// A path without points adds a region without rings, which holds nothing. A refusal leaves all
    /// as it was (PostScript Language Reference, third edition, 8.2 `clip`).
    pub fn clip(&mut self, rule: Rule) -> Result<(), Grow>
        ensures ok { OnOk result (clipped self.old rule ≡ Some self.new) }
        ensures limit { IsErrOf result Grow.LimitCheck ↔ (clipped self.old rule ≡ None) }
        ensures err { OnErr result (self.new ≡ self.old) }
    {
        let clip = self.cut_clip(rule, self.path())?;
        self.put_clip(clip);
        Ok(())
    }

    /// Cuts the clip to a path; refused exactly where the clip has 256 regions. A refusal leaves all
    /// as it was (PostScript Language Reference, third edition, 8.2 `rectclip`).
    pub fn clip_to(&mut self, rule: Rule, path: &Path) -> Result<(), Grow>
        ensures ok { OnOk result (clipped_to self.old rule path.now ≡ Some self.new) }
        ensures limit { IsErrOf result Grow.LimitCheck ↔ (clipped_to self.old rule path.now ≡ None) }
        ensures err { OnErr result (self.new ≡ self.old) }
    {
        let clip = self.cut_clip(rule, path)?;
        self.put_clip(clip);
        Ok(())
    }

    /// Whether the clip has fewer than 256 regions, so that it may be cut once more. Own rule: the
    /// limit (PostScript Language Reference, third edition, 8.2 `clip` has none of its own).
    pub fn has_clip_room(&self) -> bool
        ensures { result ≡ nat_lt (length self.now.state.clip) 256 }
    {
        self.state.regions() < REGIONS
    }

    /// Sets another clip, which takes the next number.
    fn put_clip(&mut self, clip: Arc<Clip>)
        ensures { self.new ≡ with_clip self.old (arc_value clip) }
    {
        let number = next_number(self.clips);
        self.clips = number.get().unwrap_or(self.clips);
        self.state.put_clip(clip, number);
    }

    /// The clip with one more region.
    fn cut_clip(&self, rule: Rule, path: &Path) -> Result<Arc<Clip>, Grow>
        ensures ok { IfOk result (λ clip. arc_value clip ≡ self.now.state.clip ++ region_of rule path.now ∷ []) }
        ensures limit { IsErrOf result Grow.LimitCheck ↔ (256 ≤ length self.now.state.clip) }
    {
        if !self.has_clip_room() {
            return Err(Grow::LimitCheck);
        }
        let rings = Arc::new(self.alloc, path.flatten()?.into_rings(self.alloc)?)?;
        let mut clip = self.state.clip_copy(self.alloc)?;
        clip.push(Region { rule, rings })?;
        Ok(Arc::new(self.alloc, clip)?)
    }

    /// Sets the whole page as the clip.
    pub fn initial_clip(&mut self)
        ensures { self.new ≡ with_initial_clip self.old }
    {
        self.state.clip = None;
        self.state.clip_number = ClipNumber::of(0);
    }
}

/// The number of the next clip, where so many were given, if there is one left.
fn next_number(clips: u32) -> ClipNumber
    ensures { result ≡ next_number clips }
{
    if clips < LAST_NUMBER {
        ClipNumber::of(clips + 1)
    } else {
        ClipNumber::none()
    }
}

/// A clip of its own with the same regions, with room for one more.
pub(crate) fn copy_clip(alloc: Global, clip: &Clip) -> Mem<Clip>
    ensures { IfOk result (λ copy. copy ≡ clip.now) }
{
    let mut copy = Clip::with_room(alloc, clip.items().len().saturating_add(1))?;
    for region in clip.items() {
        copy.push(region.share()?)?;
    }
    Ok(copy)
}
