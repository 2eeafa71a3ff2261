//! One graphics state.
ghost use Rattle.std.specs.Prelude.{◌≡◌, ◌∷◌, [], IfOk, OnOk, OnErr, MatchOption, length};
ghost use Rattle.std.specs.Arc.{arc_value};
ghost use Rattle.gfx_state.specs.Code.Shared.{regions_of, path_of};
ghost use Rattle.gfx_state.specs.Graphics.{no_path, first_above, up_to_first_above};

use crate::clips::copy_clip;
use crate::colour::Space;
use crate::line_style::LineStyle;
use geo_matrix::Matrix;
use geo_path::Path;
use page_model::{Clip, ClipNumber};
use press_fault::{Code, Mem};
use std::alloc::Global;
use std::marker::Model;
use std::sync::Arc;

/// A graphics state. Its copies share its path, its clip and its dashes, so that a copy takes no
/// more memory.
#[derive(Drop)]
pub(crate) struct State {
    pub(crate) matrix: Matrix,
    pub(crate) space: Space,
    pub(crate) code: Code,
    /// `None` where the path has no subpaths, so that `newpath` takes no memory. A shared one is
    /// copied before the first change.
    pub(crate) path: Option<Arc<Path>>,
    /// `None` where the clip has no regions, so that setting it takes no memory.
    pub(crate) clip: Option<Arc<Clip>>,
    /// States and marks that have the same number have the same clip.
    pub(crate) clip_number: ClipNumber,
    pub(crate) line: LineStyle,
    /// The number of the font's dictionary.
    pub(crate) font: Option<u32>,
}

impl Model for State {
    ghost use Rattle.gfx_state.specs.Graphics.{StateValue};
    ghost use Rattle.gfx_state.specs.Code.Shared.{regions_of, path_of};

    ghost Value = { StateValue };

    ghost view = { λ s. record {
      matrix = s.matrix;
      space = s.space;
      code = s.code;
      path = path_of s.path;
      clip =
          regions_of s.clip;
      clip_number = s.clip_number;
      line = s.line;
      font = s.font;
    } };
}

impl State {
    pub(crate) fn copy(&self) -> Mem<State>
        ensures { IfOk result (λ copy. copy ≡ self.now) }
    {
        Ok(State {
            matrix: self.matrix,
            space: self.space,
            code: self.code,
            path: shared_path(&self.path)?,
            clip: shared(&self.clip)?,
            clip_number: self.clip_number,
            line: self.line.copy()?,
            font: self.font,
        })
    }

    /// Takes the path out to change it.
    pub(crate) fn take_path(&mut self, alloc: Global) -> Mem<Arc<Path>>
        ensures ok { IfOk result (λ path. arc_value path ≡ self.old.path) }
        ensures rest { OnOk result (self.new ≡ record self.old { path = no_path }) }
        ensures err { OnErr result (self.new ≡ self.old) }
    {
        match self.path.take() {
            Some(path) => Ok(path),
            None => Ok(Arc::new(alloc, Path::new(alloc))?),
        }
    }

    /// How many regions the clip has.
    pub(crate) fn regions(&self) -> usize
        ensures { result ≡ length self.now.clip }
    {
        match &self.clip {
            Some(clip) => clip.items().len(),
            None => 0,
        }
    }

    /// A clip of its own with the same regions, with room for one more.
    pub(crate) fn clip_copy(&self, alloc: Global) -> Mem<Clip>
        ensures { IfOk result (λ clip. clip ≡ self.now.clip) }
    {
        match &self.clip {
            Some(clip) => copy_clip(alloc, clip),
            None => Clip::with_room(alloc, 1),
        }
    }

    pub(crate) fn put_clip(&mut self, clip: Arc<Clip>, number: ClipNumber)
        ensures { self.new ≡ record self.old { clip = arc_value clip; clip_number = number } }
    {
        self.clip = Some(clip);
        self.clip_number = number;
    }

    /// Another owner of the clip, or of one without regions where there are none.
    pub(crate) fn clip_or(&self, no_clip: &Arc<Clip>) -> Mem<Arc<Clip>>
        requires { arc_value no_clip.now ≡ [] }
        ensures { IfOk result (λ clip. arc_value clip ≡ self.now.clip) }
    {
        match &self.clip {
            Some(clip) => Ok(Arc::try_clone(clip)?),
            None => Ok(Arc::try_clone(no_clip)?),
        }
    }
}

/// Another owner of a clip.
fn shared(clip: &Option<Arc<Clip>>) -> Mem<Option<Arc<Clip>>>
    ensures { IfOk result (λ copy. regions_of copy ≡ regions_of clip.now) }
{
    match clip {
        Some(clip) => Ok(Some(Arc::try_clone(clip)?)),
        None => Ok(None),
    }
}

/// Another owner of a path.
fn shared_path(path: &Option<Arc<Path>>) -> Mem<Option<Arc<Path>>>
    ensures { IfOk result (λ copy. path_of copy ≡ path_of path.now) }
{
    match path {
        Some(path) => Ok(Some(Arc::try_clone(path)?)),
        None => Ok(None),
    }
}

/// The most saved states.
pub(crate) const SAVED: usize = 32;

/// Saved states. Contracts see them as a list, the last one saved first.
#[derive(Drop)]
pub(crate) struct Saved {
    states: Vec<State>,
}

impl Model for Saved {
    ghost use Rattle.std.specs.Prelude.{List, reverse};
    ghost use Rattle.gfx_state.specs.Graphics.{StateValue};

    ghost Value = { List StateValue };

    ghost view = { λ s. reverse s.states.items };
}

impl Saved {
    pub(crate) fn new(alloc: Global) -> Saved
        ensures { result ≡ [] }
    {
        Saved {
            states: Vec::new(alloc),
        }
    }

    pub(crate) fn len(&self) -> usize
        ensures { result ≡ length self.now }
    {
        self.states.len()
    }

    pub(crate) fn push(&mut self, state: State) -> Mem<()>
        ensures ok { OnOk result (self.new ≡ state ∷ self.old) }
        ensures err { OnErr result (self.new ≡ self.old) }
    {
        self.states.push(state)?;
        Ok(())
    }

    pub(crate) fn pop(&mut self) -> Option<State>
        ensures popped { MatchOption result ((self.old ≡ []) × (self.new ≡ []))
            (λ state. self.old ≡ state ∷ self.new) }
    {
        self.states.pop()
    }

    /// A copy of the state that was saved first above so many others.
    pub(crate) fn first_above(&self, floor: u32) -> Mem<Option<State>>
        ensures { IfOk result (λ first. first ≡ first_above floor self.now) }
    {
        match self.states.get(floor as usize) {
            Some(state) => Ok(Some(state.copy()?)),
            None => Ok(None),
        }
    }

    /// Keeps the states up to the one that was saved first above so many others.
    pub(crate) fn keep_up_to_first_above(&mut self, floor: u32)
        ensures { self.new ≡ up_to_first_above floor self.old }
    {
        self.states.truncate(floor as usize + 1);
    }
}
