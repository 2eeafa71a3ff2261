//! The graphics state with its saved copies, and the page that is painted.
ghost use Rattle.std.specs.Prelude.{◌≡◌, ◌≤◌, ◌↔◌, ℕ, length, Some, None, OnOk, OnErr, IfOk, IsErrOf};
ghost use Rattle.gfx_state.specs.Graphics.{opening, default_matrix, resized, saved_state, restored, with_initial};
ghost use Rattle.gfx_state.specs.Graphics.{all_restored, erased, with_space, with_colour, with_font, initial_state};
ghost use Rattle.gfx_state.specs.Graphics.{page_of};
ghost use Rattle.gfx_state.specs.Keeping.{IsPageSize};
ghost use Rattle.gfx_state.specs.Colour.{channels_of, gray_of};

use crate::colour::{Space, codes, gray};
use crate::current_page::CurrentPage;
use crate::line_style::LineStyle;
use crate::state::{SAVED, Saved, State};
use geo_matrix::Matrix;
use geo_path::Path;
use page_model::{Clip, ClipNumber, Page};
use press_fault::{Code, Grow, Mem};
use press_nums::{Fix, Wide, fix_small};
use std::alloc::Global;
use std::marker::Model;
use std::mem;
use std::sync::Arc;

/// The graphics state, its saved copies, and the current page.
#[derive(Drop)]
pub struct Gfx {
    pub(crate) alloc: Global,
    width: u32,
    pub(crate) height: u32,
    pub(crate) res: u32,
    pub(crate) no_clip: Arc<Clip>,
    /// What is read as the path of a state that holds none.
    pub(crate) empty_path: Path,
    pub(crate) state: State,
    saved: Saved,
    /// How many of the first saved states `grestore` and `grestoreall` leave alone: those saved before a
    /// glyph that is being shown. No glyphs are shown yet, so there are none.
    floor: u32,
    /// How many clips were given a number.
    pub(crate) clips: u32,
    pub(crate) page: CurrentPage,
}

impl Model for Gfx {
    ghost use Rattle.gfx_state.specs.Graphics.{GfxValue, no_path};
    ghost use Rattle.std.specs.Prelude.{◌≡◌, []};
    ghost use Rattle.gfx_state.specs.Keeping.{IsPageSize, AreClipsNumbered};

    ghost Value = { GfxValue };

    ghost view = { λ g. record {
      size = record { width = g.width; height = g.height; res = g.res };
      state = g.state;
      saved = g.saved;
      floor = g.floor;
      clips = g.clips;
      page = g.page;
    } };

    ghost invariant = { λ g. IsPageSize g.width g.height g.res
        × (g.no_clip.value ≡ []) × (g.empty_path ≡ no_path)
        × AreClipsNumbered g.clips g.state.clip_number g.state.clip g.saved g.page.marks };
}

impl Gfx {
    /// The graphics state at the start of a program, over a blank page.
    pub fn new(alloc: Global, width: u32, height: u32, res: u32) -> Mem<Gfx>
        requires { IsPageSize width height res }
        ensures { IfOk result (λ gfx. gfx ≡ opening (record { width = width; height = height; res = res })) }
    {
        let no_clip = Arc::new(alloc, Clip::new(alloc))?;
        Ok(Gfx {
            alloc,
            width,
            height,
            res,
            no_clip,
            empty_path: Path::new(alloc),
            state: initial(height, res, None),
            saved: Saved::new(alloc),
            floor: 0,
            clips: 0,
            page: CurrentPage::blank(alloc),
        })
    }

    /// Sets what `initgraphics` sets. The font and the saved states stay.
    pub fn initial(&mut self)
        ensures { self.new ≡ with_initial self.old }
    {
        let font = self.state.font;
        self.state = initial(self.height, self.res, font);
    }

    /// Drops the marks of the page, so that all limits of the page count from 0 again.
    pub fn erase(&mut self)
        ensures { self.new ≡ erased self.old }
    {
        self.page = CurrentPage::blank(self.alloc);
    }

    /// Sets the size of the page in dots, drops its marks, and sets what `initgraphics` sets.
    pub fn set_page(&mut self, width: u32, height: u32)
        requires { IsPageSize width height self.old.size.res }
        ensures { self.new ≡ resized self.old width height }
    {
        self.erase();
        self.width = width;
        self.height = height;
        self.initial();
    }

    /// The size of the page: its width and height in dots, and the dots of an inch (PostScript
    /// Language Reference, third edition, 6.2 `PageSize` and `HWResolution`).
    pub fn size(&self) -> (u32, u32, u32)
        ensures width { result.0 ≡ self.now.size.width }
        ensures height { result.1 ≡ self.now.size.height }
        ensures res { result.2 ≡ self.now.size.res }
        ensures kept { IsPageSize result.0 result.1 result.2 }
    {
        (self.width, self.height, self.res)
    }

    /// Sets the colour space, and its first colour.
    pub fn set_space(&mut self, space: Space)
        ensures { self.new ≡ with_space self.old space }
    {
        self.state.space = space;
        self.state.code = space.first_colour();
    }

    /// The colour space.
    pub fn space(&self) -> Space
        ensures { result ≡ self.now.state.space }
    {
        self.state.space
    }

    /// Sets the colour: a number for each component of the space.
    pub fn set_color(&mut self, values: &[Fix])
        requires { length values.now ≡ channels_of self.old.state.space }
        ensures { self.new ≡ with_colour self.old values.now }
    {
        self.state.code = codes(values);
    }

    /// The gray of the current colour.
    pub fn gray(&self) -> Fix
        ensures { result ≡ gray_of self.now.state.space self.now.state.code.c }
    {
        gray(self.state.space, self.state.code)
    }

    /// Sets the font: the number of its dictionary (PostScript Language Reference, third edition, 8.2
    /// `setfont`).
    pub fn set_font(&mut self, dict: u32)
        ensures { self.new ≡ with_font self.old dict }
    {
        self.state.font = Some(dict);
    }

    /// The number of the font's dictionary, `None` where no font was set.
    pub fn font(&self) -> Option<u32>
        ensures { result ≡ self.now.state.font }
    {
        self.state.font
    }

    /// Saves a copy of the current state, refused exactly where 32 are saved.
    pub fn save(&mut self) -> Result<(), Grow>
        ensures ok { OnOk result (saved_state self.old ≡ Some self.new) }
        ensures limit { IsErrOf result Grow.LimitCheck ↔ (saved_state self.old ≡ None) }
        ensures err { OnErr result (self.new ≡ self.old) }
    {
        if self.saved.len() >= SAVED {
            return Err(Grow::LimitCheck);
        }
        let copy = self.state.copy()?;
        self.saved.push(copy)?;
        Ok(())
    }

    /// Goes back to the state saved last; nothing where none is saved above those that are left alone.
    pub fn restore(&mut self)
        ensures { self.new ≡ restored self.old }
    {
        if self.saved.len() > self.floor as usize {
            if let Some(state) = self.saved.pop() {
                self.state = state;
            }
        }
    }

    /// Goes back to the state saved first above those that are left alone, and keeps it as the last one
    /// saved; nothing where none is saved above them.
    pub fn restore_all(&mut self) -> Mem<()>
        ensures ok { OnOk result (self.new ≡ all_restored self.old) }
        ensures err { OnErr result (self.new ≡ self.old) }
    {
        if let Some(state) = self.saved.first_above(self.floor)? {
            self.saved.keep_up_to_first_above(self.floor);
            self.state = state;
        }
        Ok(())
    }

    /// The page that was painted. The marks go with it, and it goes by no source, as none is built.
    #[tactic(auto, using(crate::proofs::ClipLemmas::marks_numbered))]
    pub fn take_page(&mut self) -> Page
        ensures page { result ≡ page_of self.old }
        ensures plain { result.sources ≡ 0 }
        ensures rest { self.new ≡ erased self.old }
    {
        let page = mem::replace(&mut self.page, CurrentPage::blank(self.alloc));
        page.into_page(self.width, self.height)
    }
}

/// What `initgraphics` sets, with the font that it leaves.
fn initial(height: u32, res: u32, font: Option<u32>) -> State
    requires height { height ≤ 16384 }
    requires res { res ≤ 2400 }
    ensures { (width : ℕ) → result ≡ initial_state (record { width = width; height = height; res = res }) font }
{
    State {
        matrix: default_matrix(height, res),
        space: Space::Gray,
        code: Space::Gray.first_colour(),
        path: None,
        clip: None,
        clip_number: ClipNumber::of(0),
        line: LineStyle::initial(),
        font,
    }
}

/// The default matrix of a page.
#[tactic(auto, unfolding(crate::specs::Graphics::default_matrix))]
pub(crate) fn default_matrix(height: u32, res: u32) -> Matrix
    requires height { height ≤ 16384 }
    requires res { res ≤ 2400 }
    ensures { (width : ℕ) → result ≡ default_matrix (record { width = width; height = height; res = res }) }
{
    let scale = Wide::of(i64::from(res) * 65536).div_round(Wide::of(72));
    Matrix {
        a: fix_small(scale),
        b: Fix::of_int(0),
        c: Fix::of_int(0),
        d: fix_small(scale.negated()),
        tx: Fix::of_int(0),
        ty: fix_small(Wide::of(i64::from(height) * 65536)),
    }
}
