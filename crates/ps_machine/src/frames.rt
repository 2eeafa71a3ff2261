//! What operators keep that wait for a procedure.
ghost use Rattle.std.specs.Prelude.{◌≡◌, [], ◌∷◌, OnOk, MatchOption};
ghost use Rattle.ps_machine.specs.State.{frames_of};

use press_fault::Mem;
use ps_flow::Flow;
use ps_image_ops::Reading;
use ps_store::Part;
use std::alloc::Global;
use std::marker::Model;

/// What an operator keeps while a procedure runs that it called.
#[derive(Drop)]
pub(crate) enum Frame {
    /// An image that is being read, and the procedure that is its source.
    Image(Part, Reading),
}

/// What the operators keep that wait for a procedure. Contracts see it as a list, the innermost first.
#[derive(Drop)]
pub(crate) struct Frames {
    items: Vec<Frame>,
}

impl Model for Frames {
    ghost use Rattle.std.specs.Prelude.{List, reverse};
    ghost use Rattle.ps_machine.specs.declared.frames.Frame.{Frame};

    ghost Value = { List Frame };

    ghost view = { λ f. reverse f.items.items };
}

impl Frames {
    /// No operator waits.
    pub(crate) fn new(alloc: Global) -> Frames
        ensures { result ≡ [] }
    {
        Frames {
            items: Vec::new(alloc),
        }
    }

    /// One operator more waits.
    pub(crate) fn push(&mut self, frame: Frame) -> Mem<()>
        ensures { OnOk result (self.new ≡ frame ∷ self.old) }
    {
        self.items.push(frame)?;
        Ok(())
    }

    /// The innermost operator, which waits no more.
    pub(crate) fn pop(&mut self) -> Option<Frame>
        ensures { MatchOption result ((self.old ≡ []) × (self.new ≡ [])) (λ frame. self.old ≡ frame ∷ self.new) }
    {
        self.items.pop()
    }

    /// Keeps the operators whose procedures are among these levels.
    pub(crate) fn cut_to(&mut self, flow: &Flow)
        ensures { self.new ≡ frames_of flow.now self.old }
    {
        if !self.items.is_empty() {
            self.items.truncate(flow.guarded());
        }
    }
}
