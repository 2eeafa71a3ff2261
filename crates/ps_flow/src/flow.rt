//! The execution stack.
ghost use Rattle.std.specs.Prelude.{◌≡◌, ◌≤◌, ◌<◌, ◌∷◌, [], ◌↔◌, length, IsErr, OnOk, OnErr, OnSome, MatchOption, Some};
ghost use Rattle.std.specs.Prelude.{None, true, false, take, reverse};
ghost use Rattle.ps_flow.specs.Levels.{next_of, told, below_stopped, below_loop, guarded_in, Next};

use crate::level::{Level, NextObj, Offer, given};
use crate::pushes::Pushes;
use arrayvec::ArrayVec;
use press_fault::ExecStackOverflow;
use ps_store::Part;
use std::alloc::Global;
use std::marker::Model;

/// The most levels.
pub const MAX_LEVELS: usize = 250;

/// The levels that are open, at most 250 (PostScript Language Reference, third edition, 3.4
/// Stacks). Contracts see them as a list, the innermost first. The room for all levels is made
/// with it, so only what a `forall` goes over takes memory later.
#[derive(Drop)]
pub struct Flow {
    alloc: Global,
    items: ArrayVec<Level, MAX_LEVELS>,
}

impl Model for Flow {
    ghost use Rattle.std.specs.Prelude.{List, reverse};
    ghost use Rattle.ps_flow.specs.declared.level.Level.{Level};

    ghost Value = { List Level };

    ghost view = { λ s. reverse s.items.items };
}

impl Flow {
    /// No level is open. There is room for all levels from the start.
    pub fn new(alloc: Global) -> Flow
        ensures { result ≡ [] }
    {
        Flow {
            alloc,
            items: ArrayVec::new(),
        }
    }

    pub(crate) fn alloc(&self) -> Global {
        self.alloc
    }

    /// Whether 250 levels are open.
    pub(crate) fn is_full(&self) -> bool
        ensures yes { result ≡ true → length self.now ≡ 250 }
        ensures no { result ≡ false → length self.now < 250 }
    {
        self.items.is_full()
    }

    /// Opens a level where there is room.
    pub(crate) fn open(&mut self, level: Level)
        requires { length self.old < 250 }
        ensures { self.new ≡ level ∷ self.old }
    {
        self.items.push(level);
    }

    /// Opens a level, refused where all levels are open.
    fn open_within(&mut self, level: Level) -> Result<(), ExecStackOverflow>
        ensures ok { OnOk result (self.new ≡ level ∷ self.old) }
        ensures full { IsErr result ↔ (250 ≤ length self.old) }
        ensures err { OnErr result (self.new ≡ self.old) }
    {
        if self.is_full() {
            return Err(ExecStackOverflow);
        }
        self.open(level);
        Ok(())
    }

    /// Opens a level that runs the elements of a procedure, as for one found by a name. Where
    /// all levels are open it is refused, and they are as before.
    pub fn call(&mut self, p: Part) -> Result<(), ExecStackOverflow>
        ensures ok { OnOk result (self.new ≡ Level.Procedure p ∷ self.old) }
        ensures full { IsErr result ↔ (250 ≤ length self.old) }
        ensures err { OnErr result (self.new ≡ self.old) }
    {
        self.open_within(Level::Procedure(p))
    }

    /// Opens a level that runs the elements of a procedure for an operator, which goes on when it has
    /// ended: `next_object` answers `Returned` then. `exit` doesn't pass it. Where all levels are open it
    /// is refused, and they are as before.
    pub fn call_guarded(&mut self, p: Part) -> Result<(), ExecStackOverflow>
        ensures ok { OnOk result (self.new ≡ Level.Guarded p ∷ self.old) }
        ensures full { IsErr result ↔ (250 ≤ length self.old) }
        ensures err { OnErr result (self.new ≡ self.old) }
    {
        self.open_within(Level::Guarded(p))
    }

    /// How many levels are procedures that operators called.
    pub fn guarded(&self) -> usize
        ensures { result ≡ guarded_in self.now }
    {
        count_guarded(self.items.as_slice())
    }

    /// What comes next. A level that has nothing left goes. What a turn pushes is left in `pushes`.
    pub fn next_object(&mut self, pushes: &mut Pushes) -> NextObj
        ensures { next_of self.old ≡ record { next = told result pushes.new; levels = self.new } }
    {
        next_in(&mut self.items, pushes)
    }

    /// Cuts the levels back to the innermost `stopped`, which goes; false exactly where none is
    /// open, with the levels as before.
    pub fn unwind(&mut self) -> bool
        ensures yes { result ≡ true → below_stopped self.old ≡ Some self.new }
        ensures no { result ≡ false → (below_stopped self.old ≡ None) × (self.new ≡ self.old) }
    {
        match place_of_stopped(self.items.as_slice()) {
            Some(at) => {
                self.items.truncate(at);
                true
            }
            None => false,
        }
    }

    /// Cuts the levels back to the innermost loop, which goes; false exactly where there is none or
    /// a level stands between that `exit` doesn't pass, with the levels as before.
    pub(crate) fn leave_loop(&mut self) -> bool
        ensures yes { result ≡ true → below_loop self.old ≡ Some self.new }
        ensures no { result ≡ false → (below_loop self.old ≡ None) × (self.new ≡ self.old) }
    {
        match place_of_loop(self.items.as_slice()) {
            Some(left) => {
                self.items.truncate(left);
                true
            }
            None => false,
        }
    }
}

/// What comes next among the levels, outermost first.
fn next_in(items: &mut ArrayVec<Level, MAX_LEVELS>, pushes: &mut Pushes) -> NextObj
    ensures { next_of (reverse items.old.items) ≡
        record { next = told result pushes.new; levels = reverse items.new.items } }
{
    while !items.is_empty() {
        let at = items.len() - 1;
        match given(&mut items[at], pushes) {
            Offer::Ends => items.truncate(at),
            Offer::Passes => {
                items.truncate(at);
                return NextObj::Passed;
            }
            Offer::Returns => {
                items.truncate(at);
                return NextObj::Returned;
            }
            Offer::Gives(next) => return next,
        }
    }
    NextObj::Empty
}

/// The place of the innermost `stopped` among the levels, outermost first.
fn place_of_stopped(levels: &[Level]) -> Option<usize>
    ensures { MatchOption result (below_stopped (reverse levels.now) ≡ None)
        (λ at. below_stopped (reverse levels.now) ≡ Some (reverse (take at levels.now))) }
{
    let mut at = levels.len();
    while at > 0 {
        at -= 1;
        if levels[at].is_stopped() {
            return Some(at);
        }
    }
    None
}

/// The place of the loop that `exit` leaves among the levels, outermost first.
fn place_of_loop(levels: &[Level]) -> Option<usize>
    ensures { MatchOption result (below_loop (reverse levels.now) ≡ None)
        (λ at. below_loop (reverse levels.now) ≡ Some (reverse (take at levels.now))) }
{
    let mut at = levels.len();
    while at > 0 {
        at -= 1;
        if levels[at].is_loop() {
            return Some(at);
        }
        if levels[at].holds_exit() {
            return None;
        }
    }
    None
}

/// How many of these levels, outermost first, are procedures that operators called.
fn count_guarded(levels: &[Level]) -> usize
    ensures { result ≡ guarded_in (reverse levels.now) }
{
    let mut at = levels.len();
    let mut guarded = 0;
    while at > 0 {
        at -= 1;
        if levels[at].is_guarded() {
            guarded += 1;
        }
    }
    guarded
}
