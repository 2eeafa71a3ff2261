//! Levels of the execution stack.
ghost use Rattle.std.specs.Prelude.{◌≡◌, ◌<◌};
ghost use Rattle.ps_flow.specs.declared.pushes.Pushes.{Pushes as Pushed};
ghost use Rattle.ps_flow.specs.Levels.{given_of, offered, begins, for_turn, behind, nothing_of, is_stopped, is_guarded};
ghost use Rattle.ps_flow.specs.Levels.{is_loop, holds_exit};
ghost use Rattle.ps_flow.specs.Code.Turns.{begun, leaving};

use crate::contents::{Objects, Pairs};
use crate::counter::Counter;
use crate::pushes::Pushes;
use press_nums::Fix;
use ps_store::{FlowOp, Obj, Part};

/// A level: a procedure that runs, a loop with its body, a `stopped` with what it runs, or a procedure
/// that an operator called and that it waits for.
///
/// `rest` is the part of its procedure that hasn't run yet in this turn.
#[derive(Drop)]
pub enum Level {
    Procedure(Part),
    Stopped(Part),
    /// A procedure that an operator called, as `image` calls its data source: its end is told, and
    /// `exit` doesn't pass it.
    Guarded(Part),
    Loop {
        body: Part,
        rest: Part,
    },
    /// `left` turns are to come.
    Repeat {
        left: u32,
        body: Part,
        rest: Part,
    },
    /// The control variable of the next turn, `None` where the last sum was out of range, and the
    /// limit.
    For {
        next: Option<Counter>,
        limit: Fix,
        body: Part,
        rest: Part,
    },
    /// The elements or bytes that are to come.
    Forall {
        left: Objects,
        body: Part,
        rest: Part,
    },
    /// The keys and values that are to come.
    ForallEntries {
        left: Pairs,
        body: Part,
        rest: Part,
    },
}

/// A procedure without elements, as an unused place of the stack holds.
impl Default for Level {
    ghost use Rattle.std.specs.Prelude.{◌≡◌};
    ghost use Rattle.ps_flow.specs.declared.level.Level.TheVariants.{Procedure};

    ghost is_default = { λ level. level ≡ Procedure (record { id = 0; start = 0; len = 0 }) };

    fn default() -> Level {
        Level::Procedure(Part {
            id: 0,
            start: 0,
            len: 0,
        })
    }
}

impl Level {
    pub(crate) fn is_stopped(&self) -> bool
        ensures { result ≡ is_stopped self.now }
    {
        match self {
            Level::Stopped(_) => true,
            _ => false,
        }
    }

    pub(crate) fn is_guarded(&self) -> bool
        ensures { result ≡ is_guarded self.now }
    {
        match self {
            Level::Guarded(_) => true,
            _ => false,
        }
    }

    pub(crate) fn is_loop(&self) -> bool
        ensures { result ≡ is_loop self.now }
    {
        match self {
            Level::Loop { .. } => true,
            Level::Repeat { .. } => true,
            Level::For { .. } => true,
            Level::Forall { .. } => true,
            Level::ForallEntries { .. } => true,
            _ => false,
        }
    }

    /// Whether `exit` doesn't pass it.
    pub(crate) fn holds_exit(&self) -> bool
        ensures { result ≡ holds_exit self.now }
    {
        self.is_stopped() || self.is_guarded()
    }
}

/// What comes next.
#[derive(Clone, Copy, Debug, PartialEq, Eq)]
pub enum NextObj {
    /// The object at the first place of this part of a procedure is to be executed.
    Run(Part),
    /// A loop of this operator begins a turn that pushes nothing.
    Turn(FlowOp),
    /// A loop of this operator begins a turn. What it pushes stands beside this, and is pushed once
    /// the turn was counted.
    TurnWith(FlowOp),
    /// A `stopped` has ended, and its level is gone: false is to be pushed.
    Passed,
    /// A procedure that an operator called has ended, and its level is gone: the operator goes on.
    Returned,
    /// No level is open.
    Empty,
}

/// What a level gives when the next object is asked for.
#[derive(Clone, Copy, Debug, PartialEq, Eq)]
pub enum Offer {
    /// Nothing: the level goes.
    Ends,
    /// Nothing, and it is a `stopped`: the level goes.
    Passes,
    /// Nothing, and it is a procedure that an operator called: the level goes.
    Returns,
    /// What comes next: the level stays.
    Gives(NextObj),
}

/// What a level gives. What a turn pushes is left in `pushes`.
pub(crate) fn given(level: &mut Level, pushes: &mut Pushes) -> Offer
    ensures { given_of level.old ≡ record { gives = offered result pushes.new; level = level.new } }
{
    match level {
        Level::Procedure(rest) => next_place(rest, Offer::Ends),
        Level::Stopped(rest) => next_place(rest, Offer::Passes),
        Level::Guarded(rest) => next_place(rest, Offer::Returns),
        Level::Loop { body, rest } => loop_given(*body, rest),
        Level::Repeat { left, body, rest } => repeat_given(left, *body, rest),
        Level::For {
            next,
            limit,
            body,
            rest,
        } => for_given(next, *limit, *body, rest, pushes),
        Level::Forall { rest, .. } if rest.len > 0 => next_place(rest, Offer::Ends),
        Level::Forall { left, .. } => match left.next() {
            Some(o) => turn_given(level, Pushes::One(o), pushes),
            None => Offer::Ends,
        },
        Level::ForallEntries { rest, .. } if rest.len > 0 => next_place(rest, Offer::Ends),
        Level::ForallEntries { left, .. } => match left.next() {
            Some((key, value)) => turn_given(level, Pushes::Two(key, value), pushes),
            None => Offer::Ends,
        },
    }
}

fn loop_given(body: Part, rest: &mut Part) -> Offer
    ensures { (pushes : Pushed) → given_of (Level.Loop body rest.old) ≡
        record { gives = offered result pushes; level = Level.Loop body rest.new } }
{
    if rest.len == 0 {
        *rest = body;
        return Offer::Gives(NextObj::Turn(FlowOp::Loop));
    }
    next_place(rest, Offer::Ends)
}

fn repeat_given(left: &mut u32, body: Part, rest: &mut Part) -> Offer
    ensures { (pushes : Pushed) → given_of (Level.Repeat left.old body rest.old) ≡
        record { gives = offered result pushes; level = Level.Repeat left.new body rest.new } }
{
    if rest.len == 0 {
        if *left == 0 {
            return Offer::Ends;
        }
        *left -= 1;
        *rest = body;
        return Offer::Gives(NextObj::Turn(FlowOp::Repeat));
    }
    next_place(rest, Offer::Ends)
}

fn for_given(
    next: &mut Option<Counter>,
    limit: Fix,
    body: Part,
    rest: &mut Part,
    pushes: &mut Pushes,
) -> Offer
    ensures { given_of (Level.For next.old limit body rest.old) ≡
        record { gives = offered result pushes.new; level = Level.For next.new limit body rest.new } }
{
    if rest.len == 0 {
        let Some(value) = next_value(next, limit) else {
            return Offer::Ends;
        };
        *rest = body;
        *pushes = Pushes::One(value);
        return Offer::Gives(NextObj::TurnWith(FlowOp::For));
    }
    next_place(rest, Offer::Ends)
}

/// A turn of a `forall` that pushes these.
fn turn_given(level: &mut Level, values: Pushes, pushes: &mut Pushes) -> Offer
    ensures { begins FlowOp.Forall values (begun level.old) ≡
        record { gives = offered result pushes.new; level = level.new } }
{
    begin(level);
    *pushes = values;
    Offer::Gives(NextObj::TurnWith(FlowOp::Forall))
}

/// A `forall` runs its body from the first place.
fn begin(level: &mut Level)
    ensures { level.new ≡ begun level.old }
{
    match level {
        Level::Forall { body, .. } => {
            let whole = *body;
            leave(level, whole);
        }
        Level::ForallEntries { body, .. } => {
            let whole = *body;
            leave(level, whole);
        }
        _ => {}
    }
}

/// A `forall` has this part of its body left.
fn leave(level: &mut Level, part: Part)
    ensures { level.new ≡ leaving part level.old }
{
    match level {
        Level::Forall { rest, .. } => *rest = part,
        Level::ForallEntries { rest, .. } => *rest = part,
        _ => {}
    }
}

/// The next place of a procedure, or what comes where nothing is left of it.
fn next_place(rest: &mut Part, over: Offer) -> Offer
    ensures none { rest.old.len ≡ 0 → (result ≡ over) × (rest.new ≡ rest.old) }
    ensures some { 0 < rest.old.len → (result ≡ Offer.Gives (NextObj.Run rest.old)) × (rest.new ≡ behind rest.old) }
{
    if rest.len == 0 {
        return over;
    }
    let here = *rest;
    *rest = Part {
        id: here.id,
        start: here.start + 1,
        len: here.len - 1,
    };
    Offer::Gives(NextObj::Run(here))
}

/// The value of the next turn of a `for`, if there is one.
fn next_value(next: &mut Option<Counter>, limit: Fix) -> Option<Obj>
    ensures { for_turn next.old limit ≡ record { value = result; next = next.new } }
{
    let Some(counter) = *next else {
        return None;
    };
    if counter.is_past(limit) {
        return None;
    }
    *next = counter.next();
    Some(counter.value())
}

/// No place of a composite.
pub(crate) fn nothing_of(p: Part) -> Part
    ensures { result ≡ nothing_of p }
{
    Part {
        id: p.id,
        start: 0,
        len: 0,
    }
}
