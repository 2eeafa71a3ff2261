//! What a step and a run answer.
use page_model::Page;
use press_fault::{Name, PsName};

/// How a program ends.
#[derive(Clone, Copy, Debug, PartialEq, Eq)]
pub enum End {
    /// The text was read to its end, or to `quit`.
    Done,
    /// An error that no `stopped` caught, and the command that it names.
    Ps { name: PsName, command: Name },
}

/// What a step did. An end stands beside it, and a page that is shown is still to be taken.
#[derive(Clone, Copy, Debug, PartialEq, Eq)]
pub(crate) enum Turn {
    Went,
    Shown,
    Ended,
}

/// What comes next of a program: a page, or its end.
#[derive(Drop)]
pub enum Event {
    Page(Page),
    End(End),
}
