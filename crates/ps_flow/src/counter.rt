//! The control variable of a `for`.
ghost use Rattle.std.specs.Prelude.{◌≡◌};
ghost use Rattle.ps_flow.specs.Counting.{passes, is_past, value_of, next_of_counter, counter_from};

use press_nums::{Fix, Whole, Wide, fix_add, whole_from};
use ps_store::Obj;

/// The control variable of a `for`, with what is added to it after each turn.
#[derive(Clone, Copy, Debug, PartialEq, Eq)]
pub enum Counter {
    /// The first value and the step are integers.
    Integers { at: Whole, step: Whole },
    /// One of them is a real.
    Reals { at: Fix, step: Fix },
}

impl Counter {
    /// The control variable of these first two operands, `None` where one of them is no number.
    pub(crate) fn from(first: &Obj, step: &Obj) -> Option<Counter>
        ensures { result ≡ counter_from first.now step.now }
    {
        match (first, step) {
            (Obj::Int(at), Obj::Int(step)) => Some(Counter::Integers {
                at: *at,
                step: *step,
            }),
            (Obj::Int(at), Obj::Real(step)) => Some(Counter::Reals {
                at: Fix::of_whole(*at),
                step: *step,
            }),
            (Obj::Real(at), Obj::Int(step)) => Some(Counter::Reals {
                at: *at,
                step: Fix::of_whole(*step),
            }),
            (Obj::Real(at), Obj::Real(step)) => Some(Counter::Reals {
                at: *at,
                step: *step,
            }),
            _ => None,
        }
    }

    /// The value that a turn pushes.
    pub(crate) fn value(&self) -> Obj
        ensures { result ≡ value_of self.now }
    {
        match self {
            Counter::Integers { at, .. } => Obj::Int(*at),
            Counter::Reals { at, .. } => Obj::Real(*at),
        }
    }

    /// Whether the value is past the limit: above it, or below it where the step is negative.
    pub(crate) fn is_past(&self, limit: Fix) -> bool
        ensures { result ≡ is_past self.now limit }
    {
        match self {
            Counter::Integers { at, step } => {
                passes(Fix::of_whole(*at).wide(), step.wide(), limit.wide())
            }
            Counter::Reals { at, step } => passes(at.wide(), step.wide(), limit.wide()),
        }
    }

    /// The control variable of the next turn, `None` where the sum is out of range.
    pub(crate) fn next(&self) -> Option<Counter>
        ensures { result ≡ next_of_counter self.now }
    {
        match self {
            Counter::Integers { at, step } => match whole_from(at.wide() + step.wide()) {
                Some(sum) => Some(Counter::Integers {
                    at: sum,
                    step: *step,
                }),
                None => None,
            },
            Counter::Reals { at, step } => match fix_add(*at, *step) {
                Some(sum) => Some(Counter::Reals {
                    at: sum,
                    step: *step,
                }),
                None => None,
            },
        }
    }
}

/// Whether a value is past a limit in a step's direction.
fn passes(at: Wide, step: Wide, limit: Wide) -> bool
    ensures { result ≡ passes at step limit }
{
    if step.is_below(Wide::ZERO) {
        at.is_below(limit)
    } else {
        limit.is_below(at)
    }
}
