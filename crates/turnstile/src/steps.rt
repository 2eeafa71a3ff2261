//! The rule of the lock's table, and the kinds of step that the lock makes. `specs/Steps.antt` says
//! what each tells its caller, and which line of the rule it has to keep.
ghost use Rattle.turnstile.specs.TurnRule.{TurnRule};
ghost use Rattle.turnstile.specs.Steps.{first_view, tried, took_out, set_kind, set_residency, gave_up, counted};
ghost use Rattle.turnstile.specs.Steps.{named, with_named, new_pass, with_back, spent_view};

use crate::claim::Listing;
use crate::view::View;
use atomic_table::{Join, Play, Split, TableRule};

/// The turn rule, for as many seats as the table's key says.
pub struct Turns;

impl<S: Listing> TableRule<Option<S>, View<S>, u32> for Turns {
    ghost holds = { λ seats. TurnRule S.listed seats };

    ghost first = { λ _. first_view };
}

/// Asks for the turn.
pub struct Try;

impl<S> Play<Option<S>, View<S>> for Try {
    ghost then = { tried };
}

/// Takes the value out, with the turn won.
pub struct TakeOut;

impl<S: Listing> Play<Option<S>, View<S>> for TakeOut {
    ghost then = { took_out S.listed };
}

/// Writes the first claim word of the pass itself.
pub struct SetKind;

impl<S> Play<Option<S>, View<S>> for SetKind {
    ghost then = { set_kind };
}

/// Writes the second claim word of the pass itself.
pub struct SetResidency;

impl<S> Play<Option<S>, View<S>> for SetResidency {
    ghost then = { set_residency };
}

/// Gives value and turn back.
pub struct GiveUp;

impl<S> Play<Option<S>, View<S>> for GiveUp {
    ghost then = { gave_up };
}

/// Changes a count that waking rests on.
pub struct Count;

impl<S> Play<Option<S>, View<S>> for Count {
    ghost then = { counted };
}

/// The chair names the number of the next pass.
pub struct NamePass;

impl<S> Play<Option<S>, View<S>> for NamePass {
    ghost then = { named };
}

/// A pass is split off the chair.
pub struct SplitPass;

impl<S> Split<View<S>> for SplitPass {
    ghost left = { with_named };

    ghost right = { new_pass };
}

/// A free pass is joined to the chair again.
pub struct JoinPass;

impl<S> Join<View<S>> for JoinPass {
    ghost both = { with_back };

    ghost spent = { spent_view };
}
