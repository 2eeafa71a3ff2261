//! The lock, its chair and its passes.
ghost use Rattle.std.specs.Prelude.{◌≡◌, ◌+◌, ◌*◌, ◌<◌, []};
ghost use Rattle.turnstile.specs.declared.view.Role.TheVariants.{Passing, Chairing};
ghost use Rattle.turnstile.specs.TurnRule.{kind_of, residency_of};
ghost use Rattle.turnstile.specs.Steps.{in_hand};

use crate::claim::{Claim, Listing};
use crate::steps::Turns;
use crate::view::View;
use atomic_table::{Seat, Table};
use std::alloc::Global;

mod calls;

/// A lock over a value that lists a claim for each seat. At most one pass has the turn.
#[derive(Drop)]
pub struct Turnstile<S: Listing> {
    table: Table<Option<S>, View<S>, u32, Turns, Global>,
    seats: u32,
    ghost sized: { (table.shared.table_id.words ≡ 2 * seats + 5) × (table.shared.table_id.slots ≡ 1) ×
        (table.shared.key ≡ seats) },
}

/// Gives out the passes of one lock, each number to one pass at a time, and takes them back.
#[derive(Drop)]
pub struct Chair<S> {
    seat: Seat<Option<S>, View<S>>,
    ghost chairs: { (seat.me.0.role ≡ Chairing) × (seat.me.1 ≡ []) },
}

/// The right to take turns as one seat. It takes no bytes but its number and its claim. The number
/// of a pass that is dropped stays out, and its lock can't be closed.
#[derive(Drop)]
pub struct Pass<S> {
    seat: Seat<Option<S>, View<S>>,
    number: u32,
    claim: Claim,
    ghost passes: { (seat.me.0.role ≡ Passing) × (seat.me.0.number ≡ number) },
    ghost claims: { (seat.me.0.kind ≡ kind_of claim) × (seat.me.0.residency ≡ residency_of claim) },
    ghost inside: { 2 * number + 6 < seat.table_id.words },
    ghost carries: { seat.me.1 ≡ in_hand seat.me.0.stage },
}

impl<S> Pass<S> {
    /// What the seat claims: what the value listed for it when the pass left its last turn, and
    /// `Free` before the first.
    pub fn claim(&self) -> Claim
        ensures { result ≡ self.now.claim }
    {
        self.claim
    }

    /// The number of the seat, from 0.
    pub fn number(&self) -> u32
        ensures { result ≡ self.now.number }
    {
        self.number
    }
}
