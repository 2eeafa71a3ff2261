//! What a seat claims, and values that list the claims of seats.
ghost use Rattle.std.specs.Prelude.{◌≡◌, ℕ};

/// What a seat claims of a value under a turn lock.
#[derive(Clone, Copy, Debug, PartialEq, Eq)]
pub enum Claim {
    /// Nothing.
    Free,
    /// The entry with this residency, which the seat builds.
    Builds(u64),
    /// The entry with this residency, which the seat holds.
    Holds(u64),
}

/// A value that lists a claim for each seat.
pub trait Listing {
    ghost use Rattle.turnstile.specs.declared.claim.Claim.{Claim};

    /// The claim that a value lists for a seat. Nothing rests on that of a number which is no seat.
    ghost listed: { Self → ℕ → Claim };

    /// The claim listed for a seat.
    fn claim(&self, seat: u32) -> Claim
        ensures { result ≡ listed self.now seat };
}
