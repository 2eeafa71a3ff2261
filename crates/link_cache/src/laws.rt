//! Laws of the calls, over their definitions.
ghost use Rattle.std.specs.Prelude.{◌≡◌, ℕ, Bool, List, true};
ghost use Rattle.cache_core.specs.Steps.{is_free_seat, seat_of};
ghost use Rattle.cache_core.specs.declared.step.Step.{Step};
ghost use Rattle.link_cache.specs.CacheState.{CacheStateValue, Looked, did_if};
ghost use Rattle.link_cache.specs.Claims.{claim_of, LeavesOthers, ClaimsTold};
ghost use Rattle.link_cache.specs.Look.{LookValue};

/// A look claims for its seat what it tells, and leaves the claims of others.
pub fn look_claims_what_it_tells()
    ensures others { (seat : ℕ) (mark : List ℕ) (old new : CacheStateValue) (told : LookValue) (place : ℕ) →
        is_free_seat old.core.phases seat ≡ true → Looked seat mark old told new place → LeavesOthers seat old new }
    ensures own { (seat : ℕ) (mark : List ℕ) (old new : CacheStateValue) (told : LookValue) (place : ℕ) →
        is_free_seat old.core.phases seat ≡ true → Looked seat mark old told new place →
        ClaimsTold told (claim_of new seat) }
{}

/// Every other call leaves the claims of other seats.
pub fn steps_leave_claims()
    ensures { (legal : Bool) (old : CacheStateValue) (step : Step) →
        LeavesOthers (seat_of step) old (did_if legal old step) }
{}
