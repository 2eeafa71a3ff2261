//! Laws of the machine, over its definitions alone.
ghost use Rattle.std.specs.Prelude.{◌≡◌, ◌≢◌, ◌<◌, ◌≤◌, ◌∷◌, ◌++◌, [], ℕ, List, true, count_by};
ghost use Rattle.std.specs.List.{list_any};
ghost use Rattle.cache_core.specs.Lookup.{busy, phase_of};
ghost use Rattle.cache_core.specs.Lru.{IsServed, IsWalked, walked, keys_of};
ghost use Rattle.cache_core.specs.Replay.{Replays, after_all, is_naming, is_publishing, IsOldOrReserved};
ghost use Rattle.cache_core.specs.declared.step.Phase.TheVariants.{Idle, Holding};
ghost use Rattle.cache_core.specs.CoreState.{CoreStateValue};
ghost use Rattle.cache_core.specs.Steps.{is_legal, after, asked, is_free_seat, IsAsking, seat_of};
ghost use Rattle.cache_core.specs.Sound.{IsSound};
ghost use Rattle.cache_core.specs.declared.step.Step.{Step};
ghost use Rattle.cache_core.specs.declared.step.Step.TheVariants.{Evict};

/// Every legal step leads from a sound state to a sound state.
pub fn steps_keep_soundness()
    ensures { (core : CoreStateValue) (step : Step) → IsSound core → is_legal core step ≡ true
        → IsSound (after core step) }
{}

/// Of the steps by which a free seat asks for a key exactly one is legal.
pub fn one_step_is_legal()
    ensures legal { (core : CoreStateValue) (seat key : ℕ) → IsSound core
        → is_free_seat core.phases seat ≡ true → is_legal core (asked core seat key) ≡ true }
    ensures asks { (core : CoreStateValue) (seat key : ℕ)
        → IsAsking seat key (asked core seat key) }
    ensures only { (core : CoreStateValue) (seat key : ℕ) (step : Step) → IsSound core
        → IsAsking seat key step → is_legal core step ≡ true → step ≡ asked core seat key }
{}

/// A step leaves what other seats build and hold.
pub fn steps_leave_others()
    ensures { (core : CoreStateValue) (step : Step) (seat : ℕ) → seat ≢ seat_of step
        → busy (phase_of (after core step).phases seat) ≡ busy (phase_of core.phases seat) }
{}

/// Each residency that a journal names is that of an entry of its opening, or was reserved in it,
/// once.
pub fn named_is_old_or_reserved_once()
    ensures { (opening core : CoreStateValue) (journal : List Step) (res : ℕ) → IsSound opening
        → Replays opening journal core → list_any (is_naming res) journal ≡ true
        → IsOldOrReserved opening.entries journal res }
{}

/// No residency is published twice in a journal.
pub fn none_is_published_twice()
    ensures { (opening core : CoreStateValue) (journal : List Step) (res : ℕ) → IsSound opening
        → Replays opening journal core → count_by (is_publishing res) journal ≤ 1 }
{}

/// No eviction of a journal takes an entry that a seat holds then.
pub fn no_held_entry_is_evicted()
    ensures { (opening core : CoreStateValue) (before later : List Step) (seat key res other : ℕ)
        → Replays opening (before ++ Evict seat key res ∷ later) core
        → phase_of (after_all opening before).phases other ≢ Holding res }
{}

/// With one seat that gives each lease back before it asks again, no look waits, and the keys stand
/// by their last use: the least recently used one goes first.
pub fn one_seat_is_lru()
    ensures { (core : CoreStateValue) (key : ℕ) → IsSound core → core.phases ≡ Idle ∷ []
        → 0 < core.capacity → IsServed core key }
{}

/// The same for key after key: the steps are legal, none waits, and keys, values built and entries
/// evicted are those of the walk.
pub fn one_seat_walks()
    ensures { (core : CoreStateValue) (keys : List ℕ) → IsSound core → core.phases ≡ Idle ∷ []
        → 0 < core.capacity
        → IsWalked core keys
        (walked core.capacity (record { keys = keys_of core; built = 0; evicted = 0 }) keys) }
{}
