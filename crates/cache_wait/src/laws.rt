//! What lets a seat that waits rest without a word to others that wait.
ghost use Rattle.std.specs.Prelude.{◌≡◌, ℕ, true};
ghost use Rattle.cache_core.specs.CoreState.{CoreStateValue};
ghost use Rattle.cache_core.specs.Steps.{after, asked, is_free_seat};
ghost use Rattle.cache_core.specs.declared.step.Step.TheVariants.{WaitKey, WaitRoom};

/// After a look that waits each look of a seat makes the step that it would have made before. So
/// what a seat writes down when it waits is nothing that another rests for.
pub fn waits_change_no_look()
    ensures key { (core : CoreStateValue) (seat key res other wanted : ℕ)
        → is_free_seat core.phases seat ≡ true
        → asked (after core (WaitKey seat key res)) other wanted ≡ asked core other wanted }
    ensures room { (core : CoreStateValue) (seat key other wanted : ℕ)
        → is_free_seat core.phases seat ≡ true
        → asked (after core (WaitRoom seat key)) other wanted ≡ asked core other wanted }
{}
