//! Laws of the interpreter's meaning. Each function here is a statement about definitions, and does nothing.
ghost use Rattle.std.specs.Prelude.{◌≡◌, ◌≤◌, ℕ, List, length};
ghost use Rattle.ps_machine.specs.Setup.{SetupValue};
ghost use Rattle.ps_store.specs.Store.{StoreValue};
ghost use Rattle.ps_machine.specs.Opening.{opening_store};
ghost use Rattle.ps_machine.specs.State.{BodyValue, opening};
ghost use Rattle.ps_machine.specs.Reading.{step};
ghost use Rattle.ps_machine.specs.Meaning.{run, meaning_of};
ghost use Rattle.ps_laws.specs.Limits.{IsLimited, KeepsLimits};
ghost use Rattle.ps_laws.specs.Reached.{IsReached};
ghost use Rattle.ps_laws.specs.Ending.{EndsWithin};
ghost use Rattle.ps_laws.specs.Stored.{IsStored, KeepsStored};
ghost use Rattle.ps_laws.specs.Frames.{IsFramed, KeepsFrames};

/// A program starts within the limits of the operands, the levels and the dictionary stack.
pub fn limits_at_start()
    ensures { (store : StoreValue) (text : List ℕ) (setup : SetupValue) → IsLimited (opening store text setup) }
{}

/// Each step keeps the limits.
pub fn limits_kept()
    ensures { (s : BodyValue) → IsLimited s → KeepsLimits (step s) }
{}

/// So no program ever comes to a state with more than 500 operands, 250 levels or 20 dictionaries on the
/// dictionary stack, or with fewer than two of these.
pub fn limits_when_reached()
    ensures { (store : StoreValue) (text : List ℕ) (setup : SetupValue) (s : BodyValue) →
        IsReached (opening store text setup) s → IsLimited s }
{}

/// Every program of at most 67,108,864 bytes ends by a step of its own within 1,000,000,000,000 steps: at the
/// end of its text, by `quit`, by an error, or where it would execute more than 100,000,000 objects. So the
/// number of steps in the definition of a meaning is never what ends a program.
pub fn programs_end()
    ensures { (store : StoreValue) (text : List ℕ) (setup : SetupValue) → length text ≤ 67108864 →
        EndsWithin 1000000000000 (opening store text setup) }
{}

/// With more steps such a program means the same.
pub fn more_steps_change_nothing()
    ensures { (text : List ℕ) (setup : SetupValue) (n : ℕ) → length text ≤ 67108864 →
        1000000000000 ≤ n → run n (opening opening_store text setup) ≡ meaning_of text setup }
{}

/// At the start of a program each span and dictionary that its state holds is one of its store.
pub fn stored_at_start()
    ensures { (text : List ℕ) (setup : SetupValue) → IsStored (opening opening_store text setup) }
{}

/// Each step keeps this.
pub fn stored_kept()
    ensures { (s : BodyValue) → IsStored s → KeepsStored (step s) }
{}

/// So no program ever comes to a state that holds a number of a composite which its store lacks: on the
/// operands, in the composites themselves, on the dictionary stack, in the levels, in the object that is to be
/// executed at once, in the procedures of the text that aren't closed yet, or in those that an operator waits for.
pub fn stored_when_reached()
    ensures { (text : List ℕ) (setup : SetupValue) (s : BodyValue) →
        IsReached (opening opening_store text setup) s → IsStored s }
{}

/// A program starts without guarded procedures, and no operator waits for one.
pub fn frames_at_start()
    ensures { (store : StoreValue) (text : List ℕ) (setup : SetupValue) → IsFramed (opening store text setup) }
{}

/// Each step keeps it that as many operators wait as guarded procedures are among the levels: the end of such a
/// procedure, an error and `stop` take a level and its frame away together.
pub fn frames_kept()
    ensures { (s : BodyValue) → IsFramed s → KeepsFrames (step s) }
{}

/// So in each state that a program comes to the machine has as many frames as guarded levels: where a procedure ends
/// that an operator called there is an operator to go on, and without such a procedure none is left.
pub fn frames_when_reached()
    ensures { (store : StoreValue) (text : List ℕ) (setup : SetupValue) (s : BodyValue) →
        IsReached (opening store text setup) s → IsFramed s }
{}
