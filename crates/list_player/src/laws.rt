//! Laws of playing: functions without code, whose contracts are the laws.
ghost use Rattle.std.specs.Prelude.{◌≡◌, ℕ, List};
ghost use Rattle.page_model.specs.Image.{ImageValue};
ghost use Rattle.page_model.specs.Marking.{MarkValue};
ghost use Rattle.list_player.specs.Playing.{SayMarks};

/// The bytes of a list say one list of marks at most.
pub fn bytes_say_their_marks_once()
    ensures { (images : List ImageValue) (bytes : List ℕ) (a b : List MarkValue) → SayMarks images bytes a →
        SayMarks images bytes b → a ≡ b }
{}
