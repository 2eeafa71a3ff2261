//! Laws of the spelling: functions without code, whose contracts are the laws.
ghost use Rattle.std.specs.Prelude.{◌≡◌, ℕ, List, ◌++◌, length};
ghost use Rattle.list_codec.specs.Command.{CmdValue, IsCmd};
ghost use Rattle.list_codec.specs.Spelling.{cmd_bytes};
ghost use Rattle.list_codec.specs.Lists.{IsFront};

/// No spelling is the front of another command's: bytes begin with at most one of them.
pub fn no_spelling_is_the_front_of_another()
    ensures { (a b : CmdValue) (after_a after_b : List ℕ) → IsCmd a → IsCmd b →
        cmd_bytes a ++ after_a ≡ cmd_bytes b ++ after_b → (a ≡ b) × (after_a ≡ after_b) }
{}

/// What is found at the front of a command's spelling, whatever follows it, is that command.
pub fn what_was_put_is_read()
    ensures { (put read : CmdValue) (after : List ℕ) (count : ℕ) → IsCmd put →
        IsFront (cmd_bytes put ++ after) read count → (read ≡ put) × (count ≡ length (cmd_bytes put)) }
{}
