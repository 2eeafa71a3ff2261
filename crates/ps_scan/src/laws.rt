//! Laws of the token grammar. Each function here is a statement about definitions, and does
//! nothing.
ghost use Rattle.std.specs.Prelude.{◌≡◌, ◌<◌, ℕ, List, length};
ghost use Rattle.ps_scan.specs.Grammar.{IsRead};
ghost use Rattle.ps_scan.specs.Outcome.{ScanOutcome, IsWithinLimits};
ghost use Rattle.ps_scan.specs.Outcome.ScanOutcome.{Gives};
ghost use Rattle.ps_scan.specs.Reading.{scanned};
ghost use Rattle.ps_scan.specs.declared.token.Token.{Token};
ghost use Rattle.ps_scan.specs.declared.token.Token.TheVariants.{End};

/// What the scanner's function gives is what the grammar relates to the text.
pub fn scanned_is_read()
    ensures { (depth : ℕ) (text : List ℕ) → IsRead depth text (scanned depth text) }
{}

/// The grammar relates nothing else to the text. So no text has two tokens, and where it has none,
/// it has exactly one of the two faults.
pub fn only_scanned_is_read()
    ensures { (depth : ℕ) (text : List ℕ) (outcome : ScanOutcome) →
        IsRead depth text outcome → outcome ≡ scanned depth text }
{}

/// Each token keeps the limits: names have at most 127 bytes and strings 65,535, `{` comes where
/// fewer than 64 procedures are open and `}` where one is, and the end where none is.
pub fn tokens_are_within_limits()
    ensures { (depth : ℕ) (text rest : List ℕ) (token : Token) →
        scanned depth text ≡ Gives token rest → IsWithinLimits depth token rest }
{}

/// A token takes at least one byte of a text that isn't empty.
pub fn tokens_take_text()
    ensures { (depth : ℕ) (text rest : List ℕ) (token : Token) →
        scanned depth text ≡ Gives token rest → 0 < length text → length rest < length text }
{}

/// Behind the end there is the end again.
pub fn end_stays()
    ensures { (depth : ℕ) (text rest : List ℕ) →
        scanned depth text ≡ Gives End rest → scanned depth rest ≡ Gives End rest }
{}
