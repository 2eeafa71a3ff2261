//! The scanner: the tokens of a PostScript program, one after another.
//!
//! `Scanner::next` is proved equal to `scanned`, a function of the text (`specs/Reading.antt`), in
//! both directions. Above it stands the token grammar, a relation in the words of the PostScript
//! Language Reference, third edition, 3.2 Syntax (`specs/Grammar.antt`): by the laws in `laws.rt`
//! the function's answer is related to each text, and nothing else is.
//!
//! Read `specs/Grammar.antt` first, then `scanner.rt`, `reading.rt` and `words.rt`.
#![tactic(auto)]

mod characters;
mod hex;
mod integers;
mod laws;
mod numerals;
mod radix;
mod reading;
mod reals;
mod scanner;
mod strings;
mod token;
mod words;

pub use laws::{
    end_stays, only_scanned_is_read, scanned_is_read, tokens_are_within_limits, tokens_take_text,
};
pub use numerals::Numeral;
pub use reading::NESTING_LIMIT;
pub use scanner::Scanner;
pub use strings::{Does, Inside};
pub use token::{ScanFault, TEXT_LIMIT, Token, TokenBytes};
