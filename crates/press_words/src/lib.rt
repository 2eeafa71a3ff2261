//! What the words of the command line ask for, the text of a sample page, and the lines of a report.
//!
//! Proved against `specs/Grammar.antt` and `specs/Options.antt` (the words), `specs/Sample.antt` and
//! `specs/Lines.antt`. Start with `options.rt`; the options and their values stand in `choosing.rt`.
#![tactic(auto)]

mod choosing;
mod lexing;
mod lines;
mod options;
mod reading;
mod sample;

pub use lines::{Counts, Line, report_line, sample_line};
pub use options::{NamedFile, Options, PageSize, WordsFault};
pub use sample::sample_text;
