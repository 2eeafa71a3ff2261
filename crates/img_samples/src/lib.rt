//! Data of sampled images: rows of packed samples in, codes of 8 bits out.
//!
//! Proved against `specs/Decoding.antt` (what a sample stands for), `specs/Rows.antt` (where it
//! stands in a row of data) and `specs/Gathering.antt` (what was delivered), by the PostScript
//! Language Reference, third edition, 4.10 Images. Start with `gather.rt`, then `rows.rt`.
#![tactic(auto)]

mod format;
mod gather;
mod laws;
mod rows;
mod table;

pub use format::SampleFormat;
pub use gather::Gather;
pub use laws::{mask_bytes_are_codes, pieces_are_as_one, rows_count_when_they_are_whole};
