//! A page split into bands: for each band a list of commands, as bytes, and the sources that it needs.
//!
//! Proved against `specs/Bands.antt`, which says which marks a band holds, `Listing.antt`, which has the
//! commands of a list, and `Said.antt`, which has what they say. Start with `splitting.rt`, then `draft.rt`.
//! Rows and columns count dots.
#![tactic(auto)]

mod commands;
mod draft;
mod laws;
mod list;
mod lists;
mod needs;
mod parts;
mod splitting;

pub use laws::{lists_paint_the_page, lists_say_their_marks, marks_left_out_cover_nothing};
pub use list::BandList;
pub use lists::BandLists;
pub use parts::{Images, PageParts};
pub use splitting::split;
