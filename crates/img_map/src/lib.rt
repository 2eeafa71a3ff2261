//! Images on the page: the map from dots to samples, and the samples of a row's dots.
//!
//! Proved against `specs/Map.antt` and `specs/Picks.antt`; the sample that a dot has is defined
//! with the page (`page_model/specs/Sample.antt`), by the PostScript Language Reference, third
//! edition, 4.10 Images. Start with `row.rt`. Nothing here takes memory.
#![tactic(auto)]

mod carried;
mod laws;
mod map;
mod row;
mod run;

pub use laws::picks_are_of_the_image;
pub use map::{image_map, is_small};
pub use row::{Pick, row_samples};
