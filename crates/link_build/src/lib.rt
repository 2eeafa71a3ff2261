//! Links: two profiles prepared once, for colours through both.
//!
//! A link gives each code exactly the colour that `icc_model` gives it straight through both
//! profiles (`specs/Direct.antt` there); keys are told apart by `specs/Key.antt`. Start with
//! `key.rt` and `converter.rt`, then `link.rt`; what is prepared stands in `source.rt`,
//! `target.rt` and the files that they name.
//! Only `build` and its parts take memory.
#![tactic(auto)]

mod back;
mod converter;
mod entries;
mod inverse;
mod key;
mod laws;
mod link;
mod mixture;
mod narrow;
mod source;
mod target;

pub use converter::{Converter, LinkMaker};
pub use key::LinkKey;
pub use laws::keys_of_one_mark_have_one_colour;
pub use link::{Link, build};
