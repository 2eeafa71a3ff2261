//! The graphics state: matrix, colour, path, clip, line parameters, saved copies, and the marks of
//! the page.
//!
//! Proved against `specs/Graphics.antt`, `specs/Colour.antt` and `specs/Lines.antt` (PostScript
//! Language Reference, third edition, 4.2 Graphics State). Start with `gfx.rt`, then `marks.rt`,
//! `paths.rt`, `clips.rt` and `lines.rt`.
//! Coordinates are sub-dots, 1/256 of a dot.
#![tactic(auto)]

mod clips;
mod colour;
mod current_page;
mod gfx;
mod line_style;
mod lines;
mod marks;
mod matrices;
mod paths;
mod pen;
mod points;
mod state;
mod strokes;

pub use colour::Space;
pub use gfx::Gfx;
pub use line_style::DashFault;
