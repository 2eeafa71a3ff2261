//! Stroke outlines: the shapes that a pen paints along lines.
//!
//! Proved against `specs/Pen.antt`, `Segment.antt`, `Corner.antt`, `Outline.antt` and `Dash.antt`
//! (PostScript Language Reference, third edition, 8.2 `stroke`, `setlinecap`, `setlinejoin`,
//! `setmiterlimit`, `setdash`). Start with `pen.rt` and `segment.rt`, then `line.rt` and `corner.rt`
//! for solid lines, `dash.rt`, `place.rt` and `dashed.rt` for dashes, and `stroke.rt` for all of it.
//! Coordinates are sub-dots, 1/256 of a dot; y grows down the page. Lengths of dashes and distances
//! along a line count 1/65536 of a dot.
#![tactic(auto)]

mod corner;
mod dash;
mod dashed;
mod line;
mod pen;
mod place;
mod segment;
mod shapes;
mod stroke;

pub use pen::{Cap, Dashes, Join, MAX_DASHES, Pen};
pub use stroke::outline;
