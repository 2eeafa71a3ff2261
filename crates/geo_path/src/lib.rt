//! Paths: subpaths, arcs, and curves flattened to lines.
//!
//! Proved against `specs/Path.antt`, `specs/Arc.antt`, `specs/Curve.antt` and `specs/Flat.antt`
//! (PostScript Language Reference, third edition, 4.4 Path Construction). Start with `path.rt`, then
//! `arc.rt` and `flat.rt`. Points are in sub-dots, 1/256 of a dot, each of a magnitude below 2^31.
#![tactic(auto)]

mod arc;
mod checks;
mod curve;
mod flat;
mod laws;
mod length;
mod parts;
mod path;
mod segment;
mod subpath;

pub use flat::{Polyline, Polylines};
pub use laws::{
    a_curve_ends_at_its_last_control_point, an_arc_is_the_chain_of_its_points,
    an_end_is_on_the_right_side, flattening_keeps_the_ends, flattening_keeps_what_is_closed,
    inner_angles_are_multiples_between,
};
pub use path::{Path, PathFault};
pub use segment::Segment;
