//! What colour profiles are made of: curves, luts and the connection space.
//!
//! Proved against `specs/Curves.antt`, `specs/Lattice.antt` and `specs/Pcs.antt` (ICC.1:2010). Start
//! with `curve.rt`, then `lattice.rt`, `pipeline.rt` and `pcs.rt`.
//! Codes have 8 bits, values 16; numbers of the connection space count 1/65536 of the unit.
//! Only a copy takes memory.
#![tactic(auto)]

mod curve;
mod lattice;
mod nodes;
mod pcs;
mod pipeline;
mod rounded;
mod shared;
mod values;

pub use curve::{Curve, curve_at, curve_back};
pub use lattice::{Cell, Lut, NOTHING, Sums, added, cell_of, corner, lattice_at, nearest};
pub use nodes::{NodeSize, Nodes, nodes_of_tag};
pub use pcs::{
    Pcs, clamped, in_chroma, in_lightness, in_xyz, lab_of_xyz, lab_to_xyz, xyz_of_lab, xyz_to_lab,
};
pub use pipeline::{before, of_four, of_one, of_point, of_three};
pub use shared::SharedBytes;
pub use values::Values;
