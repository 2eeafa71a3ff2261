//! Colour profiles as values, and colour straight through two of them.
//!
//! Proved against `specs/Profile.antt` and `specs/Direct.antt` (ICC.1:2010, Annex F). Start with
//! `profile.rt`, then `colour.rt`, `source.rt` and `target.rt`. What profiles are made of (curves,
//! luts, the connection space) stands in `icc_tables` and is handed on.
//! Nothing here takes memory.
#![tactic(auto)]

mod colour;
mod profile;
mod source;
mod target;

pub use colour::{carried, direct, direct_wide, narrowed, wide_values_round_back};
pub use icc_stages::{LatticeStage, MatrixStage, Stages, backward_at, forward_at};
pub use icc_tables::{
    Curve, Lut, NodeSize, Nodes, Pcs, SharedBytes, Values, curve_at, curve_back, lab_to_xyz,
    lattice_at, xyz_to_lab,
};
pub use profile::{Base, Intent, Profile, Transform};
pub use source::{column, decoded, entered, source_of};
pub use target::{cross, determinant, solved, target_of};
