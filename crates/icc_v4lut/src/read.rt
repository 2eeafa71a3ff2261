//! Stages from their tags.
ghost use Rattle.std.specs.Prelude.{◌≡◌, ◌≤◌, ◌<◌, ◌+◌, ◌^◌, ◌⊎◌, ◌↔◌, false, length, drop, None, Some, IfOk, IsErrOf};
ghost use Rattle.icc_tables.specs.Stored.{IsTagAt};
ghost use Rattle.icc_stages.specs.Stages.{StagesValue};
ghost use Rattle.icc_v4lut.specs.StagesTag.{stages_fault, matrix_fault, m_fault, lattice_fault, a_fault, stages_of};
ghost use Rattle.icc_v4lut.specs.StagesTag.{matrix_stage, lattice_stage, lattice_from, curves_fault};
ghost use Rattle.icc_v4lut.specs.StagesTag.{matrix_at, m_at, lattice_at, a_at};
ghost use Rattle.icc_v4lut.specs.Code.Good.{AreGood, IsGoodLattice};

use crate::faults::{PartFault, node_count, place, rest, stages_fault};
use crate::parts::{matrix_of, nodes_at, padded_curves, padded_grid, three_curves};
use icc_stages::{LatticeStage, MatrixStage, Stages};
use icc_tables::SharedBytes;
use press_fault::{Mem, NoMemory};
use std::alloc::Global;

/// Why a tag gives no stages.
#[derive(Clone, Copy, Debug, PartialEq, Eq)]
pub enum StageFault {
    /// A curve of its parts is of another type than `curv` and `para`.
    Kind,
    /// A part is missing, stands alone, is misshapen or passes the end, or the channels are others.
    Shape,
    /// There is no memory for it.
    NoMemory,
}

impl From<NoMemory> for StageFault {
    ghost use Rattle.std.specs.Prelude.{◌≡◌};
    ghost use Rattle.icc_v4lut.specs.declared.read.StageFault.TheVariants.{NoMemory};

    ghost from_gives = { λ _ e. e ≡ NoMemory };

    fn from(_: NoMemory) -> StageFault {
        StageFault::NoMemory
    }
}

/// A matrix that is there stands inside, and has its curves.
#[tactic(auto, using(crate::proofs::Walk::matrix_good, crate::proofs::Walk::m_good))]
fn see_matrix(tag: &[u8], at: usize, curves: usize)
    requires at { at ≡ matrix_at tag.now }
    requires some { 0 < at }
    requires place { curves ≡ m_at tag.now }
    requires matrix { matrix_fault tag.now ≡ None }
    requires m { m_fault tag.now ≡ None }
    ensures inside { at + 48 ≤ length tag.now }
    ensures curves { curves_fault tag.now 3 curves ≡ None }
{}

/// The matrix with its curves, where it is there.
fn matrix_stage(alloc: Global, tag: &[u8]) -> Mem<Option<MatrixStage>>
    requires head { 32 ≤ length tag.now }
    requires matrix { matrix_fault tag.now ≡ None }
    requires curves { m_fault tag.now ≡ None }
    ensures { IfOk result (λ stage. stage ≡ matrix_stage tag.now) }
{
    let at = place(tag, 16);
    if at == 0 {
        return Ok(None);
    }
    let curves = place(tag, 20);
    see_matrix(tag, at, curves);
    Ok(Some(MatrixStage {
        matrix: matrix_of(tag, at),
        curves: three_curves(alloc, tag, curves)?,
    }))
}

/// What a lattice is that is there, and its curves.
#[tactic(auto, using(crate::proofs::Walk::a_good))]
fn see_lattice(inputs: u8, tag: &[u8], at: usize, curves: usize)
    requires at { at ≡ lattice_at tag.now }
    requires some { 0 < at }
    requires place { curves ≡ a_at tag.now }
    requires lattice { lattice_fault inputs tag.now ≡ None }
    requires a { a_fault inputs tag.now ≡ None }
    ensures lattice { IsGoodLattice inputs (drop at tag.now) }
    ensures curves { curves_fault tag.now inputs curves ≡ None }
{}

/// The lattice with its curves, of which it is known that they have no fault.
#[tactic(auto, using(crate::proofs::Walk::nodes_inside))]
fn lattice_of(
    alloc: Global,
    inputs: u8,
    bytes: &SharedBytes,
    offset: usize,
    tag: &[u8],
    places: (usize, usize),
) -> Mem<LatticeStage>
    requires place { IsTagAt bytes.now offset tag.now }
    requires inputs { (inputs ≡ 1) ⊎ (inputs ≡ 3) ⊎ (inputs ≡ 4) }
    requires bound { places.0 < 2 ^ 32 }
    requires lattice { IsGoodLattice inputs (drop places.0 tag.now) }
    requires curves { curves_fault tag.now inputs places.1 ≡ None }
    ensures { IfOk result (λ stage. stage ≡ lattice_from inputs tag.now places.0 places.1) }
{
    let lattice = rest(tag, places.0);
    let count = node_count(inputs, lattice);
    let nodes = nodes_at(bytes, offset, tag, places.0 + 20, count, lattice[16])?;
    let grid = padded_grid(inputs, lattice);
    let curves = padded_curves(alloc, inputs, tag, places.1)?;
    Ok(LatticeStage {
        inputs,
        grid,
        nodes,
        curves,
    })
}

/// The lattice with its curves, where it is there.
fn lattice_stage(
    alloc: Global,
    inputs: u8,
    bytes: &SharedBytes,
    offset: usize,
    tag: &[u8],
) -> Mem<Option<LatticeStage>>
    requires place { IsTagAt bytes.now offset tag.now }
    requires inputs { (inputs ≡ 1) ⊎ (inputs ≡ 3) ⊎ (inputs ≡ 4) }
    requires head { 32 ≤ length tag.now }
    requires lattice { lattice_fault inputs tag.now ≡ None }
    requires curves { a_fault inputs tag.now ≡ None }
    ensures { IfOk result (λ stage. stage ≡ lattice_stage inputs tag.now) }
{
    let at = place(tag, 24);
    if at == 0 {
        return Ok(None);
    }
    let curves = place(tag, 28);
    see_lattice(inputs, tag, at, curves);
    let places = (at, curves);
    Ok(Some(lattice_of(alloc, inputs, bytes, offset, tag, places)?))
}

/// The parts of a tag without a fault have none.
fn see_parts(inputs: u8, tag: &[u8])
    requires { stages_fault inputs tag.now ≡ None }
    ensures { AreGood inputs tag.now }
{}

/// The stages of a tag without a fault, which begins at this place of the profile.
#[tactic(auto, using(crate::proofs::Walk::b_good), unfolding(crate::specs::StagesTag::stages_of))]
pub fn stages_of(
    alloc: Global,
    forward: bool,
    inputs: u8,
    bytes: &SharedBytes,
    offset: usize,
    tag: &[u8],
) -> Mem<Stages>
    requires place { IsTagAt bytes.now offset tag.now }
    requires inputs { (inputs ≡ 1) ⊎ (inputs ≡ 3) ⊎ (inputs ≡ 4) }
    requires way { forward ≡ false → inputs ≡ 3 }
    requires good { stages_fault inputs tag.now ≡ None }
    ensures { IfOk result (λ stages. stages ≡ stages_of forward inputs tag.now) }
{
    see_parts(inputs, tag);
    let b = three_curves(alloc, tag, place(tag, 12))?;
    let matrix = matrix_stage(alloc, tag)?;
    let lattice = lattice_stage(alloc, inputs, bytes, offset, tag)?;
    Ok(Stages {
        forward,
        inputs,
        b,
        matrix,
        lattice,
    })
}

/// The stages of a tag that begins at this place of a profile (ICC.1:2010, 10.10 lutAToBType and 10.11
/// lutBToAType). Both faults are found before memory is asked for.
pub fn read_stages(
    alloc: Global,
    forward: bool,
    inputs: u8,
    bytes: &SharedBytes,
    offset: usize,
    tag: &[u8],
) -> Result<Stages, StageFault>
    requires place { IsTagAt bytes.now offset tag.now }
    requires inputs { (inputs ≡ 1) ⊎ (inputs ≡ 3) ⊎ (inputs ≡ 4) }
    requires way { forward ≡ false → inputs ≡ 3 }
    ensures kind { IsErrOf result StageFault.Kind ↔ (stages_fault inputs tag.now ≡ Some PartFault.Kind) }
    ensures shape { IsErrOf result StageFault.Shape ↔ (stages_fault inputs tag.now ≡ Some PartFault.Shape) }
    ensures ok { IfOk result (λ stages. stages ≡ stages_of forward inputs tag.now) }
{
    match stages_fault(inputs, tag) {
        Some(PartFault::Kind) => Err(StageFault::Kind),
        Some(PartFault::Shape) => Err(StageFault::Shape),
        None => Ok(stages_of(alloc, forward, inputs, bytes, offset, tag)?),
    }
}
