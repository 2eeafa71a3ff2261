//! The stages of a transform of version 4.
ghost use Rattle.std.specs.Prelude.{◌≡◌, ◌≤◌, ◌<◌, ◌*◌, ◌+◌, ◌^◌, ◌⊎◌};
ghost use Rattle.std.specs.Prelude.{ℤ, pos, ◌+ℤ◌, ◌*ℤ◌, true, false, length, unsigned_abs};
ghost use Rattle.std.specs.Prelude.{take, slice_index, [], ◌∷◌, None, IfSome};
ghost use Rattle.std.specs.Option.{option_copied};
ghost use Rattle.press_nums.specs.Rounding.{div_round};
ghost use Rattle.icc_tables.specs.Rounded.{clamped};
ghost use Rattle.icc_tables.specs.Curves.{curve_at};
ghost use Rattle.icc_stages.specs.Stages.{StagesValue, LatticeValue, through_curves, element, row_value, matrix_value};
ghost use Rattle.icc_stages.specs.Stages.{curves_matrix, matrix_curves, lattice_value, curves_lattice, lattice_curves};
ghost use Rattle.icc_tables.specs.Lattice.{AreAtMost};
ghost use Rattle.icc_stages.specs.Cells.{point_count, HaveCells, values_of, axes_of};
ghost use Rattle.icc_stages.specs.Stages.{stages_at};

use crate::cells::{Axis, values_of};
use icc_tables::{Curve, Nodes, clamped, curve_at};
use press_nums::Wide;
use std::marker::Model;

/// A matrix with the M curves.
///
/// Its first nine numbers are elements, row by row, the other three are added; all have 1/65536.
#[derive(Drop)]
pub struct MatrixStage {
    pub matrix: [i32; 12],
    pub curves: [Curve; 3],
}

/// A lattice with the A curves.
///
/// `inputs` is 1, 3 or 4: of the grid points along the channels, and of the curves, so many count.
/// The first channel varies least rapidly in the nodes, which have three values each.
#[derive(Drop)]
pub struct LatticeStage {
    pub inputs: u8,
    pub grid: [u8; 4],
    pub nodes: Nodes,
    pub curves: [Curve; 4],
}

impl Model for LatticeStage {
    ghost use Rattle.icc_stages.specs.Stages.{LatticeValue, IsLattice};

    ghost Value = { LatticeValue };

    ghost view = { λ s. record { inputs = s.inputs; grid = s.grid; nodes = s.nodes; curves = s.curves } };

    ghost invariant = { λ s. IsLattice (record {
      inputs = s.inputs;
      grid = s.grid;
      nodes = s.nodes;
      curves = s.curves;
    }) };
}

/// The stages of a transform (ICC.1:2010, 10.10 lutAToBType and 10.11 lutBToAType) with three outputs.
///
/// `forward` says that it leads to the connection space. The B curves are those at that end.
#[derive(Drop)]
pub struct Stages {
    pub forward: bool,
    pub inputs: u8,
    pub b: [Curve; 3],
    pub matrix: Option<MatrixStage>,
    pub lattice: Option<LatticeStage>,
}

impl Model for Stages {
    ghost use Rattle.icc_stages.specs.Stages.{StagesValue, IsStages};

    ghost Value = { StagesValue };

    ghost view = { λ s. record {
      forward = s.forward;
      inputs = s.inputs;
      b = s.b;
      matrix = s.matrix;
      lattice = s.lattice;
    } };

    ghost invariant = { λ s. IsStages (record {
      forward = s.forward;
      inputs = s.inputs;
      b = s.b;
      matrix = s.matrix;
      lattice = s.lattice;
    }) };
}

/// Three values, each through its curve.
fn through_three(curves: &[Curve; 3], at: [u16; 3]) -> [u16; 3]
    ensures { result ≡ through_curves curves.now at }
{
    let [first, second, third] = curves;
    let [a, b, c] = at;
    [curve_at(first, a), curve_at(second, b), curve_at(third, c)]
}

/// An element of a matrix times a value, both in 1/65536.
fn weighed(matrix: &[i32; 12], k: usize, v: u16) -> Wide
    requires { k < 12 }
    ensures value { result ≡ element matrix.now k *ℤ pos v }
    ensures bound { unsigned_abs result ≤ 2 ^ 47 }
{
    product(matrix[k], v)
}

fn product(element: i32, v: u16) -> Wide
    ensures value { result ≡ element *ℤ pos v }
    ensures bound { unsigned_abs result ≤ 2 ^ 47 }
{
    Wide::of(i64::from(element)).times(u32::from(v))
}

/// A number of 1/65536 of a unit as a value.
fn in_unit(sum: Wide) -> u16
    requires { unsigned_abs sum < 2 ^ 64 }
    ensures { result ≡ unsigned_abs (clamped (pos 0) (pos 65535) (div_round sum (pos 65536))) }
{
    clamped(sum.div_round(Wide::of(65536)), 0, 65535).narrow() as u16
}

/// One row of a matrix.
fn row_value(matrix: &[i32; 12], k: u8, at: [u16; 3]) -> u16
    requires { k < 3 }
    ensures { result ≡ row_value matrix.now k at }
{
    let k = usize::from(k);
    let [a, b, c] = at;
    in_unit(
        weighed(matrix, 3 * k, a)
            + weighed(matrix, 3 * k + 1, b)
            + weighed(matrix, 3 * k + 2, c)
            + weighed(matrix, 9 + k, 65535),
    )
}

/// The three rows.
fn matrix_value(matrix: &[i32; 12], at: [u16; 3]) -> [u16; 3]
    ensures { result ≡ matrix_value matrix.now at }
{
    [
        row_value(matrix, 0, at),
        row_value(matrix, 1, at),
        row_value(matrix, 2, at),
    ]
}

/// M curves and then the matrix, where they are there.
fn curves_matrix(stage: Option<&MatrixStage>, at: [u16; 3]) -> [u16; 3]
    ensures { result ≡ curves_matrix (option_copied stage.entry) at }
{
    match stage {
        None => at,
        Some(stage) => matrix_value(&stage.matrix, through_three(&stage.curves, at)),
    }
}

/// The other way.
fn matrix_curves(stage: Option<&MatrixStage>, at: [u16; 3]) -> [u16; 3]
    ensures { result ≡ matrix_curves (option_copied stage.entry) at }
{
    match stage {
        None => at,
        Some(stage) => through_three(&stage.curves, matrix_value(&stage.matrix, at)),
    }
}

/// The values of a lattice of one channel.
fn of_one(nodes: &Nodes, grid: [u8; 4], a: u16) -> [u16; 3]
    requires cells { HaveCells (take 1 grid) }
    requires values { AreAtMost 65535 nodes.now }
    requires count { length nodes.now ≡ point_count (take 1 grid) * 3 }
    ensures { result ≡ values_of nodes.now (axes_of grid (a ∷ [])) }
{
    let [first, _, _, _] = grid;
    let first = Axis {
        points: first,
        v: a,
    };
    values_of(nodes, &[first])
}

/// The values of a lattice of three channels.
fn of_three(nodes: &Nodes, grid: [u8; 4], at: [u16; 3]) -> [u16; 3]
    requires cells { HaveCells (take 3 grid) }
    requires values { AreAtMost 65535 nodes.now }
    requires count { length nodes.now ≡ point_count (take 3 grid) * 3 }
    ensures { result ≡ values_of nodes.now (axes_of grid at) }
{
    let [first, second, third, _] = grid;
    let [a, b, c] = at;
    let first = Axis {
        points: first,
        v: a,
    };
    let second = Axis {
        points: second,
        v: b,
    };
    let third = Axis {
        points: third,
        v: c,
    };
    values_of(nodes, &[first, second, third])
}

/// The values of a lattice of four channels.
fn of_four(nodes: &Nodes, grid: [u8; 4], at: [u16; 4]) -> [u16; 3]
    requires cells { HaveCells (take 4 grid) }
    requires values { AreAtMost 65535 nodes.now }
    requires count { length nodes.now ≡ point_count (take 4 grid) * 3 }
    ensures { result ≡ values_of nodes.now (axes_of grid at) }
{
    let [first, second, third, fourth] = grid;
    let [a, b, c, d] = at;
    let first = Axis {
        points: first,
        v: a,
    };
    let second = Axis {
        points: second,
        v: b,
    };
    let third = Axis {
        points: third,
        v: c,
    };
    let fourth = Axis {
        points: fourth,
        v: d,
    };
    values_of(nodes, &[first, second, third, fourth])
}

/// The values of a lattice at a point, of which so many count as it has channels.
fn lattice_value(stage: &LatticeStage, at: [u16; 4]) -> [u16; 3]
    ensures { result ≡ lattice_value stage.now (take stage.now.inputs at) }
{
    let [a, b, c, _] = at;
    match stage.inputs {
        1 => of_one(&stage.nodes, stage.grid, a),
        3 => of_three(&stage.nodes, stage.grid, [a, b, c]),
        _ => of_four(&stage.nodes, stage.grid, at),
    }
}

/// Four values, each through its curve.
fn through_four(curves: &[Curve; 4], at: [u16; 4]) -> [u16; 4]
    ensures { result ≡ through_curves curves.now at }
{
    let [first, second, third, fourth] = curves;
    let [a, b, c, d] = at;
    [
        curve_at(first, a),
        curve_at(second, b),
        curve_at(third, c),
        curve_at(fourth, d),
    ]
}

/// A curves and then the lattice, where they are there. As many values count as there are channels.
fn curves_lattice(stage: Option<&LatticeStage>, inputs: u8, at: [u16; 4]) -> [u16; 3]
    requires three { option_copied stage ≡ None → inputs ≡ 3 }
    requires inputs { IfSome (option_copied stage) (λ stage. stage.inputs ≡ inputs) }
    ensures { result ≡ curves_lattice (option_copied stage.entry) (take inputs at) }
{
    match stage {
        None => {
            let [a, b, c, _] = at;
            [a, b, c]
        }
        Some(stage) => lattice_value(stage, through_four(&stage.curves, at)),
    }
}

/// The other way, of three channels.
fn lattice_curves(stage: Option<&LatticeStage>, at: [u16; 3]) -> [u16; 3]
    requires { IfSome (option_copied stage) (λ stage. stage.inputs ≡ 3) }
    ensures { result ≡ lattice_curves (option_copied stage.entry) at }
{
    match stage {
        None => at,
        Some(stage) => {
            let [first, second, third, _] = &stage.curves;
            let [a, b, c] = of_three(&stage.nodes, stage.grid, at);
            [curve_at(first, a), curve_at(second, b), curve_at(third, c)]
        }
    }
}

/// The three values that stages to the connection space give: by A curves, lattice, M curves, matrix
/// and B curves. As many values count as there are channels.
#[tactic(auto, unfolding(crate::specs::Stages::stages_at))]
pub fn forward_at(stages: &Stages, at: [u16; 4]) -> [u16; 3]
    requires { stages.now.forward ≡ true }
    ensures { result ≡ stages_at stages.now (take stages.now.inputs at) }
{
    let values = curves_lattice(stages.lattice.as_ref(), stages.inputs, at);
    through_three(&stages.b, curves_matrix(stages.matrix.as_ref(), values))
}

/// The three values that stages from the connection space give: by B curves, matrix, M curves, lattice
/// and A curves.
#[tactic(auto, unfolding(crate::specs::Stages::stages_at))]
pub fn backward_at(stages: &Stages, at: [u16; 3]) -> [u16; 3]
    requires { stages.now.forward ≡ false }
    ensures { result ≡ stages_at stages.now at }
{
    let values = matrix_curves(stages.matrix.as_ref(), through_three(&stages.b, at));
    lattice_curves(stages.lattice.as_ref(), values)
}
