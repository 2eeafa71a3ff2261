//! Matrices and their products.
ghost use Rattle.std.specs.Prelude.{◌≡◌, ◌≤◌, ◌<◌, ◌^◌, ℤ, pos, unsigned_abs, ◌+ℤ◌, ◌-ℤ◌, ◌*ℤ◌};
ghost use Rattle.press_nums.specs.Fix.{fix_of};
ghost use Rattle.std.specs.Result.{result_ok};
ghost use Rattle.geo_matrix.specs.Affine.{identity, det_of};
ghost use Rattle.geo_matrix.specs.Product.{row_by_column, concat_of};

use press_fault::UndefinedResult;
use press_nums::{Fix, Wide, fix_from, wide_product};
use std::marker::Model;

/// The matrix `[a b c d tx ty]`: a point (x, y) goes to (a x + c y + tx, b x + d y + ty). One
/// that maps user space to the page gives dots, so `tx` and `ty` are in dots.
#[derive(Clone, Copy, Debug, PartialEq, Eq)]
pub struct Matrix {
    pub a: Fix,
    pub b: Fix,
    pub c: Fix,
    pub d: Fix,
    pub tx: Fix,
    pub ty: Fix,
}

impl Model for Matrix {
    ghost use Rattle.geo_matrix.specs.Affine.{MatrixValue};

    ghost Value = { MatrixValue };

    ghost view = { λ m. record { a = m.a; b = m.b; c = m.c; d = m.d; tx = m.tx; ty = m.ty } };

    ghost inverse = { λ m. record { a = m.a; b = m.b; c = m.c; d = m.d; tx = m.tx; ty = m.ty } };
}

impl Matrix {
    /// The matrix that moves no point.
    pub fn identity() -> Matrix
        ensures { result ≡ identity }
    {
        Matrix {
            a: Fix::of_int(1),
            b: Fix::of_int(0),
            c: Fix::of_int(0),
            d: Fix::of_int(1),
            tx: Fix::of_int(0),
            ty: Fix::of_int(0),
        }
    }
}

/// The matrix that does `first` and then `then`, refused exactly where an element is out of range.
///
/// Each element is one sum of products, rounded once. The operator `concat` puts its matrix first.
/// (PostScript Language Reference, third edition, 4.3.3 Matrix Representation and Manipulation.)
pub fn concat(first: &Matrix, then: &Matrix) -> Result<Matrix, UndefinedResult>
    ensures { result_ok result ≡ concat_of first.now then.now }
{
    let Some(a) = element(first.a, then.a, first.b, then.c, Wide::ZERO) else {
        return Err(UndefinedResult);
    };
    let Some(b) = element(first.a, then.b, first.b, then.d, Wide::ZERO) else {
        return Err(UndefinedResult);
    };
    let Some(c) = element(first.c, then.a, first.d, then.c, Wide::ZERO) else {
        return Err(UndefinedResult);
    };
    let Some(d) = element(first.c, then.b, first.d, then.d, Wide::ZERO) else {
        return Err(UndefinedResult);
    };
    let Some(tx) = element(first.tx, then.a, first.ty, then.c, shifted(then.tx)) else {
        return Err(UndefinedResult);
    };
    let Some(ty) = element(first.tx, then.b, first.ty, then.d, shifted(then.ty)) else {
        return Err(UndefinedResult);
    };
    Ok(Matrix { a, b, c, d, tx, ty })
}

/// The determinant, a count of 1/2^32.
pub fn det(m: &Matrix) -> i128
    ensures { result ≡ det_of m.now }
{
    wide_det(m).to_i128()
}

/// The determinant as a number to compute with.
pub(crate) fn wide_det(m: &Matrix) -> Wide
    ensures value { result ≡ det_of m.now }
    ensures bound { unsigned_abs result ≤ 2 ^ 95 }
{
    wide_product(m.a, m.d) - wide_product(m.b, m.c)
}

fn element(p: Fix, q: Fix, r: Fix, s: Fix, plus: Wide) -> Option<Fix>
    requires { unsigned_abs plus ≤ 2 ^ 63 }
    ensures { result ≡ fix_of (row_by_column p q r s plus) }
{
    fix_from(sum_of(p, q, r, s, plus).div_round(Wide::of(65536)))
}

/// The sum of two products and a number.
pub(crate) fn sum_of(p: Fix, q: Fix, r: Fix, s: Fix, plus: Wide) -> Wide
    requires { unsigned_abs plus ≤ 2 ^ 63 }
    ensures value { result ≡ p *ℤ q +ℤ r *ℤ s +ℤ plus }
    ensures bound { unsigned_abs result ≤ 2 ^ 96 }
{
    wide_product(p, q) + wide_product(r, s) + plus
}

/// A translation among products of two real numbers.
pub(crate) fn shifted(t: Fix) -> Wide
    ensures value { result ≡ t *ℤ pos 65536 }
    ensures bound { unsigned_abs result ≤ 2 ^ 63 }
{
    t.wide().times(65536)
}
