//! Operators on the current transformation matrix, and on matrices that arrays hold.
ghost use Rattle.std.specs.Prelude.{◌≡◌, ◌≢◌, Err};
ghost use Rattle.ps_store.specs.Outcome.{Answers, TellsRefusal};
ghost use Rattle.std.specs.List.{list_all};
ghost use Rattle.ps_store.specs.Numbers.{raw_of};
ghost use Rattle.ps_store.specs.Gathering.{with_elements};
ghost use Rattle.gfx_state.specs.Graphics.{GfxValue};
ghost use Rattle.ps_gfx_ops.specs.Matrices.{elements_of, is_number, matrix_or_type, matrix_of, one_matrix, matrix_row};
ghost use Rattle.ps_gfx_ops.specs.Matrices.{currentmatrix_row, setmatrix_row, concat_row, translate_row, scale_row};
ghost use Rattle.ps_gfx_ops.specs.Matrices.{rotate_row, transform_row, itransform_row};
ghost use Rattle.ps_gfx_ops.specs.Calls.{GraphicsAnswers, SceneAnswers};

use crate::points::{one_number, one_point};
use geo_matrix::{Matrix, device_of, user_of};
use gfx_state::Gfx;
use press_fault::PsName;
use ps_store::{MAX_OPERANDS, Obj, OpFault, Part, Stack, Store, number};

/// The elements of a matrix, as a program sees them.
fn elements(m: &Matrix) -> [Obj; 6]
    ensures { result ≡ elements_of m.now }
{
    [
        Obj::Real(m.a),
        Obj::Real(m.b),
        Obj::Real(m.c),
        Obj::Real(m.d),
        Obj::Real(m.tx),
        Obj::Real(m.ty),
    ]
}

/// `matrix`: a new array of the identity matrix.
pub(crate) fn matrix(stack: &mut Stack, store: &mut Store) -> Result<(), OpFault>
    ensures answers { (g : GfxValue) → Answers (matrix_row stack.old store.old g) result
        (record { operands = stack.old; store = store.old; graphics = g })
        (record { operands = stack.new; store = store.new; graphics = g }) }
    ensures refused { (g : GfxValue) → TellsRefusal (matrix_row stack.old store.old g) result }
{
    if stack.len() >= MAX_OPERANDS {
        return Err(OpFault::Ps(PsName::StackOverflow));
    }
    let span = store.new_array_of(&elements(&Matrix::identity()))?;
    let _ = stack.push(Obj::Array(span, false));
    Ok(())
}

/// `currentmatrix`: the current transformation matrix in the first six elements of an array.
pub(crate) fn currentmatrix(stack: &mut Stack, store: &mut Store, gfx: &Gfx) -> Result<(), OpFault>
    ensures answers { SceneAnswers (currentmatrix_row stack.old store.old gfx.now)
        result stack.old store.old gfx.now stack.new store.new gfx.now }
    ensures never { result ≢ Err OpFault.NoMemory }
{
    let Some(top) = stack.top() else {
        return Err(OpFault::Ps(PsName::StackUnderflow));
    };
    let Obj::Array(span, _) = top else {
        return Err(OpFault::Ps(PsName::TypeCheck));
    };
    if span.len < 6 {
        return Err(OpFault::Ps(PsName::RangeCheck));
    }
    put_matrix(store, *span, &gfx.matrix());
    Ok(())
}

/// Writes the elements of a matrix from the start of an array.
#[tactic(auto, unfolding(ps_store::specs::Gathering::with_elements))]
fn put_matrix(store: &mut Store, span: Part, m: &Matrix)
    ensures { store.new ≡ with_elements store.old span 0 (elements_of m.now) }
{
    store.put(span, 0, Obj::Real(m.a));
    store.put(span, 1, Obj::Real(m.b));
    store.put(span, 2, Obj::Real(m.c));
    store.put(span, 3, Obj::Real(m.d));
    store.put(span, 4, Obj::Real(m.tx));
    store.put(span, 5, Obj::Real(m.ty));
}

/// The matrix that the top operand is.
fn one_matrix(stack: &Stack, store: &Store) -> Result<Matrix, PsName>
    ensures { result ≡ one_matrix stack.now store.now }
{
    let Some(top) = stack.top() else {
        return Err(PsName::StackUnderflow);
    };
    let Obj::Array(span, _) = top else {
        return Err(PsName::TypeCheck);
    };
    matrix_of(store.objects(*span))
}

/// The matrix that six objects are: typecheck where one of them is no number, else rangecheck where there are
/// not six of them.
pub fn matrix_of(objects: &[Obj]) -> Result<Matrix, PsName>
    ensures { result ≡ matrix_of objects.now }
{
    if !are_numbers(objects) {
        return Err(PsName::TypeCheck);
    }
    match objects {
        [a, b, c, d, tx, ty] => six(a, b, c, d, tx, ty),
        _ => Err(PsName::RangeCheck),
    }
}

/// Whether each object is a number.
pub fn are_numbers(objects: &[Obj]) -> bool
    ensures { result ≡ list_all is_number objects.now }
{
    objects.iter().all(|o| number(o).is_some())
}

/// The matrix of six objects.
fn six(a: &Obj, b: &Obj, c: &Obj, d: &Obj, tx: &Obj, ty: &Obj) -> Result<Matrix, PsName>
    ensures { result ≡ matrix_or_type (raw_of a.now) (raw_of b.now) (raw_of c.now) (raw_of d.now) (raw_of tx.now)
        (raw_of ty.now) }
{
    let (Some(a), Some(b), Some(c), Some(d), Some(tx), Some(ty)) = (
        number(a),
        number(b),
        number(c),
        number(d),
        number(tx),
        number(ty),
    ) else {
        return Err(PsName::TypeCheck);
    };
    Ok(Matrix { a, b, c, d, tx, ty })
}

/// `setmatrix`: an array becomes the current transformation matrix.
pub(crate) fn setmatrix(stack: &mut Stack, store: &Store, gfx: &mut Gfx) -> Result<(), OpFault>
    ensures answers { GraphicsAnswers (setmatrix_row stack.old store.now gfx.old)
        result stack.old gfx.old stack.new gfx.new }
    ensures never { result ≢ Err OpFault.NoMemory }
{
    let m = one_matrix(stack, store)?;
    gfx.set_matrix(&m);
    stack.drop_top(1);
    Ok(())
}

/// `concat`: the matrix of an array is put before the current one.
pub(crate) fn concat(stack: &mut Stack, store: &Store, gfx: &mut Gfx) -> Result<(), OpFault>
    ensures answers { GraphicsAnswers (concat_row stack.old store.now gfx.old)
        result stack.old gfx.old stack.new gfx.new }
    ensures never { result ≢ Err OpFault.NoMemory }
{
    let m = one_matrix(stack, store)?;
    gfx.concat(&m)?;
    stack.drop_top(1);
    Ok(())
}

/// `translate`: moves the origin of user space.
pub(crate) fn translate(stack: &mut Stack, gfx: &mut Gfx) -> Result<(), OpFault>
    ensures answers { GraphicsAnswers (translate_row stack.old gfx.old)
        result stack.old gfx.old stack.new gfx.new }
    ensures never { result ≢ Err OpFault.NoMemory }
{
    let u = one_point(stack)?;
    gfx.translate(u.x, u.y)?;
    stack.drop_top(2);
    Ok(())
}

/// `scale`: makes the units of user space so many times as long.
pub(crate) fn scale(stack: &mut Stack, gfx: &mut Gfx) -> Result<(), OpFault>
    ensures answers { GraphicsAnswers (scale_row stack.old gfx.old)
        result stack.old gfx.old stack.new gfx.new }
    ensures never { result ≢ Err OpFault.NoMemory }
{
    let u = one_point(stack)?;
    gfx.scale(u.x, u.y)?;
    stack.drop_top(2);
    Ok(())
}

/// `rotate`: turns user space by so many degrees.
pub(crate) fn rotate(stack: &mut Stack, gfx: &mut Gfx) -> Result<(), OpFault>
    ensures answers { GraphicsAnswers (rotate_row stack.old gfx.old)
        result stack.old gfx.old stack.new gfx.new }
    ensures never { result ≢ Err OpFault.NoMemory }
{
    let angle = one_number(stack)?;
    gfx.rotate(angle)?;
    stack.drop_top(1);
    Ok(())
}

/// `transform`: the point of device space of a user point.
pub(crate) fn transform(stack: &mut Stack, gfx: &Gfx) -> Result<(), OpFault>
    ensures answers { GraphicsAnswers (transform_row stack.old gfx.now)
        result stack.old gfx.now stack.new gfx.now }
    ensures never { result ≢ Err OpFault.NoMemory }
{
    let u = one_point(stack)?;
    let Ok(v) = device_of(&gfx.matrix(), u.x, u.y) else {
        return Err(OpFault::Ps(PsName::UndefinedResult));
    };
    stack.replace_two(Obj::Real(v.x), Obj::Real(v.y));
    Ok(())
}

/// `itransform`: the user point of a point of device space.
pub(crate) fn itransform(stack: &mut Stack, gfx: &Gfx) -> Result<(), OpFault>
    ensures answers { GraphicsAnswers (itransform_row stack.old gfx.now)
        result stack.old gfx.now stack.new gfx.now }
    ensures never { result ≢ Err OpFault.NoMemory }
{
    let u = one_point(stack)?;
    let Ok(v) = user_of(&gfx.matrix(), u.x, u.y) else {
        return Err(OpFault::Ps(PsName::UndefinedResult));
    };
    stack.replace_two(Obj::Real(v.x), Obj::Real(v.y));
    Ok(())
}
