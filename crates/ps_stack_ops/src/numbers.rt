//! Numeric operands (PostScript Language Reference, third edition, 3.3 Data Types and Objects).
ghost use Rattle.std.specs.Prelude.{◌≡◌};
ghost use Rattle.ps_stack_ops.specs.Numbers.{pair_of, integer, real};

use press_fault::PsName;
use press_nums::{Fix, Whole};
use ps_store::Obj;

/// Two numbers: two integers, or else two real numbers.
#[derive(Clone, Copy)]
pub(crate) enum Pair {
    Wholes(Whole, Whole),
    Fixes(Fix, Fix),
}

/// Two numbers, `None` exactly where one of the objects is no number.
pub(crate) fn numbers_in(a: &Obj, b: &Obj) -> Option<Pair>
    ensures { result ≡ pair_of a.now b.now }
{
    match (a, b) {
        (Obj::Int(a), Obj::Int(b)) => Some(Pair::Wholes(*a, *b)),
        (Obj::Int(a), Obj::Real(b)) => Some(Pair::Fixes(Fix::of_whole(*a), *b)),
        (Obj::Real(a), Obj::Int(b)) => Some(Pair::Fixes(*a, Fix::of_whole(*b))),
        (Obj::Real(a), Obj::Real(b)) => Some(Pair::Fixes(*a, *b)),
        _ => None,
    }
}

/// An integer, where there is one in range.
pub(crate) fn integer(value: Option<Whole>) -> Result<Obj, PsName>
    ensures { result ≡ integer value }
{
    match value {
        Some(n) => Ok(Obj::Int(n)),
        None => Err(PsName::UndefinedResult),
    }
}

/// A real number, where there is one in range.
pub(crate) fn real(value: Option<Fix>) -> Result<Obj, PsName>
    ensures { result ≡ real value }
{
    match value {
        Some(x) => Ok(Obj::Real(x)),
        None => Err(PsName::UndefinedResult),
    }
}
