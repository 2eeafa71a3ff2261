//! Logical and bitwise operators (PostScript Language Reference, third edition, 8.2).
ghost use Rattle.std.specs.Prelude.{◌≡◌};
ghost use Rattle.ps_stack_ops.specs.Logic.{shifted};

use crate::rows::{OneOperand, TwoOperands};
use press_fault::PsName;
use press_nums::Whole;
use ps_store::{Obj, Store};

/// Both, or the bits that are in both.
pub(crate) struct And;

impl TwoOperands for And {
    ghost use Rattle.ps_stack_ops.specs.Logic.{and_value};

    ghost value = { λ _. and_value };

    #[tactic(auto, unfolding(crate::specs::Logic::and_value))]
    fn value(_store: &Store, a: &Obj, b: &Obj) -> Result<Obj, PsName> {
        match (a, b) {
            (Obj::Bool(a), Obj::Bool(b)) => Ok(Obj::Bool(*a && *b)),
            (Obj::Int(a), Obj::Int(b)) => Ok(Obj::Int(Whole::of_bits(a.bits() & b.bits()))),
            _ => Err(PsName::TypeCheck),
        }
    }
}

/// Either, or the bits that are in either.
pub(crate) struct Or;

impl TwoOperands for Or {
    ghost use Rattle.ps_stack_ops.specs.Logic.{or_value};

    ghost value = { λ _. or_value };

    #[tactic(auto, unfolding(crate::specs::Logic::or_value))]
    fn value(_store: &Store, a: &Obj, b: &Obj) -> Result<Obj, PsName> {
        match (a, b) {
            (Obj::Bool(a), Obj::Bool(b)) => Ok(Obj::Bool(*a || *b)),
            (Obj::Int(a), Obj::Int(b)) => Ok(Obj::Int(Whole::of_bits(a.bits() | b.bits()))),
            _ => Err(PsName::TypeCheck),
        }
    }
}

/// Exactly one, or the bits that are in exactly one.
pub(crate) struct Xor;

impl TwoOperands for Xor {
    ghost use Rattle.ps_stack_ops.specs.Logic.{xor_value};

    ghost value = { λ _. xor_value };

    #[tactic(auto, unfolding(crate::specs::Logic::xor_value))]
    fn value(_store: &Store, a: &Obj, b: &Obj) -> Result<Obj, PsName> {
        match (a, b) {
            (Obj::Bool(a), Obj::Bool(b)) => Ok(Obj::Bool(*a != *b)),
            (Obj::Int(a), Obj::Int(b)) => Ok(Obj::Int(Whole::of_bits(a.bits() ^ b.bits()))),
            _ => Err(PsName::TypeCheck),
        }
    }
}

/// The opposite, or the bits that are not there.
pub(crate) struct Not;

impl OneOperand for Not {
    ghost use Rattle.ps_stack_ops.specs.Logic.{not_value};

    ghost value = { not_value };

    #[tactic(auto, unfolding(crate::specs::Logic::not_value))]
    fn value(a: &Obj) -> Result<Obj, PsName> {
        match a {
            Obj::Bool(a) => Ok(Obj::Bool(!*a)),
            Obj::Int(n) => Ok(Obj::Int(Whole::of_bits(n.bits() ^ 0xFFFF_FFFF))),
            _ => Err(PsName::TypeCheck),
        }
    }
}

/// The bits moved to the left, or to the right by a negative number of places.
pub(crate) struct Bitshift;

impl TwoOperands for Bitshift {
    ghost use Rattle.ps_stack_ops.specs.Logic.{bitshift_value};

    ghost value = { λ _. bitshift_value };

    #[tactic(auto, unfolding(crate::specs::Logic::bitshift_value))]
    fn value(_store: &Store, a: &Obj, b: &Obj) -> Result<Obj, PsName> {
        match (a, b) {
            (Obj::Int(a), Obj::Int(b)) => Ok(Obj::Int(Whole::of_bits(shifted(a.bits(), *b)))),
            _ => Err(PsName::TypeCheck),
        }
    }
}

/// 32 bits moved so many places to the left, or to the right where the number is negative.
fn shifted(bits: u32, places: Whole) -> u32
    ensures { result ≡ shifted bits places }
{
    let places = places.get();
    let distance = places.unsigned_abs();
    if distance >= 32 {
        0
    } else if places >= 0 {
        bits << distance
    } else {
        bits >> distance
    }
}
