//! Arithmetic and mathematical operators (PostScript Language Reference, third edition, 8.2).
use crate::numbers::{Pair, integer, numbers_in, real};
use crate::rows::{OneOperand, TwoOperands};
use geo_matrix::{cosine, sine};
use press_fault::PsName;
use press_nums::{
    Wide, fix_add, fix_div, fix_mul, fix_root, fix_sub, whole_add, whole_div, whole_mul, whole_rem,
    whole_sub,
};
use ps_store::{Obj, Store, number};

/// The sum.
pub(crate) struct Add;

impl TwoOperands for Add {
    ghost use Rattle.ps_stack_ops.specs.Arithmetic.{add_value};

    ghost value = { λ _. add_value };

    #[tactic(auto, unfolding(crate::specs::Arithmetic::add_value))]
    fn value(_store: &Store, a: &Obj, b: &Obj) -> Result<Obj, PsName> {
        let Some(numbers) = numbers_in(a, b) else {
            return Err(PsName::TypeCheck);
        };
        match numbers {
            Pair::Wholes(a, b) => integer(whole_add(a, b)),
            Pair::Fixes(a, b) => real(fix_add(a, b)),
        }
    }
}

/// The difference.
pub(crate) struct Sub;

impl TwoOperands for Sub {
    ghost use Rattle.ps_stack_ops.specs.Arithmetic.{sub_value};

    ghost value = { λ _. sub_value };

    #[tactic(auto, unfolding(crate::specs::Arithmetic::sub_value))]
    fn value(_store: &Store, a: &Obj, b: &Obj) -> Result<Obj, PsName> {
        let Some(numbers) = numbers_in(a, b) else {
            return Err(PsName::TypeCheck);
        };
        match numbers {
            Pair::Wholes(a, b) => integer(whole_sub(a, b)),
            Pair::Fixes(a, b) => real(fix_sub(a, b)),
        }
    }
}

/// The product.
pub(crate) struct Mul;

impl TwoOperands for Mul {
    ghost use Rattle.ps_stack_ops.specs.Arithmetic.{mul_value};

    ghost value = { λ _. mul_value };

    #[tactic(auto, unfolding(crate::specs::Arithmetic::mul_value))]
    fn value(_store: &Store, a: &Obj, b: &Obj) -> Result<Obj, PsName> {
        let Some(numbers) = numbers_in(a, b) else {
            return Err(PsName::TypeCheck);
        };
        match numbers {
            Pair::Wholes(a, b) => integer(whole_mul(a, b)),
            Pair::Fixes(a, b) => real(fix_mul(a, b)),
        }
    }
}

/// The quotient as a real number.
pub(crate) struct Div;

impl TwoOperands for Div {
    ghost use Rattle.ps_stack_ops.specs.Arithmetic.{div_value};

    ghost value = { λ _. div_value };

    #[tactic(auto, unfolding(crate::specs::Arithmetic::div_value))]
    fn value(_store: &Store, a: &Obj, b: &Obj) -> Result<Obj, PsName> {
        let (Some(a), Some(b)) = (number(a), number(b)) else {
            return Err(PsName::TypeCheck);
        };
        real(fix_div(a, b))
    }
}

/// The quotient of integers, truncated to zero.
pub(crate) struct Idiv;

impl TwoOperands for Idiv {
    ghost use Rattle.ps_stack_ops.specs.Arithmetic.{idiv_value};

    ghost value = { λ _. idiv_value };

    #[tactic(auto, unfolding(crate::specs::Arithmetic::idiv_value))]
    fn value(_store: &Store, a: &Obj, b: &Obj) -> Result<Obj, PsName> {
        match (a, b) {
            (Obj::Int(a), Obj::Int(b)) => integer(whole_div(*a, *b)),
            _ => Err(PsName::TypeCheck),
        }
    }
}

/// What the truncated division leaves.
pub(crate) struct Mod;

impl TwoOperands for Mod {
    ghost use Rattle.ps_stack_ops.specs.Arithmetic.{mod_value};

    ghost value = { λ _. mod_value };

    #[tactic(auto, unfolding(crate::specs::Arithmetic::mod_value))]
    fn value(_store: &Store, a: &Obj, b: &Obj) -> Result<Obj, PsName> {
        match (a, b) {
            (Obj::Int(a), Obj::Int(b)) => integer(whole_rem(*a, *b)),
            _ => Err(PsName::TypeCheck),
        }
    }
}

/// The negative.
pub(crate) struct Neg;

impl OneOperand for Neg {
    ghost use Rattle.ps_stack_ops.specs.Arithmetic.{neg_value};

    ghost value = { neg_value };

    #[tactic(auto, unfolding(crate::specs::Arithmetic::neg_value))]
    fn value(a: &Obj) -> Result<Obj, PsName> {
        match a {
            Obj::Int(n) => integer(n.negated()),
            Obj::Real(x) => real(x.negated()),
            _ => Err(PsName::TypeCheck),
        }
    }
}

/// The magnitude.
pub(crate) struct Abs;

impl OneOperand for Abs {
    ghost use Rattle.ps_stack_ops.specs.Arithmetic.{abs_value};

    ghost value = { abs_value };

    #[tactic(auto, unfolding(crate::specs::Arithmetic::abs_value))]
    fn value(a: &Obj) -> Result<Obj, PsName> {
        match a {
            Obj::Int(n) => integer(n.magnitude()),
            Obj::Real(x) => real(x.magnitude()),
            _ => Err(PsName::TypeCheck),
        }
    }
}

/// The integer value at or above a number.
pub(crate) struct Ceiling;

impl OneOperand for Ceiling {
    ghost use Rattle.ps_stack_ops.specs.Arithmetic.{ceiling_value};

    ghost value = { ceiling_value };

    #[tactic(auto, unfolding(crate::specs::Arithmetic::ceiling_value))]
    fn value(a: &Obj) -> Result<Obj, PsName> {
        match a {
            Obj::Int(n) => Ok(Obj::Int(*n)),
            Obj::Real(x) => real(x.ceiling()),
            _ => Err(PsName::TypeCheck),
        }
    }
}

/// The integer value at or below a number.
pub(crate) struct Floor;

impl OneOperand for Floor {
    ghost use Rattle.ps_stack_ops.specs.Arithmetic.{floor_value};

    ghost value = { floor_value };

    #[tactic(auto, unfolding(crate::specs::Arithmetic::floor_value))]
    fn value(a: &Obj) -> Result<Obj, PsName> {
        match a {
            Obj::Int(n) => Ok(Obj::Int(*n)),
            Obj::Real(x) => Ok(Obj::Real(x.floor())),
            _ => Err(PsName::TypeCheck),
        }
    }
}

/// The nearest integer value; a tie goes up.
pub(crate) struct Round;

impl OneOperand for Round {
    ghost use Rattle.ps_stack_ops.specs.Arithmetic.{round_value};

    ghost value = { round_value };

    #[tactic(auto, unfolding(crate::specs::Arithmetic::round_value))]
    fn value(a: &Obj) -> Result<Obj, PsName> {
        match a {
            Obj::Int(n) => Ok(Obj::Int(*n)),
            Obj::Real(x) => real(x.round()),
            _ => Err(PsName::TypeCheck),
        }
    }
}

/// The integer value next to a number on the way to zero.
pub(crate) struct Truncate;

impl OneOperand for Truncate {
    ghost use Rattle.ps_stack_ops.specs.Arithmetic.{truncate_value};

    ghost value = { truncate_value };

    #[tactic(auto, unfolding(crate::specs::Arithmetic::truncate_value))]
    fn value(a: &Obj) -> Result<Obj, PsName> {
        match a {
            Obj::Int(n) => Ok(Obj::Int(*n)),
            Obj::Real(x) => Ok(Obj::Real(x.truncate())),
            _ => Err(PsName::TypeCheck),
        }
    }
}

/// The square root as a real number, rounded down.
pub(crate) struct Sqrt;

impl OneOperand for Sqrt {
    ghost use Rattle.ps_stack_ops.specs.Arithmetic.{sqrt_value};

    ghost value = { sqrt_value };

    #[tactic(auto, unfolding(crate::specs::Arithmetic::sqrt_value))]
    fn value(a: &Obj) -> Result<Obj, PsName> {
        let Some(x) = number(a) else {
            return Err(PsName::TypeCheck);
        };
        if x.wide().is_below(Wide::ZERO) {
            return Err(PsName::RangeCheck);
        }
        Ok(Obj::Real(fix_root(x)))
    }
}

/// The sine of an angle in degrees.
pub(crate) struct Sin;

impl OneOperand for Sin {
    ghost use Rattle.ps_stack_ops.specs.Arithmetic.{sin_value};

    ghost value = { sin_value };

    #[tactic(auto, unfolding(crate::specs::Arithmetic::sin_value))]
    fn value(a: &Obj) -> Result<Obj, PsName> {
        match number(a) {
            Some(angle) => Ok(Obj::Real(sine(angle))),
            None => Err(PsName::TypeCheck),
        }
    }
}

/// The cosine of an angle in degrees.
pub(crate) struct Cos;

impl OneOperand for Cos {
    ghost use Rattle.ps_stack_ops.specs.Arithmetic.{cos_value};

    ghost value = { cos_value };

    #[tactic(auto, unfolding(crate::specs::Arithmetic::cos_value))]
    fn value(a: &Obj) -> Result<Obj, PsName> {
        match number(a) {
            Some(angle) => Ok(Obj::Real(cosine(angle))),
            None => Err(PsName::TypeCheck),
        }
    }
}

/// A number as an integer, truncated to zero.
pub(crate) struct Cvi;

impl OneOperand for Cvi {
    ghost use Rattle.ps_stack_ops.specs.Arithmetic.{cvi_value};

    ghost value = { cvi_value };

    #[tactic(auto, unfolding(crate::specs::Arithmetic::cvi_value))]
    fn value(a: &Obj) -> Result<Obj, PsName> {
        match a {
            Obj::Int(n) => Ok(Obj::Int(*n)),
            Obj::Real(x) => Ok(Obj::Int(x.truncated())),
            _ => Err(PsName::TypeCheck),
        }
    }
}

/// A number as a real number.
pub(crate) struct Cvr;

impl OneOperand for Cvr {
    ghost use Rattle.ps_stack_ops.specs.Arithmetic.{cvr_value};

    ghost value = { cvr_value };

    #[tactic(auto, unfolding(crate::specs::Arithmetic::cvr_value))]
    fn value(a: &Obj) -> Result<Obj, PsName> {
        match number(a) {
            Some(x) => Ok(Obj::Real(x)),
            None => Err(PsName::TypeCheck),
        }
    }
}
