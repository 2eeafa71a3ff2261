//! Comparison operators (PostScript Language Reference, third edition, 8.2).
ghost use Rattle.std.specs.Prelude.{◌≡◌, ◌==◌};
ghost use Rattle.std.specs.Ordering.{int_cmp, int_eq};
ghost use Rattle.ps_stack_ops.specs.Comparison.{equal, order_of, same_part, same_operator};

use crate::rows::TwoOperands;
use press_fault::PsName;
use press_nums::{Fix, Wide};
use ps_store::{Obj, Oper, Part, Store};
use std::cmp::Ordering;

/// Whether two objects are equal.
pub(crate) struct Eq;

impl TwoOperands for Eq {
    ghost use Rattle.ps_stack_ops.specs.Comparison.{eq_value};

    ghost value = { eq_value };

    fn value(store: &Store, a: &Obj, b: &Obj) -> Result<Obj, PsName> {
        Ok(Obj::Bool(equal(store, a, b)))
    }
}

/// Whether two objects are different.
pub(crate) struct Ne;

impl TwoOperands for Ne {
    ghost use Rattle.ps_stack_ops.specs.Comparison.{ne_value};

    ghost value = { ne_value };

    fn value(store: &Store, a: &Obj, b: &Obj) -> Result<Obj, PsName> {
        Ok(Obj::Bool(!equal(store, a, b)))
    }
}

/// Whether the lower operand is greater than the one on top.
pub(crate) struct Gt;

impl TwoOperands for Gt {
    ghost use Rattle.ps_stack_ops.specs.Comparison.{gt_value};

    ghost value = { gt_value };

    fn value(store: &Store, a: &Obj, b: &Obj) -> Result<Obj, PsName> {
        match order(store, a, b) {
            Ok(order) => Ok(Obj::Bool(order.is_gt())),
            Err(name) => Err(name),
        }
    }
}

/// Whether the lower operand is at least the one on top.
pub(crate) struct Ge;

impl TwoOperands for Ge {
    ghost use Rattle.ps_stack_ops.specs.Comparison.{ge_value};

    ghost value = { ge_value };

    fn value(store: &Store, a: &Obj, b: &Obj) -> Result<Obj, PsName> {
        match order(store, a, b) {
            Ok(order) => Ok(Obj::Bool(order.is_ge())),
            Err(name) => Err(name),
        }
    }
}

/// Whether the lower operand is less than the one on top.
pub(crate) struct Lt;

impl TwoOperands for Lt {
    ghost use Rattle.ps_stack_ops.specs.Comparison.{lt_value};

    ghost value = { lt_value };

    fn value(store: &Store, a: &Obj, b: &Obj) -> Result<Obj, PsName> {
        match order(store, a, b) {
            Ok(order) => Ok(Obj::Bool(order.is_lt())),
            Err(name) => Err(name),
        }
    }
}

/// Whether the lower operand is at most the one on top.
pub(crate) struct Le;

impl TwoOperands for Le {
    ghost use Rattle.ps_stack_ops.specs.Comparison.{le_value};

    ghost value = { le_value };

    fn value(store: &Store, a: &Obj, b: &Obj) -> Result<Obj, PsName> {
        match order(store, a, b) {
            Ok(order) => Ok(Obj::Bool(order.is_le())),
            Err(name) => Err(name),
        }
    }
}

#[tactic(auto, unfolding(crate::specs::Comparison::equal))]
fn equal(store: &Store, a: &Obj, b: &Obj) -> bool
    ensures { result ≡ equal store.now a.now b.now }
{
    match (a, b) {
        (Obj::Int(a), Obj::Int(b)) => is_same(a.wide(), b.wide()),
        (Obj::Int(a), Obj::Real(b)) => is_same(Fix::of_whole(*a).wide(), b.wide()),
        (Obj::Real(a), Obj::Int(b)) => is_same(a.wide(), Fix::of_whole(*b).wide()),
        (Obj::Real(a), Obj::Real(b)) => is_same(a.wide(), b.wide()),
        (Obj::Name(a, _), Obj::Name(b, _)) => a.bytes() == b.bytes(),
        (Obj::Name(a, _), Obj::Text(b)) => a.bytes() == store.bytes(*b),
        (Obj::Text(a), Obj::Name(b, _)) => store.bytes(*a) == b.bytes(),
        (Obj::Text(a), Obj::Text(b)) => store.bytes(*a) == store.bytes(*b),
        (Obj::Bool(a), Obj::Bool(b)) => *a == *b,
        (Obj::Array(a, _), Obj::Array(b, _)) => is_same_part(a, b),
        (Obj::Dict(a), Obj::Dict(b)) => *a == *b,
        (Obj::Oper(a), Obj::Oper(b)) => is_same_operator(*a, *b),
        (Obj::Null, Obj::Null) => true,
        (Obj::Mark, Obj::Mark) => true,
        (Obj::File, Obj::File) => true,
        _ => false,
    }
}

fn is_same(a: Wide, b: Wide) -> bool
    ensures { result ≡ int_eq a b }
{
    !a.is_below(b) && !b.is_below(a)
}

fn is_same_part(a: &Part, b: &Part) -> bool
    ensures { result ≡ same_part a.now b.now }
{
    a.id == b.id && (a.start == b.start && a.len == b.len)
}

#[tactic(auto, unfolding(crate::specs::Comparison::same_operator))]
fn is_same_operator(a: Oper, b: Oper) -> bool
    ensures { result ≡ same_operator a b }
{
    a.number() == b.number()
}

/// The order of two numbers by value, or of two strings by the first bytes that differ.
#[tactic(auto, unfolding(crate::specs::Comparison::order_of))]
fn order(store: &Store, a: &Obj, b: &Obj) -> Result<Ordering, PsName>
    ensures { result ≡ order_of store.now a.now b.now }
{
    match (a, b) {
        (Obj::Text(a), Obj::Text(b)) => Ok(store.bytes(*a).cmp(store.bytes(*b))),
        (Obj::Int(a), Obj::Int(b)) => Ok(compare(a.wide(), b.wide())),
        (Obj::Int(a), Obj::Real(b)) => Ok(compare(Fix::of_whole(*a).wide(), b.wide())),
        (Obj::Real(a), Obj::Int(b)) => Ok(compare(a.wide(), Fix::of_whole(*b).wide())),
        (Obj::Real(a), Obj::Real(b)) => Ok(compare(a.wide(), b.wide())),
        _ => Err(PsName::TypeCheck),
    }
}

fn compare(a: Wide, b: Wide) -> Ordering
    ensures { result ≡ int_cmp a b }
{
    if a.is_below(b) {
        Ordering::Less
    } else if b.is_below(a) {
        Ordering::Greater
    } else {
        Ordering::Equal
    }
}
