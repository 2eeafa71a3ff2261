//! The tags of curves.
ghost use Rattle.std.specs.Prelude.{◌≡◌, ◌≤◌, ◌<◌, ◌+◌, ◌*◌, ◌==◌, ◌||◌, ◌↔◌, length, not, true, false, IfOk, IsTrue};
ghost use Rattle.std.specs.Prelude.{IsErrOf};
ghost use Rattle.std.specs.Prelude.{Some, None, if◌then◌else◌, pos, ◌<ℤ◌};
ghost use Rattle.press_nums.specs.Whole.{IsWhole};
ghost use Rattle.icc_power.specs.Parametric.{parameter_count, parametric, nth};
ghost use Rattle.icc_power.specs.CurveTag.{curv, para, type_of, count_of, function_of, size_of, curv_size, para_size};
ghost use Rattle.icc_power.specs.CurveTag.{has_other_type, is_misshapen, is_bad_curv, is_bad_para, curv_curve};
ghost use Rattle.icc_power.specs.CurveTag.{IsCurv, IsPara, u16_at, s15_at, para_curve, exponent_curve, entries_of};
ghost use Rattle.icc_power.specs.CurveTag.{raw_of, curve_of};

use crate::fields::{s15_at, u16_at, u32_at};
use crate::parametric::{Parametric, curve_of};
use icc_tables::Curve;
use press_fault::{Mem, NoMemory};
use press_nums::Wide;
use std::alloc::Global;

/// The signature `curv`.
const CURV: u32 = 0x6375_7276;
/// The signature `para`.
const PARA: u32 = 0x7061_7261;

/// Why a tag gives no curve.
#[derive(Clone, Copy, Debug, PartialEq, Eq)]
pub enum CurveFault {
    /// It has 8 bytes or more, and another type than `curv` and `para`.
    Kind,
    /// It is shorter than its content, or its count, its function type or its exponent is none.
    Shape,
    /// There is no memory for it.
    NoMemory,
}

impl From<NoMemory> for CurveFault {
    ghost use Rattle.std.specs.Prelude.{◌≡◌};
    ghost use Rattle.icc_power.specs.declared.tag.CurveFault.TheVariants.{NoMemory};

    ghost from_gives = { λ _ e. e ≡ NoMemory };

    fn from(_: NoMemory) -> CurveFault {
        CurveFault::NoMemory
    }
}

/// Whether the type is `curv`.
fn is_curv(tag: &[u8]) -> bool
    requires { 4 ≤ length tag.now }
    ensures { result ≡ (type_of tag.now == curv) }
{
    u32_at(tag, 0) == CURV
}

/// Whether the type is `para`.
fn is_para(tag: &[u8]) -> bool
    requires { 4 ≤ length tag.now }
    ensures { result ≡ (type_of tag.now == para) }
{
    u32_at(tag, 0) == PARA
}

/// The parameters of a function type.
fn parameter_count(function: u16) -> usize
    ensures value { result ≡ parameter_count function }
    ensures bound { result ≤ 7 }
{
    if function == 0 {
        1
    } else if function == 1 {
        3
    } else if function == 2 {
        4
    } else if function == 3 {
        5
    } else {
        7
    }
}

/// Whether a `curv` is no curve.
#[tactic(auto, unfolding(crate::specs::CurveTag::is_bad_curv))]
fn is_bad_curv(tag: &[u8]) -> bool
    ensures { result ≡ is_bad_curv tag.now }
{
    if tag.len() < 12 {
        return true;
    }
    let count = u32_at(tag, 8);
    if 65536 < count {
        return true;
    }
    if tag.len() < 12 + 2 * count as usize {
        return true;
    }
    count == 1 && u16_at(tag, 12) == 0
}

/// Whether a `para` is no curve.
#[tactic(auto, unfolding(crate::specs::CurveTag::is_bad_para))]
fn is_bad_para(tag: &[u8]) -> bool
    ensures { result ≡ is_bad_para tag.now }
{
    if tag.len() < 10 {
        return true;
    }
    let function = u16_at(tag, 8);
    if 4 < function {
        return true;
    }
    if tag.len() < 12 + 4 * parameter_count(function) {
        return true;
    }
    !Wide::ZERO.is_below(s15_at(tag, 12).wide())
}

/// Whether a tag of 8 bytes or more has another type than `curv` and `para`.
#[tactic(auto, unfolding(crate::specs::CurveTag::has_other_type))]
pub fn has_other_type(tag: &[u8]) -> bool
    ensures { result ≡ has_other_type tag.now }
{
    if tag.len() < 8 {
        return false;
    }
    if is_curv(tag) {
        return false;
    }
    !is_para(tag)
}

/// Whether the tag of a curve is shorter than its content, or its count, function type or exponent
/// is none.
#[tactic(auto, unfolding(crate::specs::CurveTag::is_misshapen))]
pub fn is_misshapen(tag: &[u8]) -> bool
    ensures { result ≡ is_misshapen tag.now }
{
    if tag.len() < 8 {
        return true;
    }
    if is_curv(tag) {
        is_bad_curv(tag)
    } else if is_para(tag) {
        is_bad_para(tag)
    } else {
        false
    }
}

/// The entries of a `curv`.
#[tactic(auto, using(crate::proofs::Listed::one_more))]
fn entries(alloc: Global, tag: &[u8], count: usize) -> Mem<Vec<u16>>
    requires whole { count ≡ count_of tag.now }
    requires few { count ≤ 65536 }
    requires size { 12 + 2 * count ≤ length tag.now }
    ensures items { IfOk result (λ entries. entries.items ≡ entries_of tag.now) }
    ensures length { IfOk result (λ entries. length entries.items ≡ count) }
{
    let mut entries = Vec::with_capacity(alloc, count)?;
    for k in 0..count {
        entries.push(u16_at(tag, 12 + 2 * k))?;
    }
    Ok(entries)
}

/// The curve of a single entry, an exponent in 1/256.
fn exponent_curve(alloc: Global, entry: u16) -> Mem<Curve>
    requires { 0 < entry }
    ensures { IfOk result (λ curve. curve ≡ exponent_curve entry) }
{
    if entry == 256 {
        Ok(Curve::identity())
    } else {
        curve_of(alloc, &Parametric::exponent(entry))
    }
}

/// The curve of a `curv`.
#[tactic(auto, unfolding(crate::specs::CurveTag::curv_curve))]
fn curv_curve(alloc: Global, tag: &[u8]) -> Mem<Curve>
    requires { IsCurv tag.now }
    ensures { IfOk result (λ curve. curve ≡ curv_curve tag.now) }
{
    let count = u32_at(tag, 8);
    if count == 0 {
        Ok(Curve::identity())
    } else if count == 1 {
        exponent_curve(alloc, u16_at(tag, 12))
    } else {
        Ok(Curve::of_values(entries(alloc, tag, count as usize)?))
    }
}

/// A parameter of a `para`: 0 past those that it has.
#[tactic(auto, using(crate::proofs::Shapes::raw_there, crate::proofs::Shapes::raw_past))]
fn raw_at(tag: &[u8], k: usize) -> i64
    requires para { IsPara tag.now }
    requires few { k ≤ 6 }
    ensures value { result ≡ nth (raw_of tag.now) k }
    ensures whole { IsWhole result }
    ensures positive { k ≡ 0 → pos 0 <ℤ result }
{
    if k < parameter_count(u16_at(tag, 8)) {
        i64::from(s15_at(tag, 12 + 4 * k).get())
    } else {
        0
    }
}

/// The parameters of a `para`.
fn parameters_of(tag: &[u8]) -> Parametric
    requires { IsPara tag.now }
    ensures { result ≡ parametric (function_of tag.now) (raw_of tag.now) }
{
    let raw = [
        raw_at(tag, 0),
        raw_at(tag, 1),
        raw_at(tag, 2),
        raw_at(tag, 3),
        raw_at(tag, 4),
        raw_at(tag, 5),
        raw_at(tag, 6),
    ];
    Parametric::new(u16_at(tag, 8) as u8, &raw)
}

/// The curve of a `para`.
#[tactic(auto, unfolding(crate::specs::CurveTag::para_curve))]
fn para_curve(alloc: Global, tag: &[u8]) -> Mem<Curve>
    requires { IsPara tag.now }
    ensures { IfOk result (λ curve. curve ≡ para_curve tag.now) }
{
    curve_of(alloc, &parameters_of(tag))
}

/// How many bytes of a tag that has a curve are read.
#[tactic(auto, using(crate::proofs::Shapes::curv_of, crate::proofs::Shapes::para_of, crate::proofs::Shapes::eight_of))]
pub fn size_of(tag: &[u8]) -> usize
    requires good { is_misshapen tag.now ≡ false }
    requires known { has_other_type tag.now ≡ false }
    ensures value { result ≡ size_of tag.now }
    ensures inside { result ≤ length tag.now }
{
    if is_curv(tag) {
        12 + 2 * u32_at(tag, 8) as usize
    } else {
        12 + 4 * parameter_count(u16_at(tag, 8))
    }
}

/// The curve of a tag that has one, and how many bytes of it are read.
#[tactic(auto, using(crate::proofs::Shapes::curv_of, crate::proofs::Shapes::para_of, crate::proofs::Shapes::eight_of), unfolding(crate::specs::CurveTag::curve_of))]
pub fn curve_of_tag(alloc: Global, tag: &[u8]) -> Mem<(Curve, usize)>
    requires good { is_misshapen tag.now ≡ false }
    requires known { has_other_type tag.now ≡ false }
    ensures curve { IfOk result (λ read. read.0 ≡ curve_of tag.now) }
    ensures size { IfOk result (λ read. read.1 ≡ size_of tag.now) }
{
    if is_curv(tag) {
        let curve = curv_curve(alloc, tag)?;
        Ok((curve, 12 + 2 * u32_at(tag, 8) as usize))
    } else {
        let curve = para_curve(alloc, tag)?;
        Ok((curve, 12 + 4 * parameter_count(u16_at(tag, 8))))
    }
}

/// The curve of a tag's bytes, and how many of them it takes. Both faults are found before memory
/// is asked for.
pub fn read_curve(alloc: Global, tag: &[u8]) -> Result<(Curve, usize), CurveFault>
    ensures kind { IsErrOf result CurveFault.Kind ↔ IsTrue (has_other_type tag.now) }
    ensures shape { IsErrOf result CurveFault.Shape ↔ IsTrue (is_misshapen tag.now) }
    ensures curve { IfOk result (λ read. read.0 ≡ curve_of tag.now) }
    ensures size { IfOk result (λ read. read.1 ≡ size_of tag.now) }
{
    if has_other_type(tag) {
        return Err(CurveFault::Kind);
    }
    if is_misshapen(tag) {
        return Err(CurveFault::Shape);
    }
    Ok(curve_of_tag(alloc, tag)?)
}
