//! Parametric curves.
ghost use Rattle.std.specs.Prelude.{◌≡◌, ◌≤◌, ◌<◌, ◌^◌, ◌*◌, ℤ, pos, ◌≤ℤ◌, ◌*ℤ◌, length, unsigned_abs, IfOk, [], ◌∷◌};
ghost use Rattle.icc_power.specs.Parametric.{ParametricValue, IsParametric, parametric, parameter_count, line_at};
ghost use Rattle.icc_tables.specs.Rounded.{rounded};
ghost use Rattle.icc_power.specs.Parametric.{nth, is_below, y_at, value_of, parametric_at, power_curve};

use crate::powers::{Roots, power_by};
use icc_tables::{Curve, clamped};
use press_fault::Mem;
use press_nums::{Short, Wide};
use std::alloc::Global;
use std::marker::Model;

/// The parameters of a curve, in 1/65536: Y is (aX + b)^g + e where X is d or more, else cX + f.
#[derive(Drop)]
pub(crate) struct Parametric {
    g: Short,
    a: Short,
    b: Short,
    c: Short,
    d: Short,
    e: Short,
    f: Short,
}

impl Model for Parametric {
    ghost use Rattle.icc_power.specs.Parametric.{ParametricValue, IsParametric};

    ghost Value = { ParametricValue };

    ghost view = { λ p. record { g = p.g; a = p.a; b = p.b; c = p.c; d = p.d; e = p.e; f = p.f } };

    ghost invariant = { λ p. IsParametric (record { g = p.g; a = p.a; b = p.b; c = p.c; d = p.d; e = p.e; f = p.f }) };
}

impl Parametric {
    /// The parameters of a function type, in the standard's order.
    pub(crate) fn new(kind: u8, raw: &[i64]) -> Parametric
        requires { IsParametric (parametric kind raw.now) }
        ensures { result ≡ parametric kind raw.now }
    {
        let zero = Wide::ZERO;
        let g = nth(raw, 0);
        if kind == 0 {
            parameters(g, Wide::of(65536), zero, zero, zero, zero, zero)
        } else if kind == 1 {
            parameters(g, nth(raw, 1), nth(raw, 2), zero, zero, zero, zero)
        } else if kind == 2 {
            parameters(g, nth(raw, 1), nth(raw, 2), zero, zero, nth(raw, 3), zero)
        } else if kind == 3 {
            parameters(
                g,
                nth(raw, 1),
                nth(raw, 2),
                nth(raw, 3),
                nth(raw, 4),
                zero,
                zero,
            )
        } else {
            let (c, d) = (nth(raw, 3), nth(raw, 4));
            parameters(g, nth(raw, 1), nth(raw, 2), c, d, nth(raw, 5), nth(raw, 6))
        }
    }

    /// The parameter of a single entry, an exponent in 1/256.
    pub(crate) fn exponent(entry: u16) -> Parametric
        requires { 0 < entry }
        ensures { result ≡ parametric 0 (pos (256 * entry) ∷ []) }
    {
        let zero = Wide::ZERO;
        let g = Wide::of_size(256 * u128::from(entry));
        parameters(g, Wide::of(65536), zero, zero, zero, zero, zero)
    }
}

/// The parameter of this number, 0 past the last.
fn nth(raw: &[i64], k: usize) -> Wide
    ensures { result ≡ nth raw.now k }
{
    if k < raw.len() {
        Wide::of(raw[k])
    } else {
        Wide::ZERO
    }
}

/// The parameters g to f.
fn parameters(g: Wide, a: Wide, b: Wide, c: Wide, d: Wide, e: Wide, f: Wide) -> Parametric
    requires { IsParametric (record { g = g; a = a; b = b; c = c; d = d; e = e; f = f }) }
    ensures { result ≡ record { g = g; a = a; b = b; c = c; d = d; e = e; f = f } }
{
    Parametric {
        g: Short::of(g),
        a: Short::of(a),
        b: Short::of(b),
        c: Short::of(c),
        d: Short::of(d),
        e: Short::of(e),
        f: Short::of(f),
    }
}

/// A line aX + b at X = v / 65535, in 1/2^32.
fn line_at(a: Short, b: Short, v: u16) -> Wide
    requires a { unsigned_abs a ≤ 2 ^ 31 }
    requires b { unsigned_abs b ≤ 2 ^ 31 }
    ensures value { result ≡ line_at a b v }
    ensures bound { unsigned_abs result ≤ 2 ^ 49 }
{
    let product = a.wide().times(u32::from(v) * 65536);
    product.div_round(Wide::of(65535)) + b.wide().times(65536)
}

/// Whether X is below d.
fn is_below(d: Short, v: u16) -> bool
    requires { unsigned_abs d ≤ 2 ^ 31 }
    ensures { result ≡ is_below d v }
{
    Wide::of(i64::from(v) * 65536).is_below(d.wide().times(65535))
}

/// Y at a value, in 1/2^32.
#[tactic(auto, unfolding(crate::specs::Parametric::y_at))]
fn y_at(p: &Parametric, roots: &Roots, v: u16) -> Wide
    ensures value { result ≡ y_at p.now v }
    ensures bound { unsigned_abs result ≤ 2 ^ 96 }
{
    if is_below(p.d, v) {
        line_at(p.c, p.f, v)
    } else {
        power_by(roots, line_at(p.a, p.b, v), p.g.wide()) + p.e.wide().times(65536)
    }
}

/// A number from 0 to 1 as a value of 16 bits.
fn value_of(y: Wide) -> u16
    ensures { result ≡ value_of y }
{
    rounded_value(clamped(y, 0, 0x1_0000_0000).size() as u64)
}

/// A magnitude from 0 to 1 as a value of 16 bits.
#[tactic(auto, unfolding(icc_tables::specs::Rounded::rounded))]
fn rounded_value(y: u64) -> u16
    requires { y ≤ 2 ^ 32 }
    ensures { result ≡ rounded (65535 * y) (2 ^ 32) }
{
    ((65535 * y * 2 + 0x1_0000_0000) / 0x2_0000_0000) as u16
}

/// The value of a curve at a value.
#[tactic(auto, unfolding(crate::specs::Parametric::parametric_at))]
fn parametric_at(p: &Parametric, roots: &Roots, v: u16) -> u16
    ensures { result ≡ parametric_at p.now v }
{
    value_of(y_at(p, roots, v))
}

/// The curve of 65,536 entries.
#[tactic(auto, using(crate::proofs::Listed::one_more))]
pub(crate) fn curve_of(alloc: Global, p: &Parametric) -> Mem<Curve>
    ensures { IfOk result (λ curve. curve ≡ power_curve p.now) }
{
    let roots = Roots::new();
    let mut entries = Vec::with_capacity(alloc, 65536)?;
    for v in 0..65536u32 {
        entries.push(parametric_at(p, &roots, v as u16))?;
    }
    Ok(Curve::of_values(entries))
}

/// The curve of a function type from 0 to 4 and its parameters, in 1/65536 and in the standard's
/// order. The first, g, is positive and below 2^32, and each other one within 32 bits.
pub fn power_curve(alloc: Global, kind: u8, raw: &[i64]) -> Mem<Curve>
    requires kind { kind ≤ 4 }
    requires count { length raw.now ≡ parameter_count kind }
    requires parameters { IsParametric (parametric kind raw.now) }
    ensures { IfOk result (λ curve. curve ≡ power_curve (parametric kind raw.now)) }
{
    curve_of(alloc, &Parametric::new(kind, raw))
}
