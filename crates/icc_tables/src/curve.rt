//! One-dimensional curves.
ghost use Rattle.std.specs.Prelude.{◌≡◌, ◌≤◌, ◌<◌, ◌+◌, ◌*◌, ◌-◌, length, Some, None, nat_le, IsTrue, IfOk, ◌↔◌};
ghost use Rattle.icc_tables.specs.Curves.{table_value, curve_at, curve_back, IsRising};
ghost use Rattle.icc_tables.specs.Rounded.{rounded};

use crate::rounded::by_65535;
use crate::values::Values;
use std::alloc::{AllocError, Global};
use std::marker::Model;

/// A curve of one channel (ICC.1:2010, 10.5 curveType): the identity, or from 2 to 65,536 entries
/// of 16 bits at equal steps, between which it is linear.
#[derive(Drop)]
pub struct Curve {
    entries: Option<Values>,
    /// Where this is true, no entry is below the one before it.
    rises: bool,
}

impl Model for Curve {
    ghost use Rattle.std.specs.Prelude.{IsTrue};
    ghost use Rattle.icc_tables.specs.Curves.{CurveValue, IsCurve, IsRising};

    ghost Value = { CurveValue };

    ghost view = { λ c. c.entries };

    ghost invariant = { λ c. IsCurve c.entries × (IsTrue c.rises → IsRising c.entries) };
}

impl Curve {
    /// The curve that gives each value back.
    pub fn identity() -> Curve
        ensures { result ≡ None }
    {
        Curve {
            entries: None,
            rises: true,
        }
    }

    /// The curve of these entries. It looks at each of them once.
    pub fn of_values(values: Vec<u16>) -> Curve
        requires few { 2 ≤ length values.items }
        requires many { length values.items ≤ 65536 }
        ensures { result ≡ Some values.items }
    {
        let rises = is_rising(&values);
        Curve {
            entries: Some(Values::from_vec(values)),
            rises,
        }
    }

    /// The same curve once more.
    pub fn copy(&self, alloc: Global) -> Result<Curve, AllocError>
        ensures { IfOk result (λ curve. curve ≡ self.now) }
    {
        let entries = match &self.entries {
            None => None,
            Some(entries) => Some(entries.copy(alloc)?),
        };
        Ok(Curve {
            entries,
            rises: self.rises,
        })
    }
}

/// Whether no value is below the one before it.
fn is_rising(values: &[u16]) -> bool
    ensures { IsTrue result ↔ IsRising (Some values.now) }
{
    for k in 1..values.len() {
        if values[k] < values[k - 1] {
            return false;
        }
    }
    true
}

/// The value of a curve at v (ICC.1:2010, 10.5 curveType).
#[tactic(auto, unfolding(crate::specs::Curves::curve_at))]
pub fn curve_at(curve: &Curve, v: u16) -> u16
    ensures { result ≡ curve_at curve.now v }
{
    match &curve.entries {
        None => v,
        Some(entries) => {
            let entries = entries.items();
            table_at(entries, 0, entries.len(), v)
        }
    }
}

/// The value at v of the table of `count` entries that begins at the place `from`.
#[tactic(auto, using(crate::proofs::Tables::at_an_entry), unfolding(crate::specs::Curves::table_value))]
pub fn table_at(entries: &[u16], from: usize, count: usize, v: u16) -> u16
    requires some { 2 ≤ count }
    requires few { count ≤ 65536 }
    requires inside { from + count ≤ length entries.now }
    ensures { result ≡ table_value entries.now from count v }
{
    let step = u64::from(v) * (count as u64 - 1);
    let place = from + (step / 65535) as usize;
    let distance = step % 65535;
    if distance == 0 {
        // The entry itself: the one after it may not be there, and weighs nothing.
        entries[place]
    } else {
        between(entries[place], entries[place + 1], distance)
    }
}

/// The value at a distance of `distance` / 65535 from the first of two neighbours.
fn between(low: u16, high: u16, distance: u64) -> u16
    requires { distance < 65535 }
    ensures { result ≡ rounded (low * (65535 - distance) + high * distance) 65535 }
{
    by_65535(u64::from(low) * (65535 - distance) + u64::from(high) * distance) as u16
}

/// The least value of 16 bits that the curve takes to v or above, else 65535.
///
/// It halves where no entry is below the one before it, which takes 16 values of the curve; else
/// it asks the values one after another.
#[tactic(auto, using(crate::proofs::Tables::identity_back))]
pub fn curve_back(curve: &Curve, v: u16) -> u16
    ensures { result ≡ curve_back curve.now v }
{
    match &curve.entries {
        None => v,
        Some(entries) => {
            if curve.rises {
                by_halving(entries.items(), v)
            } else {
                by_search(entries.items(), v)
            }
        }
    }
}

/// Whether the table's value at a code is v or above.
fn reaches(entries: &[u16], code: u16, v: u16) -> bool
    requires some { 2 ≤ length entries.now }
    requires few { length entries.now ≤ 65536 }
    ensures { result ≡ nat_le v (table_value entries.now 0 (length entries.now) code) }
{
    v <= table_at(entries, 0, entries.len(), code)
}

/// The least code below 65535 that reaches v, else 65535, in a table that never falls.
fn by_halving(entries: &[u16], v: u16) -> u16
    requires some { 2 ≤ length entries.now }
    requires few { length entries.now ≤ 65536 }
    requires rising { IsRising (Some entries.now) }
    ensures { result ≡ curve_back (Some entries.now) v }
{
    let mut low: u32 = 0;
    let mut high: u32 = 65535;
    while low < high {
        let middle = (low + high) / 2;
        if reaches(entries, middle as u16, v) {
            high = middle;
        } else {
            low = middle + 1;
        }
    }
    low as u16
}

/// The least code below 65535 that reaches v, else 65535, in any table.
fn by_search(entries: &[u16], v: u16) -> u16
    requires some { 2 ≤ length entries.now }
    requires few { length entries.now ≤ 65536 }
    ensures { result ≡ curve_back (Some entries.now) v }
{
    for code in 0..65535u16 {
        if reaches(entries, code, v) {
            return code;
        }
    }
    65535
}
