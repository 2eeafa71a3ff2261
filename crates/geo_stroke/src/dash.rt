//! Which dashes lie on a line.
//!
//! Distances count 1/65536 of a dot from the start of the first cycle of the pattern: a line goes from
//! `phase` to `phase + total`.
ghost use Rattle.std.specs.Prelude.{◌≡◌, ℕ, ◌≤◌, ◌<◌, ◌^◌, ◌+◌, ◌-◌, ◌*◌, ◌/◌, [], ◌∷◌, ◌++◌, false, pos, length, OnOk};
ghost use Rattle.std.specs.Prelude.{OnErr, IfOk, unsigned_abs};
ghost use Rattle.std.specs.Int.{int_rem_euclid};
ghost use Rattle.std.specs.List.{sum};
ghost use Rattle.geo_stroke.specs.Pen.{is_solid};
ghost use Rattle.geo_stroke.specs.Dash.{is_even, cycle_length, phase_of, is_made, dash_on, dash_of, dashes_from};
ghost use Rattle.geo_stroke.specs.Dash.{cycle_dashes, cycles_of, dashes_by};
ghost use Rattle.geo_stroke.specs.Code.Cursor.{later_by, LeavesRoom};

use press_fault::Mem;
use press_nums::Wide;
use std::alloc::Global;

/// A dash on a line, by the distances from the line's start at which it begins and ends, and whether
/// its length in the pattern is 0.
#[derive(Clone, Copy)]
pub(crate) struct Dash {
    pub from: u128,
    pub to: u128,
    pub is_dot: bool,
}

impl Dash {
    /// The same dash, by distances that begin later.
    pub(crate) fn later_by(self, passed: u128) -> Dash
        requires start { passed ≤ self.from }
        requires end { passed ≤ self.to }
        ensures { result ≡ later_by passed self }
    {
        Dash {
            from: self.from - passed,
            to: self.to - passed,
            is_dot: self.is_dot,
        }
    }
}

/// A line under a pattern of dashes: how far into the first cycle it begins, and how long it is.
#[derive(Clone, Copy)]
pub(crate) struct DashedLine {
    pub phase: u128,
    pub total: u128,
}

/// The sum of a pattern's lengths.
fn sum(dashes: &[u64]) -> u128
    requires { length dashes.now ≤ 32 }
    ensures value { result ≡ sum dashes.now }
    ensures bound { result ≤ 2 ^ 69 }
{
    let mut all: u128 = 0;
    for dash in dashes {
        all += u128::from(*dash);
    }
    all
}

fn is_even(dashes: &[u64]) -> bool
    ensures { result ≡ is_even dashes.now }
{
    dashes.len() % 2 == 0
}

/// The length of a cycle: the pattern once, or twice where it has an odd number of elements.
#[tactic(auto, using(crate::proofs::DashLemmas::some_length))]
pub(crate) fn cycle_length(dashes: &[u64]) -> u128
    requires { length dashes.now ≤ 32 }
    ensures value { result ≡ cycle_length dashes.now }
    ensures bound { result ≤ 2 ^ 70 }
    ensures some { is_solid dashes.now ≡ false → 0 < result }
{
    if is_even(dashes) {
        sum(dashes)
    } else {
        2 * sum(dashes)
    }
}

/// How far into a cycle of this length an offset lies.
pub(crate) fn phase(offset: Wide, cycle: u128) -> u128
    requires some { 0 < cycle }
    requires bound { cycle ≤ 2 ^ 70 }
    ensures value { result ≡ unsigned_abs (int_rem_euclid offset (pos cycle)) }
    ensures bound { result < cycle }
{
    offset.to_i128().rem_euclid(cycle as i128) as u128
}

/// Whether a dash is made that is `size` long from a distance on.
fn is_made(line: DashedLine, at: u128, size: u64) -> bool
    requires phase { line.phase ≤ 2 ^ 70 }
    requires total { line.total ≤ 2 ^ 107 }
    requires at { at ≤ 2 ^ 110 }
    ensures { result ≡ is_made line.phase line.total at size }
{
    if size == 0 {
        line.phase <= at && at <= line.phase + line.total
    } else {
        line.phase < at + u128::from(size) && at < line.phase + line.total
    }
}

/// The part of it that lies on the line.
fn dash_on(line: DashedLine, at: u128, size: u64) -> Dash
    requires phase { line.phase ≤ 2 ^ 70 }
    requires total { line.total ≤ 2 ^ 107 }
    requires at { at ≤ 2 ^ 110 }
    ensures { result ≡ dash_on line.phase line.total at size }
{
    let end = (at + u128::from(size)).saturating_sub(line.phase);
    Dash {
        from: at.saturating_sub(line.phase),
        to: if end <= line.total { end } else { line.total },
        is_dot: size == 0,
    }
}

/// Adds the dash of an element, if it is one and is made.
fn push_dash(list: &mut Vec<Dash>, line: DashedLine, is_dash: bool, at: u128, size: u64) -> Mem<()>
    requires phase { line.phase ≤ 2 ^ 70 }
    requires total { line.total ≤ 2 ^ 107 }
    requires at { at ≤ 2 ^ 110 }
    ensures { OnOk result (list.new.items ≡ list.old.items ++ dash_of line.phase line.total is_dash at size) }
{
    if is_dash && is_made(line, at, size) {
        list.push(dash_on(line, at, size))?;
    }
    Ok(())
}

/// Adds the dashes of elements that take turns from a distance on.
fn push_turns(
    list: &mut Vec<Dash>,
    line: DashedLine,
    is_dash: bool,
    at: u128,
    dashes: &[u64],
) -> Mem<()>
    requires phase { line.phase ≤ 2 ^ 70 }
    requires total { line.total ≤ 2 ^ 107 }
    requires at { at ≤ 2 ^ 109 }
    requires few { length dashes.now ≤ 32 }
    ensures { OnOk result (list.new.items ≡ list.old.items ++ dashes_from line.phase line.total is_dash at dashes.now) }
{
    let mut turn = is_dash;
    let mut here = at;
    for size in dashes {
        push_dash(list, line, turn, here, *size)?;
        turn = !turn;
        here += u128::from(*size);
    }
    Ok(())
}

/// Adds the dashes of a cycle that begins at a distance.
fn push_cycle(list: &mut Vec<Dash>, line: DashedLine, dashes: &[u64], at: u128) -> Mem<()>
    requires phase { line.phase ≤ 2 ^ 70 }
    requires total { line.total ≤ 2 ^ 107 }
    requires at { at ≤ 2 ^ 108 }
    requires few { length dashes.now ≤ 32 }
    ensures { OnOk result (list.new.items ≡ list.old.items ++ cycle_dashes line.phase line.total dashes.now at) }
{
    push_turns(list, line, true, at, dashes)?;
    if !is_even(dashes) {
        push_turns(list, line, false, at + sum(dashes), dashes)?;
    }
    Ok(())
}

/// How many cycles begin on a line or at its end, the first among them.
fn cycles(line: DashedLine, cycle: u128) -> u128
    requires phase { line.phase ≤ 2 ^ 70 }
    requires total { line.total ≤ 2 ^ 107 }
    requires some { 0 < cycle }
    ensures value { result ≡ (line.phase + line.total) / cycle + 1 }
    ensures bound { (k : ℕ) → k < result → k * cycle ≤ 2 ^ 108 }
{
    (line.phase + line.total) / cycle + 1
}

/// The dashes of a line, in order.
pub(crate) fn dashes_on(alloc: Global, line: DashedLine, dashes: &[u64]) -> Mem<Vec<Dash>>
    requires phase { line.phase ≤ 2 ^ 70 }
    requires total { line.total ≤ 2 ^ 107 }
    requires few { length dashes.now ≤ 32 }
    requires some { is_solid dashes.now ≡ false }
    ensures { IfOk result (λ list. list.items ≡ dashes_by line.phase line.total dashes.now) }
{
    let mut list = Vec::new(alloc);
    let cycle = cycle_length(dashes);
    for k in 0..cycles(line, cycle) {
        push_cycle(&mut list, line, dashes, k * cycle)?;
    }
    Ok(list)
}

/// How many dashes elements have that take turns from a distance on.
fn count_turns(line: DashedLine, is_dash: bool, at: u128, dashes: &[u64]) -> u32
    requires phase { line.phase ≤ 2 ^ 70 }
    requires total { line.total ≤ 2 ^ 107 }
    requires at { at ≤ 2 ^ 109 }
    requires few { length dashes.now ≤ 32 }
    ensures value { result ≡ length (dashes_from line.phase line.total is_dash at dashes.now) }
    ensures bound { result ≤ 32 }
{
    let mut count: u32 = 0;
    let mut turn = is_dash;
    let mut here = at;
    for size in dashes {
        if turn && is_made(line, here, *size) {
            count += 1;
        }
        turn = !turn;
        here += u128::from(*size);
    }
    count
}

/// How many dashes a cycle has that begins at a distance.
fn count_cycle(line: DashedLine, dashes: &[u64], at: u128) -> u32
    requires phase { line.phase ≤ 2 ^ 70 }
    requires total { line.total ≤ 2 ^ 107 }
    requires at { at ≤ 2 ^ 108 }
    requires few { length dashes.now ≤ 32 }
    ensures value { result ≡ length (cycle_dashes line.phase line.total dashes.now at) }
    ensures bound { result ≤ 64 }
{
    let first = count_turns(line, true, at, dashes);
    if is_even(dashes) {
        first
    } else {
        first + count_turns(line, false, at + sum(dashes), dashes)
    }
}

/// How many more dashes there is room for behind those of a line; `None` exactly where it has more
/// dashes than there is room for.
pub(crate) fn room_behind(line: DashedLine, dashes: &[u64], room: u32) -> Option<u32>
    requires phase { line.phase ≤ 2 ^ 70 }
    requires total { line.total ≤ 2 ^ 107 }
    requires few { length dashes.now ≤ 32 }
    requires some { is_solid dashes.now ≡ false }
    ensures { LeavesRoom room (length (dashes_by line.phase line.total dashes.now)) result }
{
    let mut left = room;
    let cycle = cycle_length(dashes);
    for k in 0..cycles(line, cycle) {
        let count = count_cycle(line, dashes, k * cycle);
        if count > left {
            return None;
        }
        left -= count;
    }
    Some(left)
}
