//! Objects turned round in their slice, each from its old place straight to its new one.
ghost use Rattle.std.specs.Prelude.{◌≡◌, ◌≤◌, ◌<◌, ◌+◌, ◌-◌, ℕ, List, length, take, drop};
ghost use Rattle.ps_store.specs.declared.obj.Obj.{Obj};
ghost use Rattle.ps_store.specs.Code.Turning.{IsSource, IsSettled, AreClosed, ArePartlyTurned, turned_from};

use crate::obj::Obj;
use crate::stack::MAX_OPERANDS;

/// Turns the objects from a place on, of at most 500, round by `k` places: of these the one at place
/// `i + k`, counted round, goes to place `i`.
///
/// Each object is moved once, but that the first of each cycle of places waits aside while the
/// others of its cycle move.
pub(crate) fn turn(items: &mut [Obj], from: usize, k: usize)
    requires part { from + k ≤ length items.old }
    requires bound { length items.old ≤ 500 }
    ensures { items.new ≡ turned_from from k items.old }
{
    let mut settled = [false; MAX_OPERANDS];
    for start in 0..items.len() - from {
        settle_cycle(items, from, &mut settled, k, start);
    }
}

/// Moves the objects of the cycle of places in which `start` is, unless that was done before. Places
/// are counted from `from` on.
///
/// A settled place holds its new object. What was settled stays so.
fn settle_cycle(items: &mut [Obj], from: usize, settled: &mut [bool], k: usize, start: usize)
    requires part { from + k ≤ length items.old }
    requires within { from + start < length items.old }
    requires bound { length items.old ≤ 500 }
    requires room { length items.old ≤ length settled.old }
    requires closed { AreClosed (length items.old - from) k settled.old }
    ensures closed { AreClosed (length items.old - from) k settled.new }
    ensures start { IsSettled settled.new start }
    ensures kept { (i : ℕ) → IsSettled settled.old i → IsSettled settled.new i }
    ensures turned { (before : List Obj) →
        ArePartlyTurned (length items.old - from) k before settled.old (drop from items.old) →
        ArePartlyTurned (length items.old - from) k before settled.new (drop from items.new) }
    ensures front { take from items.new ≡ take from items.old }
{
    if settled[start] {
        return;
    }
    let n = items.len() - from;
    let begin = from + start;
    let first = items[begin].again();
    let mut hole = start;
    let mut next = source(n, k, hole);
    while next != start {
        let taken = from + next;
        items[from + hole] = items[taken].again();
        settled[hole] = true;
        hole = next;
        next = source(n, k, hole);
    }
    items[from + hole] = first;
    settled[hole] = true;
}

/// The place whose object goes to place `i`, of `n` places that are turned by `k`.
fn source(n: usize, k: usize, i: usize) -> usize
    requires part { k ≤ n }
    requires within { i < n }
    requires bound { n ≤ 500 }
    ensures within { result < n }
    ensures value { IsSource n k i result }
{
    if i + k < n { i + k } else { i + k - n }
}
