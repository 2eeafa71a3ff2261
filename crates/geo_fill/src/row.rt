//! The spans of one row, by a walk of one row; and the way along its crossings from left to right.
ghost use Rattle.std.specs.Prelude.{◌≡◌, ◌≤◌, [], OnOk, OnErr, IfOk};
ghost use Rattle.std.specs.List.{All};
ghost use Rattle.page_model.specs.Inside.{is_inside as holds};
ghost use Rattle.page_model.specs.Cover.{shape_holds, region_holds};
ghost use Rattle.geo_fill.specs.Spans.{HaveJust};
ghost use Rattle.geo_fill.specs.Code.Sweep.{AreBefore, AreTaken, IsEnded};
ghost use Rattle.geo_fill.specs.Code.Crossings.{winding_by, IsOfRange};
ghost use Rattle.geo_fill.specs.Code.Steps.{AreInOrder};

use crate::crossing::Crossing;
use crate::{EdgeWalk, Span, Spans};
use page_model::{Region, Rule, Shape};
use press_fault::{Mem, NoMemory};
use press_nums::Wide;

/// Puts into `out`, in place of what is there, the columns of a row from `from` up to and without
/// `to` whose dot centres a shape holds. Where memory runs out `out` is empty.
pub fn spans(shape: &Shape, rule: Rule, row: u32, from: u32, to: u32, out: &mut Spans) -> Mem<()>
    requires { from ≤ to }
    ensures ok { OnOk result (HaveJust out.new from to (λ col. shape_holds rule row col shape.now)) }
    ensures err { OnErr result (out.new ≡ []) }
{
    let mut walk = out.take_walk();
    let done = one_row(&mut walk, shape, rule, row, from, to, out);
    out.keep_walk(walk);
    done
}

/// Walks over the row of a shape.
fn one_row(
    walk: &mut EdgeWalk,
    shape: &Shape,
    rule: Rule,
    row: u32,
    from: u32,
    to: u32,
    out: &mut Spans,
) -> Mem<()>
    requires { from ≤ to }
    ensures ok { OnOk result (HaveJust out.new from to (λ col. shape_holds rule row col shape.now)) }
    ensures err { OnErr result (out.new ≡ []) }
{
    match walk.restart(shape, rule, row, 1) {
        Ok(()) => {
            walk.next_row(from, to, out)?;
            Ok(())
        }
        Err(NoMemory) => {
            out.clear();
            Err(NoMemory)
        }
    }
}

/// Puts into `out`, in place of what is there, the columns of a row from `from` up to and without
/// `to` whose dot centres a region of a clip holds. Where memory runs out `out` is empty.
pub fn region_spans(region: &Region, row: u32, from: u32, to: u32, out: &mut Spans) -> Mem<()>
    requires { from ≤ to }
    ensures ok { OnOk result (HaveJust out.new from to (λ col. region_holds row col region.now)) }
    ensures err { OnErr result (out.new ≡ []) }
{
    let mut walk = out.take_walk();
    let done = region_row(&mut walk, region, row, from, to, out);
    out.keep_walk(walk);
    done
}

/// Walks over the row of a region.
fn region_row(
    walk: &mut EdgeWalk,
    region: &Region,
    row: u32,
    from: u32,
    to: u32,
    out: &mut Spans,
) -> Mem<()>
    requires { from ≤ to }
    ensures ok { OnOk result (HaveJust out.new from to (λ col. region_holds row col region.now)) }
    ensures err { OnErr result (out.new ≡ []) }
{
    match walk.restart_region(region, row, 1) {
        Ok(()) => {
            walk.next_row(from, to, out)?;
            Ok(())
        }
        Err(NoMemory) => {
            out.clear();
            Err(NoMemory)
        }
    }
}

/// Takes the spans away where memory ran out.
pub(crate) fn or_none(added: Mem<()>, out: &mut Spans) -> Mem<()>
    ensures same { result ≡ added }
    ensures ok { OnOk result (out.new ≡ out.old) }
    ensures err { OnErr result (out.new ≡ []) }
{
    match added {
        Ok(()) => Ok(()),
        Err(NoMemory) => {
            out.clear();
            Err(NoMemory)
        }
    }
}

/// Adds the spans of a range by its crossings from left to right.
pub(crate) fn sweep(
    crossings: &[Crossing],
    rule: Rule,
    from: u32,
    to: u32,
    out: &mut Spans,
) -> Mem<()>
    requires order { AreInOrder from crossings.now }
    requires range { All (IsOfRange from to) crossings.now }
    requires some { from ≤ to }
    requires empty { out.old ≡ [] }
    ensures { OnOk result (HaveJust out.new from to
        (λ col. holds rule (winding_by col crossings.now))) }
{
    let mut begun = None;
    let mut at = from;
    let mut winding = Wide::ZERO;
    for crossing in crossings {
        begun = take_columns(out, begun, at, crossing.col, is_inside(rule, winding))?;
        at = crossing.col;
        winding = winding + crossing.turn();
    }
    begun = take_columns(out, begun, at, to, is_inside(rule, winding))?;
    end_span(out, begun, to)
}

/// Whether a winding number is inside, by a rule.
fn is_inside(rule: Rule, winding: Wide) -> bool
    ensures { result ≡ holds rule winding }
{
    match rule {
        Rule::Nonzero => !winding.is_zero(),
        Rule::EvenOdd => winding.is_odd(),
    }
}

/// Takes more columns, which are all covered or none: the span that has begun goes on or ends, or
/// one begins.
fn take_columns(
    out: &mut Spans,
    begun: Option<u32>,
    from: u32,
    to: u32,
    covered: bool,
) -> Mem<Option<u32>>
    requires range { from ≤ to }
    requires before { AreBefore from out.old begun }
    ensures { IfOk result (λ now. AreTaken from to covered out.old begun out.new now) }
{
    if from == to {
        return Ok(begun);
    }
    match begun {
        None => Ok(if covered { Some(from) } else { None }),
        Some(first) => {
            if covered {
                return Ok(Some(first));
            }
            out.push(Span { first, end: from })?;
            Ok(None)
        }
    }
}

/// Ends the span that has begun before a column, if there is one.
fn end_span(out: &mut Spans, begun: Option<u32>, col: u32) -> Mem<()>
    requires { AreBefore col out.old begun }
    ensures { OnOk result (IsEnded col out.old begun out.new) }
{
    match begun {
        None => Ok(()),
        Some(first) => out.push(Span { first, end: col }),
    }
}
