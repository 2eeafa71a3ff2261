//! Parts of strings and arrays.
ghost use Rattle.std.specs.Prelude.{◌≡◌, ◌≢◌, ◌≤◌, ◌<◌, ◌+◌, Err, IfSome};
ghost use Rattle.ps_store.specs.Outcome.{Answers};
ghost use Rattle.ps_data_ops.specs.Composites.{begin_of, interval_of, part_of, getinterval_row, putinterval_row};
ghost use Rattle.ps_store.specs.Calls.{StoreAnswers};

use press_fault::PsName;
use press_nums::Whole;
use ps_store::{Obj, OpFault, Part, Stack, Store};

/// Where a part of `len` places begins, `None` exactly where it is not within `whole` places.
fn begin_in(at: Whole, len: u32, whole: u32) -> Option<u32>
    ensures value { result ≡ begin_of at len whole }
    ensures bound { IfSome result (λ begin. begin + len ≤ whole) }
{
    let at = at.get();
    if 0 <= at && u64::from(at.unsigned_abs()) + u64::from(len) <= u64::from(whole) {
        Some(at.unsigned_abs())
    } else {
        None
    }
}

/// The two integers of an interval, `None` exactly where it is not within `whole` places.
fn interval_in(at: Whole, count: Whole, whole: u32) -> Option<(u32, u32)>
    ensures value { result ≡ interval_of at count whole }
    ensures bound { IfSome result (λ interval. interval.0 + interval.1 ≤ whole) }
{
    let at = at.get();
    let count = count.get();
    if 0 <= at
        && 0 <= count
        && u64::from(at.unsigned_abs()) + u64::from(count.unsigned_abs()) <= u64::from(whole)
    {
        Some((at.unsigned_abs(), count.unsigned_abs()))
    } else {
        None
    }
}

/// So many places of a part, from one of its own on.
pub(crate) fn part(span: Part, at: u32, len: u32) -> Part
    requires { at + len ≤ span.len }
    ensures { result ≡ part_of span at len }
{
    Part {
        id: span.id,
        start: span.start + at,
        len,
    }
}

/// `getinterval`: a part of an array or a string, which it shares.
pub(crate) fn getinterval(stack: &mut Stack) -> Result<(), OpFault>
    ensures answers { Answers (getinterval_row stack.old) result stack.old stack.new }
    ensures never { result ≢ Err OpFault.NoMemory }
{
    let Some((count, at, whole)) = stack.top_three() else {
        return Err(OpFault::Ps(PsName::StackUnderflow));
    };
    match (count, at, whole) {
        (Obj::Int(count), Obj::Int(at), Obj::Array(span, mark)) => {
            let Some((at, len)) = interval_in(*at, *count, span.len) else {
                return Err(OpFault::Ps(PsName::RangeCheck));
            };
            let shared = Obj::Array(part(*span, at, len), *mark);
            stack.replace(3, shared);
            Ok(())
        }
        (Obj::Int(count), Obj::Int(at), Obj::Text(span)) => {
            let Some((at, len)) = interval_in(*at, *count, span.len) else {
                return Err(OpFault::Ps(PsName::RangeCheck));
            };
            let shared = Obj::Text(part(*span, at, len));
            stack.replace(3, shared);
            Ok(())
        }
        _ => Err(OpFault::Ps(PsName::TypeCheck)),
    }
}

/// `putinterval`: the elements of one array or string into another. Where the two overlap, the
/// first is read whole before anything is written.
pub(crate) fn putinterval(stack: &mut Stack, store: &mut Store) -> Result<(), OpFault>
    ensures answers { StoreAnswers (putinterval_row stack.old store.old)
        result stack.old store.old stack.new store.new }
    ensures never { result ≢ Err OpFault.NoMemory }
{
    let Some((from, at, to)) = stack.top_three() else {
        return Err(OpFault::Ps(PsName::StackUnderflow));
    };
    let (from, at, to) = match (from, at, to) {
        (Obj::Array(from, _), Obj::Int(at), Obj::Array(to, _)) => (*from, *at, *to),
        (Obj::Text(from), Obj::Int(at), Obj::Text(to)) => (*from, *at, *to),
        _ => return Err(OpFault::Ps(PsName::TypeCheck)),
    };
    let Some(begin) = begin_in(at, from.len, to.len) else {
        return Err(OpFault::Ps(PsName::RangeCheck));
    };
    store.copy_part(from, part(to, begin, from.len));
    stack.drop_top(3);
    Ok(())
}
