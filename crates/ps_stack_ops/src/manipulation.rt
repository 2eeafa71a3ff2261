//! Operators that only move operands (PostScript Language Reference, third edition, 8.2).
ghost use Rattle.std.specs.Prelude.{◌≡◌, ◌≢◌, ◌∷◌, [], ◌<◌, ◌≤◌, drop, length, unsigned_abs, Err, IfSome};
ghost use Rattle.ps_store.specs.Outcome.{Answers, pushed, Goes};
ghost use Rattle.ps_stack_ops.specs.Rows.{pop_row, exch_row, dup_row, count_row, index_row, roll_row, cleartomark_row};
ghost use Rattle.ps_stack_ops.specs.Rows.{counttomark_row};

use press_fault::PsName;
use press_nums::Whole;
use ps_store::{MAX_OPERANDS, Obj, OpFault, Stack};

/// Puts an object on top.
pub(crate) fn push(stack: &mut Stack, o: Obj) -> Result<(), OpFault>
    ensures answers { Answers (pushed o stack.old) result stack.old stack.new }
    ensures never { result ≢ Err OpFault.NoMemory }
{
    stack.push(o)?;
    Ok(())
}

pub(crate) fn pop(stack: &mut Stack) -> Result<(), OpFault>
    ensures answers { Answers (pop_row stack.old) result stack.old stack.new }
    ensures never { result ≢ Err OpFault.NoMemory }
{
    if stack.len() == 0 {
        return Err(OpFault::Ps(PsName::StackUnderflow));
    }
    stack.drop_top(1);
    Ok(())
}

pub(crate) fn exch(stack: &mut Stack) -> Result<(), OpFault>
    ensures answers { Answers (exch_row stack.old) result stack.old stack.new }
    ensures never { result ≢ Err OpFault.NoMemory }
{
    let Some((b, a)) = stack.top_two() else {
        return Err(OpFault::Ps(PsName::StackUnderflow));
    };
    let (b, a) = (b.again(), a.again());
    stack.replace_two(b, a);
    Ok(())
}

pub(crate) fn dup(stack: &mut Stack) -> Result<(), OpFault>
    ensures answers { Answers (dup_row stack.old) result stack.old stack.new }
    ensures never { result ≢ Err OpFault.NoMemory }
{
    if stack.len() == 0 {
        return Err(OpFault::Ps(PsName::StackUnderflow));
    }
    if stack.len() == MAX_OPERANDS {
        return Err(OpFault::Ps(PsName::StackOverflow));
    }
    stack.copy_top(1);
    Ok(())
}

pub(crate) fn clear(stack: &mut Stack) -> Result<(), OpFault>
    ensures answers { Answers (Goes []) result stack.old stack.new }
    ensures never { result ≢ Err OpFault.NoMemory }
{
    stack.clear();
    Ok(())
}

pub(crate) fn count(stack: &mut Stack) -> Result<(), OpFault>
    ensures answers { Answers (count_row stack.old) result stack.old stack.new }
    ensures never { result ≢ Err OpFault.NoMemory }
{
    let len = stack.len();
    push(stack, Obj::Int(Whole::of(len as i32)))
}

pub(crate) fn index(stack: &mut Stack) -> Result<(), OpFault>
    ensures answers { Answers (index_row stack.old) result stack.old stack.new }
    ensures never { result ≢ Err OpFault.NoMemory }
{
    let Some(top) = stack.top() else {
        return Err(OpFault::Ps(PsName::StackUnderflow));
    };
    let Obj::Int(n) = top else {
        return Err(OpFault::Ps(PsName::TypeCheck));
    };
    let n = n.get();
    if n < 0 {
        return Err(OpFault::Ps(PsName::RangeCheck));
    }
    let Some(wanted) = stack.at(n.unsigned_abs() as usize + 1) else {
        return Err(OpFault::Ps(PsName::StackUnderflow));
    };
    let wanted = wanted.again();
    stack.replace(1, wanted);
    Ok(())
}

pub(crate) fn roll(stack: &mut Stack) -> Result<(), OpFault>
    ensures answers { Answers (roll_row stack.old) result stack.old stack.new }
    ensures never { result ≢ Err OpFault.NoMemory }
{
    let Some((j, n)) = stack.top_two() else {
        return Err(OpFault::Ps(PsName::StackUnderflow));
    };
    let (Obj::Int(j), Obj::Int(n)) = (j, n) else {
        return Err(OpFault::Ps(PsName::TypeCheck));
    };
    let (j, n) = (j.wide(), n.get());
    let size = n.unsigned_abs();
    if n < 0 {
        return Err(OpFault::Ps(PsName::RangeCheck));
    }
    if stack.len() - 2 < size as usize {
        return Err(OpFault::Ps(PsName::StackUnderflow));
    }
    stack.drop_top(2);
    if size > 0 {
        stack.roll(size as usize, j.remainder(size) as usize);
    }
    Ok(())
}

pub(crate) fn cleartomark(stack: &mut Stack) -> Result<(), OpFault>
    ensures answers { Answers (cleartomark_row stack.old) result stack.old stack.new }
    ensures never { result ≢ Err OpFault.NoMemory }
{
    match stack.depth_of_mark() {
        Some(depth) => {
            stack.drop_top(depth + 1);
            Ok(())
        }
        None => Err(OpFault::Ps(PsName::UnmatchedMark)),
    }
}

pub(crate) fn counttomark(stack: &mut Stack) -> Result<(), OpFault>
    ensures answers { Answers (counttomark_row stack.old) result stack.old stack.new }
    ensures never { result ≢ Err OpFault.NoMemory }
{
    match stack.depth_of_mark() {
        Some(depth) => push(stack, Obj::Int(Whole::of(depth as i32))),
        None => Err(OpFault::Ps(PsName::UnmatchedMark)),
    }
}
