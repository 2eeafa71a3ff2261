//! New strings, arrays and dictionaries, and what moves many elements of them.
ghost use Rattle.std.specs.Prelude.{◌≡◌, ◌≢◌, ◌<◌, length, Err};
ghost use Rattle.ps_store.specs.Outcome.{Answers, TellsRefusal};
ghost use Rattle.ps_data_ops.specs.Composites.{count_of, array_row, string_row, dict_row, gathered_row};
ghost use Rattle.ps_data_ops.specs.Composites.{close_array_row, aload_row, astore_row};
ghost use Rattle.ps_store.specs.Calls.{StoreAnswers};

use press_fault::PsName;
use press_nums::Whole;
use ps_store::{MAX_OPERANDS, Obj, OpFault, Stack, Store};

/// The count that an integer is, `None` exactly where it is negative.
fn count_in(n: Whole) -> Option<u32>
    ensures { result ≡ count_of n }
{
    let n = n.get();
    if 0 <= n { Some(n.unsigned_abs()) } else { None }
}

/// `array`: a new array of nulls.
pub(crate) fn array(stack: &mut Stack, store: &mut Store) -> Result<(), OpFault>
    ensures answers { StoreAnswers (array_row stack.old store.old)
        result stack.old store.old stack.new store.new }
    ensures refused { TellsRefusal (array_row stack.old store.old) result }
{
    let Some(top) = stack.top() else {
        return Err(OpFault::Ps(PsName::StackUnderflow));
    };
    let Obj::Int(n) = top else {
        return Err(OpFault::Ps(PsName::TypeCheck));
    };
    let Some(len) = count_in(*n) else {
        return Err(OpFault::Ps(PsName::RangeCheck));
    };
    let span = store.new_array(len)?;
    stack.replace(1, Obj::Array(span, false));
    Ok(())
}

/// `string`: a new string of zero bytes.
pub(crate) fn string(stack: &mut Stack, store: &mut Store) -> Result<(), OpFault>
    ensures answers { StoreAnswers (string_row stack.old store.old)
        result stack.old store.old stack.new store.new }
    ensures refused { TellsRefusal (string_row stack.old store.old) result }
{
    let Some(top) = stack.top() else {
        return Err(OpFault::Ps(PsName::StackUnderflow));
    };
    let Obj::Int(n) = top else {
        return Err(OpFault::Ps(PsName::TypeCheck));
    };
    let Some(len) = count_in(*n) else {
        return Err(OpFault::Ps(PsName::RangeCheck));
    };
    let span = store.new_text(len)?;
    stack.replace(1, Obj::Text(span));
    Ok(())
}

/// `dict`: a new empty dictionary, which may grow past the size that is asked.
pub(crate) fn dict(stack: &mut Stack, store: &mut Store) -> Result<(), OpFault>
    ensures answers { StoreAnswers (dict_row stack.old store.old)
        result stack.old store.old stack.new store.new }
    ensures refused { TellsRefusal (dict_row stack.old store.old) result }
{
    let Some(top) = stack.top() else {
        return Err(OpFault::Ps(PsName::StackUnderflow));
    };
    let Obj::Int(n) = top else {
        return Err(OpFault::Ps(PsName::TypeCheck));
    };
    if count_in(*n).is_none() {
        return Err(OpFault::Ps(PsName::RangeCheck));
    }
    let dict = store.new_dict()?;
    stack.replace(1, Obj::Dict(dict));
    Ok(())
}

/// `]`: a new array of the operands above the topmost mark.
pub(crate) fn close_array(stack: &mut Stack, store: &mut Store) -> Result<(), OpFault>
    ensures answers { StoreAnswers (close_array_row stack.old store.old)
        result stack.old store.old stack.new store.new }
    ensures refused { TellsRefusal (close_array_row stack.old store.old) result }
{
    match stack.depth_of_mark() {
        Some(len) => gather(stack, store, len),
        None => Err(OpFault::Ps(PsName::UnmatchedMark)),
    }
}

/// Makes an array of the top `len` operands, in place of these and the mark below them.
fn gather(stack: &mut Stack, store: &mut Store, len: usize) -> Result<(), OpFault>
    requires { len < length stack.old }
    ensures answers { StoreAnswers (gathered_row len stack.old store.old)
        result stack.old store.old stack.new store.new }
    ensures refused { TellsRefusal (gathered_row len stack.old store.old) result }
{
    let _held = stack.len();
    let span = store.new_array(len as u32)?;
    store.put_operands(span, stack, 0);
    stack.replace(len + 1, Obj::Array(span, false));
    Ok(())
}

/// `aload`: the elements of an array, in order, and the array.
pub(crate) fn aload(stack: &mut Stack, store: &Store) -> Result<(), OpFault>
    ensures answers { Answers (aload_row stack.old store.now) result stack.old stack.new }
    ensures never { result ≢ Err OpFault.NoMemory }
{
    let Some(top) = stack.top() else {
        return Err(OpFault::Ps(PsName::StackUnderflow));
    };
    let Obj::Array(span, mark) = top else {
        return Err(OpFault::Ps(PsName::TypeCheck));
    };
    let (span, is_executable) = (*span, *mark);
    if stack.len() + span.len as usize > MAX_OPERANDS {
        return Err(OpFault::Ps(PsName::StackOverflow));
    }
    stack.drop_top(1);
    stack.push_elements(store, span);
    let _ = stack.push(Obj::Array(span, is_executable));
    Ok(())
}

/// `astore`: as many operands as the array has elements become these.
pub(crate) fn astore(stack: &mut Stack, store: &mut Store) -> Result<(), OpFault>
    ensures answers { StoreAnswers (astore_row stack.old store.old)
        result stack.old store.old stack.new store.new }
    ensures never { result ≢ Err OpFault.NoMemory }
{
    let Some(top) = stack.top() else {
        return Err(OpFault::Ps(PsName::StackUnderflow));
    };
    let Obj::Array(span, mark) = top else {
        return Err(OpFault::Ps(PsName::TypeCheck));
    };
    let (span, is_executable) = (*span, *mark);
    let len = span.len as usize;
    if len + 1 > stack.len() {
        return Err(OpFault::Ps(PsName::StackUnderflow));
    }
    store.put_operands(span, stack, 1);
    stack.replace(len + 1, Obj::Array(span, is_executable));
    Ok(())
}
