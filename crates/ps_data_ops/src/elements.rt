//! `length`, `get` and `put`.
ghost use Rattle.std.specs.Prelude.{◌≡◌, ◌≢◌, ◌≤◌, ◌∷◌, length as list_length, drop, Err};
ghost use Rattle.std.specs.Option.{option_copied};
ghost use Rattle.ps_store.specs.Outcome.{Answers, TellsRefusal, Goes, or_range};
ghost use Rattle.ps_store.specs.Numbers.{place_of};
ghost use Rattle.ps_store.specs.Store.{element};
ghost use Rattle.ps_data_ops.specs.Dictionaries.{length_row, got, get_row, put_row};
ghost use Rattle.ps_store.specs.Calls.{StoreAnswers};

use crate::dictionaries::define;
use press_fault::PsName;
use press_nums::Whole;
use ps_store::{KeyFault, Obj, OpFault, Part, Stack, Store, place_in};

/// `length`: of a string, an array, a dictionary or a name.
pub(crate) fn length(stack: &mut Stack, store: &Store) -> Result<(), OpFault>
    ensures answers { Answers (length_row stack.old store.now) result stack.old stack.new }
    ensures never { result ≢ Err OpFault.NoMemory }
{
    let Some(top) = stack.top() else {
        return Err(OpFault::Ps(PsName::StackUnderflow));
    };
    let len = match top {
        Obj::Array(span, _) => span.len,
        Obj::Text(span) => span.len,
        Obj::Dict(dict) => store.entries(*dict),
        Obj::Name(name, _) => name.bytes().len() as u32,
        _ => return Err(OpFault::Ps(PsName::TypeCheck)),
    };
    stack.replace(1, Obj::Int(Whole::of(len as i32)));
    Ok(())
}

/// Puts the value that was found in the place of the top `n` operands.
pub(crate) fn give(stack: &mut Stack, n: usize, value: Option<&Obj>) -> Result<(), OpFault>
    requires some { 1 ≤ n }
    requires held { n ≤ list_length stack.old }
    ensures answers { Answers (got (option_copied value.entry) (drop n stack.old)) result stack.old stack.new }
    ensures never { result ≢ Err OpFault.NoMemory }
{
    let Some(value) = value else {
        return Err(OpFault::Ps(PsName::Undefined));
    };
    stack.replace(n, value.again());
    Ok(())
}

/// `get`: an element of an array, a byte of a string, or the value of a key of a dictionary.
pub(crate) fn get(stack: &mut Stack, store: &Store) -> Result<(), OpFault>
    ensures answers { Answers (get_row stack.old store.now) result stack.old stack.new }
    ensures never { result ≢ Err OpFault.NoMemory }
{
    let Some((place, whole)) = stack.top_two() else {
        return Err(OpFault::Ps(PsName::StackUnderflow));
    };
    match (place, whole) {
        (Obj::Int(i), Obj::Array(span, _)) => {
            let (i, span) = (*i, *span);
            get_at(stack, store, i, span)
        }
        (Obj::Int(i), Obj::Text(span)) => {
            let (i, span) = (*i, *span);
            get_at(stack, store, i, span)
        }
        (key, Obj::Dict(dict)) => {
            let (dict, key) = (*dict, store.key_of(key));
            match key {
                Ok(key) => give(stack, 2, store.look_up(dict, &key)),
                Err(KeyFault::TooLong) => Err(OpFault::Ps(PsName::Undefined)),
                Err(KeyFault::NotAKey) => Err(OpFault::Ps(PsName::TypeCheck)),
            }
        }
        _ => Err(OpFault::Ps(PsName::TypeCheck)),
    }
}

fn get_at(stack: &mut Stack, store: &Store, i: Whole, span: Part) -> Result<(), OpFault>
    requires { 2 ≤ list_length stack.old }
    ensures answers { Answers (or_range (place_of i span.len)
        (λ at. Goes (element store.now span at ∷ drop 2 stack.old))) result stack.old stack.new }
    ensures never { result ≢ Err OpFault.NoMemory }
{
    let Some(at) = place_in(i, span.len) else {
        return Err(OpFault::Ps(PsName::RangeCheck));
    };
    let value = store.get(span, at);
    stack.replace(2, value);
    Ok(())
}

/// `put`: an element of an array, a byte of a string, or a value of a key of a dictionary.
#[tactic(auto, using(crate::proofs::Putting::put_of_other))]
pub(crate) fn put(stack: &mut Stack, store: &mut Store) -> Result<(), OpFault>
    ensures answers { StoreAnswers (put_row stack.old store.old)
        result stack.old store.old stack.new store.new }
    ensures refused { TellsRefusal (put_row stack.old store.old) result }
{
    let Some((value, place, whole)) = stack.top_three() else {
        return Err(OpFault::Ps(PsName::StackUnderflow));
    };
    let (value, place) = (value.again(), place.again());
    match whole {
        Obj::Array(span, mark) => {
            let (span, mark) = (*span, *mark);
            put_element(stack, store, value, &place, span, mark)
        }
        Obj::Text(span) => {
            let span = *span;
            put_byte(stack, store, &value, &place, span)
        }
        Obj::Dict(dict) => {
            let dict = *dict;
            put_value(stack, store, value, &place, dict)
        }
        _ => Err(OpFault::Ps(PsName::TypeCheck)),
    }
}

/// `put` of an array.
fn put_element(
    stack: &mut Stack,
    store: &mut Store,
    value: Obj,
    place: &Obj,
    span: Part,
    mark: bool,
) -> Result<(), OpFault>
    requires { stack.old ≡ value ∷ place.now ∷ Obj.Array span mark ∷ drop 3 stack.old }
    ensures answers { StoreAnswers (put_row stack.old store.old)
        result stack.old store.old stack.new store.new }
    ensures never { result ≢ Err OpFault.NoMemory }
{
    let Obj::Int(i) = place else {
        return Err(OpFault::Ps(PsName::TypeCheck));
    };
    let Some(at) = place_in(*i, span.len) else {
        return Err(OpFault::Ps(PsName::RangeCheck));
    };
    store.put(span, at, value);
    stack.drop_top(3);
    Ok(())
}

/// `put` of a string. What is no integer is no byte.
fn put_byte(
    stack: &mut Stack,
    store: &mut Store,
    value: &Obj,
    place: &Obj,
    span: Part,
) -> Result<(), OpFault>
    requires { stack.old ≡ value.now ∷ place.now ∷ Obj.Text span ∷ drop 3 stack.old }
    ensures answers { StoreAnswers (put_row stack.old store.old)
        result stack.old store.old stack.new store.new }
    ensures never { result ≢ Err OpFault.NoMemory }
{
    let (Obj::Int(byte), Obj::Int(i)) = (value, place) else {
        return Err(OpFault::Ps(PsName::TypeCheck));
    };
    let Some(at) = place_in(*i, span.len) else {
        return Err(OpFault::Ps(PsName::RangeCheck));
    };
    if place_in(*byte, 256).is_none() {
        return Err(OpFault::Ps(PsName::RangeCheck));
    }
    store.put(span, at, value.again());
    stack.drop_top(3);
    Ok(())
}

/// `put` of a dictionary.
#[tactic(auto, using(crate::proofs::Putting::put_of_dict))]
fn put_value(
    stack: &mut Stack,
    store: &mut Store,
    value: Obj,
    key: &Obj,
    dict: u32,
) -> Result<(), OpFault>
    requires { stack.old ≡ value ∷ key.now ∷ Obj.Dict dict ∷ drop 3 stack.old }
    ensures answers { StoreAnswers (put_row stack.old store.old)
        result stack.old store.old stack.new store.new }
    ensures refused { TellsRefusal (put_row stack.old store.old) result }
{
    let key = store.key_of(key);
    define(stack, store, 3, dict, &key, value)
}
