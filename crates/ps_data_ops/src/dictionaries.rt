//! Operators on dictionaries and on the dictionary stack.
ghost use Rattle.std.specs.Prelude.{◌≡◌, ◌≢◌, ◌≤◌, length, drop, Err};
ghost use Rattle.ps_store.specs.Outcome.{Answers, TellsRefusal, pushed};
ghost use Rattle.ps_data_ops.specs.Dictionaries.{define_row, def_row, load_row, known_row, where_row, begin_row};
ghost use Rattle.ps_data_ops.specs.Dictionaries.{end_row, current, home_row};
ghost use Rattle.ps_store.specs.Calls.{StoreAnswers};

use crate::elements::give;
use crate::values::push;
use press_fault::PsName;
use ps_store::{Dicts, KeyFault, MAX_OPERANDS, Obj, OpFault, SYSTEMDICT, Sought, Stack, Store};

/// `load`: the value in the topmost dictionary that has the key.
pub(crate) fn load(stack: &mut Stack, store: &Store, dicts: &Dicts) -> Result<(), OpFault>
    ensures answers { Answers (load_row stack.old store.now dicts.now) result stack.old stack.new }
    ensures never { result ≢ Err OpFault.NoMemory }
{
    let Some(key) = stack.top() else {
        return Err(OpFault::Ps(PsName::StackUnderflow));
    };
    match store.key_of(key) {
        Ok(key) => give(stack, 1, dicts.find(store, &key)),
        Err(KeyFault::TooLong) => Err(OpFault::Ps(PsName::Undefined)),
        Err(KeyFault::NotAKey) => Err(OpFault::Ps(PsName::TypeCheck)),
    }
}

/// `known`: whether that one dictionary has the key.
pub(crate) fn known(stack: &mut Stack, store: &Store) -> Result<(), OpFault>
    ensures answers { Answers (known_row stack.old store.now) result stack.old stack.new }
    ensures never { result ≢ Err OpFault.NoMemory }
{
    let Some((key, whole)) = stack.top_two() else {
        return Err(OpFault::Ps(PsName::StackUnderflow));
    };
    let Obj::Dict(dict) = whole else {
        return Err(OpFault::Ps(PsName::TypeCheck));
    };
    let is_known = match store.key_of(key) {
        Ok(key) => store.look_up(*dict, &key).is_some(),
        Err(KeyFault::TooLong) => false,
        Err(KeyFault::NotAKey) => return Err(OpFault::Ps(PsName::TypeCheck)),
    };
    stack.replace(2, Obj::Bool(is_known));
    Ok(())
}

/// `where`: the topmost dictionary that has the key.
pub(crate) fn where_(stack: &mut Stack, store: &Store, dicts: &Dicts) -> Result<(), OpFault>
    ensures answers { Answers (where_row stack.old store.now dicts.now) result stack.old stack.new }
    ensures never { result ≢ Err OpFault.NoMemory }
{
    let Some(key) = stack.top() else {
        return Err(OpFault::Ps(PsName::StackUnderflow));
    };
    match store.key_of(key) {
        Ok(key) => give_home(stack, dicts.home(store, &key)),
        Err(KeyFault::TooLong) => {
            stack.replace(1, Obj::Bool(false));
            Ok(())
        }
        Err(KeyFault::NotAKey) => Err(OpFault::Ps(PsName::TypeCheck)),
    }
}

/// Puts the dictionary that has a key, and whether there is one, in the key's place.
fn give_home(stack: &mut Stack, home: Option<u32>) -> Result<(), OpFault>
    requires { 1 ≤ length stack.old }
    ensures answers { Answers (home_row home (drop 1 stack.old)) result stack.old stack.new }
    ensures never { result ≢ Err OpFault.NoMemory }
{
    let Some(dict) = home else {
        stack.replace(1, Obj::Bool(false));
        return Ok(());
    };
    if stack.len() == MAX_OPERANDS {
        return Err(OpFault::Ps(PsName::StackOverflow));
    }
    stack.replace_with_two(Obj::Dict(dict), Obj::Bool(true));
    Ok(())
}

/// `def`: a value of a key of the dictionary on top.
pub(crate) fn def(stack: &mut Stack, store: &mut Store, dicts: &Dicts) -> Result<(), OpFault>
    ensures answers { StoreAnswers (def_row stack.old store.old dicts.now)
        result stack.old store.old stack.new store.new }
    ensures refused { TellsRefusal (def_row stack.old store.old dicts.now) result }
{
    let Some((value, key)) = stack.top_two() else {
        return Err(OpFault::Ps(PsName::StackUnderflow));
    };
    let (key, value) = (store.key_of(key), value.again());
    define(stack, store, 2, dicts.top(), &key, value)
}

/// Gives a key of a dictionary a value, and drops the top `n` operands. `systemdict` is refused.
pub(crate) fn define(
    stack: &mut Stack,
    store: &mut Store,
    n: usize,
    dict: u32,
    key: &Result<Sought, KeyFault>,
    value: Obj,
) -> Result<(), OpFault>
    requires { n ≤ length stack.old }
    ensures answers { StoreAnswers (define_row store.old dict key.now value (drop n stack.old))
        result stack.old store.old stack.new store.new }
    ensures refused { TellsRefusal (define_row store.old dict key.now value (drop n stack.old)) result }
{
    match key {
        Ok(key) => {
            if dict == SYSTEMDICT {
                return Err(OpFault::Ps(PsName::InvalidAccess));
            }
            store.define(dict, key, value)?;
            stack.drop_top(n);
            Ok(())
        }
        Err(KeyFault::TooLong) => {
            if dict == SYSTEMDICT {
                return Err(OpFault::Ps(PsName::InvalidAccess));
            }
            Err(OpFault::Ps(PsName::LimitCheck))
        }
        Err(KeyFault::NotAKey) => Err(OpFault::Ps(PsName::TypeCheck)),
    }
}

/// `begin`: a dictionary onto the dictionary stack.
pub(crate) fn begin(stack: &mut Stack, dicts: &mut Dicts) -> Result<(), OpFault>
    ensures answers { Answers (begin_row stack.old dicts.old) result
        (record { operands = stack.old; dicts = dicts.old })
        (record { operands = stack.new; dicts = dicts.new }) }
    ensures never { result ≢ Err OpFault.NoMemory }
{
    let Some(top) = stack.top() else {
        return Err(OpFault::Ps(PsName::StackUnderflow));
    };
    let Obj::Dict(dict) = top else {
        return Err(OpFault::Ps(PsName::TypeCheck));
    };
    dicts.push(*dict)?;
    stack.drop_top(1);
    Ok(())
}

/// `end`: the dictionary on top away. `systemdict` and `userdict` stay.
pub(crate) fn end(dicts: &mut Dicts) -> Result<(), OpFault>
    ensures answers { Answers (end_row dicts.old) result dicts.old dicts.new }
    ensures never { result ≢ Err OpFault.NoMemory }
{
    dicts.pop()?;
    Ok(())
}

/// `currentdict`: the dictionary on top of the dictionary stack.
pub(crate) fn currentdict(stack: &mut Stack, dicts: &Dicts) -> Result<(), OpFault>
    ensures answers { Answers (pushed (Obj.Dict (current dicts.now)) stack.old) result stack.old stack.new }
    ensures never { result ≢ Err OpFault.NoMemory }
{
    push(stack, Obj::Dict(dicts.top()))
}
