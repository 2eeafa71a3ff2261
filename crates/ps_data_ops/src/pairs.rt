//! `>>`: a dictionary of the pairs above a mark.
ghost use Rattle.std.specs.Prelude.{◌≡◌, ◌≤◌, ◌<◌, [], length, reverse, take, IfOk};
ghost use Rattle.ps_data_ops.specs.Dictionaries.{TellsRefusalBut, close_dict_row, closed_row, is_no_key, lacks_key};
ghost use Rattle.ps_data_ops.specs.Dictionaries.{entered};
ghost use Rattle.ps_store.specs.Calls.{StoreAnswers};

use press_fault::{Mem, PsName};
use ps_store::{Entries, KeyFault, Obj, OpFault, Sought, Stack, Store};

/// `>>`: a new dictionary of the pairs above the topmost mark.
pub(crate) fn close_dict(stack: &mut Stack, store: &mut Store) -> Result<(), OpFault>
    ensures answers { StoreAnswers (close_dict_row stack.old store.old)
        result stack.old store.old stack.new store.new }
    ensures refused { TellsRefusalBut PsName.LimitCheck (close_dict_row stack.old store.old) result }
{
    match stack.depth_of_mark() {
        Some(len) => enclose(stack, store, len),
        None => Err(OpFault::Ps(PsName::UnmatchedMark)),
    }
}

/// Makes a dictionary of the top `len` operands, in place of these and the mark below them.
///
/// Its entries are put together first, so that a limit refuses them all and leaves the store.
fn enclose(stack: &mut Stack, store: &mut Store, len: usize) -> Result<(), OpFault>
    requires { len < length stack.old }
    ensures answers { StoreAnswers (closed_row len stack.old store.old)
        result stack.old store.old stack.new store.new }
    ensures refused { TellsRefusalBut PsName.LimitCheck (closed_row len stack.old store.old) result }
{
    if lacks_key(stack, store, len) {
        return Err(OpFault::Ps(PsName::TypeCheck));
    }
    if len % 2 == 1 {
        return Err(OpFault::Ps(PsName::RangeCheck));
    }
    let entries = entries_of(stack, store, len)?;
    let Some(entries) = entries else {
        return Err(OpFault::Ps(PsName::LimitCheck));
    };
    let dict = store.new_dict_of(entries)?;
    stack.replace(len + 1, Obj::Dict(dict));
    Ok(())
}

/// Whether one of the top `len` operands that stands where a key belongs is none.
fn lacks_key(stack: &Stack, store: &Store, len: usize) -> bool
    requires { len ≤ length stack.now }
    ensures { result ≡ lacks_key store.now (reverse (take len stack.now)) }
{
    let mut left = len;
    while left > 0 {
        let Some(key) = stack.at(left - 1) else {
            unreachable!();
        };
        if is_no_key(&store.key_of(key)) {
            return true;
        }
        left = left.saturating_sub(2);
    }
    false
}

fn is_no_key(key: &Result<Sought, KeyFault>) -> bool
    ensures { result ≡ is_no_key key.now }
{
    match key {
        Ok(_) => false,
        Err(KeyFault::TooLong) => false,
        Err(KeyFault::NotAKey) => true,
    }
}

/// The entries of the top `len` operands, keys and values in turn; `None` exactly where a key is a
/// string of over 127 bytes.
#[tactic(auto, unfolding(crate::specs::Dictionaries::entered))]
fn entries_of(stack: &Stack, store: &mut Store, len: usize) -> Mem<Option<Entries>>
    requires { len ≤ length stack.now }
    ensures entries { IfOk result (λ entries. entries ≡ entered store.old [] (reverse (take len stack.now))) }
    ensures store { store.new ≡ store.old }
{
    let _held = stack.len();
    let mut entries = store.new_entries();
    let mut left = len;
    while left > 1 {
        let Some(key) = stack.at(left - 1) else {
            unreachable!();
        };
        let Some(value) = stack.at(left - 2) else {
            unreachable!();
        };
        let Ok(key) = store.key_of(key) else {
            return Ok(None);
        };
        let made = store.key(&key)?;
        entries.define(made, value.again())?;
        left -= 2;
    }
    Ok(Some(entries))
}
