//! `copy` (PostScript Language Reference, third edition, 8.2 copy).
ghost use Rattle.std.specs.Prelude.{◌≡◌, ◌≢◌, ◌≤◌, ◌<◌, ◌∷◌, length, drop, Err, IfOk, IfErr};
ghost use Rattle.ps_store.specs.Copying.{copied_part};
ghost use Rattle.ps_store.specs.Outcome.{Answers, TellsRefusal};
ghost use Rattle.ps_stack_ops.specs.Rows.{copied, front_of, entries_copied, copy_row};
ghost use Rattle.ps_store.specs.Calls.{StoreAnswers};

use press_fault::PsName;
use press_nums::Whole;
use ps_store::{MAX_OPERANDS, Obj, OpFault, Part, SYSTEMDICT, Stack, Store};

/// Copies operands by their number, or the items of one composite into another of its kind.
#[tactic(auto, using(crate::proofs::Lifted::lifted, crate::proofs::Lifted::told))]
pub(crate) fn copy(stack: &mut Stack, store: &mut Store) -> Result<(), OpFault>
    ensures answers { StoreAnswers (copy_row stack.old store.old)
        result stack.old store.old stack.new store.new }
    ensures refused { TellsRefusal (copy_row stack.old store.old) result }
{
    let Some((b, a)) = stack.top_two() else {
        return copy_one(stack, store);
    };
    match (b, a) {
        (Obj::Int(n), _) => {
            let n = *n;
            copy_operands(stack, n)
        }
        (Obj::Array(to, is_executable), Obj::Array(from, _)) => {
            let is_executable = *is_executable;
            let part = fill(store, *from, *to)?;
            stack.replace(2, Obj::Array(part, is_executable));
            Ok(())
        }
        (Obj::Text(to), Obj::Text(from)) => {
            let part = fill(store, *from, *to)?;
            stack.replace(2, Obj::Text(part));
            Ok(())
        }
        (Obj::Dict(to), Obj::Dict(from)) => {
            let to = *to;
            define_entries(store, *from, to)?;
            stack.replace(2, Obj::Dict(to));
            Ok(())
        }
        _ => Err(OpFault::Ps(PsName::TypeCheck)),
    }
}

/// Copies the items of a part of a string or an array to the first places of another, and gives
/// these places.
fn fill(store: &mut Store, from: Part, to: Part) -> Result<Part, OpFault>
    ensures ok { IfOk result
        (λ part. (from.len ≤ to.len)
        × ((part ≡ front_of to from.len) × (store.new ≡ copied_part store.old from to))) }
    ensures err { IfErr result
        (λ fault. (to.len < from.len) × ((fault ≡ OpFault.Ps PsName.RangeCheck) × (store.new ≡ store.old))) }
{
    if to.len < from.len {
        return Err(OpFault::Ps(PsName::RangeCheck));
    }
    store.copy_part(from, to);
    Ok(Part {
        id: to.id,
        start: to.start,
        len: from.len,
    })
}

/// Defines the entries of a dictionary in another one.
fn define_entries(store: &mut Store, from: u32, to: u32) -> Result<(), OpFault>
    ensures answers { Answers (entries_copied store.old from to) result store.old store.new }
    ensures refused { TellsRefusal (entries_copied store.old from to) result }
{
    if to == SYSTEMDICT {
        return Err(OpFault::Ps(PsName::InvalidAccess));
    }
    store.copy_entries(from, to)?;
    Ok(())
}

/// `copy` with fewer than two operands.
#[tactic(auto, using(crate::proofs::Lifted::lifted, crate::proofs::Lifted::told))]
fn copy_one(stack: &mut Stack, store: &Store) -> Result<(), OpFault>
    requires { length stack.old < 2 }
    ensures answers { StoreAnswers (copy_row stack.old store.now)
        result stack.old store.now stack.new store.now }
    ensures never { result ≢ Err OpFault.NoMemory }
{
    let Some(top) = stack.top() else {
        return Err(OpFault::Ps(PsName::StackUnderflow));
    };
    match top {
        Obj::Int(n) => {
            let n = *n;
            copy_operands(stack, n)
        }
        Obj::Array(_, _) => Err(OpFault::Ps(PsName::StackUnderflow)),
        Obj::Text(_) => Err(OpFault::Ps(PsName::StackUnderflow)),
        Obj::Dict(_) => Err(OpFault::Ps(PsName::StackUnderflow)),
        _ => Err(OpFault::Ps(PsName::TypeCheck)),
    }
}

/// Copies the top `n` of the operands below the number.
fn copy_operands(stack: &mut Stack, n: Whole) -> Result<(), OpFault>
    requires { stack.old ≡ Obj.Int n ∷ drop 1 stack.old }
    ensures answers { Answers (copied n (drop 1 stack.old)) result stack.old stack.new }
    ensures never { result ≢ Err OpFault.NoMemory }
{
    let n = n.get();
    let wanted = n.unsigned_abs() as usize;
    let held = stack.len() - 1;
    if n < 0 {
        Err(OpFault::Ps(PsName::RangeCheck))
    } else if held < wanted {
        Err(OpFault::Ps(PsName::StackUnderflow))
    } else if held + wanted > MAX_OPERANDS {
        Err(OpFault::Ps(PsName::StackOverflow))
    } else {
        stack.drop_top(1);
        stack.copy_top(wanted);
        Ok(())
    }
}
