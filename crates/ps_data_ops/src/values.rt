//! Operators on single objects: their types and marks, and the constants.
ghost use Rattle.std.specs.Prelude.{◌≡◌, ◌≢◌, Err};
ghost use Rattle.ps_store.specs.Outcome.{Answers, TellsRefusal, pushed};
ghost use Rattle.ps_data_ops.specs.Values.{changed, executable, literal, is_executable, mark_of, type_name, cvn_row};

use press_fault::{Name, PsName};
use ps_store::{Obj, OpFault, Stack, Store};

/// Pushes an object, as `true`, `null` and `userdict` do.
pub(crate) fn push(stack: &mut Stack, o: Obj) -> Result<(), OpFault>
    ensures answers { Answers (pushed o stack.old) result stack.old stack.new }
    ensures never { result ≢ Err OpFault.NoMemory }
{
    stack.push(o)?;
    Ok(())
}

/// `cvx`: the top operand, marked as executable. Only names and arrays carry a mark.
pub(crate) fn cvx(stack: &mut Stack) -> Result<(), OpFault>
    ensures answers { Answers (changed executable stack.old) result stack.old stack.new }
    ensures never { result ≢ Err OpFault.NoMemory }
{
    let Some(top) = stack.top() else {
        return Err(OpFault::Ps(PsName::StackUnderflow));
    };
    let marked = executable(top);
    stack.replace(1, marked);
    Ok(())
}

/// `cvlit`: the top operand, marked as literal.
pub(crate) fn cvlit(stack: &mut Stack) -> Result<(), OpFault>
    ensures answers { Answers (changed literal stack.old) result stack.old stack.new }
    ensures never { result ≢ Err OpFault.NoMemory }
{
    let Some(top) = stack.top() else {
        return Err(OpFault::Ps(PsName::StackUnderflow));
    };
    let marked = literal(top);
    stack.replace(1, marked);
    Ok(())
}

/// `xcheck`: whether the top operand is executable.
pub(crate) fn xcheck(stack: &mut Stack) -> Result<(), OpFault>
    ensures answers { Answers (changed mark_of stack.old) result stack.old stack.new }
    ensures never { result ≢ Err OpFault.NoMemory }
{
    let Some(top) = stack.top() else {
        return Err(OpFault::Ps(PsName::StackUnderflow));
    };
    let mark = is_executable(top);
    stack.replace(1, Obj::Bool(mark));
    Ok(())
}

/// `type`: the name of the top operand's type, an executable one.
pub(crate) fn type_(stack: &mut Stack, store: &Store) -> Result<(), OpFault>
    ensures answers { Answers (changed type_name stack.old) result stack.old stack.new }
    ensures never { result ≢ Err OpFault.NoMemory }
{
    let Some(top) = stack.top() else {
        return Err(OpFault::Ps(PsName::StackUnderflow));
    };
    let name = store.type_name(top);
    stack.replace(1, Obj::Name(name, true));
    Ok(())
}

/// `cvn`: the literal name of a string's bytes.
pub(crate) fn cvn(stack: &mut Stack, store: &mut Store) -> Result<(), OpFault>
    ensures answers { Answers (cvn_row stack.old store.old) result stack.old stack.new }
    ensures store { store.new ≡ store.old }
    ensures refused { TellsRefusal (cvn_row stack.old store.old) result }
{
    let Some(top) = stack.top() else {
        return Err(OpFault::Ps(PsName::StackUnderflow));
    };
    let Obj::Text(span) = top else {
        return Err(OpFault::Ps(PsName::TypeCheck));
    };
    match Name::of(store.bytes(*span)) {
        Some(name) => {
            let name = store.symbol(&name)?;
            stack.replace(1, Obj::Name(name, false));
            Ok(())
        }
        None => Err(OpFault::Ps(PsName::LimitCheck)),
    }
}

fn executable(o: &Obj) -> Obj
    ensures { result ≡ executable o.now }
{
    match o {
        Obj::Name(name, _) => Obj::Name(name.again(), true),
        Obj::Array(span, _) => Obj::Array(*span, true),
        _ => o.again(),
    }
}

fn literal(o: &Obj) -> Obj
    ensures { result ≡ literal o.now }
{
    match o {
        Obj::Name(name, _) => Obj::Name(name.again(), false),
        Obj::Array(span, _) => Obj::Array(*span, false),
        _ => o.again(),
    }
}

fn is_executable(o: &Obj) -> bool
    ensures { result ≡ is_executable o.now }
{
    match o {
        Obj::Name(_, mark) => *mark,
        Obj::Array(_, mark) => *mark,
        Obj::Oper(_) => true,
        _ => false,
    }
}
