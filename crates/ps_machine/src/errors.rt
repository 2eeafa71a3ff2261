//! Errors, the commands that they name, and the timeout.
ghost use Rattle.std.specs.Prelude.{◌≡◌, ◌≤◌, length, codes};
ghost use Rattle.ps_store.specs.Operators.{name_of};
ghost use Rattle.ps_machine.specs.Errors.{caught};
ghost use Rattle.ps_machine.specs.Code.Landing.{IsCaught};

use crate::turn::{End, Turn};
use press_fault::{Name, PsName};
use ps_flow::Flow;
use ps_store::{Obj, Oper, Stack};

/// Cuts back to the innermost `stopped` and pushes true, and answers the end where none catches the
/// error.
pub(crate) fn catch(stack: &mut Stack, flow: &mut Flow, name: PsName, command: Name) -> Option<End>
    ensures { IsCaught (caught name command flow.old stack.old) result stack.new flow.new }
{
    let mut name = name;
    let mut command = command;
    while flow.unwind() {
        match stack.push(Obj::Bool(true)) {
            Ok(()) => return None,
            Err(_) => {
                name = PsName::StackOverflow;
                command = named(b"stopped");
            }
        }
    }
    Some(End::Ps { name, command })
}

/// The end of a program that executed too many objects.
pub(crate) fn timed_out() -> End
    ensures { result ≡ End.Ps PsName.Timeout (codes "run") }
{
    End::Ps {
        name: PsName::Timeout,
        command: named(b"run"),
    }
}

/// Ends the program by the timeout.
#[cold]
#[inline(never)]
pub(crate) fn timeout(end: &mut End) -> Turn
    ensures turn { result ≡ Turn.Ended }
    ensures end { end.new ≡ End.Ps PsName.Timeout (codes "run") }
{
    *end = timed_out();
    Turn::Ended
}

/// The name of these bytes.
pub(crate) fn named(bytes: &[u8]) -> Name
    requires { length bytes.now ≤ 127 }
    ensures { result ≡ bytes.now }
{
    match Name::of(bytes) {
        Some(name) => name,
        None => unreachable!(),
    }
}

/// The name of an operator, as the command of its refusal.
pub(crate) fn command_of(op: Oper) -> Name
    ensures { result ≡ name_of op }
{
    named(op.name().as_bytes())
}
