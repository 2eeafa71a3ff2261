//! The operators by their rows, and the drivers of those that work one value out.
ghost use Rattle.std.specs.Prelude.{◌≡◌, ◌≢◌, Err};
ghost use Rattle.ps_store.specs.Outcome.{Answers, TellsRefusal};
ghost use Rattle.ps_stack_ops.specs.Rows.{stack_row, of_one, of_two};
ghost use Rattle.ps_store.specs.Calls.{StoreAnswers};

use crate::arithmetic::{
    Abs, Add, Ceiling, Cos, Cvi, Cvr, Div, Floor, Idiv, Mod, Mul, Neg, Round, Sin, Sqrt, Sub,
    Truncate,
};
use crate::comparison::{Eq, Ge, Gt, Le, Lt, Ne};
use crate::copying::copy;
use crate::logic::{And, Bitshift, Not, Or, Xor};
use crate::manipulation::{
    clear, cleartomark, count, counttomark, dup, exch, index, pop, push, roll,
};
use press_fault::PsName;
use ps_store::{Obj, OpFault, Stack, StackOp, Store};

/// Does what an operator does, exactly as its row says. A refusal by an error of the language
/// leaves operands and store as before; after out of memory nothing is said of them. Out of
/// memory comes of `copy` alone, and never in place of a refusal.
#[tactic(auto, using(crate::proofs::Lifted::lifted, crate::proofs::Lifted::told), unfolding(crate::specs::Rows::stack_row))]
pub fn run_stack(op: StackOp, stack: &mut Stack, store: &mut Store) -> Result<(), OpFault>
    ensures answers { StoreAnswers (stack_row op stack.old store.old)
        result stack.old store.old stack.new store.new }
    ensures refused { TellsRefusal (stack_row op stack.old store.old) result }
    ensures memory { result ≡ Err OpFault.NoMemory → op ≡ StackOp.Copy }
{
    match op {
        StackOp::Pop => pop(stack),
        StackOp::Exch => exch(stack),
        StackOp::Dup => dup(stack),
        StackOp::Clear => clear(stack),
        StackOp::Count => count(stack),
        StackOp::Copy => copy(stack, store),
        StackOp::Index => index(stack),
        StackOp::Roll => roll(stack),
        StackOp::Mark => push(stack, Obj::Mark),
        StackOp::OpenArray => push(stack, Obj::Mark),
        StackOp::OpenDict => push(stack, Obj::Mark),
        StackOp::Cleartomark => cleartomark(stack),
        StackOp::Counttomark => counttomark(stack),
        StackOp::Add => of_two::<Add>(stack, store),
        StackOp::Sub => of_two::<Sub>(stack, store),
        StackOp::Mul => of_two::<Mul>(stack, store),
        StackOp::Div => of_two::<Div>(stack, store),
        StackOp::Idiv => of_two::<Idiv>(stack, store),
        StackOp::Mod => of_two::<Mod>(stack, store),
        StackOp::Neg => of_one::<Neg>(stack),
        StackOp::Abs => of_one::<Abs>(stack),
        StackOp::Ceiling => of_one::<Ceiling>(stack),
        StackOp::Floor => of_one::<Floor>(stack),
        StackOp::Round => of_one::<Round>(stack),
        StackOp::Truncate => of_one::<Truncate>(stack),
        StackOp::Sqrt => of_one::<Sqrt>(stack),
        StackOp::Sin => of_one::<Sin>(stack),
        StackOp::Cos => of_one::<Cos>(stack),
        StackOp::Cvi => of_one::<Cvi>(stack),
        StackOp::Cvr => of_one::<Cvr>(stack),
        StackOp::Eq => of_two::<Eq>(stack, store),
        StackOp::Ne => of_two::<Ne>(stack, store),
        StackOp::Gt => of_two::<Gt>(stack, store),
        StackOp::Ge => of_two::<Ge>(stack, store),
        StackOp::Lt => of_two::<Lt>(stack, store),
        StackOp::Le => of_two::<Le>(stack, store),
        StackOp::And => of_two::<And>(stack, store),
        StackOp::Or => of_two::<Or>(stack, store),
        StackOp::Xor => of_two::<Xor>(stack, store),
        StackOp::Not => of_one::<Not>(stack),
        StackOp::Bitshift => of_two::<Bitshift>(stack, store),
    }
}

/// An operator that works a value out of one operand.
pub(crate) trait OneOperand {
    ghost use Rattle.std.specs.Prelude.{◌≡◌, Result};
    ghost use Rattle.press_fault.specs.declared.names.PsName.{PsName};
    ghost use Rattle.ps_store.specs.declared.obj.Obj.{Obj};

    ghost value: { Obj → Result Obj PsName };

    fn value(a: &Obj) -> Result<Obj, PsName>
        ensures { result ≡ value a.now };
}

/// An operator that works a value out of two operands, `b` on top of `a`.
pub(crate) trait TwoOperands {
    ghost use Rattle.std.specs.Prelude.{◌≡◌, Result};
    ghost use Rattle.press_fault.specs.declared.names.PsName.{PsName};
    ghost use Rattle.ps_store.specs.declared.obj.Obj.{Obj};
    ghost use Rattle.ps_store.specs.Store.{StoreValue};

    ghost value: { StoreValue → Obj → Obj → Result Obj PsName };

    fn value(store: &Store, a: &Obj, b: &Obj) -> Result<Obj, PsName>
        ensures { result ≡ value store.now a.now b.now };
}

/// Puts the value of an operator in the place of its operand.
fn of_one<V: OneOperand>(stack: &mut Stack) -> Result<(), OpFault>
    ensures answers { Answers (of_one V.value stack.old) result stack.old stack.new }
    ensures never { result ≢ Err OpFault.NoMemory }
{
    let Some(a) = stack.top() else {
        return Err(OpFault::Ps(PsName::StackUnderflow));
    };
    let value = V::value(a)?;
    stack.replace(1, value);
    Ok(())
}

/// Puts the value of an operator in the place of its two operands.
fn of_two<V: TwoOperands>(stack: &mut Stack, store: &Store) -> Result<(), OpFault>
    ensures answers { Answers (of_two (V.value store.now) stack.old) result stack.old stack.new }
    ensures never { result ≢ Err OpFault.NoMemory }
{
    let Some((b, a)) = stack.top_two() else {
        return Err(OpFault::Ps(PsName::StackUnderflow));
    };
    let value = V::value(store, a, b)?;
    stack.replace(2, value);
    Ok(())
}
