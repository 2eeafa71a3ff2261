//! Operators on the line parameters.
ghost use Rattle.std.specs.Prelude.{◌≡◌, ◌≢◌, ◌≤◌, ◌&&◌, nat_lt, OnOk, IfOk, Err, length, map};
ghost use Rattle.std.specs.List.{list_any, list_all};
ghost use Rattle.gfx_state.specs.Lines.{dash_fault, is_negative, is_zero};
ghost use Rattle.ps_store.specs.Outcome.{TellsRefusal};
ghost use Rattle.ps_gfx_ops.specs.Lines.{one_integer, number_in, dash_error, setlinewidth_row, setmiterlimit_row};
ghost use Rattle.ps_gfx_ops.specs.Lines.{setlinecap_row, setlinejoin_row, setdash_row, currentlinewidth_row};
ghost use Rattle.ps_gfx_ops.specs.Calls.{GraphicsAnswers};

use crate::matrices::are_numbers;
use crate::points::one_number;
use geo_stroke::MAX_DASHES;
use gfx_state::{DashFault, Gfx};
use press_fault::{Mem, PsName};
use press_nums::{Fix, Whole, Wide};
use ps_store::{Obj, OpFault, Stack, Store, number};
use std::alloc::Global;

/// The integer that the top operand is.
fn one_integer(stack: &Stack) -> Result<Whole, PsName>
    ensures value { result ≡ one_integer stack.now }
    ensures enough { OnOk result (1 ≤ length stack.now) }
{
    let Some(top) = stack.top() else {
        return Err(PsName::StackUnderflow);
    };
    match top {
        Obj::Int(n) => Ok(*n),
        _ => Err(PsName::TypeCheck),
    }
}

/// `setlinewidth`: the width of lines, taken without its sign.
pub(crate) fn setlinewidth(stack: &mut Stack, gfx: &mut Gfx) -> Result<(), OpFault>
    ensures answers { GraphicsAnswers (setlinewidth_row stack.old gfx.old)
        result stack.old gfx.old stack.new gfx.new }
    ensures never { result ≢ Err OpFault.NoMemory }
{
    let width = one_number(stack)?;
    gfx.set_width(width)?;
    stack.drop_top(1);
    Ok(())
}

/// `setmiterlimit`: where miters become bevels.
pub(crate) fn setmiterlimit(stack: &mut Stack, gfx: &mut Gfx) -> Result<(), OpFault>
    ensures answers { GraphicsAnswers (setmiterlimit_row stack.old gfx.old)
        result stack.old gfx.old stack.new gfx.new }
    ensures never { result ≢ Err OpFault.NoMemory }
{
    let limit = one_number(stack)?;
    gfx.set_miter(limit)?;
    stack.drop_top(1);
    Ok(())
}

/// `setlinecap`: how open lines end.
pub(crate) fn setlinecap(stack: &mut Stack, gfx: &mut Gfx) -> Result<(), OpFault>
    ensures answers { GraphicsAnswers (setlinecap_row stack.old gfx.old)
        result stack.old gfx.old stack.new gfx.new }
    ensures never { result ≢ Err OpFault.NoMemory }
{
    let n = one_integer(stack)?;
    gfx.set_cap(n)?;
    stack.drop_top(1);
    Ok(())
}

/// `setlinejoin`: how segments meet.
pub(crate) fn setlinejoin(stack: &mut Stack, gfx: &mut Gfx) -> Result<(), OpFault>
    ensures answers { GraphicsAnswers (setlinejoin_row stack.old gfx.old)
        result stack.old gfx.old stack.new gfx.new }
    ensures never { result ≢ Err OpFault.NoMemory }
{
    let n = one_integer(stack)?;
    gfx.set_join(n)?;
    stack.drop_top(1);
    Ok(())
}

/// `setdash`: dashes and gaps in turn, and how far along them a line begins.
pub(crate) fn setdash(
    alloc: Global,
    stack: &mut Stack,
    store: &Store,
    gfx: &mut Gfx,
) -> Result<(), OpFault>
    ensures answers { GraphicsAnswers (setdash_row stack.old store.now gfx.old)
        result stack.old gfx.old stack.new gfx.new }
    ensures refused { TellsRefusal (setdash_row stack.old store.now gfx.old) result }
{
    let Some((offset, dashes)) = stack.top_two() else {
        return Err(OpFault::Ps(PsName::StackUnderflow));
    };
    let Obj::Array(span, _) = dashes else {
        return Err(OpFault::Ps(PsName::TypeCheck));
    };
    let objects = store.objects(*span);
    if !are_numbers(objects) {
        return Err(OpFault::Ps(PsName::TypeCheck));
    }
    let Some(offset) = number(offset) else {
        return Err(OpFault::Ps(PsName::TypeCheck));
    };
    if let Some(fault) = dash_fault(objects) {
        return Err(refusal(fault));
    }
    let lengths = numbers(alloc, objects)?;
    match gfx.set_dash(&lengths, offset) {
        Ok(()) => {
            stack.drop_top(2);
            Ok(())
        }
        Err(fault) => Err(refusal(fault)),
    }
}

/// What a refusal of dashes is to an operator.
fn refusal(fault: DashFault) -> OpFault
    ensures named { fault ≢ DashFault.NoMemory → result ≡ OpFault.Ps (dash_error fault) }
    ensures memory { fault ≡ DashFault.NoMemory → result ≡ OpFault.NoMemory }
{
    match fault {
        DashFault::RangeCheck => OpFault::Ps(PsName::RangeCheck),
        DashFault::LimitCheck => OpFault::Ps(PsName::LimitCheck),
        DashFault::NoMemory => OpFault::NoMemory,
    }
}

/// Why the numbers that objects are would be refused as dashes. It takes no memory.
#[tactic(auto, using(crate::proofs::Folding::fault_of_numbers))]
fn dash_fault(objects: &[Obj]) -> Option<DashFault>
    ensures { result ≡ dash_fault (map number_in objects.now) }
{
    if has_negative(objects) || are_blank(objects) {
        Some(DashFault::RangeCheck)
    } else if objects.len() > MAX_DASHES {
        Some(DashFault::LimitCheck)
    } else {
        None
    }
}

/// Whether a number is below 0.
fn has_negative(objects: &[Obj]) -> bool
    ensures { result ≡ list_any (λ o. is_negative (number_in o)) objects.now }
{
    objects
        .iter()
        .any(|o| number_or_zero(o).wide().is_below(Wide::ZERO))
}

/// Whether there are numbers, and all of them are 0.
fn are_blank(objects: &[Obj]) -> bool
    ensures { result ≡ (nat_lt 0 (length objects.now) && list_all (λ o. is_zero (number_in o)) objects.now) }
{
    !objects.is_empty() && are_zero(objects)
}

fn are_zero(objects: &[Obj]) -> bool
    ensures { result ≡ list_all (λ o. is_zero (number_in o)) objects.now }
{
    objects.iter().all(|o| number_or_zero(o).wide().is_zero())
}

/// The numbers that objects are, 0 for one that is none.
pub fn numbers(alloc: Global, objects: &[Obj]) -> Mem<Vec<Fix>>
    ensures { IfOk result (λ numbers. numbers.items ≡ map number_in objects.now) }
{
    let mut numbers = Vec::new(alloc);
    for o in objects {
        numbers.push(number_or_zero(o))?;
    }
    Ok(numbers)
}

fn number_or_zero(o: &Obj) -> Fix
    ensures { result ≡ number_in o.now }
{
    match number(o) {
        Some(n) => n,
        None => Fix::of_int(0),
    }
}

/// `currentlinewidth`: the width of lines.
pub(crate) fn currentlinewidth(stack: &mut Stack, gfx: &Gfx) -> Result<(), OpFault>
    ensures answers { GraphicsAnswers (currentlinewidth_row stack.old gfx.now)
        result stack.old gfx.now stack.new gfx.now }
    ensures never { result ≢ Err OpFault.NoMemory }
{
    stack.push(Obj::Real(gfx.width()))?;
    Ok(())
}
