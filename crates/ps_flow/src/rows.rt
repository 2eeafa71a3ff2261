//! The operators on the execution stack.
ghost use Rattle.std.specs.Prelude.{◌≡◌, ◌≢◌, ◌≤◌, ◌<◌, length, drop, true, Err, IfOk, None, map};
ghost use Rattle.ps_store.specs.Gathering.{elements};
ghost use Rattle.ps_store.specs.Outcome.{TellsRefusal};
ghost use Rattle.ps_flow.specs.Course.{FlowAnswers, AnswersAll, opens, with_levels};
ghost use Rattle.ps_flow.specs.Rows.{flow_row, takes_memory, exec_row, if_row, ifelse_row, for_row, for_from};
ghost use Rattle.ps_flow.specs.Rows.{repeat_row, loop_row, forall_row, keys_and_values, exit_row, stop_row};
ghost use Rattle.ps_flow.specs.Rows.{stopped_row, bind_row};
ghost use Rattle.ps_flow.specs.Levels.{nothing_of};

use crate::binding::bind_procedure;
use crate::contents::{Objects, Pairs};
use crate::counter::Counter;
use crate::flow::Flow;
use crate::level::{Level, nothing_of};
use press_fault::{Mem, PsName};
use press_nums::Fix;
use ps_store::{Dicts, FlowOp, Obj, OpFault, Part, Stack, Store, number};
use std::alloc::Global;

/// What the operators answer: an object that is to be executed at once, or why not.
type Then = Result<Option<Obj>, OpFault>;

/// Does what an operator does, exactly as its row says (PostScript Language Reference, third
/// edition, 8.2 Operator Details). It answers what `exec` or `stopped` found that is no
/// procedure, to be executed at once; after `stop` true is to be pushed. An error of the language
/// leaves operands, levels and store as they were; after out of memory nothing is said of them. Out
/// of memory comes of `forall` and `bind` alone, and never in place of a refusal.
#[tactic(auto, unfolding(crate::specs::Rows::flow_row))]
pub fn run_flow(
    op: FlowOp,
    stack: &mut Stack,
    flow: &mut Flow,
    store: &mut Store,
    dicts: &Dicts,
) -> Then
    ensures answers { AnswersAll (flow_row op stack.old flow.old store.old dicts.now) result
        (record { operands = stack.old; levels = flow.old; store = store.old })
        (record { operands = stack.new; levels = flow.new; store = store.new }) }
    ensures refused { TellsRefusal (flow_row op stack.old flow.old store.old dicts.now) result }
    ensures memory { result ≡ Err OpFault.NoMemory → takes_memory op ≡ true }
{
    match op {
        FlowOp::Exec => exec(stack, flow),
        FlowOp::If => if_(stack, flow),
        FlowOp::Ifelse => ifelse(stack, flow),
        FlowOp::For => for_(stack, flow),
        FlowOp::Repeat => repeat(stack, flow),
        FlowOp::Loop => loop_(stack, flow),
        FlowOp::Forall => forall(stack, flow, store),
        FlowOp::Exit => exit(stack, flow),
        FlowOp::Stop => stop(stack, flow),
        FlowOp::Stopped => stopped(stack, flow),
        FlowOp::Bind => bind(stack, flow, store, dicts),
    }
}

/// Opens a level in the place of the top `n` operands.
fn open(stack: &mut Stack, flow: &mut Flow, n: usize, level: Level, at_once: Option<Obj>) -> Then
    requires { n ≤ length stack.old }
    ensures answers { FlowAnswers (opens level (drop n stack.old) flow.old at_once)
        result stack.old flow.old stack.new flow.new }
    ensures never { result ≢ Err OpFault.NoMemory }
{
    if flow.is_full() {
        return Err(OpFault::Ps(PsName::ExecStackOverflow));
    }
    flow.open(level);
    stack.drop_top(n);
    Ok(at_once)
}

fn exec(stack: &mut Stack, flow: &mut Flow) -> Then
    ensures answers { FlowAnswers (exec_row stack.old flow.old) result stack.old flow.old stack.new flow.new }
    ensures never { result ≢ Err OpFault.NoMemory }
{
    let Some(top) = stack.top() else {
        return Err(OpFault::Ps(PsName::StackUnderflow));
    };
    let top = top.again();
    match &top {
        Obj::Array(p, true) => open(stack, flow, 1, Level::Procedure(*p), None),
        _ => {
            stack.drop_top(1);
            Ok(Some(top))
        }
    }
}

fn if_(stack: &mut Stack, flow: &mut Flow) -> Then
    ensures answers { FlowAnswers (if_row stack.old flow.old) result stack.old flow.old stack.new flow.new }
    ensures never { result ≢ Err OpFault.NoMemory }
{
    let Some((p, b)) = stack.top_two() else {
        return Err(OpFault::Ps(PsName::StackUnderflow));
    };
    match (p, b) {
        (Obj::Array(p, true), Obj::Bool(true)) => {
            let level = Level::Procedure(*p);
            open(stack, flow, 2, level, None)
        }
        (Obj::Array(_, true), Obj::Bool(false)) => {
            stack.drop_top(2);
            Ok(None)
        }
        _ => Err(OpFault::Ps(PsName::TypeCheck)),
    }
}

fn ifelse(stack: &mut Stack, flow: &mut Flow) -> Then
    ensures answers { FlowAnswers (ifelse_row stack.old flow.old) result stack.old flow.old stack.new flow.new }
    ensures never { result ≢ Err OpFault.NoMemory }
{
    let Some((otherwise, then, b)) = stack.top_three() else {
        return Err(OpFault::Ps(PsName::StackUnderflow));
    };
    match (otherwise, then, b) {
        (Obj::Array(_, true), Obj::Array(p, true), Obj::Bool(true)) => {
            let level = Level::Procedure(*p);
            open(stack, flow, 3, level, None)
        }
        (Obj::Array(q, true), Obj::Array(_, true), Obj::Bool(false)) => {
            let level = Level::Procedure(*q);
            open(stack, flow, 3, level, None)
        }
        _ => Err(OpFault::Ps(PsName::TypeCheck)),
    }
}

fn for_(stack: &mut Stack, flow: &mut Flow) -> Then
    ensures answers { FlowAnswers (for_row stack.old flow.old) result stack.old flow.old stack.new flow.new }
    ensures never { result ≢ Err OpFault.NoMemory }
{
    let Some((p, limit, step, first)) = stack.top_four() else {
        return Err(OpFault::Ps(PsName::StackUnderflow));
    };
    match p {
        Obj::Array(p, true) => {
            let (body, counter, limit) = (*p, Counter::from(first, step), number(limit));
            for_from(stack, flow, body, counter, limit)
        }
        _ => Err(OpFault::Ps(PsName::TypeCheck)),
    }
}

/// Opens the level of a `for`, in the place of four operands.
fn for_from(
    stack: &mut Stack,
    flow: &mut Flow,
    body: Part,
    counter: Option<Counter>,
    limit: Option<Fix>,
) -> Then
    requires { 4 ≤ length stack.old }
    ensures answers { FlowAnswers (for_from counter limit body (drop 4 stack.old) flow.old)
        result stack.old flow.old stack.new flow.new }
    ensures never { result ≢ Err OpFault.NoMemory }
{
    let (Some(counter), Some(limit)) = (counter, limit) else {
        return Err(OpFault::Ps(PsName::TypeCheck));
    };
    let level = Level::For {
        next: Some(counter),
        limit,
        body,
        rest: nothing_of(body),
    };
    open(stack, flow, 4, level, None)
}

fn repeat(stack: &mut Stack, flow: &mut Flow) -> Then
    ensures answers { FlowAnswers (repeat_row stack.old flow.old) result stack.old flow.old stack.new flow.new }
    ensures never { result ≢ Err OpFault.NoMemory }
{
    let Some((p, n)) = stack.top_two() else {
        return Err(OpFault::Ps(PsName::StackUnderflow));
    };
    match (p, n) {
        (Obj::Array(p, true), Obj::Int(n)) => {
            let (body, n) = (*p, n.get());
            if n < 0 {
                return Err(OpFault::Ps(PsName::RangeCheck));
            }
            let rest = nothing_of(body);
            let left = n.unsigned_abs();
            open(stack, flow, 2, Level::Repeat { left, body, rest }, None)
        }
        _ => Err(OpFault::Ps(PsName::TypeCheck)),
    }
}

fn loop_(stack: &mut Stack, flow: &mut Flow) -> Then
    ensures answers { FlowAnswers (loop_row stack.old flow.old) result stack.old flow.old stack.new flow.new }
    ensures never { result ≢ Err OpFault.NoMemory }
{
    let Some(top) = stack.top() else {
        return Err(OpFault::Ps(PsName::StackUnderflow));
    };
    match top {
        Obj::Array(p, true) => {
            let body = *p;
            let rest = nothing_of(body);
            open(stack, flow, 1, Level::Loop { body, rest }, None)
        }
        _ => Err(OpFault::Ps(PsName::TypeCheck)),
    }
}

fn forall(stack: &mut Stack, flow: &mut Flow, store: &Store) -> Then
    ensures answers { FlowAnswers (forall_row stack.old flow.old store.now) result stack.old flow.old stack.new
        flow.new }
    ensures refused { TellsRefusal (forall_row stack.old flow.old store.now) result }
{
    let Some((p, over)) = stack.top_two() else {
        return Err(OpFault::Ps(PsName::StackUnderflow));
    };
    match (p, over) {
        (Obj::Array(p, true), Obj::Array(a, _)) => {
            let (body, a) = (*p, *a);
            forall_elements(stack, flow, store, body, a)
        }
        (Obj::Array(p, true), Obj::Text(t)) => {
            let (body, t) = (*p, *t);
            forall_elements(stack, flow, store, body, t)
        }
        (Obj::Array(p, true), Obj::Dict(d)) => {
            let (body, dict) = (*p, *d);
            forall_entries(stack, flow, store, body, dict)
        }
        _ => Err(OpFault::Ps(PsName::TypeCheck)),
    }
}

/// Opens the level of a `forall` over an array or a string, in the place of two operands.
fn forall_elements(
    stack: &mut Stack,
    flow: &mut Flow,
    store: &Store,
    body: Part,
    over: Part,
) -> Then
    requires { 2 ≤ length stack.old }
    ensures answers { FlowAnswers
        (opens (Level.Forall (elements store.now over) body (nothing_of body)) (drop 2 stack.old) flow.old None)
        result stack.old flow.old stack.new flow.new }
    ensures refused { TellsRefusal
        (opens (Level.Forall (elements store.now over) body (nothing_of body)) (drop 2 stack.old) flow.old None)
        result }
{
    if flow.is_full() {
        return Err(OpFault::Ps(PsName::ExecStackOverflow));
    }
    let left = contents(flow.alloc(), store, over)?;
    let rest = nothing_of(body);
    open(stack, flow, 2, Level::Forall { left, body, rest }, None)
}

/// The elements of an array, or the bytes of a string as integers, in order.
///
/// A part that lies within its composite is copied as a whole, a string's bytes as bytes.
#[tactic(auto, using(crate::proofs::WholeParts::bytes_are_elements, crate::proofs::WholeParts::objects_are_elements))]
fn contents(alloc: Global, store: &Store, over: Part) -> Mem<Objects>
    ensures { IfOk result (λ left. left ≡ elements store.now over) }
{
    let bytes = store.bytes(over);
    if bytes.len() == over.len as usize {
        return Ok(Objects::of_bytes(Vec::from_slice(alloc, bytes)?));
    }
    let items = store.objects(over);
    if items.len() == over.len as usize {
        return Ok(Objects::of(copies(alloc, items)?));
    }
    Ok(Objects::of(read_by_place(alloc, store, over)?))
}

/// Copies of these objects.
fn copies(alloc: Global, items: &[Obj]) -> Mem<Vec<Obj>>
    ensures { IfOk result (λ copies. copies.items ≡ items.now) }
{
    let mut held = Vec::with_capacity(alloc, items.len())?;
    for at in 0..items.len() {
        held.push(items[at].again())?;
    }
    Ok(held)
}

/// What stands at each place of a part, in order.
fn read_by_place(alloc: Global, store: &Store, over: Part) -> Mem<Vec<Obj>>
    ensures { IfOk result (λ items. items.items ≡ elements store.now over) }
{
    let items = (0..over.len).map(|at| store.get(over, at)).collect(alloc)?;
    Ok(items)
}

/// Opens the level of a `forall` over a dictionary, in the place of two operands.
fn forall_entries(stack: &mut Stack, flow: &mut Flow, store: &Store, body: Part, dict: u32) -> Then
    requires { 2 ≤ length stack.old }
    ensures answers { FlowAnswers
        (opens (Level.ForallEntries (keys_and_values store.now dict) body (nothing_of body))
        (drop 2 stack.old) flow.old None)
        result stack.old flow.old stack.new flow.new }
    ensures refused { TellsRefusal
        (opens (Level.ForallEntries (keys_and_values store.now dict) body (nothing_of body))
        (drop 2 stack.old) flow.old None)
        result }
{
    if flow.is_full() {
        return Err(OpFault::Ps(PsName::ExecStackOverflow));
    }
    let items = entries(flow.alloc(), store, dict)?;
    let rest = nothing_of(body);
    let left = Pairs::of(items);
    open(
        stack,
        flow,
        2,
        Level::ForallEntries { left, body, rest },
        None,
    )
}

/// The keys and values of a dictionary, in the order in which they were first defined.
fn entries(alloc: Global, store: &Store, dict: u32) -> Mem<Vec<(Obj, Obj)>>
    ensures { IfOk result (λ items. items.items ≡ keys_and_values store.now dict) }
{
    let items = (0..store.entries(dict))
        .map(|at| store.entry(dict, at))
        .collect(alloc)?;
    Ok(items)
}

fn exit(stack: &mut Stack, flow: &mut Flow) -> Then
    ensures answers { FlowAnswers (exit_row stack.old flow.old) result stack.old flow.old stack.new flow.new }
    ensures never { result ≢ Err OpFault.NoMemory }
{
    if flow.leave_loop() {
        Ok(None)
    } else {
        Err(OpFault::Ps(PsName::InvalidExit))
    }
}

fn stop(stack: &mut Stack, flow: &mut Flow) -> Then
    ensures answers { FlowAnswers (stop_row stack.old flow.old) result stack.old flow.old stack.new flow.new }
    ensures never { result ≢ Err OpFault.NoMemory }
{
    if flow.unwind() {
        Ok(None)
    } else {
        Err(OpFault::Ps(PsName::InvalidExit))
    }
}

fn stopped(stack: &mut Stack, flow: &mut Flow) -> Then
    ensures answers { FlowAnswers (stopped_row stack.old flow.old) result stack.old flow.old stack.new flow.new }
    ensures never { result ≢ Err OpFault.NoMemory }
{
    let Some(top) = stack.top() else {
        return Err(OpFault::Ps(PsName::StackUnderflow));
    };
    let top = top.again();
    match &top {
        Obj::Array(p, true) => open(stack, flow, 1, Level::Stopped(*p), None),
        _ => {
            let nothing = Part {
                id: 0,
                start: 0,
                len: 0,
            };
            open(stack, flow, 1, Level::Stopped(nothing), Some(top))
        }
    }
}

/// The operand stays.
fn bind(stack: &Stack, flow: &Flow, store: &mut Store, dicts: &Dicts) -> Then
    ensures answers { AnswersAll (with_levels stack.now flow.now (bind_row stack.now store.old dicts.now))
        result (record { operands = stack.now; levels = flow.now; store = store.old })
        (record { operands = stack.now; levels = flow.now; store = store.new }) }
    ensures refused { TellsRefusal (with_levels stack.now flow.now (bind_row stack.now store.old dicts.now)) result }
{
    let Some(top) = stack.top() else {
        return Err(OpFault::Ps(PsName::StackUnderflow));
    };
    match top {
        Obj::Array(p, true) => {
            bind_procedure(flow.alloc(), store, dicts, *p)?;
            Ok(None)
        }
        _ => Err(OpFault::Ps(PsName::TypeCheck)),
    }
}
