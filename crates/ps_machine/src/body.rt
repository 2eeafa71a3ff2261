//! The state of the interpreter, and one step of it.
ghost use Rattle.std.specs.Prelude.{◌≡◌, ◌≢◌, ◌≤◌, Some, None, IfOk, IsOk, OnErr, IsSome, length, codes, true, false};
ghost use Rattle.ps_store.specs.Store.{element};
ghost use Rattle.ps_store.specs.declared.obj.Obj.TheVariants.{Bool as Truth};
ghost use Rattle.ps_store.specs.declared.key.Key.TheVariants.{Named};
ghost use Rattle.ps_store.specs.Dicts.{find_key};
ghost use Rattle.ps_store.specs.Operators.{name_of, flow_name_of};
ghost use Rattle.ps_store.specs.Outcome.{Refuses};
ghost use Rattle.ps_stack_ops.specs.Rows.{stack_row};
ghost use Rattle.ps_data_ops.specs.Rows.{data_row};
ghost use Rattle.ps_flow.specs.Levels.{told};
ghost use Rattle.ps_flow.specs.Rows.{flow_row};
ghost use Rattle.ps_gfx_ops.specs.Rows.{gfx_row, row_before_memory};
ghost use Rattle.ps_machine.specs.Memory.{takes_memory, value_takes_memory, object_takes_memory};
ghost use Rattle.ps_machine.specs.State.{BodyValue as Snapshot, opening};
ghost use Rattle.ps_machine.specs.Errors.{failed, caught, pushes, counted, Ends, Goes};
ghost use Rattle.ps_machine.specs.Steps.{execute, execute_value, operate, operate_flow, after_stack, after_data};
ghost use Rattle.ps_machine.specs.Steps.{work_of, after_gfx, after_flow, after_stop, call, turned, shown};
ghost use Rattle.ps_machine.specs.Reading.{step, go_on};
ghost use Rattle.ps_machine.specs.Meaning.{step_of};
ghost use Rattle.ps_machine.specs.Code.Landing.{IsCaught};
ghost use Rattle.gfx_state.specs.Graphics.{page_of};

use crate::errors::{catch, command_of, named, timeout};
use crate::frames::Frames;
use crate::turn::{End, Turn};
use crate::unclosed::Unclosed;
use gfx_state::Gfx;
use page_model::Page;
use press_fault::{Mem, Name, NoMemory, PsName};
use ps_data_ops::run_data;
use ps_flow::{Flow, Level, NextObj, Pushes, run_flow};
use ps_gfx_ops::run_gfx;
use ps_scan::Scanner;
use ps_stack_ops::run_stack;
use ps_store::{
    DataOp, Dicts, FlowOp, GfxOp, Obj, OpFault, Oper, PageOp, Part, Stack, StackOp, Store, Symbol,
};
use std::alloc::Global;
use std::marker::Model;

/// The most objects that are executed.
pub(crate) const OBJECTS: u32 = 100_000_000;

/// The state of the interpreter.
#[derive(Drop)]
pub(crate) struct Body {
    pub(crate) alloc: Global,
    pub(crate) stack: Stack,
    pub(crate) store: Store,
    pub(crate) dicts: Dicts,
    pub(crate) flow: Flow,
    pub(crate) frames: Frames,
    pub(crate) at_once: Option<Obj>,
    pub(crate) text: Scanner,
    pub(crate) unclosed: Unclosed,
    pub(crate) gfx: Gfx,
    pub(crate) count: u32,
}

impl Model for Body {
    ghost use Rattle.std.specs.Prelude.{◌≤◌};
    ghost use Rattle.ps_machine.specs.State.{BodyValue};

    ghost Value = { BodyValue };

    ghost view = { λ b. record {
      operands = b.stack;
      store = b.store;
      dicts = b.dicts;
      levels = b.flow;
      frames = b.frames;
      at_once = b.at_once;
      text = b.text;
      unclosed = b.unclosed;
      graphics = b.gfx;
      count = b.count;
    } };

    ghost invariant = { λ b. b.count ≤ 100000000 };
}

impl Body {
    /// One step. Where it ends the program, `end` says how. In `pushes` stands what a turn of a loop pushes.
    ///
    /// A function's values of 100 bytes and more are made anew at each call, so what the common steps
    /// don't need stands in functions of its own, which aren't inlined.
    #[tactic(auto, unfolding(crate::specs::Reading::step))]
    pub(crate) fn step(&mut self, end: &mut End, pushes: &mut Pushes) -> Mem<Turn>
        ensures { IfOk result (λ turn. step self.old ≡ step_of turn self.new end.new) }
    {
        if self.at_once.is_some() {
            return self.execute_waiting(end);
        }
        let next = self.flow.next_object(pushes);
        self.go_on(end, next, pushes)
    }

    /// Executes the object that is to be executed at once.
    #[inline(never)]
    #[tactic(auto, unfolding(crate::specs::Reading::step))]
    fn execute_waiting(&mut self, end: &mut End) -> Mem<Turn>
        requires { IsSome self.old.at_once }
        ensures { IfOk result (λ turn. step self.old ≡ step_of turn self.new end.new) }
    {
        match self.at_once.take() {
            Some(o) => self.execute(end, o),
            None => unreachable!(),
        }
    }

    /// Does what comes next. What a turn pushes is `pushes`.
    #[tactic(auto, unfolding(crate::specs::Reading::go_on))]
    fn go_on(&mut self, end: &mut End, next: NextObj, pushes: &Pushes) -> Mem<Turn>
        ensures { IfOk result (λ turn. go_on (told next pushes.now) self.old ≡ step_of turn self.new end.new) }
    {
        match next {
            NextObj::Run(place) => {
                if self.count >= OBJECTS {
                    return Ok(timeout(end));
                }
                self.count += 1;
                self.execute_at(end, place)
            }
            NextObj::Turn(op) => {
                if self.count >= OBJECTS {
                    return Ok(timeout(end));
                }
                self.count += 1;
                Ok(self.begin_empty_turn(end, op))
            }
            NextObj::TurnWith(op) => {
                if self.count >= OBJECTS {
                    return Ok(timeout(end));
                }
                self.count += 1;
                Ok(self.begin_turn(end, op, pushes))
            }
            NextObj::Passed => Ok(self.pass(end)),
            NextObj::Returned => self.return_to_operator(end),
            NextObj::Empty => self.read(end),
        }
    }

    /// A `stopped` that has ended gives false.
    #[inline(never)]
    fn pass(&mut self, end: &mut End) -> Turn
        ensures { pushes (codes "stopped") (Truth false) self.old ≡ step_of result self.new end.new }
    {
        self.push(end, b"stopped", Obj::Bool(false))
    }

    /// Executes an object that isn't counted.
    #[inline(never)]
    #[tactic(auto, unfolding(crate::specs::Steps::execute))]
    pub(crate) fn execute(&mut self, end: &mut End, o: Obj) -> Mem<Turn>
        ensures memory { OnErr result (object_takes_memory o self.old ≡ true) }
        ensures done { IfOk result (λ turn. execute o self.old ≡ step_of turn self.new end.new) }
    {
        match o {
            Obj::Name(name, true) => self.execute_name(end, name),
            Obj::Oper(op) => self.operate(end, op),
            o => Ok(self.push_object(end, o)),
        }
    }

    /// Executes what stands at a place of the store.
    #[tactic(auto, unfolding(crate::specs::Steps::execute))]
    fn execute_at(&mut self, end: &mut End, place: Part) -> Mem<Turn>
        ensures memory { OnErr result (object_takes_memory (element self.old.store place 0) self.old ≡ true) }
        ensures done { IfOk result
            (λ turn. execute (element self.old.store place 0) self.old ≡ step_of turn self.new end.new) }
    {
        match self.store.at(place, 0) {
            Some(Obj::Oper(op)) => {
                let op = *op;
                self.operate(end, op)
            }
            Some(Obj::Name(name, true)) => {
                let name = name.again();
                self.execute_name(end, name)
            }
            Some(o) => {
                let o = o.again();
                Ok(self.push_object(end, o))
            }
            None => self.execute_copy(end, place),
        }
    }

    /// Executes a copy of what stands at a place of the store.
    #[cold]
    #[inline(never)]
    fn execute_copy(&mut self, end: &mut End, place: Part) -> Mem<Turn>
        ensures memory { OnErr result (object_takes_memory (element self.old.store place 0) self.old ≡ true) }
        ensures done { IfOk result
            (λ turn. execute (element self.old.store place 0) self.old ≡ step_of turn self.new end.new) }
    {
        let o = self.store.get(place, 0);
        self.execute(end, o)
    }

    /// Pushes an object that was executed.
    fn push_object(&mut self, end: &mut End, o: Obj) -> Turn
        ensures { pushes (codes "push") o self.old ≡ step_of result self.new end.new }
    {
        match self.stack.push(o) {
            Ok(()) => Turn::Went,
            Err(_) => self.overflow(end),
        }
    }

    /// There is no room for an object that is pushed.
    #[cold]
    #[inline(never)]
    fn overflow(&mut self, end: &mut End) -> Turn
        ensures { failed PsName.StackOverflow (codes "push") self.old ≡ step_of result self.new end.new }
    {
        self.fail(end, PsName::StackOverflow, named(b"push"))
    }

    /// Executes the value of a name where it stands, looked up once.
    #[tactic(auto, unfolding(crate::specs::Steps::execute_value))]
    fn execute_name(&mut self, end: &mut End, name: Symbol) -> Mem<Turn>
        ensures memory { OnErr result (value_takes_memory (find_key self.old.store self.old.dicts (Named name))
            ≡ true) }
        ensures value { IfOk result (λ turn.
            execute_value name (find_key self.old.store self.old.dicts (Named name)) self.old
            ≡ step_of turn self.new end.new) }
    {
        match self.dicts.find_name(&self.store, &name) {
            Some(Obj::Array(p, true)) => {
                let p = *p;
                Ok(self.call(end, &name, p))
            }
            Some(Obj::Oper(op)) => {
                let op = *op;
                self.operate(end, op)
            }
            Some(Obj::Name(value, true)) => {
                let value = value.again();
                Ok(self.execute_next(end, value))
            }
            Some(o) => {
                let o = o.again();
                Ok(self.push_object(end, o))
            }
            None => Ok(self.fail_unknown(end, &name)),
        }
    }

    /// An executable name that was found counts, and is executed in its turn.
    #[inline(never)]
    fn execute_next(&mut self, end: &mut End, name: Symbol) -> Turn
        ensures { counted self.old (λ t. Goes (record t { at_once = Some (Obj.Name name true) }))
            ≡ step_of result self.new end.new }
    {
        if self.count >= OBJECTS {
            return timeout(end);
        }
        self.count += 1;
        self.at_once = Some(Obj::Name(name, true));
        Turn::Went
    }

    /// A name has no value.
    #[cold]
    #[inline(never)]
    fn fail_unknown(&mut self, end: &mut End, name: &Symbol) -> Turn
        ensures { failed PsName.Undefined name.now self.old ≡ step_of result self.new end.new }
    {
        self.fail(end, PsName::Undefined, name.name())
    }

    /// A procedure found by a name runs.
    fn call(&mut self, end: &mut End, name: &Symbol, p: Part) -> Turn
        ensures { call name.now (Level.Procedure p) self.old ≡ step_of result self.new end.new }
    {
        match self.flow.call(p) {
            Ok(()) => Turn::Went,
            Err(_) => self.fail_call(end, name),
        }
    }

    /// There is no room for the level of a procedure found by a name.
    #[cold]
    #[inline(never)]
    fn fail_call(&mut self, end: &mut End, name: &Symbol) -> Turn
        ensures { failed PsName.ExecStackOverflow name.now self.old ≡ step_of result self.new end.new }
    {
        self.fail(end, PsName::ExecStackOverflow, name.name())
    }

    /// Does an operator's row. Out of memory comes of an operator that takes some.
    #[tactic(auto, unfolding(crate::specs::Steps::operate))]
    fn operate(&mut self, end: &mut End, op: Oper) -> Mem<Turn>
        ensures memory { OnErr result (takes_memory op ≡ true) }
        ensures row { IfOk result (λ turn. operate op self.old ≡ step_of turn self.new end.new) }
    {
        match op {
            Oper::Stack(op) => self.operate_stack(end, op),
            Oper::Data(op) => self.operate_data(end, op),
            Oper::Flow(op) => self.operate_flow(end, op),
            Oper::Gfx(op) => self.operate_gfx(end, op),
            Oper::Page(PageOp::Quit) => {
                *end = End::Done;
                Ok(Turn::Ended)
            }
            Oper::Page(PageOp::Showpage) => Ok(Turn::Shown),
            Oper::Image(op) => self.operate_image(end, op),
            Oper::Space(_) | Oper::Font(_) => Ok(self.refuse_op(end, PsName::Undefined, op)),
        }
    }

    #[inline(never)]
    #[tactic(auto, unfolding(crate::specs::Memory::takes_memory))]
    fn operate_stack(&mut self, end: &mut End, op: StackOp) -> Mem<Turn>
        ensures row { IfOk result (λ turn.
            after_stack (stack_row op self.old.operands self.old.store) (name_of (Oper.Stack op)) self.old ≡
            step_of turn self.new end.new) }
        ensures refused { (name : PsName) → stack_row op self.old.operands self.old.store ≡ Refuses name → IsOk result }
        ensures memory { OnErr result (takes_memory (Oper.Stack op) ≡ true) }
    {
        match run_stack(op, &mut self.stack, &mut self.store) {
            Ok(()) => Ok(Turn::Went),
            Err(OpFault::Ps(name)) => Ok(self.refuse_op(end, name, Oper::Stack(op))),
            Err(OpFault::NoMemory) => Err(NoMemory),
        }
    }

    #[inline(never)]
    #[tactic(auto, unfolding(crate::specs::Memory::takes_memory))]
    fn operate_data(&mut self, end: &mut End, op: DataOp) -> Mem<Turn>
        ensures row { IfOk result (λ turn.
            after_data (data_row op (work_of self.old)) (name_of (Oper.Data op)) self.old ≡
            step_of turn self.new end.new) }
        ensures refused { (name : PsName) → op ≢ DataOp.CloseDict → data_row op (work_of self.old) ≡ Refuses name →
            IsOk result }
        ensures memory { OnErr result (takes_memory (Oper.Data op) ≡ true) }
    {
        match run_data(
            op,
            &mut self.stack,
            &mut self.store,
            &mut self.dicts,
            &mut self.text,
        ) {
            Ok(()) => Ok(Turn::Went),
            Err(OpFault::Ps(name)) => Ok(self.refuse_op(end, name, Oper::Data(op))),
            Err(OpFault::NoMemory) => Err(NoMemory),
        }
    }

    #[inline(never)]
    #[tactic(auto, unfolding(crate::specs::Memory::takes_memory))]
    fn operate_gfx(&mut self, end: &mut End, op: GfxOp) -> Mem<Turn>
        ensures row { IfOk result (λ turn.
            after_gfx (gfx_row op self.old.operands self.old.store self.old.graphics) (name_of (Oper.Gfx op)) self.old ≡
            step_of turn self.new end.new) }
        ensures refused { (name : PsName) →
            row_before_memory op self.old.operands self.old.store self.old.graphics ≡ Refuses name → IsOk result }
        ensures memory { OnErr result (takes_memory (Oper.Gfx op) ≡ true) }
    {
        match run_gfx(
            self.alloc,
            op,
            &mut self.stack,
            &mut self.store,
            &mut self.gfx,
        ) {
            Ok(()) => Ok(Turn::Went),
            Err(OpFault::Ps(name)) => Ok(self.refuse_op(end, name, Oper::Gfx(op))),
            Err(OpFault::NoMemory) => Err(NoMemory),
        }
    }

    #[inline(never)]
    fn operate_flow(&mut self, end: &mut End, op: FlowOp) -> Mem<Turn>
        ensures row { IfOk result (λ turn. operate_flow op self.old ≡ step_of turn self.new end.new) }
        ensures memory { OnErr result (takes_memory (Oper.Flow op) ≡ true) }
    {
        match op {
            FlowOp::Stop => Ok(self.stop(end)),
            _ => self.control(end, op),
        }
    }

    /// An operator on the execution stack, but for `stop`.
    #[tactic(auto, unfolding(crate::specs::Memory::takes_memory))]
    fn control(&mut self, end: &mut End, op: FlowOp) -> Mem<Turn>
        ensures row { IfOk result (λ turn.
            after_flow (flow_row op self.old.operands self.old.levels self.old.store self.old.dicts)
            (flow_name_of op) self.old ≡
            step_of turn self.new end.new) }
        ensures refused { (name : PsName) →
            flow_row op self.old.operands self.old.levels self.old.store self.old.dicts ≡ Refuses name → IsOk result }
        ensures memory { OnErr result (takes_memory (Oper.Flow op) ≡ true) }
    {
        match run_flow(
            op,
            &mut self.stack,
            &mut self.flow,
            &mut self.store,
            &self.dicts,
        ) {
            Ok(at_once) => {
                self.at_once = at_once;
                Ok(Turn::Went)
            }
            Err(OpFault::Ps(name)) => Ok(self.refuse_op(end, name, Oper::Flow(op))),
            Err(OpFault::NoMemory) => Err(NoMemory),
        }
    }

    /// `stop`: the innermost `stopped` goes and gives true.
    fn stop(&mut self, end: &mut End) -> Turn
        ensures { operate_flow FlowOp.Stop self.old ≡ step_of result self.new end.new }
    {
        match run_flow(
            FlowOp::Stop,
            &mut self.stack,
            &mut self.flow,
            &mut self.store,
            &self.dicts,
        ) {
            Ok(_) => {
                self.frames.cut_to(&self.flow);
                self.push(end, b"stopped", Obj::Bool(true))
            }
            Err(OpFault::Ps(name)) => self.refuse_op(end, name, Oper::Flow(FlowOp::Stop)),
            Err(OpFault::NoMemory) => unreachable!(),
        }
    }

    /// An operator refuses its operands.
    #[cold]
    #[inline(never)]
    pub(crate) fn refuse_op(&mut self, end: &mut End, name: PsName, op: Oper) -> Turn
        ensures { failed name (name_of op) self.old ≡ step_of result self.new end.new }
    {
        self.fail(end, name, command_of(op))
    }

    /// A turn of a loop that pushes nothing: there is always room.
    fn begin_empty_turn(&mut self, _end: &mut End, op: FlowOp) -> Turn
        ensures { turned op Pushes.Nothing self.old ≡ step_of result self.new _end.new }
    {
        // That there are at most 500 operands is what the proof wants of this.
        let _operands = self.stack.len();
        Turn::Went
    }

    /// What a turn of a loop pushes.
    #[inline(never)]
    fn begin_turn(&mut self, end: &mut End, op: FlowOp, pushes: &Pushes) -> Turn
        ensures { turned op pushes.now self.old ≡ step_of result self.new end.new }
    {
        match pushes.onto(&mut self.stack) {
            Ok(()) => Turn::Went,
            Err(_) => self.refuse_op(end, PsName::StackOverflow, Oper::Flow(op)),
        }
    }

    /// Pushes an object, or fails with the command where there is no room.
    pub(crate) fn push(&mut self, end: &mut End, command: &[u8], o: Obj) -> Turn
        requires { length command.now ≤ 127 }
        ensures { pushes command.now o self.old ≡ step_of result self.new end.new }
    {
        match self.stack.push(o) {
            Ok(()) => Turn::Went,
            Err(_) => self.fail(end, PsName::StackOverflow, named(command)),
        }
    }

    /// An error: it goes to the innermost `stopped`, or ends the program.
    #[cold]
    #[inline(never)]
    pub(crate) fn fail(&mut self, end: &mut End, name: PsName, command: Name) -> Turn
        ensures { failed name command self.old ≡ step_of result self.new end.new }
    {
        match catch(&mut self.stack, &mut self.flow, name, command) {
            None => {
                self.at_once = None;
                self.frames.cut_to(&self.flow);
                Turn::Went
            }
            Some(reason) => {
                *end = reason;
                Turn::Ended
            }
        }
    }

    /// The page that was shown, which is erased; what `initgraphics` sets is set.
    pub(crate) fn take_page(&mut self) -> Page
        ensures page { result ≡ page_of self.old.graphics }
        ensures plain { result.sources ≡ 0 }
        ensures rest { self.new ≡ shown self.old }
    {
        let page = self.gfx.take_page();
        self.gfx.initial();
        page
    }
}
