//! Images that are read.
ghost use Rattle.std.specs.Prelude.{◌≡◌, ◌≤◌, IfOk, OnOk, OnErr, true, drop, length};
ghost use Rattle.ps_machine.specs.Memory.{takes_memory};
ghost use Rattle.ps_store.specs.declared.oper.Oper.TheVariants.{Image as OnImage};
ghost use Rattle.ps_store.specs.Operators.{name_of};
ghost use Rattle.ps_image_ops.specs.Reading.{lacks, read_on};
ghost use Rattle.ps_image_ops.specs.Rows.{image_row};
ghost use Rattle.ps_machine.specs.Images.{after_image, begins, from_source, finished, called, returned, reads_on};
ghost use Rattle.ps_machine.specs.Images.{after_procedure, behind_bytes};
ghost use Rattle.ps_store.specs.Store.{bytes_of};
ghost use Rattle.ps_machine.specs.Meaning.{step_of};

use crate::body::{Body, OBJECTS};
use crate::errors::timeout;
use crate::frames::Frame;
use crate::turn::{End, Turn};
use press_fault::{Grow, Mem, NoMemory, PsName};
use ps_image_ops::{Begun, DataSource, Reading, begin_image};
use ps_store::{ImageOp, Obj, OpFault, Oper, Part};

impl Body {
    /// An image operator.
    #[inline(never)]
    #[tactic(auto, unfolding(crate::specs::Memory::takes_memory))]
    pub(crate) fn operate_image(&mut self, end: &mut End, op: ImageOp) -> Mem<Turn>
        ensures memory { OnErr result (takes_memory (OnImage op) ≡ true) }
        ensures row { IfOk result (λ turn.
            after_image (image_row op self.old.operands self.old.store self.old.graphics) (name_of (OnImage op))
            self.old ≡ step_of turn self.new end.new) }
    {
        match begin_image(self.alloc, op, &self.stack, &self.store, &self.gfx) {
            Ok(begun) => self.begin(end, begun),
            Err(OpFault::Ps(name)) => Ok(self.refuse_op(end, name, Oper::Image(op))),
            Err(OpFault::NoMemory) => Err(NoMemory),
        }
    }

    /// An image begins: one without samples reads nothing.
    fn begin(&mut self, end: &mut End, begun: Begun) -> Mem<Turn>
        requires { begun.operands ≤ length self.old.operands }
        ensures { IfOk result (λ turn. begins begun (drop begun.operands self.old.operands) self.old
            ≡ step_of turn self.new end.new) }
    {
        let (operands, source, reading) = (begun.operands, begun.source, begun.reading);
        if reading.is_done() {
            return self.finish(end, reading, operands);
        }
        match source {
            DataSource::Bytes(p) => self.read_string(end, reading, p, operands),
            DataSource::Program => self.read_text(end, reading, operands),
            DataSource::Procedure(p) => self.call_source(end, reading, p, operands),
        }
    }

    /// An image reads a string over and over.
    fn read_string(
        &mut self,
        end: &mut End,
        reading: Reading,
        p: Part,
        operands: usize,
    ) -> Mem<Turn>
        requires { operands ≤ length self.old.operands }
        ensures { IfOk result (λ turn.
            from_source (DataSource.Bytes p) reading (drop operands self.old.operands) self.old
            ≡ step_of turn self.new end.new) }
    {
        let mut reading = reading;
        reading.read_over(self.store.bytes(p))?;
        self.finish(end, reading, operands)
    }

    /// An image reads the text.
    fn read_text(&mut self, end: &mut End, reading: Reading, operands: usize) -> Mem<Turn>
        requires { operands ≤ length self.old.operands }
        ensures { IfOk result (λ turn.
            from_source DataSource.Program reading (drop operands self.old.operands) self.old
            ≡ step_of turn self.new end.new) }
    {
        let mut reading = reading;
        self.take_text(&mut reading)?;
        self.finish(end, reading, operands)
    }

    /// An image takes its bytes from the text, which goes on behind them.
    #[tactic(auto, using(crate::proofs::Skipping::skipped))]
    fn take_text(&mut self, reading: &mut Reading) -> Mem<()>
        ensures read { OnOk result (reading.new ≡ read_on reading.old self.old.text.rest) }
        ensures behind { OnOk result (self.new ≡ behind_bytes (lacks reading.old) self.old) }
    {
        let count = reading.read(self.text.rest())?;
        self.text.skip(count);
        Ok(())
    }

    /// An image whose data have come is painted, in the place of so many operands.
    fn finish(&mut self, end: &mut End, reading: Reading, operands: usize) -> Mem<Turn>
        requires { operands ≤ length self.old.operands }
        ensures { IfOk result (λ turn. finished reading (drop operands self.old.operands) self.old
            ≡ step_of turn self.new end.new) }
    {
        let op = reading.op();
        match reading.place(self.alloc, &mut self.gfx) {
            Ok(()) => {
                self.stack.drop_top(operands);
                Ok(Turn::Went)
            }
            Err(Grow::LimitCheck) => Ok(self.refuse_op(end, PsName::LimitCheck, Oper::Image(op))),
            Err(Grow::NoMemory) => Err(NoMemory),
        }
    }

    /// The procedure of an image is called, in the place of so many operands.
    fn call_source(
        &mut self,
        end: &mut End,
        reading: Reading,
        p: Part,
        operands: usize,
    ) -> Mem<Turn>
        requires { operands ≤ length self.old.operands }
        ensures { IfOk result (λ turn. called reading p (drop operands self.old.operands) self.old
            ≡ step_of turn self.new end.new) }
    {
        let op = reading.op();
        match self.flow.call_guarded(p) {
            Ok(()) => {
                if self.count >= OBJECTS {
                    return Ok(timeout(end));
                }
                self.count += 1;
                self.frames.push(Frame::Image(p, reading))?;
                self.stack.drop_top(operands);
                Ok(Turn::Went)
            }
            Err(_) => Ok(self.refuse_op(end, PsName::ExecStackOverflow, Oper::Image(op))),
        }
    }

    /// The operator goes on that called the procedure which has ended.
    #[inline(never)]
    #[tactic(auto, unfolding(crate::specs::Images::returned))]
    pub(crate) fn return_to_operator(&mut self, end: &mut End) -> Mem<Turn>
        ensures { IfOk result (λ turn. returned self.old.frames self.old ≡ step_of turn self.new end.new) }
    {
        let Some(frame) = self.frames.pop() else {
            return Ok(Turn::Went);
        };
        match frame {
            Frame::Image(p, reading) => self.read_what_was_left(end, reading, p),
        }
    }

    /// An image whose procedure has ended reads the string that it left.
    fn read_what_was_left(&mut self, end: &mut End, reading: Reading, p: Part) -> Mem<Turn>
        ensures { IfOk result (λ turn. after_procedure reading p self.old.operands self.old
            ≡ step_of turn self.new end.new) }
    {
        let op = reading.op();
        match self.stack.top() {
            Some(Obj::Text(q)) => {
                let q = *q;
                self.read_on(end, reading, p, q)
            }
            _ => Ok(self.refuse_op(end, PsName::TypeCheck, Oper::Image(op))),
        }
    }

    /// An image reads the string on top, and is painted or calls its procedure again.
    fn read_on(&mut self, end: &mut End, reading: Reading, p: Part, q: Part) -> Mem<Turn>
        requires { 1 ≤ length self.old.operands }
        ensures { IfOk result (λ turn.
            reads_on reading p (bytes_of self.old.store q) (drop 1 self.old.operands) self.old
            ≡ step_of turn self.new end.new) }
    {
        let mut reading = reading;
        let bytes = self.store.bytes(q);
        let is_last = bytes.is_empty();
        reading.read(bytes)?;
        if is_last || reading.is_done() {
            self.finish(end, reading, 1)
        } else {
            self.call_source(end, reading, p, 1)
        }
    }
}
