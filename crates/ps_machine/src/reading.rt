//! The program's text, read one token at a time.
ghost use Rattle.std.specs.Prelude.{◌≡◌, ◌≤◌, IfOk, [], length, codes, Some, None};
ghost use Rattle.press_fault.specs.declared.names.PsName.TheVariants.{LimitCheck};
ghost use Rattle.ps_store.specs.Store.{with_text_of, with_array_of};
ghost use Rattle.ps_store.specs.declared.key.Key.TheVariants.{Named};
ghost use Rattle.ps_store.specs.Dicts.{find_key};
ghost use Rattle.ps_machine.specs.State.{BodyValue as Snapshot};
ghost use Rattle.ps_machine.specs.Errors.{counted, failed};
ghost use Rattle.ps_machine.specs.Steps.{execute};
ghost use Rattle.ps_machine.specs.Reading.{read, read_token, met, met_string, met_procedure, met_value, closed, unmade};
ghost use Rattle.ps_machine.specs.Meaning.{step_of};

use crate::body::{Body, OBJECTS};
use crate::errors::{named, timeout};
use crate::turn::{End, Turn};
use press_fault::{Grow, Mem, Name, NoMemory, PsName};
use ps_scan::{ScanFault, Token, TokenBytes};
use ps_store::{Obj, Part};

impl Body {
    /// Reads the next token of the text.
    #[inline(never)]
    #[tactic(auto, unfolding(crate::specs::Reading::read))]
    pub(crate) fn read(&mut self, end: &mut End) -> Mem<Turn>
        ensures { IfOk result (λ turn. read self.old ≡ step_of turn self.new end.new) }
    {
        match self.text.next(self.alloc) {
            Ok(token) => self.read_token(end, token),
            Err(ScanFault::Syntax) => Ok(self.fail(end, PsName::SyntaxError, named(b"scan"))),
            Err(ScanFault::Limit) => Ok(self.fail(end, PsName::LimitCheck, named(b"scan"))),
            Err(ScanFault::NoMemory) => Err(NoMemory),
        }
    }

    #[tactic(auto, unfolding(crate::specs::Reading::read_token))]
    fn read_token(&mut self, end: &mut End, token: Token) -> Mem<Turn>
        ensures { IfOk result (λ turn. read_token token self.old ≡ step_of turn self.new end.new) }
    {
        match token {
            Token::Int(n) => self.meet(end, Obj::Int(n)),
            Token::Real(raw) => self.meet(end, Obj::Real(raw)),
            Token::Literal(name) => self.meet_name(end, &name, false),
            Token::Exec(name) => self.meet_name(end, &name, true),
            Token::Now(name) => self.meet_value(end, &name),
            Token::Text(bytes) => self.meet_string(end, &bytes),
            Token::Open => {
                self.unclosed.open()?;
                Ok(Turn::Went)
            }
            Token::Close => self.close(end),
            Token::End => {
                *end = End::Done;
                Ok(Turn::Ended)
            }
        }
    }

    /// An object of the text: an element of the procedure that is open, else it is executed.
    fn meet(&mut self, end: &mut End, o: Obj) -> Mem<Turn>
        ensures { IfOk result (λ turn. met o self.old.unclosed self.old ≡ step_of turn self.new end.new) }
    {
        if self.unclosed.is_empty() {
            if self.count >= OBJECTS {
                return Ok(timeout(end));
            }
            self.count += 1;
            self.execute(end, o)
        } else {
            self.unclosed.add(o)?;
            Ok(Turn::Went)
        }
    }

    /// A name of the text.
    fn meet_name(&mut self, end: &mut End, name: &Name, is_executable: bool) -> Mem<Turn>
        ensures { IfOk result (λ turn. met (Obj.Name name.now is_executable) self.old.unclosed self.old
            ≡ step_of turn self.new end.new) }
    {
        let name = self.store.symbol(name)?;
        self.meet(end, Obj::Name(name, is_executable))
    }

    /// A name that is looked up at once.
    fn meet_value(&mut self, end: &mut End, name: &Name) -> Mem<Turn>
        ensures { IfOk result (λ turn.
            met_value name.now (find_key self.old.store self.old.dicts (Named name.now)) self.old
            ≡ step_of turn self.new end.new) }
    {
        let kept = self.store.symbol(name)?;
        match self.dicts.find_name(&self.store, &kept) {
            Some(o) => {
                let o = o.again();
                self.meet(end, o)
            }
            None => Ok(self.fail(end, PsName::Undefined, *name)),
        }
    }

    /// A string of the text.
    fn meet_string(&mut self, end: &mut End, bytes: &TokenBytes) -> Mem<Turn>
        ensures { IfOk result
            (λ turn. met_string (with_text_of self.old.store bytes.now) self.old ≡
            step_of turn self.new end.new) }
    {
        match self.store.new_text_of(bytes.items()) {
            Ok(span) => self.meet(end, Obj::Text(span)),
            Err(Grow::LimitCheck) => Ok(self.refuse(end)),
            Err(Grow::NoMemory) => Err(NoMemory),
        }
    }

    /// The end of the innermost open procedure.
    fn close(&mut self, end: &mut End) -> Mem<Turn>
        ensures { IfOk result (λ turn. closed self.old.unclosed self.old ≡ step_of turn self.new end.new) }
    {
        let Some(procedure) = self.unclosed.close() else {
            return Ok(self.fail(end, PsName::SyntaxError, named(b"scan")));
        };
        match self.store.new_array_of(procedure.items()) {
            Ok(span) => self.meet(end, Obj::Array(span, true)),
            Err(Grow::LimitCheck) => Ok(self.refuse(end)),
            Err(Grow::NoMemory) => Err(NoMemory),
        }
    }

    /// A string or a procedure that a limit refuses.
    #[tactic(auto, using(crate::proofs::Refusing::inside))]
    fn refuse(&mut self, end: &mut End) -> Turn
        ensures { unmade self.old.unclosed self.old ≡ step_of result self.new end.new }
    {
        if self.unclosed.is_empty() {
            self.refuse_outside(end)
        } else {
            self.pass_limit(end)
        }
    }

    /// The same outside procedures, where it would be pushed.
    fn refuse_outside(&mut self, end: &mut End) -> Turn
        ensures { unmade [] self.old ≡ step_of result self.new end.new }
    {
        if self.stack.len() >= 500 {
            self.fail(end, PsName::StackOverflow, named(b"push"))
        } else {
            self.pass_limit(end)
        }
    }

    /// The scanner's limit is passed.
    fn pass_limit(&mut self, end: &mut End) -> Turn
        ensures { failed LimitCheck (codes "scan") self.old ≡ step_of result self.new end.new }
    {
        self.fail(end, PsName::LimitCheck, named(b"scan"))
    }
}
