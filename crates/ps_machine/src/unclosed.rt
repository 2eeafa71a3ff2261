//! Procedures of the text that aren't closed yet.
ghost use Rattle.std.specs.Prelude.{◌≡◌, ◌<◌, ◌∷◌, [], length, OnOk, MatchOption, true, false};
ghost use Rattle.ps_machine.specs.Nested.{with_element, with_innermost};

use press_fault::Mem;
use ps_store::Obj;
use std::alloc::Global;
use std::marker::Model;

/// The most elements that are kept of a procedure: one more than a procedure may have.
const KEPT: usize = 65_536;

/// The elements of a procedure.
#[derive(Drop)]
pub(crate) struct Procedure {
    items: Vec<Obj>,
}

impl Model for Procedure {
    ghost use Rattle.std.specs.Prelude.{List};
    ghost use Rattle.ps_store.specs.declared.obj.Obj.{Obj};

    ghost Value = { List Obj };

    ghost view = { λ p. p.items.items };
}

impl Procedure {
    fn new(alloc: Global) -> Procedure
        ensures { result ≡ [] }
    {
        Procedure {
            items: Vec::new(alloc),
        }
    }

    /// Adds an element, where fewer than one over the limit are kept.
    fn add(&mut self, o: Obj) -> Mem<()>
        ensures { OnOk result (self.new ≡ with_element self.old o) }
    {
        if self.items.len() < KEPT {
            self.items.push(o)?;
        }
        Ok(())
    }

    /// The elements, in order.
    pub(crate) fn items(&self) -> &[Obj]
        ensures { result.now ≡ self.now }
    {
        &self.items
    }
}

/// The procedures that are open. Contracts see them as a list, the innermost first.
#[derive(Drop)]
pub(crate) struct Unclosed {
    alloc: Global,
    innermost: Option<Procedure>,
    outer: Vec<Procedure>,
}

impl Model for Unclosed {
    ghost use Rattle.std.specs.Prelude.{List};
    ghost use Rattle.ps_store.specs.declared.obj.Obj.{Obj};
    ghost use Rattle.ps_machine.specs.Nested.{nested, IsNested};

    ghost Value = { List (List Obj) };

    ghost view = { λ u. nested u.innermost u.outer.items };

    ghost invariant = { λ u. IsNested u.innermost u.outer.items };
}

impl Unclosed {
    pub(crate) fn new(alloc: Global) -> Unclosed
        ensures { result ≡ [] }
    {
        Unclosed {
            alloc,
            innermost: None,
            outer: Vec::new(alloc),
        }
    }

    pub(crate) fn is_empty(&self) -> bool
        ensures yes { result ≡ true → self.now ≡ [] }
        ensures no { result ≡ false → 0 < length self.now }
    {
        match &self.innermost {
            None => true,
            Some(_) => false,
        }
    }

    /// Opens a procedure inside the innermost one.
    pub(crate) fn open(&mut self) -> Mem<()>
        ensures { OnOk result (self.new ≡ [] ∷ self.old) }
    {
        match self.innermost.replace(Procedure::new(self.alloc)) {
            Some(outer) => Ok(self.outer.push(outer)?),
            None => Ok(()),
        }
    }

    /// Adds an element to the innermost procedure, if one is open.
    pub(crate) fn add(&mut self, o: Obj) -> Mem<()>
        ensures { OnOk result (self.new ≡ with_innermost self.old o) }
    {
        match &mut self.innermost {
            Some(procedure) => procedure.add(o),
            None => Ok(()),
        }
    }

    /// Closes the innermost procedure, `None` where none is open.
    pub(crate) fn close(&mut self) -> Option<Procedure>
        ensures { MatchOption result ((self.old ≡ []) × (self.new ≡ []))
            (λ elements. self.old ≡ elements ∷ self.new) }
    {
        let closed = self.innermost.take();
        self.innermost = self.outer.pop();
        closed
    }
}
