//! The state at the start of a program.
ghost use Rattle.std.specs.Prelude.{◌≡◌, OnOk, IfOk};
ghost use Rattle.ps_machine.specs.Opening.{opening_store};
ghost use Rattle.ps_machine.specs.Code.Filling.{two_empty, with_operator};
ghost use Rattle.ps_machine.specs.State.{opening};

use crate::body::Body;
use crate::errors::command_of;
use crate::frames::Frames;
use crate::setup::Setup;
use crate::unclosed::Unclosed;
use gfx_state::Gfx;
use press_fault::{Grow, Mem, NoMemory};
use ps_flow::Flow;
use ps_scan::Scanner;
use ps_store::{Dicts, Obj, Oper, Sought, Stack, Store};
use std::alloc::Global;

/// Defines an operator in systemdict, where no limit refuses it.
fn define_operator(store: &mut Store, op: Oper) -> Mem<()>
    ensures { OnOk result (store.new ≡ with_operator store.old op) }
{
    match store.define(0, &Sought::name(command_of(op)), Obj::Oper(op)) {
        Ok(()) => Ok(()),
        Err(Grow::LimitCheck) => Ok(()),
        Err(Grow::NoMemory) => Err(NoMemory),
    }
}

/// Fills systemdict with the operators that are built.
fn fill(store: &mut Store) -> Mem<()>
    requires { store.old ≡ two_empty }
    ensures { OnOk result (store.new ≡ opening_store) }
{
    for op in Oper::built() {
        define_operator(store, *op)?;
    }
    Ok(())
}

/// The state at the start of a program.
pub(crate) fn opening_of(alloc: Global, program: Vec<u8>, setup: Setup) -> Mem<Body>
    ensures { IfOk result (λ body. body ≡ opening opening_store program.items setup) }
{
    let mut store = Store::new(alloc)?;
    let dicts = Dicts::new(&mut store)?;
    fill(&mut store)?;
    Ok(Body {
        alloc,
        stack: Stack::new(),
        store,
        dicts,
        flow: Flow::new(alloc),
        frames: Frames::new(alloc),
        at_once: None,
        text: Scanner::new(program),
        unclosed: Unclosed::new(alloc),
        gfx: Gfx::new(alloc, setup.width, setup.height, setup.res)?,
        count: 0,
    })
}
