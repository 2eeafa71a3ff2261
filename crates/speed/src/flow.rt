//! Counts turns of an empty loop on the execution stack: 100,000,000 of them, or 1,000,000.

use crate::{Size, no_memory};
use ps_flow::{Flow, NextObj, Pushes, run_flow};
use ps_store::{Dicts, FlowOp, Obj, Part, Stack, Store};
use std::io;
use std::time::Instant;

/// Opens `{ } loop`, and false where it can't.
fn opened(stack: &mut Stack, flow: &mut Flow, store: &mut Store, dicts: &Dicts) -> bool {
    let nothing = Part {
        id: 0,
        start: 0,
        len: 0,
    };
    stack.push(Obj::Array(nothing, true)).is_ok()
        && run_flow(FlowOp::Loop, stack, flow, store, dicts).is_ok()
}

/// How many of so many requests for the next object begin a turn.
fn turns_of(flow: &mut Flow, requests: u32) -> u32 {
    let mut turns = 0u32;
    let mut pushes = Pushes::Nothing;
    for _ in 0..requests {
        if let NextObj::Turn(_) = flow.next_object(&mut pushes) {
            turns = turns.wrapping_add(1);
        }
    }
    turns
}

/// Prints how many turns there were.
pub(crate) fn run(rt: &HostRuntime, size: Size) -> io::Result<()> {
    let Ok(mut store) = Store::new(rt.alloc()) else {
        return Err(no_memory());
    };
    let Ok(dicts) = Dicts::new(&mut store) else {
        return Err(no_memory());
    };
    let mut stack = Stack::new();
    let mut flow = Flow::new(rt.alloc());
    if opened(&mut stack, &mut flow, &mut store, &dicts) {
        let requests = size.rounds(100_000_000, 1_000_000);
        let start = Instant::now(rt)?;
        let turns = turns_of(&mut flow, requests);
        let millis = start.elapsed(rt)?.as_millis();
        println!(rt; "flow: {turns} turns")?;
        eprintln!(rt; "flow: {millis} ms")?;
    }
    Ok(())
}
