//! The machine: the pages of a program, one at a call, and its end.
ghost use Rattle.std.specs.Prelude.{◌≡◌, Some, None, IfOk, OnErr, IsOk, ◌≤◌, length};
ghost use Rattle.ps_machine.specs.Meaning.{run, meaning_of, IsTold, Comes, GoesByNoSource, end_told};

use crate::body::Body;
use crate::errors::timed_out;
use crate::opening::opening_of;
use crate::setup::Setup;
use crate::turn::{End, Event, Turn};
use press_fault::{Mem, NoMemory};
use ps_flow::Pushes;
use std::alloc::Global;
use std::marker::Model;

/// The most steps of a run.
const STEPS: u64 = 1_000_000_000_000;

/// A run of a program. Contracts see what it still has to tell, its pages and its end; `None` after out of
/// memory.
#[derive(Drop)]
pub struct Machine {
    body: Body,
    left: u64,
    ended: Option<End>,
    is_spent: bool,
}

impl Model for Machine {
    ghost use Rattle.std.specs.Prelude.{Option};
    ghost use Rattle.ps_machine.specs.Meaning.{Meaning, told};

    ghost Value = { Option Meaning };

    ghost view = { λ m. told m.is_spent m.ended m.left m.body };
}

impl Machine {
    /// A run of a program from its start.
    #[tactic(auto, using(crate::proofs::Few::few_pages))]
    pub fn new(alloc: Global, program: Vec<u8>, setup: Setup) -> Mem<Machine>
        ensures means { IfOk result (λ machine. machine ≡ Some (meaning_of program.items setup)) }
        // A page needs a step of its own.
        ensures few { length (meaning_of program.items setup).pages ≤ 1000000000000 }
    {
        Ok(Machine {
            body: opening_of(alloc, program, setup)?,
            left: STEPS,
            ended: None,
            is_spent: false,
        })
    }

    /// The next page, or the end. After the end the same end is answered again, and after out of memory that.
    pub fn next_page(&mut self) -> Mem<Event>
        ensures told { IfOk result (λ event. IsTold event self.old self.new) }
        ensures spent { OnErr result (self.new ≡ None) }
        ensures never { self.old ≡ None → IsOk result → ⊥ }
        ensures plain { IfOk result GoesByNoSource }
    {
        if self.is_spent {
            return Err(NoMemory);
        }
        match self.ended {
            Some(end) => Ok(Event::End(end)),
            None => match run_on(&mut self.body, &mut self.left) {
                Ok(event) => {
                    self.ended = end_of(&event);
                    Ok(event)
                }
                Err(NoMemory) => {
                    self.is_spent = true;
                    Err(NoMemory)
                }
            },
        }
    }
}

/// The end that an event tells.
fn end_of(event: &Event) -> Option<End>
    ensures { result ≡ end_told event.now }
{
    match event {
        Event::Page(_) => None,
        Event::End(end) => Some(*end),
    }
}

/// Runs to the next page, or to the end.
#[tactic(auto, using(crate::proofs::Going::a_page_comes), unfolding(crate::specs::Meaning::run))]
fn run_on(body: &mut Body, left: &mut u64) -> Mem<Event>
    ensures comes { IfOk result (λ event. Comes event (run left.old body.old) (run left.new body.new)) }
    ensures plain { IfOk result GoesByNoSource }
{
    let mut end = End::Done;
    let mut pushes = Pushes::Nothing;
    while *left > 0 {
        *left -= 1;
        match body.step(&mut end, &mut pushes)? {
            Turn::Went => {}
            Turn::Shown => return Ok(Event::Page(body.take_page())),
            Turn::Ended => return Ok(Event::End(end)),
        }
    }
    Ok(Event::End(timed_out()))
}
