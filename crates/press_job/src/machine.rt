//! A program that runs: it hands out its pages one by one, and then its end.
ghost use Rattle.std.specs.Prelude.{◌≡◌, ◌≤◌, length, IfOk, OnErr};
ghost use Rattle.press_job.specs.Meaning.{ends};
ghost use Rattle.press_job.specs.Code.Painted.{IsDrawable};
ghost use Rattle.press_job.specs.Program.{meaning_of, status_of};
ghost use Rattle.press_job.specs.Code.Turn.{after, IsFairEvent};

use page_model::Page;
use press_fault::{Mem, NoMemory, Status};
use ps_machine::{End, Setup};
use std::alloc::Global;
use std::marker::Model;

/// What a program does next.
#[derive(Drop)]
pub(crate) enum JobEvent {
    /// It shows a page.
    Page(Page),
    /// It ends, with `Status::Done` or an error of its own.
    End(Status),
}

/// A program that runs. Contracts see what it means from here on.
#[derive(Drop)]
pub(crate) struct JobMachine {
    interpreter: ps_machine::Machine,
}

impl Model for JobMachine {
    ghost use Rattle.press_job.specs.Meaning.{JobMeaning};
    ghost use Rattle.press_job.specs.Program.{left_of};

    ghost Value = { JobMeaning };

    ghost view = { λ m. left_of m.interpreter };
}

impl JobMachine {
    /// A program at its start, on a page of this size.
    pub(crate) fn new(alloc: Global, program: Vec<u8>, page: Setup) -> Mem<JobMachine>
        ensures means { IfOk result (λ machine. machine ≡ meaning_of page program.items) }
        ensures few { length (meaning_of page program.items).pages ≤ 1000000000000 }
    {
        Ok(JobMachine {
            interpreter: ps_machine::Machine::new(alloc, program, page)?,
        })
    }

    /// Goes on to the next page or to the end. Memory runs out only where the interpreter's own call
    /// says so, and then that is all that the program still means: no end and no page is told so.
    pub(crate) fn next_page(&mut self) -> Mem<JobEvent>
        ensures next { IfOk result (λ event. self.old ≡ after event self.new) }
        ensures fair { IfOk result IsFairEvent }
        ensures spent { OnErr result (self.new ≡ ends Status.NoMemory) }
    {
        match self.interpreter.next_page() {
            Ok(ps_machine::Event::Page(page)) => {
                see_drawable(&page);
                Ok(JobEvent::Page(page))
            }
            Ok(ps_machine::Event::End(end)) => Ok(JobEvent::End(status(&end))),
            Err(NoMemory) => Err(NoMemory),
        }
    }
}

/// A page that goes by no source can be drawn with no profile.
#[tactic(auto, using(crate::proofs::Plain::drawable))]
fn see_drawable(page: &Page)
    requires { page.now.sources ≡ 0 }
    ensures { IsDrawable page.now }
{
    let _sources = page.sources;
}

/// A program's end as a status.
fn status(end: &End) -> Status
    ensures { result ≡ status_of end.now }
{
    match end {
        End::Done => Status::Done,
        End::Ps { name, command } => Status::Ps {
            name: *name,
            command: *command,
        },
    }
}
