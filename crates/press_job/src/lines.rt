//! The lines on standard error: that of a status, and behind it those that are asked for.
ghost use Rattle.std.specs.Prelude.{◌≡◌, ◌≤◌, ◌+◌, ◌++◌, ℕ, List, Some, [], map, length, codes, unwrap_or, slice_get};
ghost use Rattle.std.specs.Prelude.{OnOk, OnErr, if◌then◌else◌};
ghost use Rattle.std.specs.Fmt.{decimal};
ghost use Rattle.press_fault.specs.Names.{text_of};
ghost use Rattle.press_ports.specs.Causes.{Rose, with_piece, WritesFront, WritesProperFront};
ghost use Rattle.press_job.specs.Asked.{is_sample};
ghost use Rattle.press_job.specs.Code.Seen.{seen, seen_source};
ghost use Rattle.page_output.specs.Code.Taken.{HasTaken};
ghost use Rattle.press_job.specs.Lines.{line_of, which_text, printable, report_part, stands_alone, asked_lines};
ghost use Rattle.press_job.specs.Lines.{lines_of, sample_part};

use crate::asking::{Asked, Source};
use crate::running::Ending;
use arrayvec::ArrayVec;
use itoa::Buffer;
use page_output::{Taken, Tally};
use press_fault::{Name, PsName, Status, Which};
use press_ports::{Sink, WriteFault, send};
use press_words::{Counts, Line, report_line, sample_line};
use std::marker::Model;

/// A line of at most 512 bytes, held in itself.
#[derive(Drop)]
struct StatusLine {
    bytes: ArrayVec<u8, 512>,
}

impl Model for StatusLine {
    ghost use Rattle.std.specs.Prelude.{List, ℕ};

    ghost Value = { List ℕ };

    ghost view = { λ line. line.bytes.items };
}

impl StatusLine {
    fn new() -> StatusLine
        ensures { result ≡ [] }
    {
        StatusLine {
            bytes: ArrayVec::new(),
        }
    }

    fn of(text: &[u8]) -> StatusLine
        requires { length text.now ≤ 256 }
        ensures { result ≡ text.now }
    {
        let mut line = StatusLine::new();
        line.add(text);
        line
    }

    fn add(&mut self, piece: &[u8])
        requires { length self.old + length piece.now ≤ 512 }
        ensures text { self.new ≡ self.old ++ piece.now }
        ensures len { length self.new ≡ length self.old + length piece.now }
    {
        match self.bytes.try_extend_from_slice(piece) {
            Ok(()) => {}
            Err(_) => unreachable!(),
        }
    }

    /// Adds a command, with a question mark for each byte that doesn't print.
    fn add_printable(&mut self, command: &[u8])
        requires { length self.old + length command.now ≤ 512 }
        ensures text { self.new ≡ self.old ++ map printable command.now }
        ensures len { length self.new ≡ length self.old + length command.now }
    {
        for byte in command {
            self.bytes.push(shown(*byte));
        }
    }

    fn bytes(&self) -> &[u8]
        ensures { result.now ≡ self.now }
    {
        self.bytes.as_slice()
    }
}

fn shown(byte: u8) -> u8
    ensures { result ≡ printable byte }
{
    if 33 <= byte && byte <= 126 {
        byte
    } else {
        b'?'
    }
}

fn status_line(status: &Status, names: &[Name]) -> StatusLine
    ensures { result ≡ line_of names.now status.now }
{
    match status {
        Status::Done => StatusLine::new(),
        Status::Ps { name, command } => error_line(*name, command),
        Status::Usage => StatusLine::of(
            b"render: usage: render [options] PROGRAM [NAME=FILE ...]\n",
        ),
        Status::ReadFault { which } => {
            input_line(b"render: cannot read ", which_bytes(which, names), b"\n")
        }
        Status::WriteFault => StatusLine::of(b"render: cannot write output\n"),
        Status::Profile { which, code } => profile_line(which_bytes(which, names), *code),
        Status::NoMemory => StatusLine::of(b"render: out of memory\n"),
        Status::TooLong { which } => {
            input_line(b"render: ", which_bytes(which, names), b" is too long\n")
        }
    }
}

fn error_line(name: PsName, command: &Name) -> StatusLine
    ensures { result ≡ codes "render: " ++ (text_of name
        ++ (codes " in " ++ (map printable command.now ++ codes "\n"))) }
{
    let mut line = StatusLine::of(b"render: ");
    line.add(name.text().as_bytes());
    line.add(b" in ");
    line.add_printable(command.bytes());
    line.add(b"\n");
    line
}

fn input_line(before: &[u8], which: &[u8], after: &[u8]) -> StatusLine
    requires before { length before.now ≤ 64 }
    requires which { length which.now ≤ 127 }
    requires after { length after.now ≤ 64 }
    ensures { result ≡ before.now ++ (which.now ++ after.now) }
{
    let mut line = StatusLine::of(before);
    line.add(which);
    line.add(after);
    line
}

fn profile_line(which: &[u8], code: u8) -> StatusLine
    requires { length which.now ≤ 127 }
    ensures { result ≡ codes "render: profile " ++ (which.now ++ (codes ": fault " ++ (decimal code ++ codes "\n"))) }
{
    let mut number = Buffer::new();
    let mut line = StatusLine::of(b"render: profile ");
    line.add(which);
    line.add(b": fault ");
    line.add(number.format(code).as_bytes());
    line.add(b"\n");
    line
}

/// An input as it is printed.
fn which_bytes<'a>(which: &Which, names: &'a [Name]) -> &'a [u8]
    ensures text { result.now ≡ which_text names.now which.now }
    ensures short { length result.now ≤ 127 }
{
    match which {
        Which::Output => b"output",
        Which::Gray => b"gray",
        Which::Rgb => b"rgb",
        Which::Cmyk => b"cmyk",
        Which::Named(place) => name_at(names, *place),
        Which::Program => b"program",
        Which::Inline => b"inline",
    }
}

fn name_at(names: &[Name], place: u32) -> &[u8]
    ensures text { result.now ≡ unwrap_or (slice_get names.now place) [] }
    ensures short { length result.now ≤ 127 }
{
    match names.get(place as usize) {
        Some(name) => name.bytes(),
        None => b"",
    }
}

/// Writes the line of a status, with `names` as the names of the profiles of the words. Where a write fails the rest of
/// the
/// line is dropped.
pub fn tell<E: Sink>(err: &mut E, status: &Status, names: &[Name])
    ensures front { WritesFront (E.written err.old) (E.written err.new) (line_of names.now status.now) }
    // All of it, where no write failed.
    ensures all { (Rose (E.faults err.old) (E.faults err.new) → ⊥) →
        E.written err.new ≡ with_piece (E.written err.old) (line_of names.now status.now) }
    ensures later { E.faults err.old ≤ E.faults err.new }
{
    let line = status_line(status, names);
    let _ = send(err, line.bytes());
}

/// The lines behind that of the status, each where there is one.
#[derive(Drop)]
struct Behind {
    report: Option<Line>,
    sample: Option<Line>,
}

/// Writes the lines of a run whose tally took in what its sink took: that of the status, and those that are asked for.
/// Where a write fails the rest of them is dropped.
pub(crate) fn tell_run<E: Sink>(err: &mut E, asked: &Asked<'_>, ending: &Ending, tally: Tally)
    ensures front { (taken : List ℕ) → HasTaken (is_sample (seen_source asked.now.source)) tally taken
        → WritesFront (E.written err.old) (E.written err.new)
        (lines_of (Some (seen asked.now)) ending.now.status ending.now.shown taken) }
    ensures all { (taken : List ℕ) → HasTaken (is_sample (seen_source asked.now.source)) tally taken
        → (Rose (E.faults err.old) (E.faults err.new) → ⊥) → E.written err.new ≡ with_piece (E.written err.old)
        (lines_of (Some (seen asked.now)) ending.now.status ending.now.shown taken) }
    ensures later { E.faults err.old ≤ E.faults err.new }
{
    let line = status_line(&ending.status, &[]);
    let behind = lines_behind(asked, ending, tally);
    let _ = send_three(
        err,
        line.bytes(),
        bytes_of(&behind.report),
        bytes_of(&behind.sample),
    );
}

/// The line of a sample page, by what the tally took in.
fn line_of_sample(source: &Source<'_>, tally: Tally) -> Option<Line>
    ensures { (taken : List ℕ) → HasTaken (is_sample (seen_source source.now)) tally taken
        → unwrap_or result [] ≡ sample_part (seen_source source.now) taken }
{
    let Source::Sample(n) = source else {
        return None;
    };
    let Taken { bytes, digest } = tally.finish();
    let digest = digest?;
    Some(sample_line(*n, bytes, &digest))
}

/// The lines that are asked for; none where that of the status stands alone.
fn lines_behind(asked: &Asked<'_>, ending: &Ending, tally: Tally) -> Behind
    ensures { (taken : List ℕ) → HasTaken (is_sample (seen_source asked.now.source)) tally taken
        → unwrap_or result.report [] ++ unwrap_or result.sample []
        ≡ (if stands_alone ending.now.status then [] else asked_lines (seen asked.now) ending.now.shown taken) }
{
    if stands_alone(&ending.status) {
        return Behind {
            report: None,
            sample: None,
        };
    }
    Behind {
        report: report_part(asked.report, ending.shown),
        sample: line_of_sample(&asked.source, tally),
    }
}

/// Whether the line of a status stands alone: out of memory it does.
fn stands_alone(status: &Status) -> bool
    ensures { result ≡ stands_alone status.now }
{
    matches!(status, Status::NoMemory)
}

/// The report line, where it is asked for. No profile is used yet, so there are no links to count.
fn report_part(is_asked: bool, shown: u64) -> Option<Line>
    ensures { unwrap_or result [] ≡ report_part is_asked shown }
{
    if !is_asked {
        return None;
    }
    Some(report_line(&Counts {
        pages: shown,
        leases: 0,
        keys: 0,
        built: 0,
        evicted: 0,
        resident: 0,
        stale: 0,
    }))
}

/// The bytes of a line, none where there is no line.
fn bytes_of(line: &Option<Line>) -> &[u8]
    ensures { result.now ≡ unwrap_or line.now [] }
{
    match line {
        Some(line) => line.bytes(),
        None => b"",
    }
}

/// Sends three pieces, one after another, up to a write that fails.
fn send_three<E: Sink>(
    err: &mut E,
    first: &[u8],
    second: &[u8],
    third: &[u8],
) -> Result<(), WriteFault>
    ensures ok { OnOk result (E.written err.new
        ≡ with_piece (E.written err.old) (first.now ++ (second.now ++ third.now))) }
    ensures err { OnErr result (WritesProperFront (E.written err.old) (E.written err.new)
        (first.now ++ (second.now ++ third.now))) }
    ensures failed { OnErr result (Rose (E.faults err.old) (E.faults err.new)) }
    ensures later { E.faults err.old ≤ E.faults err.new }
{
    match send(err, first) {
        Err(WriteFault) => Err(WriteFault),
        Ok(()) => send_two(err, second, third),
    }
}

/// Sends one piece, and then another.
fn send_two<E: Sink>(err: &mut E, first: &[u8], second: &[u8]) -> Result<(), WriteFault>
    ensures ok { OnOk result (E.written err.new ≡ with_piece (E.written err.old) (first.now ++ second.now)) }
    ensures err { OnErr result (WritesProperFront (E.written err.old) (E.written err.new)
        (first.now ++ second.now)) }
    ensures failed { OnErr result (Rose (E.faults err.old) (E.faults err.new)) }
    ensures later { E.faults err.old ≤ E.faults err.new }
{
    match send(err, first) {
        Err(WriteFault) => Err(WriteFault),
        Ok(()) => send(err, second),
    }
}
