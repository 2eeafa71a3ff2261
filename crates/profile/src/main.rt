//! The program `profile`: what colour profiles are, or why they are none.
//!
//! `profile [--values] FILE ..` reads each file, of at most 64 MB, and prints a line for it. The
//! status is 0 where each file is a profile, 1 where one isn't, 2 without a file, 3 where one can't
//! be read, 4 where nothing can be printed, and 6 without memory. With `--values` the numbers follow:
//! the columns of a matrix, each curve at 16 values, and of each lut what its tables have, with
//! their MD5.
#![tactic(auto)]

mod values;
mod words;

use icc_model::{Base, Profile};
use icc_read::{ReadProfile, id_state, read_profile};
use press_fault::ProfileFault;
use press_ports::{Fetch, FileShelf, Shelf};
use std::io::ErrorKind;
use std::process::ExitCode;
use std::{env, io};

/// The most bytes that a file may have.
const LIMIT: u64 = 67_108_864;

/// What became of the files, the worst of all: it is the status.
#[derive(Clone, Copy, Debug, PartialEq, Eq)]
enum Outcome {
    AllProfiles,
    Faulty,
    Unread,
}

impl Outcome {
    fn status(self) -> u8 {
        match self {
            Outcome::AllProfiles => 0,
            Outcome::Faulty => 1,
            Outcome::Unread => 3,
        }
    }

    /// The worse of two.
    fn and(self, other: Outcome) -> Outcome {
        if self.status() < other.status() {
            other
        } else {
            self
        }
    }
}

/// Prints a line on a profile.
fn print_profile(rt: &HostRuntime, name: &str, profile: &Profile) -> io::Result<()> {
    let space = words::space(profile.channels());
    let pcs = if profile.lab() { "Lab" } else { "XYZ" };
    print!(rt; "{name}: {space}, connection space {pcs}, tags")?;
    print_transforms(rt, profile)?;
    match profile.base() {
        None => {}
        Some(
            Base::Matrix {
                columns: _,
                curves: _,
            },
        ) => {
            print!(rt; " rXYZ gXYZ bXYZ rTRC gTRC bTRC")?;
        }
        Some(Base::Gray { curve: _ }) => print!(rt; " kTRC")?,
    }
    let kind = words::kind(profile);
    let id = words::id(id_state(profile));
    println!(rt; ", {kind}, profile ID {id}")
}

/// Prints the signatures of a profile's transforms.
fn print_transforms(rt: &HostRuntime, profile: &Profile) -> io::Result<()> {
    for number in 0..3u8 {
        if profile.forward(number).is_some() {
            print!(rt; " A2B{number}")?;
        }
    }
    for number in 0..3u8 {
        if profile.backward(number).is_some() {
            print!(rt; " B2A{number}")?;
        }
    }
    Ok(())
}

/// Prints a line on a file that is no profile.
fn print_fault(rt: &HostRuntime, name: &str, fault: ProfileFault) -> io::Result<()> {
    let code = fault.code();
    let text = words::fault(fault);
    println!(rt; "{name}: fault {code}, {text}")
}

/// Reads a file's bytes, and prints what they are.
fn print_bytes(
    rt: &HostRuntime,
    name: &str,
    bytes: Vec<u8>,
    with_values: bool,
) -> io::Result<Outcome> {
    match read_profile(rt.alloc(), bytes) {
        Ok(profile) => {
            print_profile(rt, name, &profile)?;
            if with_values {
                values::print(rt, &profile)?;
            }
            Ok(Outcome::AllProfiles)
        }
        Err(ReadProfile::Fault(fault)) => {
            print_fault(rt, name, fault)?;
            Ok(Outcome::Faulty)
        }
        Err(ReadProfile::NoMemory) => Err(io::Error::from(ErrorKind::OutOfMemory)),
    }
}

/// Fetches a file, and prints what it is.
fn print_file(rt: &HostRuntime, name: &str, with_values: bool) -> io::Result<Outcome> {
    let mut shelf = FileShelf::new(rt);
    match shelf.fetch(rt.alloc(), name, LIMIT) {
        Ok(bytes) => print_bytes(rt, name, bytes, with_values),
        Err(Fetch::NoMemory) => Err(io::Error::from(ErrorKind::OutOfMemory)),
        Err(Fetch::TooLong) => {
            eprintln!(rt; "profile: {name} is too long")?;
            Ok(Outcome::Unread)
        }
        Err(Fetch::Failed) => {
            eprintln!(rt; "profile: cannot read {name}")?;
            Ok(Outcome::Unread)
        }
    }
}

/// Prints what each of the files is; the status is none without one.
fn print_files(rt: &HostRuntime) -> io::Result<Option<Outcome>> {
    let mut with_values = false;
    let mut outcome = None;
    for word in env::args(rt)?.skip(1) {
        if word.as_str() == "--values" && outcome.is_none() {
            with_values = true;
        } else {
            let file = print_file(rt, word.as_str(), with_values)?;
            outcome = Some(outcome.unwrap_or(Outcome::AllProfiles).and(file));
        }
    }
    Ok(outcome)
}

fn main(rt: HostRuntime) -> ExitCode {
    match print_files(&rt) {
        Ok(Some(outcome)) => ExitCode::from(outcome.status()),
        Ok(None) => {
            let _ = eprintln!(rt; "profile: usage: profile [--values] FILE ..");
            ExitCode::from(2)
        }
        Err(error) if error.kind() == ErrorKind::OutOfMemory => ExitCode::from(6),
        Err(_) => ExitCode::from(4),
    }
}
