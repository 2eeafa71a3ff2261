//! The program `read_words`: what the words of a command line of `render` ask for.
//!
//! It prints a line for each thing asked for, or `usage` where its own words aren't in the grammar. The status is 0,
//! 4 where nothing can be printed, and 6 without memory.
#![tactic(auto)]

use press_fault::NoMemory;
use press_ports::Words;
use press_words::{Options, WordsFault};
use std::io::ErrorKind;
use std::process::ExitCode;
use std::{env, io};

/// What was read couldn't be kept.
fn no_memory() -> io::Error {
    io::Error::from(ErrorKind::OutOfMemory)
}

/// The words of the command line, without the program's own name.
fn words_of(rt: &HostRuntime) -> io::Result<Words> {
    let mut words = Words::new(rt.alloc());
    for word in env::args(rt)?.skip(1) {
        if let Err(NoMemory) = words.push(word.as_str()) {
            return Err(no_memory());
        }
    }
    Ok(words)
}

/// Prints a text that was asked for.
fn print_text(rt: &HostRuntime, name: &str, text: Option<&str>) -> io::Result<()> {
    match text {
        Some(text) => println!(rt; "{name} {text}"),
        None => Ok(()),
    }
}

/// Prints a number that was asked for.
fn print_number(rt: &HostRuntime, name: &str, number: Option<u32>) -> io::Result<()> {
    match number {
        Some(number) => println!(rt; "{name} {number}"),
        None => Ok(()),
    }
}

/// Prints the numbers that are always there.
fn print_numbers(rt: &HostRuntime, options: &Options<'_>) -> io::Result<()> {
    let (width, height) = options.size;
    println!(rt; "size {width} {height}")?;
    let page = options.page;
    println!(rt; "page {} {}", page.width, page.height)?;
    println!(rt; "res {}", page.res)?;
    println!(rt; "band {}", options.band)?;
    println!(rt; "workers {}", options.workers)?;
    println!(rt; "cache {}", options.cache)?;
    println!(rt; "intent {}", options.intent)?;
    println!(rt; "depth {}", options.depth)
}

/// Prints what the words ask for.
fn print_options(rt: &HostRuntime, options: &Options<'_>) -> io::Result<()> {
    print_numbers(rt, options)?;
    println!(rt; "report {}", options.report)?;
    print_number(rt, "sample", options.sample)?;
    print_number(rt, "rehearse", options.rehearse)?;
    print_text(rt, "output", options.output)?;
    print_text(rt, "gray", options.gray)?;
    print_text(rt, "rgb", options.rgb)?;
    print_text(rt, "cmyk", options.cmyk)?;
    print_text(rt, "program", options.program)?;
    for named in &options.named {
        println!(rt; "named {} {}", named.name, named.file)?;
    }
    Ok(())
}

/// Reads the words, and prints what they ask for.
fn print_words(rt: &HostRuntime) -> io::Result<()> {
    let words = words_of(rt)?;
    match Options::read(&words) {
        Ok(options) => print_options(rt, &options),
        Err(WordsFault::Usage) => println!(rt; "usage"),
    }
}

fn main(rt: HostRuntime) -> ExitCode {
    match print_words(&rt) {
        Ok(()) => ExitCode::SUCCESS,
        Err(error) if error.kind() == ErrorKind::OutOfMemory => ExitCode::from(6),
        Err(_) => ExitCode::from(4),
    }
}
