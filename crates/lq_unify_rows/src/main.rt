//! Rows over unification and the store: each line of standard input is one, and is written again with its answer, and with its price in
//! ticks where it has one. A line that begins with `#`, and an empty one, is written as it stands.
//!
//! A section begins with a line `start`: the bank and the store are empty, there is no hypothesis, and nothing is declared but the natural
//! numbers. A line `start on a thread` is the same on the stack of another thread. `lq_words` says how terms are written. `section.rt`,
//! `asking.rt`, `reading.rt` and `scenes.rt` say what a line may ask.
#![tactic(auto)]

mod asking;
mod declaring;
mod looks;
mod priced;
mod reading;
mod scenes;
mod section;
mod words;

use crate::section::answers;
use lq_words::RowFault;
use std::alloc::Global;
use std::thread::Threads;
use std::{io, mem, thread};

/// The line that begins a section on another thread.
const THREAD: &str = "start on a thread";

/// Writes the answers of a section.
fn show(rt: &(impl Print + Alloc<A = Global>), told: Result<String, RowFault>) -> io::Result<()> {
    match told {
        Ok(text) => print!(rt; "{text}"),
        Err(fault) => println!(rt; "not done: {fault:?}"),
    }
}

/// Runs a section, on a thread of its own where its first line says so.
fn run(rt: &(impl Print + Threads + Alloc<A = Global>), section: String) -> io::Result<()> {
    let alloc = rt.alloc();
    if section.starts_with(THREAD) {
        let other = thread::spawn(rt, move || answers(alloc, &section))?;
        return show(rt, other.join(rt));
    }
    show(rt, answers(alloc, &section))
}

/// Takes a line into the section, which is run first where the line begins another.
fn take_line(
    rt: &(impl Print + Threads + Alloc<A = Global>),
    section: &mut String,
    line: &str,
) -> io::Result<()> {
    if line.starts_with("start") {
        let ended = mem::replace(section, String::new(rt.alloc()));
        run(rt, ended)?;
    }
    section.push_str(line)?;
    section.push('\n')?;
    Ok(())
}

fn main(rt: HostRuntime) -> io::Result<()> {
    let mut section = String::new(rt.alloc());
    for line in rt.lines(rt.alloc()) {
        let line = line?;
        take_line(&rt, &mut section, &line)?;
    }
    run(&rt, section)
}
