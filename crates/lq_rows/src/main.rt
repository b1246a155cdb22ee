//! Rows of whole scripts through the program's top call: each line of standard input is one, and is written again with
//! the status and what the script gives, line by line. `run TEXT` runs a script, `file NAME` the script of a file;
//! `bytewise TEXT` runs one through ports that move a byte at a time, `no-read TEXT` with a source whose first read
//! fails, and `no-write TEXT` with a sink whose first write fails. `lq_row_texts` says how texts are written. A line that
//! begins with `#`, and an empty one, is written as it stands.
#![tactic(auto)]

mod scripts;

use crate::scripts::{Told, answer};
use lq_row_texts::{RowFault, text_of};
use std::alloc::Global;
use std::rt::Files;
use std::{fs, io};

/// The most lines of an answer that are all written.
const MOST: usize = 16;

/// The script of a row.
fn script(
    rt: &(impl Files + Alloc<A = Global>),
    word: &str,
    text: &str,
) -> Result<Vec<u8>, RowFault> {
    if word != "file" {
        return text_of(rt.alloc(), text);
    }
    match fs::read(rt, text) {
        Ok(script) => Ok(script),
        Err(_) => Err(RowFault::Malformed),
    }
}

/// Writes what a script gives: its lines, or how many they are and the last.
fn show(rt: &(impl Print + Alloc<A = Global>), line: &str, told: &Told) -> io::Result<()> {
    let status = told.status;
    let text = told.text.as_str();
    let count = text.lines().count();
    print!(rt; "{line}: {status:?}")?;
    if count > MOST {
        let last = text.lines().last().unwrap_or("");
        return println!(rt; ", {count} lines, the last: {last}");
    }
    for written in text.lines() {
        print!(rt; " / {written}")?;
    }
    println!(rt)
}

/// Runs a row, and writes its line.
fn run(rt: &(impl Print + Files + Alloc<A = Global>), line: &str) -> io::Result<()> {
    let Some((word, text)) = line.split_once(' ') else {
        return println!(rt; "{line}: no such row");
    };
    let script = match script(rt, word, text) {
        Ok(script) => script,
        Err(fault) => return println!(rt; "{line}: {fault:?}"),
    };
    match answer(rt.alloc(), word, script) {
        Ok(told) => show(rt, line, &told),
        Err(fault) => println!(rt; "{line}: {fault:?}"),
    }
}

fn main(rt: HostRuntime) -> io::Result<()> {
    for line in rt.lines(rt.alloc()) {
        let line = line?;
        if line.is_empty() || line.starts_with('#') {
            println!(rt; "{line}")?;
        } else {
            run(&rt, &line)?;
        }
    }
    Ok(())
}
