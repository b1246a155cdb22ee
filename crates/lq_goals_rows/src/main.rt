//! Rows over proof states: each line of standard input is one, and is written again with its answer. A line that begins with `#`, and
//! an empty one, is written as it stands. `rows.rt` says what a line may ask.
#![tactic(auto)]

mod giving;
mod lists;
mod rows;
mod steps;
mod views;

use crate::rows::{RowFault, answer};
use std::io;

/// Writes an answer behind its line.
fn show(rt: &impl Print, line: &str, told: Result<String, RowFault>) -> io::Result<()> {
    match told {
        Ok(text) => println!(rt; "{line} => {text}"),
        Err(RowFault::NothingFocused) => println!(rt; "{line} => nothing focused"),
        Err(RowFault::TooManyGoals) => println!(rt; "{line} => too many goals"),
        Err(RowFault::TooLarge) => println!(rt; "{line} => too large"),
        Err(RowFault::TooDeep) => println!(rt; "{line} => too deep"),
        Err(RowFault::Full) => println!(rt; "{line} => full"),
        Err(RowFault::NoMemory) => println!(rt; "{line} => no memory"),
        Err(RowFault::Malformed) => println!(rt; "{line} => no such row"),
    }
}

fn main(rt: HostRuntime) -> io::Result<()> {
    for line in rt.lines(rt.alloc()) {
        let line = line?;
        if line.is_empty() || line.starts_with('#') {
            println!(rt; "{line}")?;
        } else {
            show(&rt, &line, answer(rt.alloc(), &line))?;
        }
    }
    Ok(())
}
