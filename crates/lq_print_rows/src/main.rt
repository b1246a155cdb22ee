//! Rows over printing: each line of standard input is one, and is written again with its answer. A line that begins with `#`, and
//! an empty one, is written as it stands. `rows.rt` says what a line may ask.
#![tactic(auto)]

mod rows;

use crate::rows::{answer, refusal_text};
use std::io;

fn main(rt: HostRuntime) -> io::Result<()> {
    for line in rt.lines(rt.alloc()) {
        let line = line?;
        if line.is_empty() || line.starts_with('#') {
            println!(rt; "{line}")?;
        } else {
            match answer(rt.alloc(), &line) {
                Ok(text) => println!(rt; "{line} => {text}")?,
                Err(fault) => println!(rt; "{line} => {}", refusal_text(fault))?,
            }
        }
    }
    Ok(())
}
