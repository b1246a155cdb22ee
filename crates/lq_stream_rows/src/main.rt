//! Rows over streams of a machine over numbers: each line of standard input is one, and is written again with its
//! answers. It has the nodes of a program, from 0 on (`plus 1 2, give 5, give 6`), the levels of the demands in digits
//! (the first one is not looked at, since the stream is fresh), and the budget. Each node pays a tick; each demand has the
//! cause 9. An answer stands with the ticks that are left, the state, and all that was written so far. A line that begins
//! with `#`, and an empty one, is written as it stands.
#![tactic(auto)]

mod asking;
mod numbers;
mod program;
mod row;

use crate::asking::told;
use std::io;

fn main(rt: HostRuntime) -> io::Result<()> {
    for line in rt.lines(rt.alloc()) {
        let line = line?;
        if line.is_empty() || line.starts_with('#') {
            println!(rt; "{line}")?;
        } else {
            match told(rt.alloc(), &line) {
                Ok(text) => println!(rt; "{line}:{text}")?,
                Err(fault) => println!(rt; "{line}: {fault:?}")?,
            }
        }
    }
    Ok(())
}
