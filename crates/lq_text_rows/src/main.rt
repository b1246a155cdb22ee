//! Rows over the tokens and sentences of scripts: each line of standard input is one, and is written again with what
//! comes next in its text. `cut TEXT` looks from the start of a text that ends there, `cut-from 5 TEXT` from place 5,
//! `cut-open TEXT` from the start of a text that may go on; `lq_row_texts` says how texts are written. A line that begins
//! with `#`, and an empty one, is written as it stands.
#![tactic(auto)]

mod answers;

use crate::answers::told;
use std::io;

fn main(rt: HostRuntime) -> io::Result<()> {
    for line in rt.lines(rt.alloc()) {
        let line = line?;
        if line.is_empty() || line.starts_with('#') {
            println!(rt; "{line}")?;
        } else {
            match told(rt.alloc(), &line) {
                Ok(text) => println!(rt; "{line}: {text}")?,
                Err(fault) => println!(rt; "{line}: {fault:?}")?,
            }
        }
    }
    Ok(())
}
