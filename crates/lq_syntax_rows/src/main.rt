//! Rows over the reader of sentences: each line of standard input is one, and is written again. `read TEXT` tells what the
//! first sentence of a text is read as, by its first node, and where it ends, or its fault; `lq_row_texts` says how texts are
//! written. `apart TEXT` is the same, read and dropped on the stack of another thread. `all TEXT` tells how many sentences
//! the text has, up to the first that has a fault. A line that begins with `#`, and an empty one, is written as it stands.
#![tactic(auto, using(lq_spelling::proofs::CutLaws::next_cut))]

mod answers;
mod shapes;

use crate::answers::{APART, told};
use lq_row_texts::RowFault;
use std::alloc::Global;
use std::thread::Threads;
use std::{io, thread};

/// What a line comes to, on a thread of its own where it says so.
fn answer(
    rt: &(impl Threads + Alloc<A = Global>),
    line: String,
) -> io::Result<Result<String, RowFault>> {
    let alloc = rt.alloc();
    if line.starts_with(APART) {
        let other = thread::spawn(rt, move || told(alloc, &line))?;
        return Ok(other.join(rt));
    }
    Ok(told(alloc, &line))
}

fn main(rt: HostRuntime) -> io::Result<()> {
    for line in rt.lines(rt.alloc()) {
        let line = line?;
        if line.is_empty() || line.starts_with('#') {
            println!(rt; "{line}")?;
        } else {
            print!(rt; "{line}: ")?;
            match answer(&rt, line)? {
                Ok(text) => println!(rt; "{text}")?,
                Err(fault) => println!(rt; "{fault:?}")?,
            }
        }
    }
    Ok(())
}
