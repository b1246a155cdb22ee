//! `ltacheck`: reads a script from standard input, and writes what it gives to standard output. The
//! exit status is the number of its status (`Status::number`).
#![tactic(auto)]

use lq_ports::{StdSink, StdSource};
use lq_script::ltac_main;
use std::process::ExitCode;

fn main(rt: HostRuntime) -> ExitCode {
    let mut source = StdSource::new(rt.stdin());
    let mut out = StdSink::new(rt.stdout());
    ExitCode::from(ltac_main(rt.alloc(), &[], &mut source, &mut out).number())
}
