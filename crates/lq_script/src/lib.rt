//! Scripts: their bytes are read, their sentences run one after the other, and their answers written.
#![tactic(auto)]

mod fault;
mod laws;
mod main_call;
mod printer;
mod reader;
mod script;
mod session;
mod statement;
mod syntax;
mod tactics;
mod transfer;

pub use laws::accepted_scripts_join;
pub use lq_output::Status;
pub use main_call::ltac_main;
