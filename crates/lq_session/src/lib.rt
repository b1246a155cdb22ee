//! Sessions: the declarations and the open proof of a script, and what its sentences do to them.
#![tactic(auto)]

mod aborting;
mod allowed;
mod aside;
mod checking;
mod choosing;
mod commands;
mod defining;
mod ending;
mod families;
mod inductive_command;
mod opened;
mod printing;
mod showing;
mod stating;

pub use aborting::{abort_proof, begin_proof};
pub use aside::Aside;
pub use checking::check;
pub use choosing::command;
pub use commands::{
    command_abort, command_check, command_defined, command_definition, command_print,
    command_proof, command_qed, command_show, command_theorem,
};
pub use defining::define_constant;
pub use ending::end_proof;
pub use families::declare_family;
pub use inductive_command::command_inductive;
pub use opened::{Opened, Session};
pub use printing::print;
pub use showing::show;
pub use stating::state_theorem;
