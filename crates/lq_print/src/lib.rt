//! Terms, goals and proofs as text.
#![tactic(auto)]

mod causes;
mod choosing;
mod entries;
mod faults;
mod numbers;
mod pieces;
mod printing;
mod spelling;
mod steps;
mod texts;
mod views;
mod visiting;
mod work;
mod writing;

pub use causes::{
    Cause, DeclarationCause, GoalCause, LtacCause, PrimitiveCause, RuleCause, ScriptCause,
    SentenceCause, TermCause, TextCause,
};
pub use entries::{PrintFault, print_text};
pub use faults::fault_text;
pub use printing::written_text;
pub use views::{check_text, proof_text};
