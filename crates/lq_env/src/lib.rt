//! Declarations: what an environment says of its names, and the families that it takes.
#![tactic(auto)]

mod computing;
mod eliminators;
mod environment;
mod family;
mod generated;
mod inductive;
mod made;
mod making;
mod positivity;
mod premises;
mod spines;
mod stored;
mod telescopes;

pub use environment::{Declared, Entry, Env, EnvMark, Sorts};
pub use family::{Constructors, EnvFault, Family};
pub use inductive::refuse_taken_names;
pub use made::{FamilyRules, Made};
pub use stored::{constructor_type, family_type};
