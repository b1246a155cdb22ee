//! Parts of sentences with no Ltac expression inside, as the program reads them: messages, primitives, the heads of matches,
//! selectors, declarations, marks. A function stands for a rule of the grammar, and reads what the rule reads, or memory runs
//! out.
#![tactic(auto)]

mod commands;
mod forms;
mod heads;
mod marks;
mod matches;
mod primitives;
mod sayings;
mod selectors;

pub use commands::{check, definition, inductive, lemma, print, theorem};
pub use forms::{constr, context, cycle, eval, fail, fresh, gfail, idtac, swap, type_of};
pub use heads::{ClauseHead, clause_head};
pub use marks::{mark, opened};
pub use matches::{Mode, ident, match_head, matched_of};
pub use primitives::primitive;
pub use sayings::amount;
pub use selectors::selector;
