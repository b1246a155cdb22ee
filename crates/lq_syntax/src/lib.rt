//! Sentences as the program reads them: `read_sentence` gives the syntax tree of a sentence's tokens, or their fault.
#![tactic(auto)]

mod read;
mod refusals;
mod wholes;

pub use lq_ast::Sentence;
pub use lq_sentences::SyntaxFault;
pub use read::read_sentence;
