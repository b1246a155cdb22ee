//! Words, and what is made of names and terms alone, as the program reads them: names in a row, terms, patterns. A function
//! stands for a rule of the grammar, and reads what the rule reads, or memory runs out.
#![tactic(auto)]

mod atoms;
mod cursor;
mod patterns;
mod refusal;
mod rows;
mod tables;
mod terms;
mod trees;
mod word;

pub use cursor::Cursor;
pub use patterns::{FREE, behind_name, pattern, round_term, square_term, whole_behind};
pub use refusal::Refusal;
pub use rows::{more_names, names, some_names};
pub use tables::{command_named, form_named, prefix_named, primitive_named};
pub use terms::{atom, atom_at, group, term};
pub use word::{
    Ends, Placed, Spot, Test, Word, is_number, is_symbol, is_word, name_of, text_of, value_of,
};
