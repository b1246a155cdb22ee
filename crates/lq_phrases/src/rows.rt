//! Names in a row.

ghost use Rattle.std.specs.Prelude.{◌≡◌, [], ◌∷◌, map};
ghost use Rattle.lq_sentences.specs.Words.{is_name};
ghost use Rattle.lq_sentences.specs.Rules.{read};
ghost use Rattle.lq_sentences.specs.Parts.{many, name_word, names, some_names, some_binders, binder_word, is_binder};
ghost use Rattle.lq_phrases.specs.Views.{test_of, binder_of, Gives, same};

use crate::cursor::Cursor;
use crate::refusal::Refusal;
use crate::word::{Test, binder_of, name_of};
use lq_ast::{Binder, Name};
use sqlite_items::Items;
use std::alloc::Global;

/// The names behind those found so far, as long as a word passes the test.
#[tactic(auto, using(crate::proofs::Loops::loops))]
pub fn more_names(
    alloc: Global,
    cursor: &mut Cursor<'_, '_>,
    levels: usize,
    test: Test,
    found: Items<Name>,
) -> Result<Items<Name>, Refusal>
    ensures { Gives same (read (many levels (test_of test) name_word found) cursor.old) result cursor.new }
{
    let mut names = found;
    while cursor.sees(test) {
        let next = cursor.take(levels, test)?;
        names.push(name_of(alloc, next.word)?)?;
    }
    Ok(names)
}

/// Names.
pub fn names(
    alloc: Global,
    cursor: &mut Cursor<'_, '_>,
    levels: usize,
) -> Result<Items<Name>, Refusal>
    ensures { Gives same (read (names levels) cursor.old) result cursor.new }
{
    more_names(alloc, cursor, levels, Test::Name, Items::new(alloc))
}

/// Names, and at least one.
pub fn some_names(
    alloc: Global,
    cursor: &mut Cursor<'_, '_>,
    levels: usize,
) -> Result<Items<Name>, Refusal>
    ensures { Gives same (read (some_names levels) cursor.old) result cursor.new }
{
    let mut found = Items::new(alloc);
    found.push(cursor.name(alloc, levels)?)?;
    more_names(alloc, cursor, levels, Test::Name, found)
}

/// What is bound behind what is found so far.
#[tactic(auto, using(crate::proofs::Loops::loops))]
fn more_binders(
    alloc: Global,
    cursor: &mut Cursor<'_, '_>,
    levels: usize,
    found: Items<Binder>,
) -> Result<Items<Binder>, Refusal>
    ensures { Gives (map binder_of) (read (many levels is_binder binder_word (map binder_of found)) cursor.old) result cursor.new }
{
    let mut binders = found;
    while cursor.sees(Test::Binder) {
        let next = cursor.take(levels, Test::Binder)?;
        binders.push(binder_of(alloc, next)?)?;
    }
    Ok(binders)
}

/// What is bound together, and at least one name.
pub fn some_binders(
    alloc: Global,
    cursor: &mut Cursor<'_, '_>,
    levels: usize,
) -> Result<Items<Binder>, Refusal>
    ensures { Gives (map binder_of) (read (some_binders levels) cursor.old) result cursor.new }
{
    let mut found = Items::new(alloc);
    found.push(cursor.binder(alloc, levels)?)?;
    more_binders(alloc, cursor, levels, found)
}
