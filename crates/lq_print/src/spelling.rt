//! What has been spelled of a term.

ghost use Rattle.std.specs.Prelude.{◌≡◌, [], ◌++◌, ◌∷◌, reverse, OnOk};
ghost use Rattle.lq_terms.specs.Terms.{Terms};
ghost use Rattle.lq_print.specs.Spelling.{marked, nearest, outer, emit, put_name, put_bound, enter};
ghost use Rattle.lq_print.specs.Pieces.{shown_in, HasPiece, IsSpelling, Spells};

use crate::pieces::Piece;
use crate::texts::Texts;
use lq_terms::NoMemory;
use std::alloc::Global;

/// What has been spelled of a term, from right to left.
#[derive(Drop)]
pub(crate) struct Spelling {
    /// The texts of names.
    pub(crate) texts: Texts,
    /// The names that occur, by the numbers of their texts.
    pub(crate) names: Vec<usize>,
    /// Whether each binder round the place is used so far, the nearest last.
    pub(crate) flags: Vec<bool>,
    /// The nodes, each behind its parts.
    pub(crate) pieces: Vec<Piece>,
}

/// Nothing yet.
pub(crate) fn blank(alloc: Global) -> Spelling
    ensures texts { result.texts ≡ [] }
    ensures names { result.names.items ≡ [] }
    ensures flags { result.flags.items ≡ [] }
    ensures pieces { result.pieces.items ≡ [] }
{
    Spelling {
        texts: Texts::new(alloc),
        names: Vec::new(alloc),
        flags: Vec::new(alloc),
        pieces: Vec::new(alloc),
    }
}

/// One more piece.
pub(crate) fn emit(spelling: &mut Spelling, piece: Piece) -> Result<(), NoMemory>
    ensures { OnOk result ((bank : Terms) → IsSpelling bank spelling.old → HasPiece bank spelling.old.texts spelling.old.names.items piece
        → Spells bank spelling.old spelling.new (emit (shown_in bank spelling.old.texts spelling.old.names.items piece))) }
{
    spelling.pieces.push(piece)?;
    Ok(())
}

/// One more name, which is a piece.
pub(crate) fn put_name(spelling: &mut Spelling, text: &str) -> Result<(), NoMemory>
    ensures { OnOk result ((bank : Terms) → IsSpelling bank spelling.old → Spells bank spelling.old spelling.new (put_name text.now)) }
{
    let number = spelling.texts.add(text)?;
    spelling.names.push(number)?;
    spelling.pieces.push(Piece::Named(number))?;
    Ok(())
}

/// Notes that the binder of that number is used, the nearest being 0.
fn mark(flags: &mut Vec<bool>, index: u32)
    ensures { reverse flags.new.items ≡ marked index (reverse flags.old.items) }
{
    if let Some(place) = flags.len().checked_sub(index as usize + 1) {
        flags[place] = true;
    }
}

/// One more bound variable.
pub(crate) fn put_bound(spelling: &mut Spelling, index: u32) -> Result<(), NoMemory>
    ensures { OnOk result ((bank : Terms) → IsSpelling bank spelling.old → Spells bank spelling.old spelling.new (put_bound index)) }
{
    mark(&mut spelling.flags, index);
    spelling.pieces.push(Piece::Bound(index))?;
    Ok(())
}

/// A binder begins.
pub(crate) fn enter(spelling: &mut Spelling) -> Result<(), NoMemory>
    ensures { OnOk result ((bank : Terms) → IsSpelling bank spelling.old → Spells bank spelling.old spelling.new enter) }
{
    spelling.flags.push(false)?;
    Ok(())
}

/// A binder ends: whether it was used.
pub(crate) fn leave(flags: &mut Vec<bool>) -> bool
    ensures used { result ≡ nearest (reverse flags.old.items) }
    ensures left { reverse flags.new.items ≡ outer (reverse flags.old.items) }
{
    match flags.pop() {
        Some(is_used) => is_used,
        None => false,
    }
}
