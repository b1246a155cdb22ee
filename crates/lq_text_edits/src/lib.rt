//! The call that cuts scripts once more, with its clauses: what an edit turns here is refused by the clauses alone.
#![tactic(auto)]

ghost use Rattle.std.specs.Prelude.{◌≡◌, true, false};
ghost use Rattle.lq_grammar.specs.Cutting.{next};
ghost use Rattle.lq_lex.specs.Pieces.{Cuts, Spreads, Waits};

use lq_lex::{LexFault, Piece, cut};
use std::alloc::Global;

/// The next sentence of a text at or after a place.
pub fn next_sentence(
    alloc: Global,
    text: &[u8],
    from: usize,
    ended: bool,
) -> Result<Piece, LexFault>
    ensures ended { ended ≡ true → Cuts result (next text.now from) }
    ensures open { ended ≡ false → Waits text.now from result }
    ensures spread { Spreads text.now from result }
{
    cut(alloc, text, from, ended)
}
