//! Terms as text.

ghost use Rattle.std.specs.Prelude.{◌≡◌, ◌<◌, ◌^◌, [], ◌++◌, ◌∷◌, length, map, false, Ok, IfOk, OnOk};
ghost use Rattle.std.specs.List.{AllByRecursion};
ghost use Rattle.std.specs.String.{string_bytes};
ghost use Rattle.lq_trees.specs.Tree.{Tree};
ghost use Rattle.lq_trees.specs.Same.{Same};
ghost use Rattle.lq_trees.specs.Index.{Within};
ghost use Rattle.lq_trees.specs.Hypotheses.{HoldsOnly};
ghost use Rattle.lq_trees.specs.Fresh.{is_listed};
ghost use Rattle.lq_terms.specs.Terms.{HasTerm, tree_of};
ghost use Rattle.lq_terms.specs.Contexts.{context_of};
ghost use Rattle.lq_env.specs.Environments.{IsEnv, env_of};
ghost use Rattle.lq_ast.specs.Commands.{stated, command, check};
ghost use Rattle.lq_texts.specs.Printing.{term_text, surface};
ghost use Rattle.lq_texts.specs.ReadBack.{IsPlain, IsDeclared, ReadsTo, check_sentence, globals};
ghost use Rattle.lq_texts.specs.Elaborated.{Elaborates};
ghost use Rattle.lq_print.specs.Flat.{flat};
ghost use Rattle.lq_print.specs.Pieces.{IsSpelling};

use crate::spelling::{Spelling, blank};
use crate::visiting::spell;
use crate::writing::write_spelled;
use lq_ast::Text;
use lq_env::Env;
use lq_terms::{Bank, Context, NoMemory, TermId};
use std::alloc::Global;

/// Writes a term, by a spelling of nothing.
fn write_term(
    out: &mut String,
    bank: &Bank<'_>,
    env: &Env,
    spelling: &mut Spelling,
    term: TermId,
) -> Result<(), NoMemory>
    requires env { IsEnv bank.now env.now }
    requires term { HasTerm bank.now term }
    requires texts { spelling.old.texts ≡ [] }
    requires names { spelling.old.names.items ≡ [] }
    requires pieces { spelling.old.pieces.items ≡ [] }
    ensures text { OnOk result (string_bytes out.new ≡ string_bytes out.old ++ term_text (env_of bank.now env.now) (tree_of bank.now term)) }
    ensures few { OnOk result (length (flat (env_of bank.now env.now) (tree_of bank.now term)) < 2 ^ 63) }
{
    spell(bank, env, spelling, term)?;
    let _pieces = spelling.pieces.len();
    write_spelled(out, bank, spelling)
}

/// Writes a term as it stands in the bank.
pub(crate) fn append_term(
    out: &mut String,
    bank: &Bank<'_>,
    env: &Env,
    term: TermId,
) -> Result<(), NoMemory>
    requires env { IsEnv bank.now env.now }
    requires term { HasTerm bank.now term }
    ensures text { OnOk result (string_bytes out.new ≡ string_bytes out.old ++ term_text (env_of bank.now env.now) (tree_of bank.now term)) }
    ensures few { OnOk result (length (flat (env_of bank.now env.now) (tree_of bank.now term)) < 2 ^ 63) }
{
    let mut spelling = blank(bank.allocator());
    write_term(out, bank, env, &mut spelling, term)
}

/// A context has fewer than 2 to the 63 hypotheses: as many as a list of them has.
fn count(alloc: Global, context: &Context) -> Result<(), NoMemory>
    ensures { OnOk result (length context.now < 2 ^ 63) }
{
    let hypotheses = Vec::from_slice(alloc, context.hypotheses())?;
    let _known = hypotheses.len();
    Ok(())
}

/// The text of a term as it stands in the bank, where each variable that has a value is read already; a variable is
/// written by its number, without its instance.
///
/// The environment tells the names of constructors: one of no declared family has the empty name. Binders have the names that
/// printing gives them: each used one its own, or the first with a number behind it that is none of the hypotheses and globals of
/// the body and no used binder round it; an unused one is `_`, or an arrow.
///
/// What is written of a term without variables is read again: between `Check ` and ` .` it is a sentence that reads to the term's
/// surface, is nested too deep or is too long; and where elaboration in the context gives a term for that, it is this one.
/// The only refusal is for want of memory.
pub fn written_text(
    bank: &Bank<'_>,
    env: &Env,
    context: &Context,
    term: TermId,
) -> Result<Text, NoMemory>
    requires env { IsEnv bank.now env.now }
    requires term { HasTerm bank.now term }
    ensures text { IfOk result (λ x. x ≡ term_text (env_of bank.now env.now) (tree_of bank.now term)) }
    ensures reads_back { IfOk result (λ _. IsPlain (env_of bank.now env.now) (tree_of bank.now term) → Within 0 (tree_of bank.now term)
        → ReadsTo (check_sentence (env_of bank.now env.now) (tree_of bank.now term))
        (stated 0 (command (check (surface (env_of bank.now env.now) [] (tree_of bank.now term)))))) }
    ensures elaborates_back { IfOk result (λ _. (u : Tree) → IsPlain (env_of bank.now env.now) (tree_of bank.now term) → Within 0 (tree_of bank.now term)
        → IsDeclared (env_of bank.now env.now) (tree_of bank.now term)
        → HoldsOnly (map (λ h. h.name) (context_of bank.now context.now)) (tree_of bank.now term)
        → AllByRecursion (λ h. is_listed (globals (env_of bank.now env.now) (tree_of bank.now term)) h.name ≡ false) (context_of bank.now context.now)
        → Elaborates (env_of bank.now env.now) (context_of bank.now context.now) (surface (env_of bank.now env.now) [] (tree_of bank.now term)) u
        → Same u (tree_of bank.now term)) }
{
    count(bank.allocator(), context)?;
    let mut out = String::new(bank.allocator());
    append_term(&mut out, bank, env, term)?;
    Ok(Text::from_string(out))
}
