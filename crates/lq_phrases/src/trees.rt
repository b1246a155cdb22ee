//! Trees of terms, put together from what is read.

ghost use Rattle.std.specs.Prelude.{◌≡◌, map, IfOk};
ghost use Rattle.lq_ast.specs.Syntax.{applied};
ghost use Rattle.lq_ast.specs.Plain.{plain, plain_binders};
ghost use Rattle.lq_ast.specs.PlainCommands.{plain_group};
ghost use Rattle.lq_sentences.specs.Terms.{typed, untyped};
ghost use Rattle.lq_phrases.specs.Views.{binder_of, bound_of};

use lq_ast::{Binder, Binders, Group, Surface};
use sqlite_items::{Boxed, Items};
use std::alloc::{AllocError, Global};

/// A function with its arguments.
#[tactic(auto, using(lq_ast::proofs::PlainLaws::plain_laws, crate::proofs::TermLaws::trees))]
pub fn applied(
    alloc: Global,
    function: Surface,
    arguments: Items<Surface>,
) -> Result<Surface, AllocError>
    ensures { IfOk result (λ t. plain t ≡ applied (plain function) (map plain arguments)) }
{
    if arguments.is_empty() {
        Ok(function)
    } else {
        Ok(Surface::Apply(Boxed::new(alloc, function)?, arguments))
    }
}

/// What a group binds.
#[tactic(auto, using(lq_ast::proofs::PlainLaws::plain_laws, crate::proofs::TermLaws::trees))]
pub fn typed(alloc: Global, group: Group) -> Result<Binders, AllocError>
    ensures { IfOk result (λ b. plain_binders b ≡ plain_group group) }
{
    Ok(Binders::Typed(group.names, Boxed::new(alloc, group.kind)?))
}

/// What is bound together, alone.
#[tactic(auto, using(crate::proofs::TermLaws::trees))]
pub fn alone(alloc: Global, binders: Binders) -> Result<Items<Binders>, AllocError>
    ensures { IfOk result (λ bs. bound_of bs ≡ plain_binders binders) }
{
    let mut found = Items::new(alloc);
    found.push(binders)?;
    Ok(found)
}

/// Names with the type that is written behind them.
#[tactic(auto, using(lq_ast::proofs::PlainLaws::plain_laws, crate::proofs::TermLaws::trees))]
pub fn with_type(names: Items<Binder>, kind: Boxed<Surface>) -> Binders
    ensures { plain_binders result ≡ typed (map binder_of names) (plain kind) }
{
    Binders::Typed(names, kind)
}

/// Names without a type.
#[tactic(auto, using(lq_ast::proofs::PlainLaws::plain_laws, crate::proofs::TermLaws::trees))]
pub fn bare(names: Items<Binder>) -> Binders
    ensures { plain_binders result ≡ untyped (map binder_of names) }
{
    Binders::Bare(names)
}
