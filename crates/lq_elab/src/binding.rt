//! Under a binder there is one hypothesis more, and its name stands for it.

ghost use Rattle.std.specs.Prelude.{◌≡◌, ◌++◌, [], ◌∷◌, false, length, option_map, IfOk, OnOk};
ghost use Rattle.lq_trees.specs.Fresh.{is_listed, fresh};
ghost use Rattle.lq_terms.specs.Terms.{HasName, HasTerm, Grows, text_of, tree_of};
ghost use Rattle.lq_terms.specs.Contexts.{HasBody, HasContext, hypothesis_of, context_of};
ghost use Rattle.lq_solving.specs.Stores.{Store as TreeStore, names_in};
ghost use Rattle.lq_solving.specs.Kept.{IsContext, OptionStands, StandsIn};
ghost use Rattle.lq_evars.specs.Places.{store_of};
ghost use Rattle.lq_elab.specs.Naming.{meaning, under_binder, AreBound};
ghost use Rattle.lq_elab.specs.Scopes.{IsScope, meaning_of};
ghost use Rattle.lq_elab.specs.Frames.{HasBound, spot_of, shorter};
ghost use Rattle.lq_elab.specs.States.{IsState, site_of};

use crate::frames::{Bound, Frames};
use crate::scope::{Meaning, Scope};
use crate::sites::Site;
use lq_evars::Store;
use lq_terms::{Bank, Context, Hypothesis, NameId, NoMemory, TermId, name_under};

/// A hypothesis for a binder's variable.
fn named(
    bank: &mut Bank<'_>,
    context: &[Hypothesis],
    count: usize,
    binder: NameId,
    body: Option<TermId>,
    kind: TermId,
) -> Result<Hypothesis, NoMemory>
    requires context { HasContext bank.old context.now }
    requires count { count ≡ length context.now }
    requires binder { HasName bank.old binder }
    ensures name { IfOk result (λ h. HasName bank.new h.name) }
    ensures body { IfOk result (λ h. h.body ≡ body) }
    ensures kind { IfOk result (λ h. h.kind ≡ kind) }
    ensures is { IfOk result (λ h. text_of bank.new h.name ≡ fresh (context_of bank.old context.now) (text_of bank.old binder)) }
    ensures new { IfOk result (λ h. is_listed (names_in (context_of bank.old context.now)) (text_of bank.new h.name) ≡ false) }
    ensures grows { Grows bank.old bank.new }
{
    let name = name_under(bank, context, binder)?;
    Ok(Hypothesis { name, body, kind })
}

/// Goes under a binder.
pub(crate) fn entered<'t>(
    bank: &mut Bank<'_>,
    site: &Site<'_>,
    store: &Store,
    context: &mut Context,
    scope: &mut Scope,
    frames: &Frames<'t>,
    binder: NameId,
    body: Option<TermId>,
    kind: TermId,
) -> Result<Bound, NoMemory>
    requires state { IsState bank.old site.now store.now context.old scope.old frames.now }
    requires binder { HasName bank.old binder }
    requires body { HasBody bank.old body }
    requires body_stands { OptionStands (store_of bank.old store.now) (names_in (context_of bank.old context.old)) (option_map (tree_of bank.old) body) }
    requires kind { HasTerm bank.old kind }
    requires kind_stands { StandsIn (store_of bank.old store.now) (context_of bank.old context.old) (tree_of bank.old kind) }
    ensures context { IfOk result (λ b. context.new ≡ context.old ++ record { name = b.hypothesis; body = body; kind = kind } ∷ []) }
    ensures has { IfOk result (HasBound bank.new) }
    ensures binder { IfOk result (λ b. b.binder ≡ binder) }
    ensures kind { IfOk result (λ b. b.kind ≡ kind) }
    ensures is { IfOk result (λ b. text_of bank.new b.hypothesis ≡ fresh (context_of bank.old context.old) (text_of bank.old binder)) }
    ensures new { IfOk result (λ b. is_listed (names_in (context_of bank.new context.old)) (text_of bank.new b.hypothesis) ≡ false) }
    ensures hidden { IfOk result (λ b. meaning_of bank.new b.hidden ≡ meaning (site_of bank.new site.now) (spot_of bank.new context.old frames.now) (text_of bank.new binder)) }
    ensures scope { IfOk result (λ b. IsScope bank.new (meaning (site_of bank.new site.now) (under_binder (spot_of bank.new context.old frames.now)
        (text_of bank.new binder) (hypothesis_of bank.new (record { name = b.hypothesis; body = body; kind = kind })))) scope.new) }
    ensures grows { Grows bank.old bank.new }
{
    let _site = site;
    let _store = store;
    let _frames = frames;
    let count = context.hypotheses().len();
    let hypothesis = named(bank, context.hypotheses(), count, binder, body, kind)?;
    let hidden = scope.set(bank, binder, Meaning::Variable(hypothesis.name, kind))?;
    context.push(hypothesis)?;
    Ok(Bound {
        binder,
        hypothesis: hypothesis.name,
        kind,
        hidden,
    })
}

/// Comes back from under a binder.
pub(crate) fn left<'t>(
    bank: &Bank<'_>,
    site: &Site<'_>,
    context: &mut Context,
    scope: &mut Scope,
    frames: &Frames<'t>,
    bound: Bound,
    body: Option<TermId>,
)
    requires has { HasBound bank.now bound }
    requires last { context.old ≡ shorter context.old ++ record { name = bound.hypothesis; body = body; kind = bound.kind } ∷ [] }
    requires new { is_listed (names_in (context_of bank.now (shorter context.old))) (text_of bank.now bound.hypothesis) ≡ false }
    requires bound { AreBound (spot_of bank.now (shorter context.old) frames.now) }
    requires hidden { meaning_of bank.now bound.hidden ≡ meaning (site_of bank.now site.now) (spot_of bank.now (shorter context.old) frames.now) (text_of bank.now bound.binder) }
    requires scope { IsScope bank.now (meaning (site_of bank.now site.now) (under_binder (spot_of bank.now (shorter context.old) frames.now)
        (text_of bank.now bound.binder) (hypothesis_of bank.now (record { name = bound.hypothesis; body = body; kind = bound.kind })))) scope.old }
    ensures context { context.new ≡ shorter context.old }
    ensures scope { IsScope bank.now (meaning (site_of bank.now site.now) (spot_of bank.now (shorter context.old) frames.now)) scope.new }
{
    let _site = site;
    let _frames = frames;
    let _body = body;
    scope.restore(bank, bound.binder, bound.hidden);
    context.pop();
}
