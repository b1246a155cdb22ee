//! The bank.

ghost use Rattle.std.specs.Prelude.{◌≡◌, ◌≤◌, ◌↔◌, IsTrue, length, OnErr, IfOk};
ghost use Rattle.lq_terms.specs.Terms.{Terms, AddsNode, HasTerm, HasParts, IsTerm, IsName, Grows, tree_of, node_tree};
ghost use Rattle.lq_terms.specs.Mark.{mark_of, undone};
ghost use Rattle.lq_terms.specs.declared.nodes.NameId.{NameId};
ghost use Rattle.lq_terms.specs.declared.nodes.TermId.{TermId};
ghost use Rattle.lq_trees.specs.Same.{Same};
ghost use Rattle.lq_trees.specs.Size.{fit};
ghost use Rattle.lq_trees.specs.Marks.{holds_hypothesis, holds_unknown, loose};

use lq_terms::{
    Bank, BankMark, NameId, NoMemory, Node, TermId, fits, holds_hypothesis, holds_unknown, loose,
    same,
};
use lq_trees::Fit;

/// The same trees at the same places.
pub fn copied<'b>(bank: &Bank<'b>) -> Result<Bank<'b>, NoMemory>
    ensures { IfOk result (λ b. b ≡ bank.now) }
{
    bank.copy()
}

/// The name of a text.
pub fn named(bank: &mut Bank<'_>, text: &str) -> Result<NameId, NoMemory>
    ensures named { IfOk result (λ x. IsName bank.new x text.now) }
    ensures known { (x : NameId) → IsName bank.old x text.now → (result ≡ Ok x) × (bank.new ≡ bank.old) }
    ensures grows { Grows bank.old bank.new }
    ensures nodes { bank.new.nodes ≡ bank.old.nodes }
    ensures err { OnErr result (bank.new ≡ bank.old) }
{
    bank.name(text)
}

/// The term of a node: the one that there is, or else one more.
pub fn made(bank: &mut Bank<'_>, node: Node) -> Result<TermId, NoMemory>
    requires { HasParts bank.old node }
    ensures made { IfOk result (λ t. IsTerm bank.new t (node_tree bank.old node)) }
    ensures known { (t : TermId) → IsTerm bank.old t (node_tree bank.old node) → (result ≡ Ok t) × (bank.new ≡ bank.old) }
    ensures added { ((t : TermId) → IsTerm bank.old t (node_tree bank.old node) → ⊥) → IfOk result (λ t. AddsNode bank.old node t bank.new) }
    ensures grows { Grows bank.old bank.new }
    ensures err { OnErr result (bank.new ≡ bank.old) }
{
    bank.make(node)
}

/// The term of another bank, in this one.
pub fn imported(bank: &mut Bank<'_>, other: &Bank<'_>, term: TermId) -> Result<TermId, NoMemory>
    requires { HasTerm other.now term }
    ensures imported { IfOk result (λ t. IsTerm bank.new t (tree_of other.now term)) }
    ensures grows { Grows bank.old bank.new }
{
    bank.import(other, term)
}

/// Whether two terms are the same but for the names of their binders.
pub fn is_same(bank: &Bank<'_>, left: TermId, right: TermId) -> bool
    requires left { HasTerm bank.now left }
    requires right { HasTerm bank.now right }
    ensures { IsTrue result ↔ Same (tree_of bank.now left) (tree_of bank.now right) }
{
    same(bank, left, right)
}

/// Whether a term is within the limits.
pub fn fits_limits(bank: &Bank<'_>, term: TermId) -> Fit
    requires { HasTerm bank.now term }
    ensures { result ≡ fit (tree_of bank.now term) }
{
    fits(bank, term)
}

/// Drops the nodes made after the mark.
pub fn undo_bank(bank: &mut Bank<'_>, mark: BankMark)
    requires { mark.nodes ≤ length bank.old.nodes }
    ensures undone { bank.new ≡ undone mark bank.old }
    ensures back { (before : Terms) → mark ≡ mark_of before → Grows before bank.old → Grows before bank.new }
{
    bank.undo(mark)
}

/// How many loose bound variables a term has.
pub fn loose_variables(bank: &Bank<'_>, term: TermId) -> u64
    requires { HasTerm bank.now term }
    ensures { result ≡ loose (tree_of bank.now term) }
{
    loose(bank, term)
}

/// Whether a hypothesis stands in a term.
pub fn has_hypothesis(bank: &Bank<'_>, term: TermId) -> bool
    requires { HasTerm bank.now term }
    ensures { result ≡ holds_hypothesis (tree_of bank.now term) }
{
    holds_hypothesis(bank, term)
}

/// Whether an unknown stands in a term.
pub fn has_unknown(bank: &Bank<'_>, term: TermId) -> bool
    requires { HasTerm bank.now term }
    ensures { result ≡ holds_unknown (tree_of bank.now term) }
{
    holds_unknown(bank, term)
}
