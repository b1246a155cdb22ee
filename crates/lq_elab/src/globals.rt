//! Names of the environment.

ghost use Rattle.std.specs.Prelude.{◌≡◌, ℕ, IfOk};
ghost use Rattle.lq_trees.specs.Tree.{Tree};
ghost use Rattle.lq_terms.specs.Terms.{HasName, HasTerm, HasParts, node_tree, Grows, text_of, tree_of};
ghost use Rattle.lq_calculus.specs.Declarations.{lookup};
ghost use Rattle.lq_calculus.specs.Checking.{Kernel};
ghost use Rattle.lq_env.specs.Environments.{IsEnv, env_of};
ghost use Rattle.lq_kernel.specs.Steps.{Types};
ghost use Rattle.lq_solving.specs.Stores.{Store as TreeStore};
ghost use Rattle.lq_solving.specs.Elaboration.{Site, found, entry_found};
ghost use Rattle.lq_solving.proofs.ElabSettled.{at};
ghost use Rattle.lq_elab.specs.Answers.{Comes, leaf_work};

use crate::finding::Found;
use lq_env::{Entry, Env};
use lq_kernel::{KernelFault, constant_type, constructor_type, eliminator_type, family_type};
use lq_terms::{Bank, NameId, Node, TermId};
use lq_typing::ElabFault;

/// A leaf with its type.
fn leaf(
    bank: &mut Bank<'_>,
    node: Node,
    kind: Result<TermId, KernelFault>,
) -> Result<Found, ElabFault>
    requires { HasParts bank.old node }
    ensures answer { (k : Kernel Tree) (s : TreeStore) (left : ℕ) → Types bank.old kind (λ n. k) left left
        → Comes bank.new (λ f. found s (tree_of bank.new f.term) (tree_of bank.new f.kind)) result
        (λ n. leaf_work k s (node_tree bank.old node)) left left }
    ensures term { IfOk result (λ f. HasTerm bank.new f.term) }
    ensures kind { (k : Kernel Tree) (left : ℕ) → Types bank.old kind (λ n. k) left left → IfOk result (λ f. HasTerm bank.new f.kind) }
    ensures grows { Grows bank.old bank.new }
{
    match kind {
        Ok(kind) => {
            let term = bank.make(node)?;
            Ok(Found { term, kind })
        }
        Err(fault) => Err(ElabFault::from(fault)),
    }
}

/// A global with its type.
pub(crate) fn global(bank: &mut Bank<'_>, env: &Env, name: NameId) -> Result<Found, ElabFault>
    requires name { HasName bank.old name }
    requires env { IsEnv bank.old env.now }
    ensures answer { (e : Site) (s : TreeStore) (left : ℕ) → env_of bank.old env.now ≡ e.env
        → Comes bank.new (λ f. found s (tree_of bank.new f.term) (tree_of bank.new f.kind)) result
        (λ n. entry_found (at n e) s (text_of bank.old name) (lookup e.env (text_of bank.old name))) left left }
    ensures term { IfOk result (λ f. HasTerm bank.new f.term) }
    ensures kind { IfOk result (λ f. HasTerm bank.new f.kind) }
    ensures grows { Grows bank.old bank.new }
{
    bank.names_apart();
    let Some(entry) = env.lookup(name) else {
        return Err(ElabFault::Unknown(name));
    };
    match entry {
        Entry::Constant { .. } => {
            let kind = constant_type(bank, env, name);
            leaf(bank, Node::Const(name), kind)
        }
        Entry::Family(..) | Entry::Arity { .. } => {
            let kind = family_type(bank, env, name);
            leaf(bank, Node::Ind(name), kind)
        }
        Entry::Constructor { family, index } => {
            let (family, index) = (*family, *index);
            let kind = constructor_type(bank, env, family, index);
            leaf(bank, Node::Ctor(family, index), kind)
        }
        Entry::Eliminator { family, sort } => {
            let (family, sort) = (*family, *sort);
            let kind = eliminator_type(bank, env, family, sort);
            leaf(bank, Node::Elim(family, sort), kind)
        }
    }
}
