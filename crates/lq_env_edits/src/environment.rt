//! Constants, eliminators' types, and declarations that are taken back.

ghost use Rattle.std.specs.Prelude.{◌≡◌, ◌≤◌, length, take, Some, None, [], ◌∷◌, ◌++◌, OnOk, OnErr, List};
ghost use Rattle.lq_terms.specs.Terms.{Terms, text_of, tree_of};
ghost use Rattle.lq_terms.specs.Telling.{IsClosed};
ghost use Rattle.lq_terms.specs.declared.nodes.NameId.{NameId};
ghost use Rattle.lq_trees.specs.declared.Sort.{Sort as Universe};
ghost use Rattle.lq_calculus.specs.Declarations.{Family as TreeFamily, family as with_sorts, lookup, add_constant};
ghost use Rattle.lq_env.specs.Families.{IsSort};
ghost use Rattle.lq_env.specs.declared.environment.Entry.{Entry};
ghost use Rattle.lq_env.specs.declared.environment.Declared.{Declared};
ghost use Rattle.lq_env.specs.Environments.{Adds, Eliminates, Extends, IsEnv, IsFamilyEntry, IsOwn, entry_at, env_of, mark_of};

use lq_env::{Env, EnvFault, EnvMark};
use lq_terms::{NameId, TermId};
use lq_trees::Sort;

/// Appends a constant.
pub fn constant_added(
    env: &mut Env,
    name: NameId,
    kind: TermId,
    body: TermId,
    opaque: bool,
) -> Result<(), EnvFault>
    ensures added { OnOk result (env.new ≡ env.old ++ (name, record { entry = Entry.Constant kind body opaque; kind = Some kind; made = None }) ∷ []) }
    ensures kept { OnErr result (env.new ≡ env.old) }
    ensures told { (bank : Terms) → IsEnv bank env.old → IsOwn bank name → IsClosed bank 0 kind → IsClosed bank 0 body
        → Adds bank result env.new (add_constant (env_of bank env.old) (text_of bank name) (tree_of bank kind) (tree_of bank body) opaque) }
{
    env.add_constant(name, kind, body, opaque)
}

/// The type of a declared family's eliminator into a sort.
pub fn eliminator_type(env: &Env, family: NameId, sort: Sort) -> Result<TermId, EnvFault>
    requires { IsFamilyEntry (entry_at env.now family) }
    ensures told { (bank : Terms) → (f : TreeFamily) → (ss : List Universe) → IsEnv bank env.now → IsOwn bank family → IsSort sort
        → lookup (env_of bank env.now) (text_of bank family) ≡ Some (with_sorts f ss) → Eliminates bank result family f ss sort }
{
    env.elim_type(family, sort)
}

/// The entries are those of the mark again.
pub fn undo_declarations(env: &mut Env, mark: EnvMark)
    requires { mark.entries ≤ length env.old }
    ensures undone { env.new ≡ take mark.entries env.old }
    ensures back { (before : List (NameId × Declared)) → mark ≡ mark_of before → Extends before env.old → env.new ≡ before }
{
    env.undo(mark)
}
