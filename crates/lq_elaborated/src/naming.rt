//! The names of a family, before any work.

ghost use Rattle.std.specs.Prelude.{◌≡◌, map, IfOk};
ghost use Rattle.lq_ast.specs.PlainCommands.{plain_constructor};
ghost use Rattle.lq_calculus.specs.Declarations.{names_of, declared_names, first_taken};
ghost use Rattle.lq_terms.specs.Terms.{HasName, HasTerm, text_of, Grows};
ghost use Rattle.lq_env.specs.Environments.{IsEnv, env_of};
ghost use Rattle.lq_env.specs.Families.{HasFamily, family_of};
ghost use Rattle.lq_sessions.specs.Declaring.{family_names};
ghost use Rattle.lq_elaborated.specs.Naming.{AreNamed, NewOr};

use lq_ast::Constructor;
use lq_causes::Stop;
use lq_env::{Constructors, Env, Family, refuse_taken_names};
use lq_terms::{Bank, Context, NameId, NoMemory, Node, TermId};
use lq_trees::Sort;

/// Constructors with the names that are written, each with the same type.
fn named(
    bank: &mut Bank<'_>,
    kind: TermId,
    constructors: &[Constructor],
) -> Result<Constructors, NoMemory>
    requires kind { HasTerm bank.old kind }
    ensures named { IfOk result (λ made. AreNamed bank.new made constructors.now) }
    ensures grows { Grows bank.old bank.new }
{
    let mut made = Constructors::new(bank.allocator());
    for constructor in constructors {
        let name = bank.name(constructor.name.as_str())?;
        made.push(name, kind)?;
    }
    Ok(made)
}

/// A family that has the names of one that is written, and nothing else of it.
fn family_named(
    bank: &mut Bank<'_>,
    name: NameId,
    constructors: &[Constructor],
) -> Result<Family, NoMemory>
    requires name { HasName bank.old name }
    ensures has { IfOk result (HasFamily bank.new) }
    ensures names { IfOk result (λ f. declared_names (family_of bank.new f) ≡ family_names (text_of bank.old name) (map plain_constructor constructors.now)) }
    ensures grows { Grows bank.old bank.new }
{
    let kind = bank.make(Node::Sort(Sort::Base))?;
    let constructors = named(bank, kind, constructors)?;
    let alloc = bank.allocator();
    Ok(Family {
        name,
        parameters: Context::new(alloc),
        indices: Context::new(alloc),
        sort: Sort::Base,
        constructors,
    })
}

/// Refuses the first of the names of a family that is declared already or stands twice: its own, its constructors', its eliminators'.
/// See the Rocq reference manual, "Inductive types".
pub fn refuse_taken(
    bank: &mut Bank<'_>,
    env: &Env,
    name: NameId,
    constructors: &[Constructor],
) -> Result<(), Stop>
    requires env { IsEnv bank.old env.now }
    requires name { HasName bank.old name }
    ensures answer { NewOr bank.new result (first_taken (names_of (env_of bank.old env.now))
        (family_names (text_of bank.old name) (map plain_constructor constructors.now))) }
    ensures grows { Grows bank.old bank.new }
{
    let family = family_named(bank, name, constructors)?;
    match refuse_taken_names(bank, env, &family) {
        Ok(()) => Ok(()),
        Err(fault) => Err(Stop::from(fault)),
    }
}
