//! The line of a name.

ghost use Rattle.std.specs.Prelude.{◌≡◌, ◌++◌, Some, option_map, IfOk, OnOk};
ghost use Rattle.std.specs.String.{string_bytes};
ghost use Rattle.lq_calculus.specs.Declarations.{lookup};
ghost use Rattle.lq_terms.specs.Terms.{HasName, HasTerm, text_of, tree_of};
ghost use Rattle.lq_env.specs.Families.{IsSort};
ghost use Rattle.lq_env.specs.Environments.{IsEnv, env_of, kind_of};
ghost use Rattle.lq_texts.specs.Views.{line, entry_text, constructor_known, known, print_text};
ghost use Rattle.lq_print.specs.Goals.{HasTermOr};
ghost use Rattle.lq_print.specs.Entries.{Knows, HasFound, Prints, eliminator_known};

use crate::steps::write;
use crate::views::write_entry;
use lq_ast::Text;
use lq_env::{Entry, Env};
use lq_terms::{Bank, NameId, NoMemory, TermId};
use lq_trees::Sort;

/// Why a name has no line.
#[derive(Clone, Copy)]
pub enum PrintFault {
    /// The name stands for nothing.
    Unknown(NameId),
    /// An eliminator into a sort that the family does not permit.
    ElimForbidden(NameId, Sort),
    /// There was no memory.
    NoMemory,
}

/// What is known of a name: its type, and its body if it is a constant.
#[derive(Clone, Copy)]
struct Found {
    kind: TermId,
    body: Option<TermId>,
}

/// The type of a family or of a constructor.
fn kind_known(bank: &Bank<'_>, env: &Env, name: NameId) -> Result<Found, PrintFault>
    requires env { IsEnv bank.now env.now }
    requires name { HasName bank.now name }
    ensures known { Knows bank.now result (constructor_known (text_of bank.now name) (kind_of (env_of bank.now env.now) (text_of bank.now name))) }
    ensures has { IfOk result (HasFound bank.now) }
{
    bank.names_apart();
    match env.kind(name) {
        Some(kind) => Ok(Found { kind, body: None }),
        None => Err(PrintFault::Unknown(name)),
    }
}

/// The type of an eliminator.
fn eliminator_known(
    bank: &Bank<'_>,
    env: &Env,
    name: NameId,
    family: NameId,
    sort: Sort,
) -> Result<Found, PrintFault>
    requires env { IsEnv bank.now env.now }
    requires name { HasName bank.now name }
    requires family { HasName bank.now family }
    requires sort { IsSort sort }
    ensures known { Knows bank.now result (eliminator_known (env_of bank.now env.now) (text_of bank.now name) (text_of bank.now family) sort) }
    ensures has { IfOk result (HasFound bank.now) }
{
    bank.names_apart();
    match env.lookup(family) {
        Some(entry) => match entry {
            Entry::Family(..) => match env.elim_type(family, sort) {
                Ok(kind) => Ok(Found { kind, body: None }),
                Err(_) => Err(PrintFault::ElimForbidden(family, sort)),
            },
            Entry::Constant { .. } => Err(PrintFault::Unknown(name)),
            Entry::Arity { .. } => Err(PrintFault::Unknown(name)),
            Entry::Constructor { .. } => Err(PrintFault::Unknown(name)),
            Entry::Eliminator { .. } => Err(PrintFault::Unknown(name)),
        },
        None => Err(PrintFault::Unknown(name)),
    }
}

/// What is known of a name.
fn look_up(bank: &Bank<'_>, env: &Env, name: NameId) -> Result<Found, PrintFault>
    requires env { IsEnv bank.now env.now }
    requires name { HasName bank.now name }
    ensures known { Knows bank.now result
        (known (env_of bank.now env.now) (text_of bank.now name) (lookup (env_of bank.now env.now) (text_of bank.now name))) }
    ensures has { IfOk result (HasFound bank.now) }
{
    bank.names_apart();
    match env.lookup(name) {
        Some(entry) => match entry {
            Entry::Constant { kind, body, .. } => Ok(Found {
                kind: *kind,
                body: Some(*body),
            }),
            Entry::Family(..) => kind_known(bank, env, name),
            Entry::Arity { .. } => kind_known(bank, env, name),
            Entry::Constructor { .. } => kind_known(bank, env, name),
            Entry::Eliminator { family, sort } => {
                eliminator_known(bank, env, name, *family, *sort)
            }
        },
        None => Err(PrintFault::Unknown(name)),
    }
}

/// Writes the line of a name of which so much is known.
fn write_found(
    out: &mut String,
    bank: &Bank<'_>,
    env: &Env,
    name: NameId,
    found: Found,
) -> Result<(), NoMemory>
    requires env { IsEnv bank.now env.now }
    requires name { HasName bank.now name }
    requires found { HasFound bank.now found }
    ensures { OnOk result (string_bytes out.new ≡ string_bytes out.old
        ++ line (entry_text (env_of bank.now env.now) (text_of bank.now name) (tree_of bank.now found.kind) (option_map (tree_of bank.now) found.body))) }
{
    write_entry(out, bank, env, name, found.kind, found.body)?;
    write(out, "\n")
}

/// The line of a name of which so much is known.
fn line_text(bank: &Bank<'_>, env: &Env, name: NameId, found: Found) -> Result<Text, NoMemory>
    requires env { IsEnv bank.now env.now }
    requires name { HasName bank.now name }
    requires found { HasFound bank.now found }
    ensures { IfOk result (λ x. x ≡ line (entry_text (env_of bank.now env.now) (text_of bank.now name)
        (tree_of bank.now found.kind) (option_map (tree_of bank.now) found.body))) }
{
    let mut out = String::new(bank.allocator());
    write_found(&mut out, bank, env, name, found)?;
    Ok(Text::from_string(out))
}

/// The line of a name, as `Print` writes it: its type, and its body if it is a constant. Unknown exactly for a name that stands for
/// nothing, ElimForbidden exactly for an eliminator into a sort that its family does not permit, with the family and the sort.
pub fn print_text(bank: &Bank<'_>, env: &Env, name: NameId) -> Result<Text, PrintFault>
    requires env { IsEnv bank.now env.now }
    requires name { HasName bank.now name }
    ensures { Prints bank.now result (print_text (env_of bank.now env.now) (text_of bank.now name)) }
{
    match look_up(bank, env, name) {
        Ok(found) => match line_text(bank, env, name, found) {
            Ok(text) => Ok(text),
            Err(NoMemory) => Err(PrintFault::NoMemory),
        },
        Err(fault) => Err(fault),
    }
}
