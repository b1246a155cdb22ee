//! The names that a primitive has.

ghost use Rattle.std.specs.Prelude.{◌∷◌, [], IfOk};
ghost use Rattle.lq_ast.specs.Plain.{plain_prim};
ghost use Rattle.lq_terms.specs.Terms.{Grows};
ghost use Rattle.lq_prims.specs.Leaving.{AreNames, names_of};

use lq_ast::{Name, PrimTac};
use lq_terms::{Bank, NameId, NoMemory};

/// The places of names in the bank.
fn places_of(bank: &mut Bank<'_>, names: &[Name]) -> Result<Vec<NameId>, NoMemory>
    ensures places { IfOk result (λ xs. AreNames bank.new xs.items names.now) }
    ensures grows { Grows bank.old bank.new }
{
    let mut places = Vec::new(bank.allocator());
    for name in names {
        let place = bank.name(name.as_str())?;
        places.push(place)?;
    }
    Ok(places)
}

/// The place of a name in the bank, alone.
fn place_of(bank: &mut Bank<'_>, name: &Name) -> Result<Vec<NameId>, NoMemory>
    ensures place { IfOk result (λ xs. AreNames bank.new xs.items (name.now ∷ [])) }
    ensures grows { Grows bank.old bank.new }
{
    let place = bank.name(name.as_str())?;
    let mut places = Vec::new(bank.allocator());
    places.push(place)?;
    Ok(places)
}

/// The places in the bank of the names that a primitive gives new hypotheses, in order.
#[tactic(auto, unfolding(lq_ast::specs::Plain::plain_prim))]
pub(crate) fn written_names(bank: &mut Bank<'_>, prim: &PrimTac) -> Result<Vec<NameId>, NoMemory>
    ensures places { IfOk result (λ xs. AreNames bank.new xs.items (names_of (plain_prim prim.now))) }
    ensures grows { Grows bank.old bank.new }
{
    match prim {
        PrimTac::Intro(Some(name)) => place_of(bank, name),
        PrimTac::Intros(names) => places_of(bank, names.as_slice()),
        PrimTac::Assert(name, _) => place_of(bank, name),
        PrimTac::Pose(name, _) => place_of(bank, name),
        _ => Ok(Vec::new(bank.allocator())),
    }
}
