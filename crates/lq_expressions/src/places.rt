//! The places of `a ; [b | c .. | d]`.

ghost use Rattle.std.specs.Prelude.{◌≡◌, [], None, IfOk};
ghost use Rattle.lq_ast.specs.PlainTactics.{plain_tac, plain_step};
ghost use Rattle.lq_sentences.specs.Arguments.{is_unfilled, with_place, step_of};
ghost use Rattle.lq_expressions.specs.Views.{places_of};

use lq_ast::{Step, Tac};
use sqlite_items::Items;
use std::alloc::{AllocError, Global};

/// The places so far.
#[derive(Drop)]
pub struct Places {
    before: Items<Tac>,
    filler: Option<Tac>,
    behind: Items<Tac>,
}

impl Places {
    /// No places.
    pub fn new(alloc: Global) -> Places
        ensures { places_of result ≡ ([], None) }
    {
        Places {
            before: Items::new(alloc),
            filler: None,
            behind: Items::new(alloc),
        }
    }

    /// Whether no place has `..` so far.
    pub fn is_unfilled(&self) -> bool
        ensures { result ≡ is_unfilled (places_of self.now) }
    {
        match &self.filler {
            Some(_) => false,
            None => true,
        }
    }

    /// Puts a place to them, with `..` or without.
    #[tactic(auto, using(lq_phrases::proofs::Loops::map_more))]
    pub fn put(&mut self, alloc: Global, whole: Tac, fills: bool) -> Result<(), AllocError>
        ensures { IfOk result (λ u. places_of self.new ≡ with_place (places_of self.old) (plain_tac whole) fills) }
    {
        if !self.is_unfilled() {
            self.behind.push(whole)?;
        } else if fills {
            self.behind = Items::new(alloc);
            self.filler = Some(whole);
        } else {
            self.before.push(whole)?;
        }
        Ok(())
    }
}

/// What stands behind the `;`.
#[tactic(auto, using(lq_ast::proofs::TacticLaws::tactic_laws))]
pub fn step_of(places: Places) -> Step
    ensures { plain_step result ≡ step_of (places_of places) }
{
    let Places {
        before,
        filler,
        behind,
    } = places;
    match filler {
        Some(whole) => Step::Fill(before, whole, behind),
        None => Step::Each(before),
    }
}
