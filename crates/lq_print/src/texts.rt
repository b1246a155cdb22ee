//! Texts, each once, by number.

ghost use Rattle.std.specs.Prelude.{◌≡◌, ◌≢◌, ◌<◌, ℕ, [], length, map, slice_get, Some, IfOk, IfSome, IfNone};
ghost use Rattle.std.specs.String.{string_bytes};
ghost use Rattle.lq_print.specs.Tables.{text_at, IsText, Lengthens};

use indexmap::IndexSet;
use lq_terms::NoMemory;
use std::alloc::Global;
use std::marker::Model;

/// Texts, each once, which contracts see as a list.
#[derive(Drop)]
pub(crate) struct Texts {
    alloc: Global,
    /// The place of a text is its number.
    texts: IndexSet<String>,
}

impl Model for Texts {
    ghost use Rattle.std.specs.Prelude.{List, ℕ, map};
    ghost use Rattle.std.specs.String.{string_bytes};
    ghost use Rattle.lq_print.specs.Tables.{AreApart};

    ghost Value = { List (List ℕ) };

    ghost view = { λ t. map string_bytes t.texts.keys };

    ghost invariant = { λ t. AreApart (map string_bytes t.texts.keys) };
}

impl Texts {
    /// No texts.
    pub(crate) fn new(alloc: Global) -> Texts
        ensures { result ≡ [] }
    {
        Texts {
            alloc,
            texts: IndexSet::new(alloc),
        }
    }

    /// The allocator that the texts keep.
    pub(crate) fn allocator(&self) -> Global {
        self.alloc
    }

    /// The number of a text, if it is there.
    pub(crate) fn find(&self, text: &str) -> Option<usize>
        ensures found { IfSome result (λ k. IsText self.now k text.now) }
        ensures only { (k : ℕ) → IsText self.now k text.now → result ≡ Some k }
    {
        place_of(&self.texts, text)
    }

    /// The number of a text, which is there then.
    pub(crate) fn add(&mut self, text: &str) -> Result<usize, NoMemory>
        ensures added { IfOk result (λ k. IsText self.new k text.now) }
        ensures longer { Lengthens self.old self.new }
    {
        if let Some(place) = place_of(&self.texts, text) {
            return Ok(place);
        }
        let place = self.texts.len();
        let Ok(owned) = String::from_str(self.alloc, text) else {
            return Err(NoMemory);
        };
        let Ok(_) = self.texts.insert(owned) else {
            return Err(NoMemory);
        };
        Ok(place)
    }

    /// The text of a number.
    pub(crate) fn text(&self, number: usize) -> &str
        requires { number < length self.now }
        ensures { result.now ≡ text_at self.now number }
    {
        self.texts.as_slice()[number].as_str()
    }
}

/// Where a text stands among texts.
fn place_of(texts: &IndexSet<String>, text: &str) -> Option<usize>
    ensures found { IfSome result (λ i. slice_get (map string_bytes texts.now.keys) i ≡ Some text.now) }
    ensures absent { IfNone result ((i : ℕ) → slice_get (map string_bytes texts.now.keys) i ≢ Some text.now) }
{
    texts.get_index_of(text)
}
