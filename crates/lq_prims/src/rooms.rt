//! How many hypotheses a goal may have.

ghost use Rattle.std.specs.Prelude.{◌≡◌, ◌<◌, ◌^◌, length};
ghost use Rattle.lq_terms.specs.Terms.{Terms};
ghost use Rattle.lq_evars.specs.Places.{store_of};
ghost use Rattle.lq_prims.specs.Scenes.{IsGoal, context_at};

use lq_evars::Store;
use lq_terms::Hypothesis;

/// So many hypotheses are fewer than 2^64. It does nothing when it runs.
fn few(context: &[Hypothesis], count: usize)
    requires { count ≡ length context.now }
    ensures { length context.now < 2 ^ 64 }
{
    let _context = context;
    let _count = count;
}

/// A goal has fewer than 2^64 hypotheses. It does nothing that is seen when it runs.
pub(crate) fn has_room(store: &Store, goal: u32)
    requires { goal < length store.now.variables }
    ensures { (bank : Terms) → IsGoal bank store.now goal → length (context_at (store_of bank store.now) goal) < 2 ^ 64 }
{
    let context = store.context(goal).hypotheses();
    few(context, context.len());
}
