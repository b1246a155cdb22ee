//! A budget of ticks.

ghost use Rattle.std.specs.Prelude.{◌≡◌, ◌+◌, MatchBool};

use lq_terms::{Steps, Ticks};
use std::sync::ledger::Ledger;

/// Takes a tick, if one is left.
pub fn taken<L: Ledger>(ticks: &mut Ticks, steps: &mut Steps<L>) -> bool
    ensures taken { MatchBool result (ticks.old.left ≡ ticks.new.left + 1) (ticks.old.left ≡ 0) }
    ensures left { ticks.new.left + ticks.new.spent ≡ ticks.old.left + ticks.old.spent }
    ensures counted { steps.new + ticks.old.spent ≡ steps.old + ticks.new.spent }
    ensures none { MatchBool result (ticks.new.spent ≡ ticks.old.spent + 1) (ticks.new.spent ≡ ticks.old.spent) }
{
    ticks.take(steps)
}
