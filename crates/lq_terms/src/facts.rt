//! What a bank knows of a term's tree from the making of its node on.

ghost use Rattle.std.specs.Prelude.{◌≡◌, ◌+◌, ◌-◌, ◌^◌, ◌<◌, ◌≤◌, ◌||◌, min, max, true, false};
ghost use Rattle.lq_trees.specs.Size.{counted};
ghost use Rattle.lq_terms.specs.Facts.{no_facts, above_of, beside_of, inside_of, bound_of, IsSmall};

use lq_trees::Measure;

/// How far the nodes of a tree are counted.
const COUNTED: u64 = 4_294_967_295;

/// How large a tree is, how many loose bound variables it has, and whether it holds a hypothesis and an unknown.
#[derive(Clone, Copy)]
pub(crate) struct Facts {
    pub(crate) measure: Measure,
    pub(crate) loose: u64,
    pub(crate) holds_hypothesis: bool,
    pub(crate) holds_unknown: bool,
}

/// Of no tree.
pub(crate) fn nothing() -> Facts
    ensures facts { result ≡ no_facts }
    ensures small { IsSmall result }
{
    Facts {
        measure: Measure { size: 0, depth: 0 },
        loose: 0,
        holds_hypothesis: false,
        holds_unknown: false,
    }
}

/// Of one node above these parts.
pub(crate) fn above(parts: Facts) -> Facts
    requires { IsSmall parts }
    ensures { result ≡ above_of parts }
{
    let measure = Measure {
        size: (parts.measure.size + 1).min(COUNTED),
        depth: parts.measure.depth + 1,
    };
    Facts { measure, ..parts }
}

/// Of both parts.
pub(crate) fn beside(left: Facts, right: Facts) -> Facts
    requires left { IsSmall left }
    requires right { IsSmall right }
    ensures facts { result ≡ beside_of left right }
    ensures small { IsSmall result }
{
    Facts {
        measure: Measure {
            size: (left.measure.size + right.measure.size).min(COUNTED),
            depth: left.measure.depth.max(right.measure.depth),
        },
        loose: left.loose.max(right.loose),
        holds_hypothesis: left.holds_hypothesis || right.holds_hypothesis,
        holds_unknown: left.holds_unknown || right.holds_unknown,
    }
}

/// Of a part that stands below a binder.
pub(crate) fn inside(part: Facts) -> Facts
    requires { IsSmall part }
    ensures facts { result ≡ inside_of part }
    ensures small { IsSmall result }
{
    Facts {
        loose: part.loose.saturating_sub(1),
        ..part
    }
}

/// Of a bound variable.
pub(crate) fn bound(index: u32) -> Facts
    ensures { result ≡ bound_of index }
{
    Facts {
        loose: u64::from(index) + 1,
        ..above(nothing())
    }
}
