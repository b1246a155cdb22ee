//! Which of two refusals counts.

ghost use Rattle.std.specs.Prelude.{◌≡◌};
ghost use Rattle.lq_syntax.specs.Wholes.{further_of, joined, joined_behind};

use lq_phrases::Refusal;

/// Of two refusals the one that got further: the end is the furthest, and at one word nesting counts.
fn further(first: Refusal, second: Refusal) -> Refusal
    ensures { result ≡ further_of first second }
{
    match first {
        Refusal::NoMemory => first,
        Refusal::Ended => match second {
            Refusal::NoMemory => second,
            Refusal::Ended => first,
            Refusal::Unexpected(_) => first,
            Refusal::TooNested(_) => first,
        },
        Refusal::Unexpected(place) => match second {
            Refusal::NoMemory => second,
            Refusal::Ended => second,
            Refusal::Unexpected(other) => { if place < other { second } else { first } }
            Refusal::TooNested(other) => { if other < place { first } else { second } }
        },
        Refusal::TooNested(place) => match second {
            Refusal::NoMemory => second,
            Refusal::Ended => second,
            Refusal::Unexpected(other) => { if place < other { second } else { first } }
            Refusal::TooNested(other) => { if place < other { second } else { first } }
        },
    }
}

/// The second answer, where the first way to read is refused; memory that ran out at the first stays so.
pub fn joined<T: Drop>(first: Refusal, second: Result<T, Refusal>) -> Result<T, Refusal>
    ensures { result ≡ joined first second }
{
    match first {
        Refusal::NoMemory => Err(first),
        Refusal::Ended => joined_behind(first, second),
        Refusal::Unexpected(_) => joined_behind(first, second),
        Refusal::TooNested(_) => joined_behind(first, second),
    }
}

/// The second answer, or the refusal that got further.
fn joined_behind<T: Drop>(first: Refusal, second: Result<T, Refusal>) -> Result<T, Refusal>
    ensures { result ≡ joined_behind first second }
{
    match second {
        Ok(found) => Ok(found),
        Err(other) => Err(further(first, other)),
    }
}
