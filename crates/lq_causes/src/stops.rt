//! What stops a sentence.

ghost use Rattle.std.specs.Prelude.{◌≡◌};
ghost use Rattle.lq_causes.specs.Stops.{env_stop};

use lq_env::EnvFault;
use lq_evars::StoreFault;
use lq_goals::GoalFault;
use lq_grammar::LexFault;
use lq_kernel::KernelFault;
use lq_print::{Cause, DeclarationCause, GoalCause, SentenceCause, TermCause, TextCause};
use lq_sentences::SyntaxFault;
use lq_terms::NoMemory;
use std::alloc::AllocError;

/// What stops a sentence: why it is refused, a spent budget among the causes, or want of memory.
#[derive(Drop)]
pub enum Stop {
    /// It is refused.
    Refused(Cause),
    /// There was no memory.
    NoMemory,
}

impl From<NoMemory> for Stop {
    ghost use Rattle.std.specs.Prelude.{◌≡◌};
    ghost use Rattle.lq_causes.specs.declared.stops.Stop.{Stop};

    ghost from_gives = { λ _ e. e ≡ Stop.NoMemory };

    fn from(_: NoMemory) -> Stop {
        Stop::NoMemory
    }
}

impl From<AllocError> for Stop {
    ghost use Rattle.std.specs.Prelude.{◌≡◌};
    ghost use Rattle.lq_causes.specs.declared.stops.Stop.{Stop};

    ghost from_gives = { λ _ e. e ≡ Stop.NoMemory };

    fn from(_: AllocError) -> Stop {
        Stop::NoMemory
    }
}

impl From<LexFault> for Stop {
    ghost use Rattle.std.specs.Prelude.{◌≡◌};
    ghost use Rattle.lq_causes.specs.Stops.{lex_stop};

    ghost from_gives = { λ s e. e ≡ lex_stop s };

    fn from(fault: LexFault) -> Stop {
        match fault {
            LexFault::BadChar(place) => Stop::Refused(Cause::Text(TextCause::BadChar(
                place as u64,
            ))),
            LexFault::OpenComment(place) => {
                Stop::Refused(Cause::Text(TextCause::OpenComment(place as u64)))
            }
            LexFault::OpenString(place) => {
                Stop::Refused(Cause::Text(TextCause::OpenString(place as u64)))
            }
            LexFault::BadNumber(place) => {
                Stop::Refused(Cause::Text(TextCause::BadNumber(place as u64)))
            }
            LexFault::NoMemory => Stop::NoMemory,
        }
    }
}

impl From<SyntaxFault> for Stop {
    ghost use Rattle.std.specs.Prelude.{◌≡◌};
    ghost use Rattle.lq_causes.specs.Stops.{syntax_stop};

    ghost from_gives = { λ s e. e ≡ syntax_stop s };

    fn from(fault: SyntaxFault) -> Stop {
        match fault {
            SyntaxFault::Unexpected(place) => {
                Stop::Refused(Cause::Text(TextCause::Unexpected(place as u64)))
            }
            SyntaxFault::TooNested(place) => {
                Stop::Refused(Cause::Text(TextCause::TooNested(place as u64)))
            }
            SyntaxFault::EndInside(place) => {
                Stop::Refused(Cause::Text(TextCause::EndInside(place as u64)))
            }
            SyntaxFault::SentenceTooLong(place) => {
                Stop::Refused(Cause::Text(TextCause::SentenceTooLong(place as u64)))
            }
            SyntaxFault::NoMemory => Stop::NoMemory,
        }
    }
}

impl From<StoreFault> for Stop {
    ghost use Rattle.std.specs.Prelude.{◌≡◌};
    ghost use Rattle.lq_causes.specs.Stops.{store_stop};

    ghost from_gives = { λ s e. e ≡ store_stop s };

    fn from(fault: StoreFault) -> Stop {
        match fault {
            StoreFault::TooLarge => Stop::Refused(Cause::Term(TermCause::TooLarge)),
            StoreFault::TooDeep => Stop::Refused(Cause::Term(TermCause::TooDeep)),
            StoreFault::Full => Stop::Refused(Cause::Term(TermCause::Full)),
            StoreFault::NoMemory => Stop::NoMemory,
        }
    }
}

impl From<GoalFault> for Stop {
    ghost use Rattle.std.specs.Prelude.{◌≡◌};
    ghost use Rattle.lq_causes.specs.Stops.{goal_stop};

    ghost from_gives = { λ s e. e ≡ goal_stop s };

    fn from(fault: GoalFault) -> Stop {
        match fault {
            GoalFault::NothingFocused => Stop::Refused(Cause::Goal(GoalCause::NothingFocused)),
            GoalFault::TooManyGoals => Stop::Refused(Cause::Goal(GoalCause::TooManyGoals)),
            GoalFault::NoMemory => Stop::NoMemory,
        }
    }
}

/// A refusal of the environment.
fn environment_stop(fault: EnvFault) -> Stop
    ensures { result ≡ env_stop fault }
{
    match fault {
        EnvFault::NameTaken(name) => Stop::Refused(Cause::Sentence(SentenceCause::NameTaken(name))),
        EnvFault::NotPositive(name, argument) => {
            Stop::Refused(Cause::Declaration(DeclarationCause::NotPositive(name, argument)))
        }
        EnvFault::NestedUse(name, argument) => {
            Stop::Refused(Cause::Declaration(DeclarationCause::NestedUse(name, argument)))
        }
        EnvFault::BadResult(name) => {
            Stop::Refused(Cause::Declaration(DeclarationCause::BadResult(name)))
        }
        EnvFault::ElimForbidden(name, sort) => {
            Stop::Refused(Cause::Declaration(DeclarationCause::ElimForbidden(name, sort)))
        }
        EnvFault::TooLarge => Stop::Refused(Cause::Term(TermCause::TooLarge)),
        EnvFault::TooDeep => Stop::Refused(Cause::Term(TermCause::TooDeep)),
        EnvFault::NoMemory => Stop::NoMemory,
    }
}

impl From<EnvFault> for Stop {
    ghost use Rattle.std.specs.Prelude.{◌≡◌};
    ghost use Rattle.lq_causes.specs.Stops.{env_stop};

    ghost from_gives = { λ s e. e ≡ env_stop s };

    fn from(fault: EnvFault) -> Stop {
        environment_stop(fault)
    }
}

impl From<KernelFault> for Stop {
    ghost use Rattle.std.specs.Prelude.{◌≡◌};
    ghost use Rattle.lq_causes.specs.Stops.{kernel_stop};

    ghost from_gives = { λ s e. e ≡ kernel_stop s };

    fn from(fault: KernelFault) -> Stop {
        match fault {
            KernelFault::Unbound(name) => Stop::Refused(Cause::Term(TermCause::Unknown(name))),
            KernelFault::NotAProduct(kind) => {
                Stop::Refused(Cause::Term(TermCause::NotAProduct(kind)))
            }
            KernelFault::NotASort(kind) => Stop::Refused(Cause::Term(TermCause::NotASort(kind))),
            KernelFault::Mismatch(found, wanted) => {
                Stop::Refused(Cause::Term(TermCause::Mismatch(found, wanted)))
            }
            KernelFault::NoSortAbove => Stop::Refused(Cause::Term(TermCause::NoSortAbove)),
            KernelFault::HasVariable(number) => {
                Stop::Refused(Cause::Term(TermCause::HasVariable(number)))
            }
            KernelFault::StepsOut => Stop::Refused(Cause::Term(TermCause::StepsOut)),
            KernelFault::TooBig(name, argument) => {
                Stop::Refused(Cause::Declaration(DeclarationCause::TooBig(name, argument)))
            }
            KernelFault::TooLarge => Stop::Refused(Cause::Term(TermCause::TooLarge)),
            KernelFault::TooDeep => Stop::Refused(Cause::Term(TermCause::TooDeep)),
            KernelFault::Env(fault) => environment_stop(fault),
            KernelFault::NoMemory => Stop::NoMemory,
        }
    }
}
