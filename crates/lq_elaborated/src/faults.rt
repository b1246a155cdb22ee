//! A refusal of elaboration as what stops a sentence.

ghost use Rattle.std.specs.Prelude.{◌≡◌};
ghost use Rattle.lq_elaborated.specs.Faults.{elab_stop};

use lq_causes::Stop;
use lq_print::{Cause, DeclarationCause, LtacCause, PrimitiveCause, TermCause};
use lq_typing::ElabFault;

/// A refusal of elaboration, as what stops a sentence.
pub fn stop_of(fault: ElabFault) -> Stop
    ensures { result ≡ elab_stop fault }
{
    match fault {
        ElabFault::Unknown(name) => Stop::Refused(Cause::Term(TermCause::Unknown(name))),
        ElabFault::Mismatch(found, wanted) => {
            Stop::Refused(Cause::Term(TermCause::Mismatch(found, wanted)))
        }
        ElabFault::NotAProduct(kind) => Stop::Refused(Cause::Term(TermCause::NotAProduct(kind))),
        ElabFault::NoSortAbove => Stop::Refused(Cause::Term(TermCause::NoSortAbove)),
        ElabFault::CannotInfer(place) => Stop::Refused(Cause::Term(TermCause::CannotInfer(place))),
        ElabFault::NotASort(kind) => Stop::Refused(Cause::Term(TermCause::NotASort(kind))),
        ElabFault::ElimForbidden(name, sort) => {
            Stop::Refused(Cause::Declaration(DeclarationCause::ElimForbidden(name, sort)))
        }
        ElabFault::NameInUse(name) => {
            Stop::Refused(Cause::Primitive(PrimitiveCause::NameInUse(name)))
        }
        ElabFault::StepsOut => Stop::Refused(Cause::Term(TermCause::StepsOut)),
        ElabFault::TooLarge => Stop::Refused(Cause::Term(TermCause::TooLarge)),
        ElabFault::TooDeep => Stop::Refused(Cause::Term(TermCause::TooDeep)),
        ElabFault::Full => Stop::Refused(Cause::Term(TermCause::Full)),
        ElabFault::NotATerm(name) => Stop::Refused(Cause::Ltac(LtacCause::NotATerm(name))),
        ElabFault::NoMemory => Stop::NoMemory,
    }
}
