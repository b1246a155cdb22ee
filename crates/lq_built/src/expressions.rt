//! Whether an expression is built. Recursion goes as deep as a script nests expressions; what stands in a row is gone through.
//! Each part is looked at, also where another isn't built.

ghost use Rattle.std.specs.Prelude.{◌≡◌, map};
ghost use Rattle.std.specs.List.{list_all};
ghost use Rattle.lq_ast.specs.Plain.{plain_prim};
ghost use Rattle.lq_ast.specs.PlainTactics.{plain_tac, plain_step, plain_clause, plain_binding, plain_arg};
ghost use Rattle.lq_sessions.specs.Built.{is_built, clause_built, binding_built, arg_built};
ghost use Rattle.lq_built.specs.Parts.{parts_of, step_built, prim_built};

use crate::parts::Parts;
use lq_ast::{Arg, Binding, Clause, PrimTac, Step, Tac};

/// Whether a primitive of the first table is built.
#[tactic(auto, unfolding(lq_ast::specs::Plain::plain_prim, lq_sessions::specs::Built::is_built))]
fn primitive_built(parts: Parts, primitive: &PrimTac) -> bool
    ensures { result ≡ prim_built (parts_of parts) (plain_prim primitive.now) }
{
    match primitive {
        PrimTac::Constructor(None) => parts.backtracking,
        _ => true,
    }
}

/// Whether an expression holds nothing that is not built.
#[cycle(expressions)]
#[tactic(auto, using(crate::proofs::Productions::built))]
pub fn expression_built(parts: Parts, tac: &Tac) -> bool
    ensures { result ≡ is_built (parts_of parts) (plain_tac tac.now) }
{
    match tac {
        Tac::Sequence(first, steps) => {
            expression_built(parts, first.get()) & steps_built(parts, steps.as_slice())
        }
        Tac::Try(inner) | Tac::Repeat(inner) | Tac::Once(inner) | Tac::Progress(inner) => {
            parts.values & expression_built(parts, inner.get())
        }
        Tac::ExactlyOnce(inner) => parts.backtracking & expression_built(parts, inner.get()),
        Tac::Do(_, inner) | Tac::Lambda(_, inner) => {
            parts.values & expression_built(parts, inner.get())
        }
        Tac::Tryif(test, then, otherwise) => {
            parts.values
                & expression_built(parts, test.get())
                & expression_built(parts, then.get())
                & expression_built(parts, otherwise.get())
        }
        Tac::Plus(left, right) => {
            parts.backtracking
                & expression_built(parts, left.get())
                & expression_built(parts, right.get())
        }
        Tac::Orelse(left, right) => {
            parts.values
                & expression_built(parts, left.get())
                & expression_built(parts, right.get())
        }
        Tac::First(branches) | Tac::Solve(branches) => {
            parts.values & each_built(parts, branches.as_slice())
        }
        Tac::Match(_, _, clauses) => parts.matching & clauses_built(parts, clauses.as_slice()),
        Tac::LetTac(_, bindings, rest) => {
            parts.values
                & bindings_built(parts, bindings.as_slice())
                & expression_built(parts, rest.get())
        }
        Tac::Call(_, arguments) => parts.values & arguments_built(parts, arguments.as_slice()),
        Tac::Prim(primitive) => primitive_built(parts, primitive),
        Tac::Idtac(messages) => messages.is_empty() | parts.values,
        Tac::Fail(_, _) | Tac::Gfail(_, _) | Tac::Fresh(_) | Tac::Number(_) => parts.values,
        Tac::TypeOf(_) | Tac::Eval(_, _) | Tac::Constr(_) => parts.values,
        Tac::Context(_, _) => parts.matching,
        Tac::Rule(_) | Tac::Shelve | Tac::Revgoals | Tac::Cycle(_, _) | Tac::Swap(_, _) => {
            parts.focus
        }
    }
}

/// Whether each expression in a row is built.
#[cycle(expressions)]
#[tactic(auto, using(crate::proofs::Productions::built))]
fn each_built(parts: Parts, tacs: &[Tac]) -> bool
    ensures { result ≡ list_all (λ a. is_built (parts_of parts) (plain_tac a)) tacs.now }
{
    let mut all = true;
    for tac in tacs {
        all = all & expression_built(parts, tac);
    }
    all
}

/// Whether what stands behind a `;` is built.
#[cycle(expressions)]
#[tactic(auto, using(crate::proofs::Productions::built))]
fn step_built(parts: Parts, step: &Step) -> bool
    ensures { result ≡ step_built (parts_of parts) (plain_step step.now) }
{
    match step {
        Step::Then(tac) => expression_built(parts, tac),
        Step::Each(places) => parts.values & each_built(parts, places.as_slice()),
        Step::Fill(before, middle, behind) => {
            parts.values
                & each_built(parts, before.as_slice())
                & expression_built(parts, middle)
                & each_built(parts, behind.as_slice())
        }
    }
}

/// Whether all that stands behind an expression's `;` is built.
#[cycle(expressions)]
#[tactic(auto, using(crate::proofs::Productions::built))]
fn steps_built(parts: Parts, steps: &[Step]) -> bool
    ensures { result ≡ list_all (λ s. step_built (parts_of parts) (plain_step s)) steps.now }
{
    let mut all = true;
    for step in steps {
        all = all & step_built(parts, step);
    }
    all
}

/// Whether a clause of a match is built.
#[cycle(expressions)]
#[tactic(auto, using(crate::proofs::Productions::built))]
fn clause_built(parts: Parts, clause: &Clause) -> bool
    ensures { result ≡ clause_built (parts_of parts) (plain_clause clause.now) }
{
    match clause {
        Clause::Any(tac) | Clause::Pat(_, tac) | Clause::Sequent(_, _, tac) => {
            expression_built(parts, tac)
        }
    }
}

/// Whether each clause of a match is built.
#[cycle(expressions)]
#[tactic(auto, using(crate::proofs::Productions::built))]
fn clauses_built(parts: Parts, clauses: &[Clause]) -> bool
    ensures { result ≡ list_all (λ c. clause_built (parts_of parts) (plain_clause c)) clauses.now }
{
    let mut all = true;
    for clause in clauses {
        all = all & clause_built(parts, clause);
    }
    all
}

/// Whether a binding of a `let` is built.
#[cycle(expressions)]
#[tactic(auto, using(crate::proofs::Productions::built))]
fn binding_built(parts: Parts, binding: &Binding) -> bool
    ensures { result ≡ binding_built (parts_of parts) (plain_binding binding.now) }
{
    expression_built(parts, &binding.value)
}

/// Whether each binding of a `let` is built.
#[cycle(expressions)]
#[tactic(auto, using(crate::proofs::Productions::built))]
fn bindings_built(parts: Parts, bindings: &[Binding]) -> bool
    ensures { result ≡ list_all (λ b. binding_built (parts_of parts) (plain_binding b)) bindings.now }
{
    let mut all = true;
    for binding in bindings {
        all = all & binding_built(parts, binding);
    }
    all
}

/// Whether an argument of a call is built.
#[cycle(expressions)]
#[tactic(auto, using(crate::proofs::Productions::built))]
fn argument_built(parts: Parts, argument: &Arg) -> bool
    ensures { result ≡ arg_built (parts_of parts) (plain_arg argument.now) }
{
    match argument {
        Arg::Inner(tac) => expression_built(parts, tac),
        Arg::Atom(_) | Arg::Numeral(_) => true,
    }
}

/// Whether each argument of a call is built.
#[cycle(expressions)]
#[tactic(auto, using(crate::proofs::Productions::built))]
fn arguments_built(parts: Parts, arguments: &[Arg]) -> bool
    ensures { result ≡ list_all (λ a. arg_built (parts_of parts) (plain_arg a)) arguments.now }
{
    let mut all = true;
    for argument in arguments {
        all = all & argument_built(parts, argument);
    }
    all
}
