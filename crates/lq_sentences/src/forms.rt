//! The words that begin a form, one for each.

use lq_ast::Manner;

/// A word that begins an expression before another one.
#[derive(Clone, Copy)]
pub enum Prefix {
    /// `try`
    Try,
    /// `repeat`
    Repeat,
    /// `once`
    Once,
    /// `exactly_once`
    ExactlyOnce,
    /// `progress`
    Progress,
    /// `do`
    Do,
    /// `tryif`
    Tryif,
}

/// A word that begins a basic expression and no primitive.
#[derive(Clone, Copy)]
pub enum Form {
    /// `first`
    First,
    /// `solve`
    Solve,
    /// `match`, `lazymatch`, `multimatch`
    Match(Manner),
    /// `idtac`
    Idtac,
    /// `fail`
    Fail,
    /// `gfail`
    Gfail,
    /// `fun`
    Fun,
    /// `let`
    Let,
    /// `fresh`
    Fresh,
    /// `type`
    Type,
    /// `eval`
    Eval,
    /// `constr`
    Constr,
    /// `context`
    Context,
    /// `shelve`
    Shelve,
    /// `revgoals`
    Revgoals,
    /// `cycle`
    Cycle,
    /// `swap`
    Swap,
}

/// A word that begins a primitive.
#[derive(Clone, Copy)]
pub enum Primitive {
    /// `intro`
    Intro,
    /// `intros`
    Intros,
    /// `exact`
    Exact,
    /// `refine`
    Refine,
    /// `apply`
    Apply,
    /// `eapply`
    Eapply,
    /// `assumption`
    Assumption,
    /// `constructor`
    Constructor,
    /// `split`
    Split,
    /// `left`
    Left,
    /// `right`
    Right,
    /// `exists`
    Exists,
    /// `assert`
    Assert,
    /// `cut`
    Cut,
    /// `pose`
    Pose,
    /// `exfalso`
    Exfalso,
    /// `reflexivity`
    Reflexivity,
    /// `elim`
    Elim,
    /// `induction`
    Induction,
    /// `destruct`
    Destruct,
    /// `rewrite`
    Rewrite,
    /// `unfold`
    Unfold,
    /// `change`
    Change,
    /// `hnf`
    Hnf,
    /// `compute`
    Compute,
    /// `clear`
    Clear,
    /// `rename`
    Rename,
    /// `revert`
    Revert,
    /// `generalize`
    Generalize,
}

/// A word that begins a command, but for `Fail`.
#[derive(Clone, Copy)]
pub enum Command {
    /// `Inductive`
    Inductive,
    /// `Definition`
    Definition,
    /// `Theorem`
    Theorem,
    /// `Lemma`
    Lemma,
    /// `Proof`
    Proof,
    /// `Qed`
    Qed,
    /// `Defined`
    Defined,
    /// `Abort`
    Abort,
    /// `Unshelve`
    Unshelve,
    /// `Show`
    Show,
    /// `Print`
    Print,
    /// `Check`
    Check,
    /// `Ltac`
    Ltac,
    /// `Outcomes`
    Outcomes,
}
