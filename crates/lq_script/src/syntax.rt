//! What a script's sentences are, as read: the trees of the grammar with names as text.

/// A term as it is written.
#[derive(Drop)]
pub enum Surface {
    /// A name.
    Named(String),
    /// The sort of the propositions.
    Prop,
    /// `forall x : A, B`.
    Forall(String, Box<Surface>, Box<Surface>),
    /// `A -> B`.
    Arrow(Box<Surface>, Box<Surface>),
}

/// A tactic.
#[derive(Drop)]
pub enum Tactic {
    /// `intro x`.
    Intro(String),
    /// `exact x`.
    Exact(String),
}

/// A sentence.
#[derive(Drop)]
pub enum Sentence {
    /// `Theorem x : A`.
    Theorem(String, Surface),
    /// `Proof`.
    Proof,
    /// Tactics, joined by `;`.
    Tactics(Vec<Tactic>),
    /// `Qed`.
    Qed,
}
