//! Definitions and laws of Ltac expressions of primitives, `;` and `idtac`: what they mean is paid work on the goals in hand.
#![tactic(auto)]
