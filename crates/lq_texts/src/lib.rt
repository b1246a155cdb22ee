//! What is printed of terms, goals and faults: `specs/` defines it, and that a printed term is read again.
#![tactic(auto)]
