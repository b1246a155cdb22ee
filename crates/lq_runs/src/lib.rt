//! Runs, abstract machines and the two stacks of a stream: `specs/` has their definitions, `proofs/` their laws.
#![tactic(auto)]
