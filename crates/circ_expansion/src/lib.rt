//! Derivations that are written out from accepted proofs, by definitions alone: what is written out
//! for a goal and an experiment (`expansion`), how it is worked off a stack of tasks (`worked_off`),
//! and why it leads from the one side of the goal to the other. This crate has no code: its laws are
//! contracts of functions that do nothing, and docs/expand.md tells the rest in words.
#![tactic(auto)]

pub mod laws;
