//! Why an accepted proof is to be believed: its goals and its derived goals behave, and no proof
//! is both accepted and refused. This crate has no code: its laws are contracts of functions that
//! do nothing, and docs/soundness.md tells the argument.
#![tactic(auto)]

mod laws;

pub use laws::{a_place_is_used, derived_behave, goals_behave, nothing_left_out, one_verdict};
