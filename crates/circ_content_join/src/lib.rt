//! Join up to content by definitions alone: where an operator is associative and commutative, one
//! hypothesis may join what two sums leave when their common entries are set aside; and why it
//! makes the one side the other. circ_moves makes it, for the search with `--rewrite`. This crate
//! has no code: its laws are contracts of functions that do nothing, and docs/search.md tells it in
//! words.
#![tactic(auto)]

pub mod examples;
pub mod laws;
