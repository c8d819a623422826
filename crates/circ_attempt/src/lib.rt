//! The search with `--rewrite` by definitions alone: hypotheses as rules, the attempt at a hidden
//! goal with limits of its own, and lemmas in order; and why what it proves is accepted. `prove` of
//! circ_search makes this search. This crate has no code: its laws are contracts of functions that
//! do nothing, and docs/search.md tells the search in words.
#![tactic(auto)]

pub mod attempts;
pub mod examples;
pub mod laws;
