//! The search with conditions by definitions alone: goals with conditions, hypotheses and lemmas
//! that are tried, and case splits of hidden goals; and why what it proves is accepted. This crate
//! has no code: its laws are contracts of functions that do nothing, and docs/conditional-search.md
//! tells the search in words.
#![tactic(auto)]

pub mod examples;
pub mod laws;
