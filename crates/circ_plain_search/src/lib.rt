//! The plain search by definitions alone: what a search for a proof comes to, and why what it
//! proves is accepted; and the greatest special set, which it goes by. This crate has no code: its
//! laws are contracts of functions that do nothing, and docs/search.md tells the search in words.
#![tactic(auto)]

pub mod examples;
pub mod laws;
