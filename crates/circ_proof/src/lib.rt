//! Proofs as data, and what they have to show.
//!
//! A [`Link`] records one step of rewriting, a [`Chain`] those on two sides, a [`Why`] a reason of
//! the rule Reduce, a [`Step`] one step of circular coinduction; a link by an equation or a
//! hypothesis with conditions has a chain for each of them. A [`Proof`] has a table of terms, the
//! special set with its certificates, and the blocks. Contracts see them as plain data over numbers
//! of terms, or over the terms themselves (`LinkOf`, `plain_state`, `plain_proof` of specs/).
//!
//! `Leads` says where a link leads, `Justified` what a reason shows, `StepOf` what a step does by
//! the rules of circular coinduction, `Certified` what a certificate shows, `ProofFor` when a proof
//! fits a theory, `Accepted` and `FirstFail` what it comes to. The crate has no code but its types.
#![tactic(auto)]

mod links;
mod proof;
mod state;

pub use links::{Chain, Link, Way, Why};
pub use proof::{Block, GoalNames, Proof, Step};
pub use state::State;

/// The most terms of a table.
pub const MOST_TERMS: usize = 16_777_216;
