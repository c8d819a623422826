//! Chains of streams that are all zeros: their theory and script are made, proved, encoded, decoded
//! and checked.
#![tactic(auto)]

mod chain;
mod generating;

pub use generating::generate;
