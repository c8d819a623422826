//! The numbers of a found proof: what a search has recorded, with its terms, becomes a proof whose
//! links name their terms by numbers in a table.
//!
//! [`numbered`] asks a table for the terms in the order of the proof's lines, so that the table is
//! the one that the definition of the plain search gives (`proof_with`).
#![tactic(auto)]

mod asking;
mod blocks;
mod fault;
mod whys;

pub use blocks::{TermBlock, numbered};
pub use fault::NumberFault;
