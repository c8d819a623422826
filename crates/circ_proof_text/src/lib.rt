//! The text of whole proofs: which bytes read as a proof for a theory, where other bytes are first
//! at fault, and which parts of a proof the lines so far show.
//!
//! circ_grammar speaks of a proof as its lines write it, with numbers for terms. Here the numbers
//! get their terms, by `term_for` of `specs`, and the lines their checks and limits.
#![tactic(auto)]

pub mod examples;
pub mod laws;
pub mod reading;
