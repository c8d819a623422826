//! Matching, exact both ways.
//!
//! [`match_term`] finds the substitution that makes a pattern a term, [`match_pair`] the one that
//! makes two patterns two terms. If there is none they answer `None`. A pattern is gone over once,
//! beside its term, and what a variable is bound to is shared, not copied.
#![tactic(auto)]

pub mod laws;
mod matching;

pub use matching::{match_pair, match_term};
