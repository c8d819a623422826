//! Reading token lists by a grammar of mixfix terms.
//!
//! What a token list spells by a [`Grammar`] is defined in circ_spelling. [`read_each_sort`] finds
//! for each sort whether a list spells no term, only one, or several. It asks only for the ranges
//! that a reading of the whole list would use, and keeps each answer.
#![tactic(auto)]

mod asked;
mod few;
mod levels;
mod memo;
mod places;
mod reader;
mod readings;
mod rows;
mod variables;

pub use circ_spelling::{CLOSING, Grammar, OPENING, Rule, Symbol, Variable};
pub use readings::read_each_sort;

/// Each precedence is below this one.
pub const EVERY: u8 = 128;

/// The most tokens of a list that is read.
pub const MOST_TOKENS: usize = 256;
