//! Patterns, found by the operators at their roots, and where many have the same, by their paths.
//!
//! [`RuleIndex`] finds the first of many left sides that has a term as an instance, [`PairIndex`]
//! the first of many pairs that has two terms as an instance, one way or the other. What a look-up
//! costs goes by the patterns that begin as the terms do, and not by all that there are. To add a
//! pattern costs the same however many there are. A [`Finder`] is what both are made of: it finds
//! the places of patterns that may become a term, in their order, also for a term that is known by
//! its number.
#![tactic(auto)]

mod finder;
mod keys;
mod numbers;
mod pairs;
mod paths;
mod rows;
mod rules;
mod walk;

pub use finder::Finder;
pub use keys::{left_key, rule_keys};
pub use numbers::number_keys;
pub use pairs::PairIndex;
pub use rules::RuleIndex;
pub use walk::Walk;
