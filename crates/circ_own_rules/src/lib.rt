//! Hypotheses as the rules of passes.
//!
//! [`HypothesisRules`] are hypotheses in the way in which each is read, found by the sides that
//! they replace: the hidden lemmas of a block, or its own rules. [`RulePassing::pass_both`] goes
//! over both sides of a goal with two such lists at special paths, and tries their conditions.
#![tactic(auto)]

mod below;
mod passing;
mod reading;
mod rule;
mod rules;
mod sweeping;
mod using;

pub use passing::RulePassing;
pub use rules::HypothesisRules;
