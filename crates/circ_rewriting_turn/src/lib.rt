//! The search with `--rewrite`, turn by turn.
//!
//! [`run`] takes a state from turn to turn until every goal is done, or tells the end, where hidden
//! lemmas are taken in order and attempts are made with the block's own hypotheses as rules
//! ([`PassRules`]). [`turn`] makes one turn; [`Passed`] has the pairs of sides to which a lemma pass
//! was made since the goal in hand was taken. What a turn may try is public: [`lemma_pass`] and
//! [`attempt`].
#![tactic(auto)]

mod attempting;
mod joining;
mod pass_rules;
mod passed;
mod running;
mod steps;
mod turning;

pub use attempting::attempt;
pub use pass_rules::PassRules;
pub use passed::Passed;
pub use running::{run, turn};
pub use turning::lemma_pass;
