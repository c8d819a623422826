//! What the blocks of a search are proved with.
//!
//! A [`BlockRules`] has the rules of a block, with the normal forms by them under the conditions of
//! goals, and the lemmas of its lemma passes. [`derivatives_on`] gives the goals that Derive makes,
//! and [`step_is_deep`] tells whether a step needs the special set.
#![tactic(auto)]

mod block;
mod deep;
mod derivatives;
mod lemma;
mod reducing;

pub use block::BlockRules;
pub use deep::step_is_deep;
pub use derivatives::derivatives_on;
pub use reducing::GoalReducer;
