//! The search for a proof, turn by turn.
//!
//! A [`Search`] says what a search goes by. [`Search::run`] takes a [`State`] from turn to turn
//! until every goal is done, or tells the [`End`]; [`Search::turn`] makes one turn. What the turns
//! of a search with hypotheses as rules share with these is public.
#![tactic(auto)]

mod end;
mod search;
mod state;
mod steps;
mod turns;

pub use end::End;
pub use search::{Limits, Search};
pub use state::State;

/// The most steps of a proof.
pub const MOST_STEPS: u64 = 100_000;
