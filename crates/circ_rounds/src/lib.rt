//! The attempt at a hidden goal.
//!
//! [`Attempting::attempt`] makes passes over both sides of a goal in which the block's own rules are
//! taken too, within limits of its own, and gives the chain that makes the sides equal, if they
//! Join.
#![tactic(auto)]

mod attempt;
mod round;
mod run;
mod sides;

pub use attempt::Attempting;

/// The most rounds of an attempt.
pub const MOST_ROUNDS: u32 = 8;

/// The most rewrite steps of an attempt.
pub const MOST_REWRITES: u64 = 100;
