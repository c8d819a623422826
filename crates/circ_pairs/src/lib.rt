//! Pairs of terms, equations and goals, and their variables.
//!
//! A [`Goal`] has two sides and conditions, which are [`Pairs`], and so has an [`Equation`]. This
//! crate knows nothing of a signature: it tells which variables occur, whether they are numbered in
//! order, and which numbers are free, and numbers them anew. circ_theory hands on what it has.
#![tactic(auto)]

mod building;
mod fresh;
mod goals;
mod observing;
mod order;
mod pairs;
mod renumber;

pub use building::{constant_of, variables_from};
pub use fresh::{above, above_pairs, fresh_after, fresh_in};
pub use goals::{Equation, Goal};
pub use observing::{Slots, first_repeated, parameters_in_order, slots_of};
pub use order::{EquationVariables, equation_variables, in_order};
pub use pairs::{Pair, Pairs, has_condition_of, share_pairs};
pub use renumber::{Occurring, gather, renumbered};
