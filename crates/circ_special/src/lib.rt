//! Special sets of places, special paths, and guarded variables.
//!
//! A [`Gamma`] is a list of places in increasing order. [`Gamma::of`] takes only arguments of
//! hidden sort of operators of hidden sort. A path in a term is special if each step on it goes to
//! a place of the set ([`Gamma::on_path`]). [`guarded`] is the test of the terms to which a set's
//! certificates lead. The greatest special set of a theory is found in circ_contexts.
#![tactic(auto)]

mod fitting;
mod guard;
mod place;

pub use fitting::{fits, has_hole, is_variable};
pub use guard::guarded;
pub use place::{Gamma, Place, is_place};
