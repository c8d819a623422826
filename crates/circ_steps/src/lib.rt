//! Steps of proofs on interned terms: exact by the words of circ_rules, which does them on terms.
//!
//! Terms go by their numbers in a table of circ_nodes, so that what a step costs is bounded by its
//! links and by the distinct nodes that it meets, however large the terms are that the numbers
//! stand for. [`SharedState`] has hypotheses and goals by number, and [`Rules`] does steps on it;
//! [`equations`] and [`derivatives`] give those of a theory by number, and [`table_numbers`] the
//! numbers of a table's terms.
#![tactic(auto)]

mod applying;
mod cases;
mod derivative;
mod derive;
mod rules;
mod sharing;
mod states;
mod tables;

pub use derivative::{SharedDerivative, derivatives};
pub use rules::Rules;
pub use sharing::{equations, share_pairs};
pub use states::{SharedGoal, SharedState};
pub use tables::table_numbers;
