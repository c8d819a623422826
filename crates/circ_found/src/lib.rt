//! What is answered after a search: the status, its text, and the text of the proof that is to be
//! stored.
//!
//! [`search`] searches for a proof of goals and gives how that ends, [`found_ending`] gives it for
//! what was found, and [`differ`] looks for an experiment that tells the sides of one apart;
//! [`searchable`] and [`plainly_searchable`] say that the goals of a script can be searched for.
#![tactic(auto)]

mod answering;
mod counts;
mod differing;
mod script_goals;
mod texts;

pub use answering::{GREATEST_DERIVES, GREATEST_STEPS, found_ending, search};
pub use differing::differ;
pub use script_goals::{plainly_searchable, searchable};
pub use texts::push_counts;
