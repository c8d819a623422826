//! The steps at a place: the certificate from both sides, and the occurrences in its last term, each
//! changed by a use of its own.
#![tactic(auto)]

mod change_steps;
mod place_steps;
mod places;

pub use change_steps::{changes_step, first_step};
pub use place_steps::place_step;
pub use places::{Certificate, Ends};
