//! The turns of a search as text.
//!
//! [`trace`] runs the search that `prove` of circ_search makes, and gives a line for what each turn
//! comes upon and does, before what is answered to what is found.
#![tactic(auto)]

mod account;
mod accounting;
mod descent;
mod descents;
pub mod laws;
mod lines;
mod rewriting_deeds;
mod tracing;
mod turn_ahead;
mod turn_lines;
mod turns;
mod used;

pub use account::{Account, Deed};
pub use descent::Descent;
pub use tracing::trace;
