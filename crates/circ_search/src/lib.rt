//! The search for proofs by circular coinduction.
//!
//! [`prove`] searches a proof of blocks of goals, which may have conditions, and gives it in the
//! form in which it is stored. [`found_at`] says what is found where a search ends.
#![tactic(auto)]

mod found;
mod proving;
mod versions;

pub use circ_turn::Limits;
pub use found::Found;
pub use proving::{found_at, prove};
