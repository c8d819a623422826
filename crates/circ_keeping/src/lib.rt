//! What is no longer needed goes out of a table of interned terms.
#![tactic(auto)]

mod keeping;
mod marking;
mod taking;

pub use keeping::keep;
