//! What is written out so far, and derivations as rows.
//!
//! [`Values`] keeps rows of pieces and parts of cases as nodes by number, and hands out the last row
//! as a list of [`Row`]s, with no recursion over cases that stand inside one another.
#![tactic(auto)]

mod nodes;
mod rows;
mod values;
mod writing;

pub use rows::{Given, Row};
pub use values::Values;
