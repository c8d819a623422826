//! The statements of a theory text, one at a time.
//!
//! [`statement`] reads the tokens of one statement, without any theory: what it declares or says,
//! where its names and terms stand, and what its attributes make of each form. What a statement
//! says, and by which word one is left out, is defined in `specs` as relations between lists of
//! words and what they say. The goals of scripts are cut by two of its steps, [`sides`] and
//! [`under_conditions`].
#![tactic(auto)]

mod attributes;
mod fault;
mod heads;
mod keywords;
pub mod laws;
mod outside;
mod places;
mod reading;
mod spellings;
mod statements;

pub use fault::StatementFault;
pub use keywords::is_name;
pub use reading::{sides, statement, under_conditions};
pub use statements::{Conditional, Sides, Spelling, Statement};

/// The greatest precedence that can be given.
pub const MOST_PRECEDENCE: u8 = 127;

/// The precedence of a form that begins or ends with a hole, where none is given.
pub const USUAL_PRECEDENCE: u8 = 41;
