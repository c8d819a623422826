//! The forms of operators: their texts, cut into words and holes.
//!
//! A [`Form`] says how an operator is written: words, and holes where its arguments go. [`Text`] is
//! a list of bytes.
#![tactic(auto)]

mod forms;
pub mod laws;

pub use forms::{Form, FormFault, Piece, Text};
