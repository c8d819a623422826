//! Normal forms under rules with conditions, by definitions alone: what is due where conditions
//! have to hold (`due_trying`), normal forms (`conditional_norm`), which of them stay the same
//! wherever they stand (`IsSureForm`), and a subterm by itself (`run_in`). [`laws`] states what is
//! proved of them.
#![tactic(auto)]

pub mod examples;
pub mod laws;
