//! What is known of a term by itself, within bounds on size and depth, and what it says of each
//! term in which the term stands. Definitions and lemmas only: [`laws`] states what is proved.
#![tactic(auto)]

pub mod laws;
