//! The greatest special set of a theory, with the certificates of its places.
//!
//! [`special_places`] finds it, and [`special_contexts`] gives the traces with it.
//! `GreatestSpecialSet` of circ_plain_search says which set that is; its laws are proved there.
#![tactic(auto)]

mod candidates;
mod contexts;
mod places;
mod tracing;

pub use contexts::{special_contexts, special_places};
