//! Theories and goals as text.
//!
//! [`theory_text`] appends a whole theory, [`goals_text`] the goals of a proof, [`relation_text`]
//! what its blocks derived, and [`contexts_text`] a special set. [`unobserved`] tells whether no
//! experiment fits a hidden sort: of such a sort every pair behaves, so the text of a theory ends
//! with a line for each.
#![tactic(auto)]

mod attributes;
mod contexts;
mod entries;
mod goals;
pub mod laws;
mod lines;
mod observed;
mod relation;
mod theories;

pub use contexts::contexts_text;
pub use entries::entry_text;
pub use goals::goals_text;
pub use observed::unobserved;
pub use relation::relation_text;
pub use theories::theory_text;
