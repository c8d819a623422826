//! Contents of terms under operators that are associative, commutative or idempotent.
//!
//! Such an operator joins terms, and how they are grouped, their order or how often they stand may
//! not matter. The [`content`] of a term says what it joins, and the [`canonical`] form joins its
//! content again. Terms of the same content are derivable from one another ([`laws`]).
#![tactic(auto)]

mod comparing;
mod contents;
mod joining;
pub mod laws;
mod operands;
mod row;

pub use comparing::same_content;
pub use contents::content;
pub use joining::canonical;
pub use row::is_canonical;
