//! Canonical forms of interned terms, by number.
//!
//! Terms are compared by number ([`cmp`]): one path is walked, whatever the terms share. If both
//! arguments of an associative operator are their own canonical forms, the form of the whole is one
//! walk of both rows, to the place where one of them ends. Under a commutative operator a single
//! term is put into a row by a binary search, and the row behind its place stays as it is.
#![tactic(auto)]

mod contents;
mod deciding;
mod making;
mod merging;
mod operands;
mod order;
mod owning;
mod placing;
mod reaching;

pub use order::cmp;
pub use owning::{is_canonical, is_canonical_above};
pub use reaching::canonical_form;
