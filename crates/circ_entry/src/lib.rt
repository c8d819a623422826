//! Entries of experiments as they are written: a derivative by its number, and terms for its
//! parameters.
//!
//! Two derivatives of a theory may be the same term and yet be different ones, so an [`Entry`] goes
//! by number. Contracts see entries as `Written` of specs/Entries.antt; `written_entries` is the
//! experiment that they are, `FitsWritten` says when it fits a sort, and [`misfit`] tells which
//! entry does not.
#![tactic(auto)]

mod entries;
mod fitting;

pub use entries::{Entry, share_entries};
pub use fitting::misfit;
