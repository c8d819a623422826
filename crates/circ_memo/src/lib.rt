//! Normal forms that are kept: a term is rewritten once, however often it occurs.
//!
//! [`normalise`] answers the normal form of one term, as `circ_rewrite` defines it. A [`Memo`]
//! answers the same for many, and keeps what it finds of each subterm for the calls to come. A
//! subterm is normalised by itself, within bounds on size and depth that its surroundings leave, so
//! that no whole term is built on the way.
#![tactic(auto)]

mod advancing;
mod keeping;
mod listing;
mod memo;
mod normalising;
mod packed;
mod parts;
mod passing;
mod settling;
mod store;

pub use memo::Memo;
pub use normalising::normalise;
