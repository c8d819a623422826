//! What becomes of all goals of a proof.
//!
//! [`Ground::read`] goes through the blocks of an accepted proof and keeps what becomes of each goal,
//! as nodes by number, in a [`Book`]: `told` of circ_expansion says what that is.
#![tactic(auto)]

mod book;
mod histories;
mod meetings;

pub use book::{Book, Derivations, Followed};
pub use histories::{Node, What};
pub use meetings::Ground;
