//! Normal forms under rules with conditions.
//!
//! [`normalise`] answers the normal form of one term, as `circ_conditional_norm` defines it, and a
//! [`Reducer`] the same for many. A rule whose left side matches is tried: both sides of each of
//! its conditions are normalised in the same way, with one try more around them. A subterm is
//! normalised by itself, within bounds on size and depth that its surroundings leave. A term that
//! no rule matches anywhere is known from then on, and is not gone over again. Where no rule has
//! conditions, circ_memo does all of it.
#![tactic(auto)]

mod making;
mod normalising;
mod parts;
mod reducer;
mod settling;
mod store;
mod trying;

pub use normalising::normalise;
pub use parts::MOST_TRIES;
pub use reducer::Reducer;
