//! The commands that need no search: what each makes of its files.
//!
//! [`check`] checks a proof file and reports its goals, or with them the relation that it builds;
//! [`show`] and [`contexts`] print what a theory is read as, and its greatest special set;
//! [`reduce`] brings the terms of a script to their normal forms, [`same`] compares two automata,
//! [`upgrade`] gives a proof in version 2, [`expand`] writes out a derivation from a proof, and
//! [`library`] gives a text of the library. Each takes its files from a shelf and gives a text or
//! an ending, or the answer in its place. What is stored and printed of this is circ_top's.
#![tactic(auto)]

mod checking;
mod comparing;
mod expanding;
mod fresh;
mod giving;
mod incoming;
mod left_out;
mod listing;
mod normalising;
mod proof_file;
mod renewing;
mod report;
mod rows;
mod showing;

pub use checking::check;
pub use comparing::same;
pub use expanding::expand;
pub use giving::library;
pub use listing::contexts;
pub use normalising::reduce;
pub use renewing::upgrade;
pub use report::Report;
pub use showing::show;
