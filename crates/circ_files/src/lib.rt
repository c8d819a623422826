//! The files that a run takes from a shelf.
//!
//! [`take_into`] and [`take_file`] take a whole file in pieces, [`take_theory`] and [`take_script`]
//! what it reads as. Where a file gives nothing, they say so by a status.
#![tactic(auto)]

mod files;
mod intake;
mod script_file;
mod theory_file;

pub use files::{MOST_BYTES, PIECE, take_file, take_into};
pub use intake::Intake;
pub use script_file::take_script;
pub use theory_file::take_theory;
