//! Proof files: [`decode`] gives the one proof that bytes are the text of, or their first fault,
//! and [`encode`] the text of a proof. [`FileReader`] takes the bytes in pieces, and hands out the
//! proof's parts as they come.
#![tactic(auto)]

mod checks;
mod conds;
mod counts;
mod decoding;
mod encoding;
mod fault;
mod givens;
pub mod laws;
mod lines;
mod machine;
mod moving;
mod numbering;
mod reader;
mod splits;
mod steps;
mod table;
mod taken;
mod writing;

pub use decoding::{decode, decode_with_table};
pub use encoding::encode;
pub use fault::FileFault;
pub use reader::FileReader;

/// The most steps of a proof.
const MOST_PROOF_STEPS: u64 = 100_000;

/// The most splits inside one another.
const MOST_SPLITS: usize = 8;

/// The most conditions of a goal, and the most of links inside one another.
const MOST_CONDITIONS: u64 = 8;

/// The most entries of a path.
const MOST_ENTRIES: usize = 1_000;
