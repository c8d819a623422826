//! How a run ends, and the texts of answers.
//!
//! [`Status`] says how a run ended; its number is the exit status of the program. An [`Ending`] is
//! how the work of a command ends, before anything is stored or printed. [`push_unreadable`],
//! [`push_spent`] and the calls that append numbers put the texts of answers together.
#![tactic(auto)]

mod ending;
mod status;
mod texts;

pub use ending::{Ending, Stored};
pub use status::{CHECKED_FILE, SCRIPT_FILE, STORED_FILE, Status, THEORY_FILE};
pub use texts::{push_counted, push_numbered, push_spent, push_unreadable};
