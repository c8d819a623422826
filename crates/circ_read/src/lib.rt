//! Theory texts.
//!
//! [`read_theory`] gives the theory that some bytes read as, or the first cause why they read as
//! none. What bytes read as, and what the first cause is, is defined in `specs`, statement by
//! statement; [`laws`] states what is proved of these notions. `docs/theory-text.md` has the rules
//! in plain words. The steps that the reader of scripts shares are public too.
#![tactic(auto)]

mod body;
mod cases;
mod cause;
mod derivatives;
mod equations;
pub mod laws;
mod library;
mod names;
mod operators;
mod reader;
mod sorts;
mod statement;
mod terms;
mod text;
mod variables;

pub use body::fault_at;
pub use cause::{Cause, Fault, ReadFault, because, byte_fault, done};
pub use equations::spans_of;
pub use names::{sort_named, word};
pub use reader::read_theory;
pub use statement::shape;
pub use terms::{goal_of, unread};
pub use text::{has_word, next_stop};
