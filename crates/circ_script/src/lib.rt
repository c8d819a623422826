//! Scripts: what is to be proved, told apart or reduced in a theory.
//!
//! [`read_script`] gives the script that some bytes read as for a [`Job`], or the first cause why
//! they read as none. What bytes read as, and what the first cause is, is defined in `specs`, item
//! by item; [`laws`] states what is proved of these notions. `docs/scripts.md` has the rules in
//! plain words.
#![tactic(auto)]

mod adding;
mod goals;
mod items;
mod job;
pub mod laws;
mod reader;
mod script;
mod spans;
mod variables;

pub use job::Job;
pub use reader::read_script;
pub use script::Script;
