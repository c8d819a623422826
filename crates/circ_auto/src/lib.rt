//! Finite automata: [`read_automaton`] gives the automaton that some bytes read as, or the first
//! cause why they read as none, and [`compare`] says whether two automata accept the same words.
//!
//! What bytes read as, what the first cause is and which words are accepted is defined in `specs`;
//! [`laws`] states what is proved of these notions. `docs/automata.md` has the rules in plain
//! words.
#![tactic(auto)]

mod ahead;
mod automaton;
mod fault;
pub mod laws;
mod numbers;
mod pairs;
mod reader;
mod repeats;
mod rows;
mod statements;
mod visits;

pub use automaton::{Automaton, same_letters};
pub use fault::{AutoCause, AutoFault};
pub use pairs::{Compared, compare};
pub use reader::read_automaton;

/// The most letters of an automaton.
pub const MOST_LETTERS: usize = 64;

/// The most states of an automaton.
pub const MOST_STATES: usize = 1_000;
