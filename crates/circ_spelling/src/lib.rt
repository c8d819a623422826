//! Grammars of mixfix terms over tokens, which are numbers.
//!
//! A [`Grammar`] has rules, whose symbols are words and holes for terms, and tokens that are
//! variables. What a token list spells is defined in `specs`, as a relation between lists and
//! terms. The calls say of which sorts a grammar has terms, which of its rules can have a part in
//! reading a list, and where terms may end that begin at a place of it.
#![tactic(auto)]

mod closed;
mod ends;
mod fill;
mod grammar;
mod marks;
mod reached;
mod sorts;
mod starts;
mod steps;
mod usable;

pub use ends::Ends;
pub use fill::all_starts;
pub use grammar::{Grammar, Rule, Symbol, Variable};
pub use marks::{is_marked, mark, mark_variables};
pub use sorts::sorts_of;
pub use starts::{Starts, may_spell};
pub use steps::{Step, Wanted, are_words, step_at};
pub use usable::usable_part;

/// The token that is an opening parenthesis.
pub const OPENING: u32 = 0;

/// The token that is a closing parenthesis.
pub const CLOSING: u32 = 1;
