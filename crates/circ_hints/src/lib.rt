//! Hints for standard error: where an answer points to, and what was expected there.
//!
//! Nothing is promised of a hint but that it is made safely and in finite time. [`Asked`] takes the
//! words of a run apart; [`unreadable`], [`unread_expression`], [`stuck_goal`], [`stuck_end`],
//! [`search_calls`], [`no_difference`], [`explain_call`], [`misfit`] and [`usage`] give the hint of
//! an answer, from the same words and the same files. [`SeenLines`] sees the cases and the sides that an answer has
//! printed, and [`Progress`] how much of a file was taken.
#![tactic(auto)]

mod automata;
mod causes;
mod commands;
mod conditions;
mod declared;
mod differ_hint;
mod drawing;
mod expressions;
mod known;
mod left_out;
mod marks;
mod misfit_hint;
mod openings;
mod parts;
mod prefixes;
mod progress;
mod proof_lines;
mod run_words;
mod scripts;
mod seen_lines;
mod shapes;
mod signatures;
mod stuck_hint;
mod terms;
mod texts;
mod unreadable_hint;
mod usage_hint;

pub use differ_hint::no_difference;
pub use expressions::unread_expression;
pub use misfit_hint::misfit;
pub use progress::Progress;
pub use run_words::Asked;
pub use seen_lines::{Seen, SeenLines};
pub use stuck_hint::{explain_call, search_calls, stuck_end, stuck_goal};
pub use unreadable_hint::{Source, SourceKind, unreadable};
pub use usage_hint::usage;
