//! Regular expressions over two letters, and the theory LANG of their languages: [`read_regex`]
//! reads an expression, [`term_of`] gives its term, and [`lang_theory`] makes the theory.
//!
//! Which words an expression matches is defined in `specs`; [`laws`] states that the terms of two
//! expressions behave alike in LANG exactly if both match the same words. `docs/regex.md` has the
//! rules in plain words.
#![tactic(auto)]

mod build;
mod fault;
mod lang;
pub mod laws;
mod reader;
mod regex;
mod terms;

pub use build::term_of;
pub use fault::RegexFault;
pub use lang::lang_theory;
pub use reader::read_regex;
pub use regex::Regex;

/// The most bytes of an expression.
pub const MOST_BYTES: usize = 1_000;
