//! What is asked of ranges of tokens.

use circ_spelling::{Rule, Wanted};

/// The symbols of a rule from one of its places on. The rule stands in the grammar at `number`.
#[derive(Clone, Copy)]
pub struct Part<'a> {
    pub rule: &'a Rule,
    pub number: usize,
    pub place: usize,
}

/// Symbols of a rule that begin with a hole and go on.
#[derive(Clone, Copy)]
pub struct Gap<'a> {
    pub part: Part<'a>,
    pub wanted: Wanted,
}
