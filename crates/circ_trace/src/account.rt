//! Accounts of turns.
use circ_term::Term;

/// What a turn comes upon and does: the sides of the goal in hand in normal form, and what is done
/// with them.
#[derive(Drop)]
pub struct Account {
    pub left: Term,
    pub right: Term,
    pub deed: Deed,
}

/// What a turn does with sides in normal form. It is told whether an attempt with the block's own
/// rules was made that closed nothing.
#[derive(Drop)]
pub enum Deed {
    /// They join by these hypotheses; by none where they are equal.
    Joins { hypotheses: Vec<u32> },
    /// A lemma pass uses these hypotheses.
    Passes { hypotheses: Vec<u32> },
    /// An attempt makes them equal, and its links use these hypotheses.
    Closes { hypotheses: Vec<u32> },
    /// None of it: the goal is hidden, and gives way to its cases of this term.
    Cases { attempted: bool, term: Term },
    /// None of it: the goal is derived, or it is visible and split.
    Opens { attempted: bool },
    /// It is not known, since the search ends while a condition is tried, a lemma is put in or an
    /// attempt is made.
    Ends { attempted: bool },
}
