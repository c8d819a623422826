//! What is found of goals.
use circ_entry::Entry;
use circ_term::Term;

/// What is found of a goal.
#[derive(Drop)]
pub enum Refuted {
    /// The experiment of these entries leads the sides to these two constants, which are different
    /// and of one case list.
    Differs {
        entries: Vec<Entry>,
        left: Term,
        right: Term,
    },
    /// No difference is found, and no pair is left.
    Alike,
    /// A budget is spent.
    Spent,
    /// A term would have this many nodes.
    TooBig {
        nodes: u64,
    },
    /// A term would have this depth.
    TooDeep {
        depth: u64,
    },
}

/// What is found of goals in order.
#[derive(Drop)]
pub struct Decision {
    /// The number, counted from 1, of the first goal that is not alike. Where all are, it is one
    /// more than there are.
    pub goal: u64,
    /// What is found of that goal.
    pub refuted: Refuted,
}
