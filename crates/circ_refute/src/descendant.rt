//! Pairs that are tested.
use circ_term::Term;

// A pair of terms, with the expanded pair that it came from. The goal came from none.
#[derive(Drop)]
pub(crate) struct Descendant {
    pub(crate) left: Term,
    pub(crate) right: Term,
    pub(crate) origin: Option<Origin>,
}

// Where a pair came from: the place of an expanded pair, counted from 0, the number of the
// derivative that was taken of it, and the number of that derivative's first parameter.
#[derive(Clone, Copy)]
pub(crate) struct Origin {
    pub(crate) parent: usize,
    pub(crate) derivative: u32,
    pub(crate) first: u64,
}
