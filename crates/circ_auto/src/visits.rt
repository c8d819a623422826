//! What a search of the pairs of states of two automata holds.
ghost use Rattle.std.specs.Prelude.{◌≡◌, length};

use crate::automaton::Automaton;

/// A pair of states that the search has come to.
#[derive(Clone, Copy)]
pub struct Visit {
    /// The pair's number.
    pub point: u32,
    /// The place, in the list of visits, of the visit that it was reached from. The first visit has
    /// none, and 0 here.
    pub parent: u32,
    /// The letter by which it was reached.
    pub letter: u32,
    /// The number of letters on the way to it.
    pub depth: u32,
}

/// A search of the pairs of states, breadth first.
#[derive(Drop)]
pub(crate) struct Walk<'a> {
    pub(crate) first: &'a Automaton,
    pub(crate) second: &'a Automaton,
    pub(crate) visits: Vec<Visit>,
    pub(crate) seen: Vec<bool>,
    ghost same_letters: { length second.now.letters ≡ length first.now.letters },
}
