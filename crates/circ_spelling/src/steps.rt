//! What stands at a place of a rule.
ghost use Rattle.std.specs.Prelude.{IsTrue};
ghost use Rattle.circ_spelling.specs.Steps.{IsStep, AreWords};

use crate::grammar::Symbol;

/// The terms of a sort, of a precedence below `below`: those that fit a hole.
#[derive(Clone, Copy)]
pub struct Wanted {
    pub sort: u32,
    pub below: u8,
}

/// The symbols of a rule from a place on: none, a word before others, a last hole, or a hole before
/// others.
#[derive(Clone, Copy)]
pub enum Step {
    AtEnd,
    AtWord(u32),
    AtLast(Wanted),
    AtHole(Wanted),
}

/// What stands at a place of a rule's symbols.
pub fn step_at(symbols: &[Symbol], place: usize) -> Step
    ensures { IsStep result symbols.now place }
{
    if place >= symbols.len() {
        return Step::AtEnd;
    }
    match symbols[place] {
        Symbol::Word(word) => Step::AtWord(word),
        Symbol::Hole { sort, below } => {
            if place + 1 < symbols.len() {
                Step::AtHole(Wanted { sort, below })
            } else {
                Step::AtLast(Wanted { sort, below })
            }
        }
    }
}

/// Whether no hole is there.
pub fn are_words(symbols: &[Symbol]) -> bool
    ensures { IsTrue result → AreWords symbols.now }
{
    for symbol in symbols {
        if let Symbol::Hole { .. } = symbol {
            return false;
        }
    }
    true
}
