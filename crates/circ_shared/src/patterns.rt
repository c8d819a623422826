//! Pairs of interned terms.
ghost use Rattle.std.specs.Prelude.{◌≡◌};
ghost use Rattle.circ_shared.specs.Rewriting.{IsTurned};

use circ_theory::Way;

/// Two terms, by number.
#[derive(Clone, Copy)]
pub struct Sides {
    pub left: u32,
    pub right: u32,
}

/// A goal, an equation or a hypothesis: its terms by number, and the numbers of the variables that
/// may be given terms, in the order of their own numbers and then their sorts.
#[derive(Drop)]
pub struct Pattern {
    pub conds: Vec<Sides>,
    pub sides: Sides,
    pub variables: Vec<u32>,
}

// The sides of a pair: the one that is looked for, and the one that replaces it.
#[derive(Clone, Copy)]
pub(crate) struct Turned {
    pub(crate) from: u32,
    pub(crate) to: u32,
}

impl Sides {
    pub(crate) fn turned(&self, way: Way) -> Turned
        ensures { IsTurned way self.now result }
    {
        match way {
            Way::Forth => Turned {
                from: self.left,
                to: self.right,
            },
            Way::Back => Turned {
                from: self.right,
                to: self.left,
            },
        }
    }
}
