//! Pairs of sides to which a lemma pass was made.
ghost use Rattle.std.specs.Prelude.{◌≡◌, ◌&&◌, [], ◌∷◌, OnOk};
ghost use Rattle.circ_term.specs.Order.{is_same};
ghost use Rattle.circ_attempt.specs.Attempt.{has_stood};
ghost use Rattle.circ_rewriting_turn.specs.Passed.{plain_sides};

use circ_term::Term;
use std::alloc::{AllocError, Global};
use std::marker::Model;

/// Pairs of sides to which a lemma pass was made since the goal in hand was taken. Contracts see
/// the list, the last pair first.
#[derive(Drop)]
pub struct Passed {
    pairs: Vec<PassedSides>,
}

// Two sides to which a pass was made.
#[derive(Drop)]
struct PassedSides {
    left: Term,
    right: Term,
}

impl Model for Passed {
    ghost use Rattle.circ_attempt.specs.Attempt.{Stood};
    ghost use Rattle.circ_rewriting_turn.specs.Stood.{stood_code};

    ghost Value = { Stood };

    ghost coded = { stood_code };

    ghost use Rattle.circ_rewriting_turn.specs.Passed.{plain_passed};

    ghost view = { λ a. plain_passed a.pairs.items };
}

impl Passed {
    /// No pass was made.
    pub fn new(alloc: Global) -> Passed
        ensures { result ≡ [] }
    {
        Passed {
            pairs: Vec::new(alloc),
        }
    }

    /// No pass was made to the goal in hand now.
    pub fn clear(&mut self)
        ensures { self.new ≡ [] }
    {
        self.pairs.clear();
    }

    /// A pass was made to these sides.
    pub fn push(&mut self, left: &Term, right: &Term) -> Result<(), AllocError>
        ensures { OnOk result (self.new ≡ (left.now, right.now) ∷ self.old) }
    {
        self.pairs.push(PassedSides {
            left: left.share()?,
            right: right.share()?,
        })?;
        Ok(())
    }

    /// Whether a pass was made to these sides.
    pub fn has(&self, left: &Term, right: &Term) -> bool
        ensures { result ≡ has_stood left.now right.now self.now }
    {
        for sides in &self.pairs {
            if sides.are(left, right) {
                return true;
            }
        }
        false
    }
}

impl PassedSides {
    // Whether these are the sides. A side that stays while the other changes is not walked.
    fn are(&self, left: &Term, right: &Term) -> bool
        ensures { result ≡ (is_same left.now self.now.left && is_same right.now self.now.right) }
    {
        if right.fingerprint() != self.right.fingerprint() {
            return false;
        }
        left.same(&self.left) && right.same(&self.right)
    }
}
