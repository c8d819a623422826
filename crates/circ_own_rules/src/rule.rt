//! A hypothesis as a rule.
ghost use Rattle.std.specs.Prelude.{◌≡◌};
ghost use Rattle.circ_attempt.specs.Rules.{old_side};
ghost use Rattle.circ_own_rules.specs.Rules.{plain_rule, new_side};

use circ_term::Term;
use circ_theory::{Goal, Way};

/// A hypothesis in the way in which it is read.
#[derive(Drop)]
pub(crate) struct HypothesisRule {
    /// The hypothesis's number.
    pub(crate) number: u32,
    /// Which of its sides is replaced.
    pub(crate) way: Way,
    /// The hypothesis.
    pub(crate) hypothesis: Goal,
    /// Whether it is taken only where the new term is below the old one.
    pub(crate) ordered: bool,
}

impl HypothesisRule {
    /// The side that the rule replaces.
    pub(crate) fn old_side(&self) -> &Term
        ensures { result.now ≡ old_side (plain_rule self.now) }
    {
        match self.way {
            Way::Forth => &self.hypothesis.left,
            Way::Back => &self.hypothesis.right,
        }
    }

    /// The side that takes its place.
    pub(crate) fn new_side(&self) -> &Term
        ensures { result.now ≡ new_side (plain_rule self.now) }
    {
        match self.way {
            Way::Forth => &self.hypothesis.right,
            Way::Back => &self.hypothesis.left,
        }
    }
}
