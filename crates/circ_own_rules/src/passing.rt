//! What a pass by hypotheses makes of both sides of a goal.
ghost use Rattle.std.specs.Prelude.{◌≡◌, ◌≤◌, ◌++◌};
ghost use Rattle.circ_attempt.specs.Passes.{both_swept};
ghost use Rattle.circ_attempt.specs.Rules.{first_rule_use};
ghost use Rattle.circ_join.specs.Sides.{plain_swept_sides};
ghost use Rattle.circ_join.specs.Trying.{normaliser_of, Works};

use crate::rules::HypothesisRules;
use circ_join::SweptSides;
use circ_rewrite::RewriteFault;
use circ_special::Gamma;
use circ_term::Term;
use circ_tries::Reducer;
use std::alloc::Global;

/// What a pass may use: the lemmas, and behind them the block's own rules.
#[derive(Clone, Copy)]
pub struct RulePassing<'a> {
    /// Where memory comes from.
    pub alloc: Global,
    /// The special set.
    pub gamma: &'a Gamma,
    /// The hidden lemmas.
    pub lemmas: &'a HypothesisRules,
    /// The block's own rules, or none.
    pub own: &'a HypothesisRules,
}

impl RulePassing<'_> {
    /// What a pass makes of both sides, the left one first: at special paths, a term before its
    /// arguments, arguments from the left, and none inside a new term. Each replacement is made
    /// before the next path is looked at. The budget falls by one for each replacement and for each
    /// try; after a limit is passed it holds what was left before the replacement.
    pub fn pass_both(
        &self,
        reducer: &mut Reducer<'_>,
        left: &Term,
        right: &Term,
        budget: &mut u64,
    ) -> Result<SweptSides, RewriteFault>
        ensures exact { Works plain_swept_sides budget.new (both_swept
            (first_rule_use (normaliser_of reducer.old) (self.now.lemmas.now ++ self.now.own.now))
            self.now.gamma.now left.now right.now budget.old) result }
        ensures less { budget.new ≤ budget.old }
        ensures same { reducer.new ≡ reducer.old }
    {
        let left = match self.pass(reducer, left, budget) {
            Ok(left) => left,
            Err(fault) => return Err(fault),
        };
        match self.pass(reducer, right, budget) {
            Ok(right) => Ok(SweptSides { left, right }),
            Err(fault) => Err(fault),
        }
    }
}
