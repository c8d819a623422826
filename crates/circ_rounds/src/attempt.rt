//! The attempt at a hidden goal.
ghost use Rattle.std.specs.Prelude.{◌≡◌, ◌≤◌, ◌+◌, ℕ, Bool, List, [], ◌∷◌, Option};
ghost use Rattle.std.specs.Option.{option_map};
ghost use Rattle.circ_term.specs.Tree.{Tree};
ghost use Rattle.circ_theory.specs.Theory.{Pair};
ghost use Rattle.circ_proof.specs.Plain.{ChainOf, plain_chain};
ghost use Rattle.circ_conditional_norm.specs.Work.{Work};
ghost use Rattle.circ_plain_search.specs.Search.{no_links, sides_with};
ghost use Rattle.circ_join.specs.Trying.{Works};
ghost use Rattle.circ_attempt.specs.Attempt.{attempt, outcome};
ghost use Rattle.circ_rounds.specs.Attempting.{AttemptsIn, rounds_in};

use crate::run::{Next, Run};
use crate::{MOST_REWRITES, MOST_ROUNDS};
use circ_join::Hypotheses;
use circ_own_rules::HypothesisRules;
use circ_proof::Chain;
use circ_rewrite::RewriteFault;
use circ_special::Gamma;
use circ_term::Term;
use circ_theory::Theory;
use circ_tries::Reducer;
use std::alloc::Global;

/// What an attempt goes by.
#[derive(Clone, Copy)]
pub struct Attempting<'a> {
    /// Where memory comes from.
    pub alloc: Global,
    /// The theory.
    pub theory: &'a Theory,
    /// The special set.
    pub gamma: &'a Gamma,
    /// The hypotheses.
    pub hyps: &'a Hypotheses,
    /// The hidden lemmas.
    pub lemmas: &'a HypothesisRules,
    /// The block's own rules.
    pub own: &'a HypothesisRules,
}

impl Attempting<'_> {
    /// The attempt at both sides: the chain that makes them equal, or none. The reducer has the
    /// rules of the block and the conditions of the goal. The budget falls by one for each
    /// replacement and for each try, also where the attempt comes to nothing; it is at most spent
    /// where the attempt may take all that is left.
    pub fn attempt(
        &self,
        reducer: &mut Reducer<'_>,
        left: &Term,
        right: &Term,
        budget: &mut u64,
    ) -> Result<Option<Chain<Term>>, RewriteFault>
        ensures exact { (A : List Pair) (bs : List Bool) → AttemptsIn self.now bs A reducer.old
            → Works (option_map plain_chain) budget.new (attempt self.now.theory.now
            self.now.gamma.now self.now.hyps.now.earlier self.now.hyps.now.all bs A left.now
            right.now budget.old) result }
        ensures less { budget.new ≤ budget.old }
        ensures same { reducer.new ≡ reducer.old }
    {
        let aside = budget.saturating_sub(MOST_REWRITES);
        let mut own = *budget - aside;
        let found = self.rounds(MOST_ROUNDS, reducer, left, right, &mut own);
        *budget = aside + own;
        outcome(aside, found)
    }

    // So many rounds at most, which may take the whole budget.
    fn rounds(
        &self,
        most: u32,
        reducer: &mut Reducer<'_>,
        left: &Term,
        right: &Term,
        budget: &mut u64,
    ) -> Result<Option<Chain<Term>>, RewriteFault>
        ensures exact { (A : List Pair) (bs : List Bool) → AttemptsIn self.now bs A reducer.old
            → Works (option_map plain_chain) budget.new (rounds_in self.now bs A most
            ((left.now, right.now) ∷ []) (sides_with left.now right.now no_links 0) budget.old)
            result }
        ensures less { budget.new ≤ budget.old }
        ensures same { reducer.new ≡ reducer.old }
    {
        let mut run = Run::new(self.alloc, left, right)?;
        for _round in 0..most {
            match self.one_round(reducer, &mut run, budget) {
                Err(fault) => return Err(fault),
                Ok(Next::Open) => {}
                Ok(Next::Closed) => return Ok(Some(run.chain)),
                Ok(Next::Ended) => return Ok(None),
            }
        }
        Ok(None)
    }
}

// What an attempt comes to by its rounds, where so many steps of the budget were set aside: a limit
// ends the attempt only, and so does a step that is due where there are steps that were set aside.
fn outcome(
    aside: u64,
    found: Result<Option<Chain<Term>>, RewriteFault>,
) -> Result<Option<Chain<Term>>, RewriteFault>
    ensures { (w : Work (Option (ChainOf Tree))) (left : ℕ)
        → Works (option_map plain_chain) left w found
        → Works (option_map plain_chain) (aside + left) (outcome aside w) result }
{
    match found {
        Ok(chain) => Ok(chain),
        Err(RewriteFault::Memory) => Err(RewriteFault::Memory),
        Err(RewriteFault::Spent) => {
            if aside == 0 {
                return Err(RewriteFault::Spent);
            }
            Ok(None)
        }
        Err(_) => Ok(None),
    }
}
