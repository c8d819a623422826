//! The first of rules that is taken on a term.
ghost use Rattle.std.specs.Prelude.{◌≡◌, ◌≤◌, OnOk};
ghost use Rattle.std.specs.Option.{option_map};
ghost use Rattle.circ_term.specs.Subst.{substitution_of};
ghost use Rattle.circ_term.specs.Substitution.{instance};
ghost use Rattle.circ_join.specs.Trying.{normaliser_of, Works};
ghost use Rattle.circ_attempt.specs.Rules.{first_rule_use, may_take};
ghost use Rattle.circ_own_rules.specs.Rules.{plain_rule, new_side};
ghost use Rattle.circ_own_rules.specs.Using.{rule_use_by, BindsOld, BindsGoal, plain_due};

use crate::below::is_below;
use crate::rule::HypothesisRule;
use crate::rules::HypothesisRules;
use circ_join::{bind_conditions, chains_of, passes};
use circ_proof::Chain;
use circ_rewrite::RewriteFault;
use circ_term::{Path, Subst, Term};
use circ_theory::{Goal, Pair, Way};
use circ_tries::Reducer;
use std::alloc::{AllocError, Global};

/// A rule whose side was found at a path of the whole term, and whose conditions hold. What takes
/// the place of the subterm is not built yet.
#[derive(Drop)]
pub(crate) struct DueRule<'a> {
    /// The hypothesis.
    pub(crate) number: u32,
    /// Which of its sides was found.
    pub(crate) way: Way,
    /// Where it was found.
    pub(crate) path: Path,
    /// What its variables are given.
    pub(crate) terms: Vec<Term>,
    /// Why each of its conditions holds.
    pub(crate) conds: Vec<Chain<Term>>,
    /// The same terms by variables.
    pub(crate) subst: Subst,
    /// The side whose instance takes the place.
    pub(crate) new: &'a Term,
}

impl HypothesisRules {
    /// The first rule that is taken on the term at the path.
    pub(crate) fn first_use<'a>(
        &'a self,
        alloc: Global,
        reducer: &mut Reducer<'_>,
        path: &[u16],
        term: &Term,
        budget: &mut u64,
    ) -> Result<Option<DueRule<'a>>, RewriteFault>
        ensures exact { Works (option_map plain_due) budget.new (first_rule_use
            (normaliser_of reducer.old) self.now path.now term.now budget.old) result }
        ensures less { budget.new ≤ budget.old }
        ensures same { reducer.new ≡ reducer.old }
    {
        let mut from = 0;
        loop {
            let Some((place, subst)) = self.first(from, term)? else {
                return Ok(None);
            };
            let rule = &self.rules()[place as usize];
            match rule.use_by(alloc, reducer, subst, path, term, budget) {
                Err(fault) => return Err(fault),
                Ok(Some(due)) => return Ok(Some(due)),
                Ok(None) => from = place + 1,
            }
        }
    }
}

impl HypothesisRule {
    // The use of the rule on the term, by what the side that it replaces is matched with, where it
    // may be taken and its conditions hold.
    fn use_by<'a>(
        &'a self,
        alloc: Global,
        reducer: &mut Reducer<'_>,
        subst: Subst,
        path: &[u16],
        term: &Term,
        budget: &mut u64,
    ) -> Result<Option<DueRule<'a>>, RewriteFault>
        requires binds { BindsOld (plain_rule self.now) subst }
        ensures exact { Works (option_map plain_due) budget.new (rule_use_by
            (normaliser_of reducer.old) (plain_rule self.now) path.now term.now
            (substitution_of subst) budget.old) result }
        ensures less { budget.new ≤ budget.old }
        ensures same { reducer.new ≡ reducer.old }
    {
        if !self.may_take(&subst, term) {
            drop(subst);
            return Ok(None);
        }
        let conds = self.hypothesis.conds.as_slice();
        let passes = match passes(alloc, reducer, conds, &subst, budget) {
            Err(fault) => {
                drop(subst);
                return Err(fault);
            }
            Ok(None) => {
                drop(subst);
                return Ok(None);
            }
            Ok(Some(passes)) => passes,
        };
        let mut subst = subst;
        bind_goal(&self.hypothesis, &mut subst)?;
        Ok(Some(DueRule {
            number: self.number,
            way: self.way,
            path: Path::from_slice(alloc, path)?,
            terms: subst.terms()?,
            conds: chains_of(alloc, passes)?,
            subst,
            new: self.new_side(),
        }))
    }

    // Whether the rule may be taken on the term: where it is ordered, the new term has to be below
    // it, and else another term.
    fn may_take(&self, subst: &Subst, term: &Term) -> bool
        ensures { result ≡ may_take (plain_rule self.now)
            (instance (substitution_of subst.now) (new_side (plain_rule self.now))) term.now }
    {
        if self.ordered {
            return is_below(subst, self.new_side(), term);
        }
        !subst.gives(self.new_side(), term)
    }
}

// Each variable of a goal that is not bound stands for itself.
fn bind_goal(goal: &Goal, subst: &mut Subst) -> Result<(), AllocError>
    ensures { OnOk result (BindsGoal goal.now subst.old subst.new) }
{
    let sides = Pair {
        left: goal.left.share()?,
        right: goal.right.share()?,
    };
    bind_conditions(&[sides], subst)?;
    bind_conditions(goal.conds.as_slice(), subst)?;
    Ok(())
}
