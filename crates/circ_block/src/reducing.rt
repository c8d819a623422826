//! Normal forms under the conditions of goals.
ghost use Rattle.std.specs.Prelude.{◌≡◌, ◌<◌, ◌+◌, ◌^◌, ◌↔◌, [], List, length, map, true};
ghost use Rattle.std.specs.Prelude.{IsTrue, IfOk, OnOk};
ghost use Rattle.std.specs.List.{AllByRecursion};
ghost use Rattle.circ_theory.specs.Pairs.{plain_pair};
ghost use Rattle.circ_theory.specs.Theory.{Theory as TheTheory};
ghost use Rattle.circ_rewrite.specs.Due.{IsRewriteRule};
ghost use Rattle.circ_rewrite.specs.declared.parts.Rule.{Rule as TheRule};
ghost use Rattle.circ_plain_search.specs.BlockRules.{can_rewrite, lemma_rule};
ghost use Rattle.circ_block.specs.Rules.{IsReducerOf, rewriting_with, reducer_with};

use crate::lemma::lemma_rule;
use circ_rewrite::{Rule, share_rules};
use circ_theory::{Goal, Pair, Pairs, Theory, share_pairs};
use circ_tries::Reducer;
use std::alloc::{AllocError, Global};

/// Normal forms under the conditions of a goal.
#[derive(Drop)]
pub struct GoalReducer<'a> {
    /// The normal forms. Its assumptions are the conditions.
    pub reducer: Reducer<'a>,
    /// The conditions.
    pub conds: Pairs,
}

impl<'a> GoalReducer<'a> {
    // By these rules, without conditions.
    pub(crate) fn new(
        alloc: Global,
        theory: &'a Theory,
        rules: &[Rule],
    ) -> Result<GoalReducer<'a>, AllocError>
        requires rewrite { AllByRecursion IsRewriteRule rules.now }
        requires few { length rules.now < 2 ^ 32 }
        ensures reducer { IfOk result (λ g. IsReducerOf theory.now rules.now g) }
        ensures conds { IfOk result (λ g. g.conds ≡ []) }
    {
        let rules = share_rules(alloc, rules)?;
        let reducer = Reducer::new(alloc, theory, rules)?;
        let conds = Pairs::new(alloc);
        Ok(GoalReducer { reducer, conds })
    }

    // Without conditions, and with nothing that is known of terms.
    pub(crate) fn forget(&mut self, alloc: Global)
        ensures { self.new ≡ record {
          reducer = record self.old.reducer { assumptions = [] };
          conds = [];
        } }
    {
        self.conds = Pairs::new(alloc);
        self.reducer.forget();
    }

    // The goal goes behind the rules. There are no conditions afterwards.
    pub(crate) fn push(&mut self, alloc: Global, number: u32, goal: &Goal) -> Result<(), AllocError>
        requires rewrites { can_rewrite goal.now ≡ true }
        requires few { length self.old.reducer.rules + 1 < 2 ^ 32 }
        ensures { OnOk result (self.new ≡ reducer_with (lemma_rule number goal.now) self.old) }
    {
        self.conds = Pairs::new(alloc);
        push_rule(alloc, &mut self.reducer, number, goal)
    }

    // These are the conditions from now on. What is known of terms is kept where they were so
    // before.
    pub(crate) fn assume(&mut self, alloc: Global, conds: &[Pair]) -> Result<(), AllocError>
        requires few { length conds.now < 2 ^ 32 }
        ensures reducer { (th : TheTheory) (R : List TheRule) → IsReducerOf th R self.old
            → IsReducerOf th R self.new }
        ensures conds { OnOk result (self.new.conds ≡ map plain_pair conds.now) }
    {
        if are_same(self.conds.as_slice(), conds) {
            return Ok(());
        }
        let kept = share_pairs(alloc, conds)?;
        self.conds = Pairs::new(alloc);
        self.reducer.assume(conds)?;
        self.conds = Pairs::of(kept);
        Ok(())
    }
}

// Two by these rules, without conditions.
pub(crate) fn goal_reducers<'a>(
    alloc: Global,
    theory: &'a Theory,
    rules: &[Rule],
) -> Result<(GoalReducer<'a>, GoalReducer<'a>), AllocError>
    requires rewrite { AllByRecursion IsRewriteRule rules.now }
    requires few { length rules.now < 2 ^ 32 }
    ensures first { IfOk result (λ two. IsReducerOf theory.now rules.now two.0) }
    ensures conds { IfOk result (λ two. two.0.conds ≡ []) }
    ensures other { IfOk result (λ two. IsReducerOf theory.now rules.now two.1) }
{
    let first = GoalReducer::new(alloc, theory, rules)?;
    match GoalReducer::new(alloc, theory, rules) {
        Ok(other) => Ok((first, other)),
        Err(fault) => {
            drop(first);
            Err(fault)
        }
    }
}

// The goal goes behind the rules.
pub(crate) fn push_rule(
    alloc: Global,
    reducer: &mut Reducer<'_>,
    number: u32,
    goal: &Goal,
) -> Result<(), AllocError>
    requires rewrites { can_rewrite goal.now ≡ true }
    requires few { length reducer.old.rules + 1 < 2 ^ 32 }
    ensures { OnOk result (reducer.new
        ≡ rewriting_with (lemma_rule number goal.now) reducer.old) }
{
    let rule = lemma_rule(alloc, number, goal)?;
    reducer.push(rule)
}

fn are_same(pairs: &[Pair], others: &[Pair]) -> bool
    ensures { IsTrue result ↔ (pairs.now ≡ others.now) }
{
    if pairs.len() != others.len() {
        return false;
    }
    for n in 0..pairs.len() {
        if !is_same(&pairs[n], &others[n]) {
            return false;
        }
    }
    true
}

fn is_same(pair: &Pair, other: &Pair) -> bool
    ensures { IsTrue result ↔ (pair.now ≡ other.now) }
{
    if !pair.left.same(&other.left) {
        return false;
    }
    pair.right.same(&other.right)
}
