//! The rules and the lemmas of a block.
ghost use Rattle.std.specs.Prelude.{◌≡◌, ◌≤◌, ◌<◌, ◌+◌, ◌^◌, ◌++◌, ◌∷◌, []};
ghost use Rattle.std.specs.Prelude.{List, length, map, take, true, IfOk, OnOk};
ghost use Rattle.circ_theory.specs.Pairs.{plain_pair};
ghost use Rattle.circ_theory.specs.Theory.{Theory as TheTheory};
ghost use Rattle.circ_theory.specs.Goal.{Goal as TheGoal};
ghost use Rattle.circ_plain_search.specs.BlockRules.{can_rewrite, lemma_rule};
ghost use Rattle.circ_block.specs.Rules.{IsRulesOf, HaveRoom, with_rule};

use crate::lemma::lemma_rule;
use crate::reducing::{GoalReducer, goal_reducers, push_rule};
use circ_join::{Lemmas, can_rewrite};
use circ_rewrite::theory_rules;
use circ_theory::{Goal, Pair, Theory};
use circ_tries::Reducer;
use std::alloc::{AllocError, Global};
use std::mem;

/// The rules of a block, with the normal forms by them, and the lemmas of its lemma passes. The
/// rules are those of the theory, and the visible goals of earlier blocks that rewrite.
#[derive(Drop)]
pub struct BlockRules<'a> {
    /// Normal forms under the conditions of the goal in hand.
    pub goals: GoalReducer<'a>,
    /// The same under those of a goal before: that without conditions is kept over the whole block.
    pub aside: GoalReducer<'a>,
    /// Normal forms under the assumptions of a case.
    pub cases: Reducer<'a>,
    /// The hidden goals of earlier blocks that rewrite.
    pub lemmas: Lemmas,
    /// How many goals of earlier blocks there are.
    pub count: u32,
}

impl<'a> BlockRules<'a> {
    /// The rules of the first block. The goal in hand has no conditions.
    pub fn new(alloc: Global, theory: &'a Theory) -> Result<BlockRules<'a>, AllocError>
        ensures rules { IfOk result (λ r. IsRulesOf theory.now [] r) }
        ensures conds { IfOk result (λ r. r.goals.conds ≡ []) }
    {
        let rules = theory_rules(alloc, theory)?;
        let (goals, aside) = goal_reducers(alloc, theory, rules.as_slice())?;
        match Reducer::new(alloc, theory, rules) {
            Ok(cases) => Ok(BlockRules {
                goals,
                aside,
                cases,
                lemmas: Lemmas::new(alloc),
                count: 0,
            }),
            Err(fault) => {
                drop(goals);
                drop(aside);
                Err(fault)
            }
        }
    }

    /// These are the conditions of the goal in hand. What is known of terms is kept where the goal
    /// before had the same conditions. What is known without conditions is kept over the whole
    /// block, and what is known under some until a goal has others.
    pub fn assume(&mut self, alloc: Global, conds: &[Pair]) -> Result<(), AllocError>
        requires few { length conds.now < 2 ^ 32 }
        ensures rules { (th : TheTheory) (E : List TheGoal) → IsRulesOf th E self.old
            → IsRulesOf th E self.new }
        ensures conds { OnOk result (self.new.goals.conds ≡ map plain_pair conds.now) }
    {
        self.turn_to(conds.is_empty());
        self.goals.assume(alloc, conds)
    }

    // Whether the goal in hand has no conditions is given. Where the goal before differs from it in
    // that, what was put aside comes into use again.
    fn turn_to(&mut self, bare: bool)
        ensures { (th : TheTheory) (E : List TheGoal) → IsRulesOf th E self.old
            → IsRulesOf th E self.new }
    {
        if bare != (self.goals.conds.len() == 0) {
            mem::swap(&mut self.goals, &mut self.aside);
        }
    }

    /// The rules of the next block, after these goals of earlier blocks. The first of them are
    /// those that the rules are of, and only the others are gone through.
    pub fn next_block(
        &mut self,
        alloc: Global,
        theory: &Theory,
        earlier: &[Goal],
    ) -> Result<(), AllocError>
        requires few { length earlier.now ≤ 100000 }
        requires before { IsRulesOf theory.now (take self.old.count earlier.now) self.old }
        ensures { OnOk result (IsRulesOf theory.now earlier.now self.new) }
    {
        self.forget(alloc);
        for n in self.count as usize..earlier.len() {
            self.put_goal(alloc, theory, &earlier[n])?;
        }
        Ok(())
    }

    // Nothing is known of terms.
    fn forget(&mut self, alloc: Global)
        ensures rules { (th : TheTheory) (E : List TheGoal) → IsRulesOf th E self.old
            → IsRulesOf th E self.new }
        ensures count { self.new.count ≡ self.old.count }
    {
        self.goals.forget(alloc);
        self.aside.forget(alloc);
        self.cases.forget();
    }

    // A goal that rewrites goes behind the rules where it is visible, and behind the lemmas where
    // it is hidden.
    fn put_goal(&mut self, alloc: Global, theory: &Theory, goal: &Goal) -> Result<(), AllocError>
        requires few { (E : List TheGoal) × IsRulesOf theory.now E self.old × (length E < 100000) }
        ensures { (E : List TheGoal) → IsRulesOf theory.now E self.old
            → OnOk result (IsRulesOf theory.now (E ++ goal.now ∷ []) self.new) }
    {
        theory.known();
        let number = self.count;
        self.count += 1;
        if !can_rewrite(alloc, goal)? {
            return Ok(());
        }
        if theory.is_hidden(goal.left.sort()) {
            return push_lemma(alloc, &mut self.lemmas, number, goal);
        }
        self.push_rule(alloc, number, goal)
    }

    // The goal goes behind the rules.
    fn push_rule(&mut self, alloc: Global, number: u32, goal: &Goal) -> Result<(), AllocError>
        requires rewrites { can_rewrite goal.now ≡ true }
        requires few { HaveRoom self.old }
        ensures { OnOk result (self.new ≡ with_rule (lemma_rule number goal.now) self.old) }
    {
        self.goals.push(alloc, number, goal)?;
        self.aside.push(alloc, number, goal)?;
        push_rule(alloc, &mut self.cases, number, goal)
    }
}

// The goal goes behind the lemmas.
fn push_lemma(
    alloc: Global,
    lemmas: &mut Lemmas,
    number: u32,
    goal: &Goal,
) -> Result<(), AllocError>
    requires rewrites { can_rewrite goal.now ≡ true }
    requires few { length lemmas.old + 1 < 2 ^ 32 }
    ensures { OnOk result (lemmas.new ≡ lemmas.old ++ lemma_rule number goal.now ∷ []) }
{
    let rule = lemma_rule(alloc, number, goal)?;
    lemmas.push(rule)
}
