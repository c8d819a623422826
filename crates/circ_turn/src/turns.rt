//! The turns of a search.
ghost use Rattle.std.specs.Prelude.{◌≡◌, ◌<◌, ◌≤◌, ◌^◌, ◌∷◌, List, length, drop, Some, Ok, OnOk};
ghost use Rattle.std.specs.Option.{option_map};
ghost use Rattle.circ_theory.specs.Goal.{Goal as TheGoal};
ghost use Rattle.circ_theory.specs.Limits.{condition_limit};
ghost use Rattle.circ_theory.specs.Theory.{goal};
ghost use Rattle.circ_plain_search.specs.BlockRules.{block_rules, hidden_lemmas};
ghost use Rattle.circ_plain_search.specs.Search.{sides_with, Sides as TheSides};
ghost use Rattle.circ_conditional_search.specs.Coming.{IsReadyTrying, IsSmallTrying};
ghost use Rattle.circ_conditional_search.specs.Search.{goal_turn_trying, sides_turn_trying};
ghost use Rattle.circ_conditional_search.specs.Search.{join_turn_trying, pass_turn_trying};
ghost use Rattle.circ_conditional_search.specs.Search.{open_turn_trying, visible_turn_trying};
ghost use Rattle.circ_conditional_search.specs.Search.{normal_sides_trying, with_sides_of};
ghost use Rattle.circ_conditional_search.specs.Search.{swept_sides_trying};
ghost use Rattle.circ_conditional_search.specs.Search.{passed_sides};
ghost use Rattle.circ_block.specs.Rules.{IsRulesOf};
ghost use Rattle.circ_join.specs.Sides.{plain_swept_sides};
ghost use Rattle.circ_join.specs.Trying.{Works};
ghost use Rattle.circ_join.specs.Uses.{plain_uses};
ghost use Rattle.circ_proof.specs.Plain.{plain_chain};
ghost use Rattle.circ_turn.specs.Standing.{standing, manner_of, with_budget};
ghost use Rattle.circ_turn.specs.Ending.{GoesTo, GivesNormal, swept_turn, reducing};

use crate::end::End;
use crate::search::Search;
use crate::state::State;
use circ_block::BlockRules;
use circ_join::{HypothesisUse, Joining, Lemmas, Passing, Stop, SweptSides, put_all, use_links};
use circ_proof::{Chain, Why};
use circ_rewrite::RewriteFault;
use circ_split::{Sides, Splitting, normal_sides};
use circ_term::Term;
use circ_theory::Goal;
use circ_tries::Reducer;
use std::alloc::AllocError;

impl Search<'_> {
    // One goal: both sides are normalised under its conditions, and then it is looked at.
    pub(crate) fn goal_turn(
        &self,
        rules: &mut BlockRules<'_>,
        state: &mut State<'_>,
    ) -> Result<(), End>
        requires rules { IsRulesOf self.now.theory.now state.old.hyps.earlier rules.old }
        requires small { IsSmallTrying (standing state.old) }
        requires ready { (g : TheGoal) (rest : List TheGoal) (n : TheSides)
            → state.old.queue.items ≡ g ∷ rest
            → normal_sides_trying self.now.theory.now
            (block_rules self.now.theory.now state.old.hyps.earlier) g.conds
            g.left g.right state.old.budget ≡ Ok n
            → IsReadyTrying self.now.theory.now (goal g.conds n.left n.right) }
        ensures exact { (g : TheGoal) (rest : List TheGoal) → state.old.queue.items ≡ g ∷ rest
            → GoesTo (goal_turn_trying self.now.theory.now self.now.gamma.now
            (manner_of self.now) (standing state.old) g rest) (standing state.new) result }
        ensures rules { IsRulesOf self.now.theory.now state.old.hyps.earlier rules.new }
    {
        let Some(hand) = state.queue.front() else {
            return Ok(());
        };
        let mut budget = state.budget;
        match self.normal_goal(rules, hand, &mut budget) {
            Err(stop) => Err(self.end(state, stop)),
            Ok((goal, chain)) => self.normal_turn(rules, state, goal, chain, budget),
        }
    }

    /// A goal in normal form under its conditions, and the links to its sides. The rules have its
    /// conditions then.
    pub fn normal_goal(
        &self,
        rules: &mut BlockRules<'_>,
        goal: &Goal,
        budget: &mut u64,
    ) -> Result<(Goal, Chain<Term>), Stop>
        requires few { length goal.now.conds < 2 ^ 32 }
        ensures exact { (E : List TheGoal) → IsRulesOf self.now.theory.now E rules.old
            → GivesNormal goal.now.conds (normal_sides_trying self.now.theory.now
            (block_rules self.now.theory.now E) goal.now.conds goal.now.left goal.now.right
            budget.old) budget.new result }
        ensures rules { (E : List TheGoal) → IsRulesOf self.now.theory.now E rules.old
            → IsRulesOf self.now.theory.now E rules.new }
        ensures conds { OnOk result (rules.new.goals.conds ≡ goal.now.conds) }
    {
        rules.assume(self.alloc, goal.conds.as_slice())?;
        let conds = goal.conds.share(self.alloc)?;
        match normal_sides(
            self.alloc,
            &mut rules.goals.reducer,
            &goal.left,
            &goal.right,
            budget,
        ) {
            Err(stop) => Err(stop),
            Ok(sides) => {
                let Sides { left, right, chain } = sides;
                Ok((Goal { conds, left, right }, chain))
            }
        }
    }

    // The goal in hand is this one now, in normal form.
    fn normal_turn(
        &self,
        rules: &mut BlockRules<'_>,
        state: &mut State<'_>,
        goal: Goal,
        chain: Chain<Term>,
        budget: u64,
    ) -> Result<(), End>
        requires rules { IsRulesOf self.now.theory.now state.old.hyps.earlier rules.old }
        requires conds { rules.old.goals.conds ≡ goal.conds }
        requires some { 0 < length state.old.queue.items }
        requires small { IsSmallTrying (standing state.old) }
        requires ready { IsReadyTrying self.now.theory.now goal }
        ensures exact { GoesTo (sides_turn_trying self.now.theory.now self.now.gamma.now
            (manner_of self.now)
            (with_sides_of (standing state.old) goal (drop 1 state.old.queue.items)
            (sides_with goal.left goal.right (plain_chain chain) budget))
            goal (drop 1 state.old.queue.items)) (standing state.new) result }
        ensures rules { IsRulesOf self.now.theory.now state.old.hyps.earlier rules.new }
    {
        state.set_hand(self.alloc, &goal, chain, budget)?;
        self.sides_turn(rules, state, &goal)
    }

    // A goal whose sides are in normal form.
    fn sides_turn(
        &self,
        rules: &mut BlockRules<'_>,
        state: &mut State<'_>,
        goal: &Goal,
    ) -> Result<(), End>
        requires rules { IsRulesOf self.now.theory.now state.old.hyps.earlier rules.old }
        requires conds { rules.old.goals.conds ≡ goal.now.conds }
        requires some { 0 < length state.old.queue.items }
        requires small { IsSmallTrying (standing state.old) }
        requires ready { IsReadyTrying self.now.theory.now goal.now }
        ensures exact { GoesTo (sides_turn_trying self.now.theory.now self.now.gamma.now
            (manner_of self.now) (standing state.old) goal.now
            (drop 1 state.old.queue.items)) (standing state.new) result }
        ensures rules { IsRulesOf self.now.theory.now state.old.hyps.earlier rules.new }
    {
        let joining = Joining {
            alloc: self.alloc,
            gamma: self.gamma,
            hyps: &state.hyps,
        };
        let mut budget = state.budget;
        let reducer = &mut rules.goals.reducer;
        match joining.join(reducer, &goal.left, &goal.right, &mut budget) {
            Err(fault) => Err(self.end(state, Stop::of_rewrite(fault))),
            Ok(joined) => self.joined_turn(rules, state, goal, joined, budget),
        }
    }

    // A goal of which it is known whether its sides join, and what is left of the budget then.
    fn joined_turn(
        &self,
        rules: &mut BlockRules<'_>,
        state: &mut State<'_>,
        goal: &Goal,
        joined: Option<Vec<HypothesisUse>>,
        budget: u64,
    ) -> Result<(), End>
        requires rules { IsRulesOf self.now.theory.now state.old.hyps.earlier rules.old }
        requires conds { rules.old.goals.conds ≡ goal.now.conds }
        requires some { 0 < length state.old.queue.items }
        requires small { IsSmallTrying (standing state.old) }
        requires ready { IsReadyTrying self.now.theory.now goal.now }
        ensures exact { GoesTo (join_turn_trying self.now.theory.now self.now.gamma.now
            (manner_of self.now) (with_budget (standing state.old) budget) goal.now
            (drop 1 state.old.queue.items) (option_map (λ v. plain_uses v.items) joined))
            (standing state.new) result }
        ensures rules { IsRulesOf self.now.theory.now state.old.hyps.earlier rules.new }
    {
        state.budget = budget;
        match joined {
            Some(uses) => self.join_turn(state, goal, uses),
            None => self.pass_turn(rules, state, goal),
        }
    }

    // Where the sides join, the goal is reduced. Join's links go to the left of the chain.
    fn join_turn(
        &self,
        state: &mut State<'_>,
        goal: &Goal,
        uses: Vec<HypothesisUse>,
    ) -> Result<(), End>
        requires small { IsSmallTrying (standing state.old) }
        ensures { GoesTo (join_turn_trying self.now.theory.now self.now.gamma.now
            (manner_of self.now) (standing state.old) goal.now
            (drop 1 state.old.queue.items) (Some (plain_uses uses.items)))
            (standing state.new) result }
    {
        match put_all(self.alloc, &goal.left, uses.as_slice()) {
            Err(stop) => return Err(self.end(state, stop)),
            Ok(_) => {}
        }
        let mut links = use_links(self.alloc, uses)?;
        let mut chain = state.take_chain(self.alloc);
        chain.left.append(&mut links)?;
        self.goal_reduced(state, Why::Same { chain })
    }

    // A lemma pass over both sides. Where a replacement was made, the goal goes on.
    fn pass_turn(
        &self,
        rules: &mut BlockRules<'_>,
        state: &mut State<'_>,
        goal: &Goal,
    ) -> Result<(), End>
        requires rules { IsRulesOf self.now.theory.now state.old.hyps.earlier rules.old }
        requires conds { rules.old.goals.conds ≡ goal.now.conds }
        requires some { 0 < length state.old.queue.items }
        requires small { IsSmallTrying (standing state.old) }
        requires ready { IsReadyTrying self.now.theory.now goal.now }
        ensures exact { GoesTo (pass_turn_trying self.now.theory.now self.now.gamma.now
            (manner_of self.now) (standing state.old) goal.now
            (drop 1 state.old.queue.items)) (standing state.new) result }
        ensures rules { IsRulesOf self.now.theory.now state.old.hyps.earlier rules.new }
    {
        let mut budget = state.budget;
        let reducer = &mut rules.goals.reducer;
        match self.swept_sides(reducer, &rules.lemmas, goal, &mut budget) {
            Err(fault) => Err(self.end(state, Stop::of_rewrite(fault))),
            Ok(sides) => {
                state.budget = budget;
                self.swept_turn(rules, state, goal, sides)
            }
        }
    }

    // A lemma pass over both sides, the left one first.
    fn swept_sides(
        &self,
        reducer: &mut Reducer<'_>,
        lemmas: &Lemmas,
        goal: &Goal,
        budget: &mut u64,
    ) -> Result<SweptSides, RewriteFault>
        ensures exact { (E : List TheGoal)
            → reducer.old ≡ reducing self.now.theory.now E goal.now.conds
            → lemmas.now ≡ hidden_lemmas self.now.theory.now 0 E
            → Works plain_swept_sides budget.new (swept_sides_trying self.now.theory.now
            self.now.gamma.now E goal.now budget.old) result }
        ensures same { reducer.new ≡ reducer.old }
    {
        let passing = Passing {
            alloc: self.alloc,
            gamma: self.gamma,
            lemmas,
        };
        let left = match passing.pass(reducer, &goal.left, budget) {
            Err(fault) => return Err(fault),
            Ok(left) => left,
        };
        match passing.pass(reducer, &goal.right, budget) {
            Err(fault) => Err(fault),
            Ok(right) => Ok(SweptSides { left, right }),
        }
    }

    // The goal goes on from what the lemma pass has made of its sides, where it made anything.
    fn swept_turn(
        &self,
        rules: &mut BlockRules<'_>,
        state: &mut State<'_>,
        goal: &Goal,
        sides: SweptSides,
    ) -> Result<(), End>
        requires rules { IsRulesOf self.now.theory.now state.old.hyps.earlier rules.old }
        requires some { 0 < length state.old.queue.items }
        requires small { IsSmallTrying (standing state.old) }
        requires ready { IsReadyTrying self.now.theory.now goal.now }
        ensures exact { GoesTo (swept_turn self.now.theory.now (manner_of self.now)
            (standing state.old) goal.now (drop 1 state.old.queue.items)
            (plain_swept_sides sides)) (standing state.new) result }
        ensures rules { IsRulesOf self.now.theory.now state.old.hyps.earlier rules.new }
    {
        if !sides.has_uses() {
            drop(sides);
            return self.open_turn(rules, state, goal);
        }
        self.go_on(state, goal, sides)?;
        Ok(())
    }

    /// The goal in hand goes on from these sides.
    pub fn go_on(
        &self,
        state: &mut State<'_>,
        goal: &Goal,
        sides: SweptSides,
    ) -> Result<(), AllocError>
        requires some { 0 < length state.old.queue.items }
        ensures { OnOk result (standing state.new
            ≡ with_sides_of (standing state.old) goal.now (drop 1 state.old.queue.items)
            (passed_sides (plain_swept_sides sides) state.old.budget)) }
    {
        let SweptSides { left, right } = sides;
        let chain = Chain {
            left: use_links(self.alloc, left.uses)?,
            right: use_links(self.alloc, right.uses)?,
        };
        let conds = goal.conds.share(self.alloc)?;
        let (left, right) = (left.whole, right.whole);
        let hand = Goal { conds, left, right };
        let budget = state.budget;
        state.set_hand(self.alloc, &hand, chain, budget)
    }

    /// A goal on which neither Join nor a lemma pass does anything.
    pub fn open_turn(
        &self,
        rules: &mut BlockRules<'_>,
        state: &mut State<'_>,
        goal: &Goal,
    ) -> Result<(), End>
        requires rules { IsRulesOf self.now.theory.now state.old.hyps.earlier rules.old }
        requires small { IsSmallTrying (standing state.old) }
        requires ready { IsReadyTrying self.now.theory.now goal.now }
        ensures exact { GoesTo (open_turn_trying self.now.theory.now (manner_of self.now)
            (standing state.old) goal.now (drop 1 state.old.queue.items))
            (standing state.new) result }
        ensures rules { IsRulesOf self.now.theory.now state.old.hyps.earlier rules.new }
    {
        if self.theory.is_hidden(goal.left.sort()) {
            self.hidden_turn(state, goal)
        } else {
            self.visible_turn(rules, state, goal)
        }
    }

    // A visible goal is split.
    fn visible_turn(
        &self,
        rules: &mut BlockRules<'_>,
        state: &mut State<'_>,
        goal: &Goal,
    ) -> Result<(), End>
        requires rules { IsRulesOf self.now.theory.now state.old.hyps.earlier rules.old }
        requires small { IsSmallTrying (standing state.old) }
        requires few { length goal.now.conds ≤ condition_limit }
        ensures exact { GoesTo (visible_turn_trying self.now.theory.now
            (manner_of self.now).limits (standing state.old) goal.now
            (drop 1 state.old.queue.items)) (standing state.new) result }
        ensures rules { IsRulesOf self.now.theory.now state.old.hyps.earlier rules.new }
    {
        let splitting = Splitting {
            alloc: self.alloc,
            theory: self.theory,
        };
        let mut budget = state.budget;
        let conds = goal.conds.as_slice();
        let (left, right) = (&goal.left, &goal.right);
        match splitting.split_cases(&mut rules.cases, conds, left, right, &mut budget) {
            Err(stop) => Err(self.end(state, stop)),
            Ok(cases) => {
                state.budget = budget;
                let chain = state.take_chain(self.alloc);
                let why = Why::Split {
                    chain,
                    term: cases.term,
                    whys: cases.whys,
                };
                self.goal_reduced(state, why)
            }
        }
    }
}
