//! What a search goes by, and its run.
ghost use Rattle.std.specs.Prelude.{◌≡◌, ◌∷◌, [], List, Ok, IfOk};
ghost use Rattle.std.specs.Bool.{OnTrue};
ghost use Rattle.circ_theory.specs.Goal.{Goal as TheGoal};
ghost use Rattle.circ_theory.specs.Theory.{goal};
ghost use Rattle.circ_plain_search.specs.BlockRules.{block_rules};
ghost use Rattle.circ_plain_search.specs.Search.{Standing, Sides};
ghost use Rattle.circ_conditional_search.specs.Coming.{IsReadyTrying, IsSmallTrying};
ghost use Rattle.circ_conditional_search.specs.Search.{Finishes, normal_sides_trying};
ghost use Rattle.circ_conditional_search.specs.Search.{turn_trying};
ghost use Rattle.circ_block.specs.Rules.{IsRulesOf};
ghost use Rattle.circ_turn.specs.Standing.{standing, manner_of, IsStart};
ghost use Rattle.circ_turn.specs.Ending.{RunEnds, GoesOrDone};

use crate::end::End;
use crate::state::State;
use circ_block::BlockRules;
use circ_conditional_search::laws::{
    normal_goals_are_ready, standings_are_small, turns_end, what_comes_finishes,
};
use circ_special::Gamma;
use circ_theory::Theory;
use std::alloc::Global;

/// The budgets of a search, whether hidden goals are split, and whether hypotheses are rules.
#[derive(Clone, Copy)]
pub struct Limits {
    /// The most rewrite steps.
    pub steps: u64,
    /// The most Derive steps.
    pub derives: u64,
    /// Whether a hidden goal is split on an open term, by Cases, before it is derived.
    pub split: bool,
    /// Whether lemma passes go by lemmas in order, and attempts are made with the block's own
    /// hypotheses as rules.
    pub rewrite: bool,
}

/// What a search goes by.
#[derive(Clone, Copy)]
pub struct Search<'a> {
    /// Where memory comes from.
    pub alloc: Global,
    /// The theory.
    pub theory: &'a Theory,
    /// The special set.
    pub gamma: &'a Gamma,
    /// The budgets, and how the search goes.
    pub limits: Limits,
}

impl<'a> Search<'a> {
    /// Goes on until every goal is done: then the finished blocks prove them.
    pub fn run(&self, state: &mut State<'_>) -> Result<(), End>
        requires start { IsStart self.now.theory.now (manner_of self.now).limits
            (standing state.old) }
        ensures { RunEnds (Finishes self.now.theory.now self.now.gamma.now (manner_of self.now)
            (standing state.old)) (standing state.new) result }
    {
        let mut rules = BlockRules::new(self.alloc, self.theory)?;
        let done = self.turns(&mut rules, state);
        drop(rules);
        done
    }

    // One turn after another, with the rules of the first block.
    fn turns(&self, rules: &mut BlockRules<'a>, state: &mut State<'_>) -> Result<(), End>
        requires start { IsStart self.now.theory.now (manner_of self.now).limits
            (standing state.old) }
        requires rules { IsRulesOf self.now.theory.now [] rules.old }
        ensures { RunEnds (Finishes self.now.theory.now self.now.gamma.now (manner_of self.now)
            (standing state.old)) (standing state.new) result }
    {
        self.theory.known();
        standings_are_small();
        normal_goals_are_ready();
        what_comes_finishes();
        turns_end();
        loop {
            match self.turn(rules, state) {
                Ok(true) => {}
                Ok(false) => return Ok(()),
                Err(end) => return Err(end),
            }
        }
    }

    /// One turn: the first goal of the queue is looked at, or, where there is none, the block is
    /// finished. False where every goal is done.
    pub fn turn(&self, rules: &mut BlockRules<'a>, state: &mut State<'_>) -> Result<bool, End>
        requires rules { IsRulesOf self.now.theory.now state.old.hyps.earlier rules.old }
        requires small { IsSmallTrying (standing state.old) }
        requires ready { (g : TheGoal) (rest : List TheGoal) (n : Sides)
            → state.old.queue.items ≡ g ∷ rest
            → normal_sides_trying self.now.theory.now
            (block_rules self.now.theory.now state.old.hyps.earlier) g.conds
            g.left g.right state.old.budget ≡ Ok n
            → IsReadyTrying self.now.theory.now (goal g.conds n.left n.right) }
        requires next { (y : Standing) → turn_trying self.now.theory.now self.now.gamma.now
            (manner_of self.now) (standing state.old) ≡ Ok y → IsSmallTrying y }
        ensures exact { GoesOrDone (turn_trying self.now.theory.now self.now.gamma.now
            (manner_of self.now) (standing state.old)) (standing state.new) result }
        ensures rules { IfOk result (λ b. OnTrue b
            (IsRulesOf self.now.theory.now state.new.hyps.earlier rules.new)) }
    {
        match state.queue.front() {
            Some(_) => match self.goal_turn(rules, state) {
                Ok(()) => Ok(true),
                Err(end) => Err(end),
            },
            None => match self.done_turn(state) {
                Ok(true) => {
                    rules.next_block(self.alloc, self.theory, state.hyps.earlier())?;
                    Ok(true)
                }
                Ok(false) => Ok(false),
                Err(end) => Err(end),
            },
        }
    }
}
