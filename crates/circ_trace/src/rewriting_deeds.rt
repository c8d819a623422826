//! What a turn does where hypotheses are rules.
ghost use Rattle.std.specs.Prelude.{◌≡◌, IfOk};
ghost use Rattle.std.specs.Option.{option_map};
ghost use Rattle.circ_attempt.specs.Search.{attempt_here, of_script};
ghost use Rattle.circ_block.specs.Rules.{IsRulesOf};
ghost use Rattle.circ_join.specs.Sides.{plain_swept_sides};
ghost use Rattle.circ_moves.specs.Plain.{plain_moves};
ghost use Rattle.circ_proof.specs.Plain.{plain_chain};
ghost use Rattle.circ_rewriting_turn.specs.PassRules.{ArePassRules};
ghost use Rattle.circ_turn.specs.Standing.{standing, with_budget};
ghost use Rattle.circ_trace.specs.Deed.{Closes, attempt_deed_by, plain_deed};
ghost use Rattle.circ_trace.specs.RewritingDeed.{attempt_deed, lemma_deed, pass_deed};
ghost use Rattle.circ_trace.specs.RewritingDeed.{deed_rewriting, join_deed_rewriting};
ghost use Rattle.circ_trace.specs.Used.{chain_hypotheses};

use crate::account::Deed;
use crate::accounting::ends_unless_memory;
use crate::turn_ahead::TurnAhead;
use crate::used::{push_links, push_moves, push_numbers};
use circ_block::BlockRules;
use circ_join::SweptSides;
use circ_moves::{ContentJoining, Move};
use circ_proof::Chain;
use circ_rewriting_turn::{attempt, lemma_pass};
use circ_term::Term;
use circ_theory::Goal;
use std::alloc::{AllocError, Global};

impl TurnAhead<'_, '_, '_> {
    /// What is done with a goal whose sides are in normal form.
    pub(crate) fn deed_rewriting(
        &self,
        rules: &mut BlockRules<'_>,
        goal: &Goal,
        budget: u64,
    ) -> Result<Deed, AllocError>
        requires rules { IsRulesOf self.now.search.now.theory.now self.now.state.now.hyps.earlier
            rules.old }
        requires conds { rules.old.goals.conds ≡ goal.now.conds }
        requires passes { ArePassRules self.now.search.now.theory.now
            self.now.state.now.hyps.earlier self.now.state.now.hyps.all
            (of_script self.now.search.now.theory.now (standing self.now.state.now))
            self.now.passes.now }
        ensures exact { IfOk result (λ d. plain_deed d ≡ deed_rewriting
            self.now.search.now.theory.now self.now.search.now.gamma.now
            (standing self.now.state.now) self.now.passed.now goal.now budget) }
        ensures rules { IsRulesOf self.now.search.now.theory.now self.now.state.now.hyps.earlier
            rules.new }
    {
        let joining = ContentJoining {
            alloc: self.search.alloc,
            theory: self.search.theory,
            gamma: self.search.gamma,
            hyps: &self.state.hyps,
        };
        let mut budget = budget;
        let reducer = &mut rules.goals.reducer;
        match joining.join(reducer, &goal.left, &goal.right, &mut budget) {
            Err(fault) => ends_unless_memory(&fault, false),
            Ok(joined) => self.joined_deed(rules, goal, joined, budget),
        }
    }

    // What is done where it is known whether the sides join.
    fn joined_deed(
        &self,
        rules: &mut BlockRules<'_>,
        goal: &Goal,
        joined: Option<Vec<Move>>,
        budget: u64,
    ) -> Result<Deed, AllocError>
        requires rules { IsRulesOf self.now.search.now.theory.now self.now.state.now.hyps.earlier
            rules.old }
        requires conds { rules.old.goals.conds ≡ goal.now.conds }
        requires passes { ArePassRules self.now.search.now.theory.now
            self.now.state.now.hyps.earlier self.now.state.now.hyps.all
            (of_script self.now.search.now.theory.now (standing self.now.state.now))
            self.now.passes.now }
        ensures exact { IfOk result (λ d. plain_deed d ≡ join_deed_rewriting
            self.now.search.now.theory.now self.now.search.now.gamma.now
            (standing self.now.state.now) self.now.passed.now goal.now
            (option_map (λ v. plain_moves v.items) joined) budget) }
        ensures rules { IsRulesOf self.now.search.now.theory.now self.now.state.now.hyps.earlier
            rules.new }
    {
        match joined {
            None => self.lemma_deed(rules, goal, budget),
            Some(moves) => {
                let mut hypotheses = Vec::new(self.search.alloc);
                push_moves(&mut hypotheses, moves.as_slice())?;
                Ok(Deed::Joins { hypotheses })
            }
        }
    }

    // What is done where they do not: a lemma pass, unless one was made to this pair since the goal
    // was taken.
    fn lemma_deed(
        &self,
        rules: &mut BlockRules<'_>,
        goal: &Goal,
        budget: u64,
    ) -> Result<Deed, AllocError>
        requires rules { IsRulesOf self.now.search.now.theory.now self.now.state.now.hyps.earlier
            rules.old }
        requires conds { rules.old.goals.conds ≡ goal.now.conds }
        requires passes { ArePassRules self.now.search.now.theory.now
            self.now.state.now.hyps.earlier self.now.state.now.hyps.all
            (of_script self.now.search.now.theory.now (standing self.now.state.now))
            self.now.passes.now }
        ensures exact { IfOk result (λ d. plain_deed d ≡ lemma_deed self.now.search.now.theory.now
            self.now.search.now.gamma.now (with_budget (standing self.now.state.now) budget)
            self.now.passed.now goal.now) }
        ensures rules { IsRulesOf self.now.search.now.theory.now self.now.state.now.hyps.earlier
            rules.new }
    {
        if self.passed.has(&goal.left, &goal.right) {
            return self.attempt_deed(rules, goal, budget);
        }
        let mut budget = budget;
        let reducer = &mut rules.goals.reducer;
        match lemma_pass(self.search, reducer, self.passes, goal, &mut budget) {
            Err(fault) => ends_unless_memory(&fault, false),
            Ok(sides) => self.swept_deed(rules, goal, &sides, budget),
        }
    }

    // By what the lemma pass has made of both sides.
    fn swept_deed(
        &self,
        rules: &mut BlockRules<'_>,
        goal: &Goal,
        sides: &SweptSides,
        budget: u64,
    ) -> Result<Deed, AllocError>
        requires rules { IsRulesOf self.now.search.now.theory.now self.now.state.now.hyps.earlier
            rules.old }
        requires conds { rules.old.goals.conds ≡ goal.now.conds }
        requires passes { ArePassRules self.now.search.now.theory.now
            self.now.state.now.hyps.earlier self.now.state.now.hyps.all
            (of_script self.now.search.now.theory.now (standing self.now.state.now))
            self.now.passes.now }
        ensures exact { IfOk result (λ d. plain_deed d ≡ pass_deed self.now.search.now.theory.now
            self.now.search.now.gamma.now (standing self.now.state.now) goal.now
            (plain_swept_sides sides.now) budget) }
        ensures rules { IsRulesOf self.now.search.now.theory.now self.now.state.now.hyps.earlier
            rules.new }
    {
        let mut hypotheses = Vec::new(self.search.alloc);
        push_numbers(&mut hypotheses, sides.left.uses.as_slice())?;
        push_numbers(&mut hypotheses, sides.right.uses.as_slice())?;
        if hypotheses.is_empty() {
            return self.attempt_deed(rules, goal, budget);
        }
        Ok(Deed::Passes { hypotheses })
    }

    // What is done with a goal that lemma passes leave as it is: an attempt is made where it is
    // hidden and the block has a rule of its own.
    fn attempt_deed(
        &self,
        rules: &mut BlockRules<'_>,
        goal: &Goal,
        budget: u64,
    ) -> Result<Deed, AllocError>
        requires rules { IsRulesOf self.now.search.now.theory.now self.now.state.now.hyps.earlier
            rules.old }
        requires conds { rules.old.goals.conds ≡ goal.now.conds }
        requires passes { ArePassRules self.now.search.now.theory.now
            self.now.state.now.hyps.earlier self.now.state.now.hyps.all
            (of_script self.now.search.now.theory.now (standing self.now.state.now))
            self.now.passes.now }
        ensures exact { IfOk result (λ d. plain_deed d ≡ attempt_deed
            self.now.search.now.theory.now self.now.search.now.gamma.now
            (with_budget (standing self.now.state.now) budget) goal.now) }
        ensures rules { IsRulesOf self.now.search.now.theory.now self.now.state.now.hyps.earlier
            rules.new }
    {
        if !self.search.theory.is_hidden(goal.left.sort()) || self.passes.own.is_empty() {
            return Ok(Deed::Opens { attempted: false });
        }
        self.attempted_deed(rules, goal, budget)
    }

    // What is done where an attempt is made.
    fn attempted_deed(
        &self,
        rules: &mut BlockRules<'_>,
        goal: &Goal,
        budget: u64,
    ) -> Result<Deed, AllocError>
        requires rules { IsRulesOf self.now.search.now.theory.now self.now.state.now.hyps.earlier
            rules.old }
        requires conds { rules.old.goals.conds ≡ goal.now.conds }
        requires passes { ArePassRules self.now.search.now.theory.now
            self.now.state.now.hyps.earlier self.now.state.now.hyps.all
            (of_script self.now.search.now.theory.now (standing self.now.state.now))
            self.now.passes.now }
        ensures exact { IfOk result (λ d. plain_deed d ≡ attempt_deed_by (attempt_here
            self.now.search.now.theory.now self.now.search.now.gamma.now
            (with_budget (standing self.now.state.now) budget) goal.now)) }
        ensures rules { IsRulesOf self.now.search.now.theory.now self.now.state.now.hyps.earlier
            rules.new }
    {
        let mut budget = budget;
        let reducer = &mut rules.goals.reducer;
        match attempt(
            self.search,
            reducer,
            self.passes,
            self.state,
            goal,
            &mut budget,
        ) {
            Err(fault) => ends_unless_memory(&fault, true),
            Ok(None) => Ok(Deed::Opens { attempted: true }),
            Ok(Some(chain)) => closed_deed(self.search.alloc, &chain),
        }
    }
}

// The chain of an attempt makes the sides equal.
fn closed_deed(alloc: Global, chain: &Chain<Term>) -> Result<Deed, AllocError>
    ensures { IfOk result (λ d. plain_deed d ≡ Closes (chain_hypotheses (plain_chain chain.now))) }
{
    let mut hypotheses = Vec::new(alloc);
    push_links(&mut hypotheses, chain.left.as_slice())?;
    push_links(&mut hypotheses, chain.right.as_slice())?;
    Ok(Deed::Closes { hypotheses })
}
