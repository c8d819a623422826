//! A goal in each case of a term.
ghost use Rattle.std.specs.Prelude.{◌≡◌, ◌<◌, ◌++◌, length, drop, IfOk, OnOk};
ghost use Rattle.std.specs.Result.{OnErr};
ghost use Rattle.std.specs.List.{AllByRecursion};
ghost use Rattle.circ_term.specs.Growing.{Grows};
ghost use Rattle.circ_term.specs.Tree.{App, none, sort_of};
ghost use Rattle.circ_theory.specs.Theory.{pair_with};
ghost use Rattle.circ_theory.specs.Observing.{case_list};
ghost use Rattle.circ_theory.specs.Rewriting.{named};
ghost use Rattle.circ_proof.specs.Goals.{with_cond};
ghost use Rattle.circ_proof.specs.Rules.{Cases, cases_on};
ghost use Rattle.circ_nodes.specs.Named.{tree_at};
ghost use Rattle.circ_rules.specs.Answers.{Applies};
ghost use Rattle.circ_steps.specs.States.{shared_goal, shared_goals, state_at};
ghost use Rattle.circ_steps.specs.States.{IsGoalThere, IsStateThere};
ghost use Rattle.circ_steps.specs.Judging.{AreRules, terms_at};

use crate::rules::Rules;
use crate::states::{SharedGoal, SharedState};
use circ_nodes::Nodes;
use circ_shared::{Sides, constant_of};
use circ_theory::MOST_CONDITIONS;
use std::alloc::{AllocError, Global};

impl Rules<'_> {
    /// In place of the first goal stands that goal in each case of the term: the rule Cases. False
    /// where the term's sort has no case list, or the goal has the most conditions, or there is
    /// none. The state is as before then, and after want of memory.
    pub fn cases(
        &self,
        nodes: &mut Nodes,
        state: &mut SharedState,
        term: u32,
    ) -> Result<bool, AllocError>
        requires rules { AreRules nodes.old self.now }
        requires in_table { term < length self.now.table.now }
        requires state { IsStateThere nodes.old state.old }
        ensures grows { Grows nodes.old nodes.new }
        ensures state { IsStateThere nodes.new state.new }
        ensures hyps { state.new.hyps ≡ state.old.hyps }
        ensures exact { IfOk result (Applies self.now.theory.now self.now.gamma.now
            (Cases (named (terms_at nodes.old self.now) term))
            (state_at nodes.old state.old) (state_at nodes.new state.new)) }
        ensures kept { OnErr result
            (state_at nodes.new state.new ≡ state_at nodes.old state.old) }
    {
        let Some(goal) = state.goals.front() else {
            return Ok(false);
        };
        if goal.conds.len() >= MOST_CONDITIONS {
            return Ok(false);
        }
        let term = self.table[term as usize];
        let Some(constants) = self.theory.cases(nodes.sort(term)) else {
            return Ok(false);
        };
        let cases = cases_on(self.alloc, nodes, goal, term, constants)?;
        put_first(state, cases)?;
        Ok(true)
    }
}

fn cases_on(
    alloc: Global,
    nodes: &mut Nodes,
    goal: &SharedGoal,
    term: u32,
    constants: &[u32],
) -> Result<Vec<SharedGoal>, AllocError>
    requires goal { IsGoalThere nodes.old goal.now }
    requires term { term < length nodes.old }
    ensures grows { Grows nodes.old nodes.new }
    ensures there { IfOk result (λ v. AllByRecursion (IsGoalThere nodes.new) v.items) }
    ensures seen { IfOk result (λ v. shared_goals nodes.new v.items ≡
        cases_on (shared_goal nodes.old goal.now) (tree_at nodes.old term)
        (case_list (sort_of (tree_at nodes.old term)) constants.now)) }
{
    let mut cases = Vec::with_capacity(alloc, constants.len())?;
    for constant in constants {
        cases.push(case_on(alloc, nodes, goal, term, *constant)?)?;
    }
    Ok(cases)
}

// The goal with the condition more that the term is the constant.
fn case_on(
    alloc: Global,
    nodes: &mut Nodes,
    goal: &SharedGoal,
    term: u32,
    constant: u32,
) -> Result<SharedGoal, AllocError>
    requires goal { IsGoalThere nodes.old goal.now }
    requires term { term < length nodes.old }
    ensures grows { Grows nodes.old nodes.new }
    ensures there { IfOk result (IsGoalThere nodes.new) }
    ensures seen { IfOk result (λ g. shared_goal nodes.new g ≡
        with_cond (shared_goal nodes.old goal.now) (pair_with (tree_at nodes.old term)
        (App constant (sort_of (tree_at nodes.old term)) none))) }
{
    let sort = nodes.sort(term);
    let right = constant_of(alloc, nodes, constant, sort)?;
    let mut conds = Vec::from_slice(alloc, goal.conds.as_slice())?;
    conds.push(Sides { left: term, right })?;
    Ok(SharedGoal {
        conds,
        sides: goal.sides,
    })
}

// The goals take the place of the first one.
fn put_first(state: &mut SharedState, goals: Vec<SharedGoal>) -> Result<(), AllocError>
    ensures hyps { state.new.hyps ≡ state.old.hyps }
    ensures put { OnOk result (state.new.goals.items ≡
        goals.items ++ drop 1 state.old.goals.items) }
    ensures kept { OnErr result (state.new.goals.items ≡ state.old.goals.items) }
{
    state.goals.reserve(goals.len())?;
    state.goals.pop_front();
    let mut rest = goals;
    while let Some(goal) = rest.pop() {
        state.goals.push_front_reserved(goal);
    }
    Ok(())
}
