//! Steps on hypotheses and goals that are handed in as terms, and given back as terms.
ghost use Rattle.std.specs.Prelude.{◌≡◌, ◌<◌, ◌++◌, [], length, take, IfOk, OnOk};
ghost use Rattle.std.specs.Result.{OnErr};
ghost use Rattle.std.specs.List.{slice_get, AllByRecursion};
ghost use Rattle.circ_theory.specs.Signature.{IsWellSorted};
ghost use Rattle.circ_theory.specs.Theory.{Theory as PlainTheory};
ghost use Rattle.circ_theory.specs.Rewriting.{named};
ghost use Rattle.circ_proof.specs.Rules.{state as state_with, map_step, AllOfStep};
ghost use Rattle.circ_proof.specs.Rules.{IsSortedState};
ghost use Rattle.circ_proof.specs.PlainProof.{plain_state, plain_step};
ghost use Rattle.circ_rules.specs.Answers.{Applies};
ghost use Rattle.circ_entering.specs.Work.{state_of, table_of, IsWork};

use crate::building::{build_goal, build_goals, build_hypotheses};
use crate::entering::{enter_goals, enter_hypotheses};
use crate::numbered::{Numbered, enter_rules};
use circ_nodes::{Nodes, Terms};
use circ_proof::{State, Step};
use circ_special::Gamma;
use circ_steps::{SharedState, table_numbers};
use circ_table::Table;
use circ_term::Term;
use circ_theory::{Goal, Theory};
use std::alloc::{AllocError, Global};
use std::collections::VecDeque;

/// Hypotheses and goals by number, with what steps on them are judged by, and the terms that were
/// built of them.
#[derive(Drop)]
pub struct Work {
    nodes: Nodes,
    terms: Terms,
    numbered: Numbered,
    state: SharedState,
}

impl Work {
    /// By the rules of a theory, with the terms of a table; there is no hypothesis and no goal.
    /// Costs a look-up for each node of the terms, counted as trees.
    pub fn new(alloc: Global, theory: &Theory, table: &[Term]) -> Result<Work, AllocError>
        ensures work { IfOk result (IsWork theory.now) }
        ensures table { IfOk result (λ w. table_of w ≡ table.now) }
        ensures state { IfOk result (λ w. state_of w ≡ state_with [] []) }
    {
        let mut nodes = Nodes::new(alloc);
        let numbered = enter_rules(alloc, theory, &mut nodes, table)?;
        Ok(Work {
            nodes,
            terms: Terms::new(alloc),
            numbered,
            state: SharedState {
                hyps: Vec::new(alloc),
                goals: VecDeque::new(alloc),
            },
        })
    }

    /// The same with the terms of a table by number. Costs a look-up for each line and for each
    /// argument in it, however large the terms are, and what the rules of the theory cost.
    pub fn by_table(alloc: Global, theory: &Theory, table: &Table) -> Result<Work, AllocError>
        ensures work { IfOk result (IsWork theory.now) }
        ensures table { IfOk result (λ w. table_of w ≡ table.now) }
        ensures state { IfOk result (λ w. state_of w ≡ state_with [] []) }
    {
        let mut work = Work::new(alloc, theory, &[])?;
        let numbers = table_numbers(alloc, &mut work.nodes, table)?;
        work.numbered.table = numbers;
        Ok(work)
    }

    /// These come behind the hypotheses. After want of memory some of them may.
    pub fn add_hypotheses(&mut self, alloc: Global, goals: &[Goal]) -> Result<(), AllocError>
        requires { (th : PlainTheory) × IsWork th self.old }
        ensures work { (th : PlainTheory) → IsWork th self.old → IsWork th self.new }
        ensures table { table_of self.new ≡ table_of self.old }
        ensures state { OnOk result (state_of self.new ≡ state_with
            ((state_of self.old).hypotheses ++ goals.now) (state_of self.old).goals) }
    {
        enter_hypotheses(alloc, &mut self.nodes, goals, &mut self.state.hyps)?;
        Ok(())
    }

    /// These come behind the goals. After want of memory some of them may.
    pub fn add_goals(&mut self, alloc: Global, goals: &[Goal]) -> Result<(), AllocError>
        requires { (th : PlainTheory) × IsWork th self.old }
        ensures work { (th : PlainTheory) → IsWork th self.old → IsWork th self.new }
        ensures table { table_of self.new ≡ table_of self.old }
        ensures state { OnOk result (state_of self.new ≡ state_with
            (state_of self.old).hypotheses ((state_of self.old).goals ++ goals.now)) }
    {
        enter_goals(alloc, &mut self.nodes, goals, &mut self.state.goals)?;
        Ok(())
    }

    /// Keeps the first hypotheses, as many as that, and no goal.
    pub fn keep(&mut self, hyps: usize)
        ensures work { (th : PlainTheory) → IsWork th self.old → IsWork th self.new }
        ensures table { table_of self.new ≡ table_of self.old }
        ensures state { state_of self.new ≡
            state_with (take hyps (state_of self.old).hypotheses) [] }
    {
        self.state.hyps.truncate(hyps);
        self.state.goals.clear();
    }

    /// How many hypotheses there are.
    pub fn hypothesis_count(&self) -> usize
        ensures { result ≡ length (state_of self.now).hypotheses }
    {
        self.state.hyps.len()
    }

    /// How many goals there are.
    pub fn goal_count(&self) -> usize
        ensures { result ≡ length (state_of self.now).goals }
    {
        self.state.goals.len()
    }

    /// The first goal.
    pub fn first(&mut self, alloc: Global) -> Result<Option<Goal>, AllocError>
        requires { (th : PlainTheory) × IsWork th self.old }
        ensures work { (th : PlainTheory) → IsWork th self.old → IsWork th self.new }
        ensures table { table_of self.new ≡ table_of self.old }
        ensures state { state_of self.new ≡ state_of self.old }
        ensures first { IfOk result (λ o. o ≡ slice_get (state_of self.old).goals 0) }
    {
        let Some(goal) = self.state.goals.front() else {
            return Ok(None);
        };
        let conds = goal.conds.as_slice();
        let first = build_goal(alloc, &self.nodes, &mut self.terms, conds, goal.sides)?;
        Ok(Some(first))
    }

    /// Does the step. False where it is no instance of its rule. The hypotheses and the goals are
    /// as before then, and after want of memory.
    pub fn apply(
        &mut self,
        alloc: Global,
        theory: &Theory,
        gamma: &Gamma,
        step: &Step,
    ) -> Result<bool, AllocError>
        requires work { IsWork theory.now self.old }
        requires in_table { AllOfStep (λ n. n < length (table_of self.old)) (plain_step step.now) }
        requires table_sorted { AllByRecursion (IsWellSorted theory.now.signature)
            (table_of self.old) }
        requires sorted { IsSortedState theory.now (state_of self.old) }
        ensures work { IsWork theory.now self.new }
        ensures table { table_of self.new ≡ table_of self.old }
        ensures exact { IfOk result (Applies theory.now gamma.now
            (map_step (named (table_of self.old)) (plain_step step.now))
            (state_of self.old) (state_of self.new)) }
        ensures kept { OnErr result (state_of self.new ≡ state_of self.old) }
        ensures sorted { IsSortedState theory.now (state_of self.new) }
    {
        let rules = self.numbered.rules(alloc, theory, gamma);
        rules.apply(&mut self.nodes, &mut self.state, step)
    }

    /// The hypotheses and the goals.
    pub fn state(&mut self, alloc: Global) -> Result<State, AllocError>
        requires { (th : PlainTheory) × IsWork th self.old }
        ensures work { (th : PlainTheory) → IsWork th self.old → IsWork th self.new }
        ensures table { table_of self.new ≡ table_of self.old }
        ensures kept { state_of self.new ≡ state_of self.old }
        ensures state { IfOk result (λ s. plain_state s ≡ state_of self.old) }
    {
        let nodes = &self.nodes;
        let terms = &mut self.terms;
        let hyps = build_hypotheses(alloc, nodes, terms, self.state.hyps.as_slice())?;
        let (front, back) = self.state.goals.as_slices();
        let mut goals = Vec::new(alloc);
        build_goals(alloc, nodes, terms, front, &mut goals)?;
        build_goals(alloc, nodes, terms, back, &mut goals)?;
        Ok(State {
            hyps,
            goals: VecDeque::from_vec(goals),
        })
    }
}
