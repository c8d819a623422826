//! A goal becomes a hypothesis, and its derivatives become goals.
ghost use Rattle.std.specs.Prelude.{◌≡◌, ◌≤◌, ◌<◌, ◌+◌, ◌++◌, ◌∷◌, ◌^◌, [], List, Option, None};
ghost use Rattle.std.specs.Prelude.{length, map, drop, false, max, Some, IfOk, OnOk};
ghost use Rattle.std.specs.Result.{OnErr};
ghost use Rattle.std.specs.List.{slice_get, AllByRecursion};
ghost use Rattle.std.specs.Option.{IfSome, option_map};
ghost use Rattle.circ_term.specs.Growing.{Grows};
ghost use Rattle.circ_term.specs.Tree.{Var, sort_of};
ghost use Rattle.circ_theory.specs.Theory.{Derivative, IsWellSortedGoal};
ghost use Rattle.circ_theory.specs.Experiment.{derived};
ghost use Rattle.circ_theory.specs.Fresh.{fresh_in, given_parameters, FitDerivative, FitSome};
ghost use Rattle.circ_theory.specs.Variables.{Variable};
ghost use Rattle.circ_proof.specs.Rules.{Derive, IsSortedState};
ghost use Rattle.circ_nodes.specs.Named.{AreNamed, Interns, tree_at};
ghost use Rattle.circ_rules.specs.Answers.{Applies};
ghost use Rattle.circ_rules.specs.Derivatives.{instances_on, Cause, NamesCause};
ghost use Rattle.circ_shared.specs.Patterns.{goal_at, variable_trees, IsPattern};
ghost use Rattle.circ_steps.specs.Derivatives.{above_variables, IsDerivativeAt, BuildsBothAt};
ghost use Rattle.circ_steps.specs.Derivatives.{MakesDerivativeAt, MakesDerivativesAt};
ghost use Rattle.circ_steps.specs.States.{state_at, IsStateThere, AddsHypotheses};
ghost use Rattle.circ_steps.specs.Judging.{AreRules};

use crate::derivative::{SharedDerivative, variables};
use crate::rules::Rules;
use crate::states::{SharedGoal, SharedState};
use circ_nodes::{Nodes, Shape};
use circ_rules::DeriveFault;
use circ_shared::{Made, Pattern, Sides, give, instance, pattern};
use circ_term::TermFault;
use std::alloc::{AllocError, Global};
use std::collections::VecDeque;

impl Rules<'_> {
    /// The first goal becomes the last hypothesis, and its derivatives the last goals: the rule
    /// Derive. False where the goal's sort is visible, a derivative passes a limit, the numbers of
    /// variables do not suffice, or there is no goal. The state is as before then, and after want
    /// of memory.
    pub fn derive(&self, nodes: &mut Nodes, state: &mut SharedState) -> Result<bool, AllocError>
        requires rules { AreRules nodes.old self.now }
        requires state { IsStateThere nodes.old state.old }
        requires sorted { IsSortedState self.now.theory.now (state_at nodes.old state.old) }
        ensures grows { Grows nodes.old nodes.new }
        ensures state { IsStateThere nodes.new state.new }
        ensures hyps { OnOk result (AddsHypotheses state.old.hyps.items state.new.hyps.items) }
        ensures exact { IfOk result (Applies self.now.theory.now self.now.gamma.now Derive
            (state_at nodes.old state.old) (state_at nodes.new state.new)) }
        ensures kept { OnErr result
            (state_at nodes.new state.new ≡ state_at nodes.old state.old) }
    {
        self.theory.known();
        let Some(goal) = state.goals.front() else {
            return Ok(false);
        };
        if !self.theory.is_hidden(nodes.sort(goal.sides.left)) {
            return Ok(false);
        }
        let conds = Vec::from_slice(self.alloc, goal.conds.as_slice())?;
        let hypothesis = pattern(self.alloc, nodes, conds, goal.sides)?;
        match self.derivatives_on(nodes, &hypothesis) {
            Err(fault) => false_unless_memory(fault),
            Ok(derived) => {
                move_first(state, hypothesis, derived)?;
                Ok(true)
            }
        }
    }

    // The derivatives of the goal, in the theory's order.
    fn derivatives_on(
        &self,
        nodes: &mut Nodes,
        goal: &Pattern,
    ) -> Result<VecDeque<SharedGoal>, DeriveFault>
        requires rules { AreRules nodes.old self.now }
        requires goal { IsPattern nodes.old goal.now }
        requires sorted { IsWellSortedGoal self.now.theory.now (goal_at nodes.old goal.now) }
        ensures grows { Grows nodes.old nodes.new }
        ensures exact { MakesDerivativesAt nodes.new self.now.theory.now
            (goal_at nodes.old goal.now) result }
    {
        let sort = nodes.sort(goal.sides.left);
        let fresh = above(nodes, goal.variables.as_slice());
        let mut derived = VecDeque::new(self.alloc);
        for derivative in 0..self.theory.derivative_count() {
            if self.theory.takes(derivative, sort) {
                match self.derivative_on(nodes, derivative, goal, fresh) {
                    Ok(goal) => derived.push_back(goal)?,
                    Err(fault) => return Err(fault),
                }
            }
        }
        Ok(derived)
    }

    // The derivative of this number on the goal, its parameters numbered from `fresh`.
    fn derivative_on(
        &self,
        nodes: &mut Nodes,
        derivative: u32,
        goal: &Pattern,
        fresh: u64,
    ) -> Result<SharedGoal, DeriveFault>
        requires rules { AreRules nodes.old self.now }
        requires goal { IsPattern nodes.old goal.now }
        requires sorted { IsWellSortedGoal self.now.theory.now (goal_at nodes.old goal.now) }
        requires hole { option_map (λ d. d.hole)
            (slice_get self.now.theory.now.derivatives derivative)
            ≡ Some (sort_of (goal_at nodes.old goal.now).left) }
        requires fresh { fresh ≡ fresh_in (goal_at nodes.old goal.now) }
        requires small { fresh ≤ 2 ^ 32 }
        ensures grows { Grows nodes.old nodes.new }
        ensures exact { IfSome (slice_get self.now.theory.now.derivatives derivative)
            (λ d. MakesDerivativeAt nodes.new (goal_at nodes.old goal.now) d result) }
    {
        self.theory.known();
        let Some(sorts) = self.theory.parameter_sorts(derivative) else {
            unreachable!()
        };
        if fresh + sorts.len() as u64 > 1 << 32 {
            return Err(DeriveFault::Numbers);
        }
        let params = variables(self.alloc, nodes, fresh, sorts)?;
        match self.both_sides(nodes, derivative, params.as_slice(), goal) {
            Ok(goal) => Ok(goal),
            Err(fault) => Err(DeriveFault::Term(fault)),
        }
    }

    // The derivative of this number on both sides of the goal, with these terms for its
    // parameters, under the goal's conditions.
    fn both_sides(
        &self,
        nodes: &mut Nodes,
        derivative: u32,
        params: &[u32],
        goal: &Pattern,
    ) -> Result<SharedGoal, TermFault>
        requires rules { AreRules nodes.old self.now }
        requires goal { IsPattern nodes.old goal.now }
        requires params { AllByRecursion (λ n. n < length nodes.old) params.now }
        requires left { FitSome (slice_get self.now.theory.now.derivatives derivative)
            (map (tree_at nodes.old) params.now) (goal_at nodes.old goal.now).left }
        requires right { FitSome (slice_get self.now.theory.now.derivatives derivative)
            (map (tree_at nodes.old) params.now) (goal_at nodes.old goal.now).right }
        ensures grows { Grows nodes.old nodes.new }
        ensures exact { IfSome (slice_get self.now.theory.now.derivatives derivative)
            (λ d. BuildsBothAt nodes.new (instances_on d (map (tree_at nodes.old) params.now)
            (goal_at nodes.old goal.now)) result) }
    {
        let derivative = &self.derivatives[derivative as usize];
        match instance_on(self.alloc, nodes, derivative, params, goal.sides.left) {
            Err(fault) => Err(fault),
            Ok(left) => match instance_on(self.alloc, nodes, derivative, params, goal.sides.right) {
                Err(fault) => Err(fault),
                Ok(right) => {
                    let conds = Vec::from_slice(self.alloc, goal.conds.as_slice())?;
                    let sides = Sides { left, right };
                    Ok(SharedGoal { conds, sides })
                }
            },
        }
    }
}

// The derivative on a term, with these terms for its parameters.
fn instance_on(
    alloc: Global,
    nodes: &mut Nodes,
    derivative: &SharedDerivative,
    params: &[u32],
    term: u32,
) -> Result<u32, TermFault>
    requires params { AllByRecursion (λ n. n < length nodes.old) params.now }
    requires term { term < length nodes.old }
    requires fits { (d : Derivative) × IsDerivativeAt nodes.old d derivative.now
        × FitDerivative d (map (tree_at nodes.old) params.now) (tree_at nodes.old term) }
    ensures grows { Grows nodes.old nodes.new }
    ensures interns { (d : Derivative) → IsDerivativeAt nodes.old d derivative.now
        → FitDerivative d (map (tree_at nodes.old) params.now) (tree_at nodes.old term)
        → Interns nodes.new result (derived d (tree_at nodes.old term)
        (given_parameters (map (tree_at nodes.old) params.now))) }
{
    nodes.known();
    nodes.known_at(term);
    let mut made = Made::new(alloc);
    match give(nodes, &mut made, derivative.params.as_slice(), params)? {
        true => {}
        false => unreachable!(),
    }
    made.insert(derivative.hole, term)?;
    instance(alloc, nodes, &mut made, derivative.body)
}

// One above the greatest number of these variables, 0 where there is none.
fn above(nodes: &Nodes, variables: &[u32]) -> u64
    requires { AllByRecursion (λ n. n < length nodes.now) variables.now }
    ensures exact { (vs : List Variable) → AreNamed nodes.now variables.now (variable_trees vs)
        → result ≡ above_variables vs }
    ensures small { result ≤ 2 ^ 32 }
{
    let mut most = 0;
    for variable in variables {
        most = greater(most, above_variable(nodes, *variable));
    }
    most
}

fn greater(first: u64, second: u64) -> u64
    ensures { result ≡ max first second }
{
    if first < second { second } else { first }
}

fn above_variable(nodes: &Nodes, variable: u32) -> u64
    requires { variable < length nodes.now }
    ensures exact { (v : Variable) → tree_at nodes.now variable ≡ Var v.number v.sort
        → result ≡ v.number + 1 }
    ensures small { result ≤ 2 ^ 32 }
{
    match nodes.shape(variable) {
        Shape::Variable { number, .. } => number as u64 + 1,
        Shape::Application { .. } => 0,
    }
}

// Derive is refused, or memory ran out.
fn false_unless_memory(fault: DeriveFault) -> Result<bool, AllocError>
    ensures { IfOk result (λ b. (b ≡ false) × ((o : Option Cause) → NamesCause fault o
        → o ≡ None → ⊥)) }
{
    match fault {
        DeriveFault::Numbers => Ok(false),
        DeriveFault::Term(TermFault::TooBig { .. }) => Ok(false),
        DeriveFault::Term(TermFault::TooDeep { .. }) => Ok(false),
        DeriveFault::Term(TermFault::Memory) => Err(AllocError),
    }
}

// The first goal gives way to a hypothesis, and these goals go behind the others.
fn move_first(
    state: &mut SharedState,
    hypothesis: Pattern,
    derived: VecDeque<SharedGoal>,
) -> Result<(), AllocError>
    ensures hyps { OnOk result (state.new.hyps.items ≡ state.old.hyps.items ++ hypothesis ∷ []) }
    ensures goals { OnOk result
        (state.new.goals.items ≡ drop 1 (state.old.goals.items ++ derived.items)) }
    ensures kept_hyps { OnErr result (state.new.hyps.items ≡ state.old.hyps.items) }
    ensures kept_goals { OnErr result (state.new.goals.items ≡ state.old.goals.items) }
{
    let mut derived = derived;
    state.hyps.reserve(1)?;
    state.goals.append(&mut derived)?;
    state.goals.pop_front();
    state.hyps.push_reserved(hypothesis);
    Ok(())
}
