//! The steps of proofs, each by its rule.
ghost use Rattle.std.specs.Prelude.{◌≡◌, ◌<◌, List, length, IfOk, OnOk};
ghost use Rattle.std.specs.Result.{OnErr};
ghost use Rattle.std.specs.List.{AllByRecursion};
ghost use Rattle.circ_term.specs.Growing.{Grows};
ghost use Rattle.circ_term.specs.Tree.{Tree};
ghost use Rattle.circ_theory.specs.Signature.{IsWellSorted};
ghost use Rattle.circ_theory.specs.Rewriting.{named};
ghost use Rattle.circ_proof.specs.Rules.{Done, map_step, AllOfStep, IsSortedState};
ghost use Rattle.circ_proof.specs.PlainProof.{plain_step};
ghost use Rattle.circ_rules.specs.Answers.{Applies};
ghost use Rattle.circ_steps.specs.States.{state_at, IsStateThere, AddsHypotheses};
ghost use Rattle.circ_steps.specs.Judging.{AreRules, terms_at};

use crate::rules::Rules;
use crate::states::SharedState;
use circ_nodes::Nodes;
use circ_proof::Step;
use std::alloc::AllocError;

impl Rules<'_> {
    /// Does the step. False where it is no instance of its rule. The state is as before then, and
    /// after want of memory.
    pub fn apply(
        &self,
        nodes: &mut Nodes,
        state: &mut SharedState,
        step: &Step,
    ) -> Result<bool, AllocError>
        requires rules { AreRules nodes.old self.now }
        requires table_sorted { AllByRecursion (IsWellSorted self.now.theory.now.signature)
            (terms_at nodes.old self.now) }
        requires in_table { AllOfStep (λ n. n < length self.now.table.now) (plain_step step.now) }
        requires state { IsStateThere nodes.old state.old }
        requires sorted { IsSortedState self.now.theory.now (state_at nodes.old state.old) }
        ensures grows { Grows nodes.old nodes.new }
        ensures state { IsStateThere nodes.new state.new }
        ensures exact { IfOk result (Applies self.now.theory.now self.now.gamma.now
            (map_step (named (terms_at nodes.old self.now)) (plain_step step.now))
            (state_at nodes.old state.old) (state_at nodes.new state.new)) }
        ensures hyps { OnOk result (AddsHypotheses state.old.hyps.items state.new.hyps.items) }
        ensures kept { OnErr result
            (state_at nodes.new state.new ≡ state_at nodes.old state.old) }
        ensures sorted { IsSortedState self.now.theory.now (state_at nodes.new state.new) }
    {
        self.theory.known();
        self.by_rule(nodes, state, step)
    }

    // The same, without the terms' sorts.
    fn by_rule(
        &self,
        nodes: &mut Nodes,
        state: &mut SharedState,
        step: &Step,
    ) -> Result<bool, AllocError>
        requires rules { AreRules nodes.old self.now }
        requires in_table { AllOfStep (λ n. n < length self.now.table.now) (plain_step step.now) }
        requires state { IsStateThere nodes.old state.old }
        requires sorted { IsSortedState self.now.theory.now (state_at nodes.old state.old) }
        ensures grows { Grows nodes.old nodes.new }
        ensures state { IsStateThere nodes.new state.new }
        ensures exact { IfOk result (Applies self.now.theory.now self.now.gamma.now
            (map_step (named (terms_at nodes.old self.now)) (plain_step step.now))
            (state_at nodes.old state.old) (state_at nodes.new state.new)) }
        ensures hyps { OnOk result (AddsHypotheses state.old.hyps.items state.new.hyps.items) }
        ensures kept { OnErr result
            (state_at nodes.new state.new ≡ state_at nodes.old state.old) }
    {
        match step {
            Step::Simplify { chain } => self.simplify(nodes, state, chain),
            Step::Reduce { why } => self.reduce(nodes, state, why),
            Step::Derive => self.derive(nodes, state),
            Step::Cases { term } => self.cases(nodes, state, *term),
            Step::Done => Ok(self.done(state)),
        }
    }

    /// Whether no goal is left: the rule Done. The state stays as it is.
    pub fn done(&self, state: &SharedState) -> bool
        ensures { (nodes : List Tree) → Applies self.now.theory.now self.now.gamma.now Done
            (state_at nodes state.now) (state_at nodes state.now) result }
    {
        state.goals.is_empty()
    }
}
