//! The rules that follow links.
ghost use Rattle.std.specs.Prelude.{◌≡◌, ◌<◌, length, IfOk};
ghost use Rattle.std.specs.Result.{OnErr};
ghost use Rattle.circ_term.specs.Growing.{Grows};
ghost use Rattle.circ_proof.specs.Plain.{plain_chain, plain_why};
ghost use Rattle.circ_proof.specs.Link.{resolved_chain, resolved_why};
ghost use Rattle.circ_proof.specs.Justified.{AllOfChain, IsWhyInTable};
ghost use Rattle.circ_proof.specs.Rules.{Simplify, Reduce};
ghost use Rattle.circ_rules.specs.Answers.{Applies};
ghost use Rattle.circ_steps.specs.States.{state_at, with_sides, IsStateThere};
ghost use Rattle.circ_steps.specs.Judging.{AreRules, terms_at};

use crate::derivative::SharedDerivative;
use crate::states::SharedState;
use circ_nodes::Nodes;
use circ_proof::{Chain, Why};
use circ_shared::{Pattern, Sides, Sources};
use circ_special::Gamma;
use circ_theory::Theory;
use std::alloc::{AllocError, Global};

/// What steps are judged by: a theory, its equations and its derivatives by number, a special set,
/// and the numbers of the terms that links name.
#[derive(Clone, Copy)]
pub struct Rules<'a> {
    pub alloc: Global,
    pub theory: &'a Theory,
    pub equations: &'a [Pattern],
    pub derivatives: &'a [SharedDerivative],
    pub gamma: &'a Gamma,
    pub table: &'a [u32],
}

impl Rules<'_> {
    /// The first goal's sides are replaced by what the chain leads to: the rule Simplify. False
    /// where one of the links does not apply, or there is no goal. The state is as before then, and
    /// after want of memory.
    pub fn simplify(
        &self,
        nodes: &mut Nodes,
        state: &mut SharedState,
        chain: &Chain,
    ) -> Result<bool, AllocError>
        requires rules { AreRules nodes.old self.now }
        requires in_table { AllOfChain (λ n. n < length self.now.table.now)
            (plain_chain chain.now) }
        requires state { IsStateThere nodes.old state.old }
        ensures grows { Grows nodes.old nodes.new }
        ensures state { IsStateThere nodes.new state.new }
        ensures hyps { state.new.hyps ≡ state.old.hyps }
        ensures exact { IfOk result (Applies self.now.theory.now self.now.gamma.now
            (Simplify (resolved_chain (terms_at nodes.old self.now) (plain_chain chain.now)))
            (state_at nodes.old state.old) (state_at nodes.new state.new)) }
        ensures kept { OnErr result
            (state_at nodes.new state.new ≡ state_at nodes.old state.old) }
    {
        let Some(first) = state.goals.front() else {
            return Ok(false);
        };
        let sources = Sources {
            alloc: self.alloc,
            theory: self.theory,
            equations: self.equations,
            gamma: self.gamma,
            hyps: state.hyps.as_slice(),
            table: self.table,
        };
        let conds = first.conds.as_slice();
        let Some(end) = sources.follow_chain(nodes, conds, chain, first.sides)? else {
            return Ok(false);
        };
        put_sides(state, end);
        Ok(true)
    }

    /// The first goal is dropped where it holds by the reason: the rule Reduce. False where it does
    /// not, or there is no goal. The state is as before then, and after want of memory; the table
    /// is so in any case.
    pub fn reduce(
        &self,
        nodes: &mut Nodes,
        state: &mut SharedState,
        why: &Why,
    ) -> Result<bool, AllocError>
        requires rules { AreRules nodes.old self.now }
        requires in_table { IsWhyInTable (length self.now.table.now) (plain_why why.now) }
        requires state { IsStateThere nodes.old state.old }
        ensures same { nodes.new ≡ nodes.old }
        ensures state { IsStateThere nodes.old state.new }
        ensures hyps { state.new.hyps ≡ state.old.hyps }
        ensures exact { IfOk result (Applies self.now.theory.now self.now.gamma.now
            (Reduce (resolved_why (terms_at nodes.old self.now) (plain_why why.now)))
            (state_at nodes.old state.old) (state_at nodes.old state.new)) }
        ensures kept { OnErr result
            (state_at nodes.old state.new ≡ state_at nodes.old state.old) }
    {
        let Some(first) = state.goals.front() else {
            return Ok(false);
        };
        let sources = Sources {
            alloc: self.alloc,
            theory: self.theory,
            equations: self.equations,
            gamma: self.gamma,
            hyps: state.hyps.as_slice(),
            table: self.table,
        };
        let conds = first.conds.as_slice();
        let holds = sources.follow_why(nodes, conds, first.sides, why)?;
        if holds {
            state.goals.pop_front();
        }
        Ok(holds)
    }
}

// The sides take the place of those of the first goal.
fn put_sides(state: &mut SharedState, sides: Sides)
    ensures hyps { state.new.hyps ≡ state.old.hyps }
    ensures put { state.new.goals.items ≡ with_sides sides state.old.goals.items }
{
    if let Some(first) = state.goals.front_mut() {
        first.sides = sides;
    }
}
