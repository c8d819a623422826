//! The derivatives of a goal.
ghost use Rattle.std.specs.Prelude.{◌≡◌, ◌≤◌, ◌^◌, Some};
ghost use Rattle.std.specs.List.{slice_get};
ghost use Rattle.std.specs.Option.{IfSome, option_map};
ghost use Rattle.circ_term.specs.Tree.{sort_of};
ghost use Rattle.circ_theory.specs.Theory.{IsWellSortedGoal};
ghost use Rattle.circ_theory.specs.Fresh.{fresh_in, FitSome};
ghost use Rattle.circ_rules.specs.Derivatives.{MakesDerivatives, MakesDerivative};
ghost use Rattle.circ_rules.specs.Derivatives.{BuildsBoth, instances_on};

use crate::fault::DeriveFault;
use circ_term::{Term, TermFault};
use circ_theory::{Goal, Theory, above, above_pairs, variables_from};
use std::alloc::Global;
use std::collections::VecDeque;

/// The derivatives of a goal: that of each derivative of its sort, in the theory's order, with
/// fresh variables for its parameters (the rule Derive).
pub fn derivatives_on(
    alloc: Global,
    theory: &Theory,
    goal: &Goal,
) -> Result<VecDeque<Goal>, DeriveFault>
    requires sorted { IsWellSortedGoal theory.now goal.now }
    ensures { MakesDerivatives theory.now goal.now result }
{
    theory.known();
    let sort = goal.left.sort();
    let fresh = fresh_in(goal);
    let mut derived = VecDeque::new(alloc);
    for derivative in 0..theory.derivative_count() {
        if theory.takes(derivative, sort) {
            match derivative_on(alloc, theory, derivative, goal, fresh) {
                Ok(goal) => derived.push_back(goal)?,
                Err(fault) => return Err(fault),
            }
        }
    }
    Ok(derived)
}

// One above the greatest variable number of the goal, its conditions among it.
fn fresh_in(goal: &Goal) -> u64
    ensures exact { result ≡ fresh_in goal.now }
    ensures within { result ≤ 2 ^ 32 }
{
    let sides = above(&goal.left).max(above(&goal.right));
    sides.max(above_pairs(goal.conds.as_slice()))
}

// The derivative of this number on both sides of the goal, its parameters numbered from `fresh`.
fn derivative_on(
    alloc: Global,
    theory: &Theory,
    derivative: u32,
    goal: &Goal,
    fresh: u64,
) -> Result<Goal, DeriveFault>
    requires sorted { IsWellSortedGoal theory.now goal.now }
    requires hole { option_map (λ d. d.hole) (slice_get theory.now.derivatives derivative)
        ≡ Some (sort_of goal.now.left) }
    requires fresh { fresh ≡ fresh_in goal.now }
    requires small { fresh ≤ 2 ^ 32 }
    ensures { IfSome (slice_get theory.now.derivatives derivative)
        (λ d. MakesDerivative goal.now d result) }
{
    theory.known();
    let Some(sorts) = theory.parameter_sorts(derivative) else {
        unreachable!();
    };
    if fresh + sorts.len() as u64 > 1 << 32 {
        return Err(DeriveFault::Numbers);
    }
    let params = variables_from(alloc, fresh, sorts)?;
    match both_sides(alloc, theory, derivative, params.as_slice(), goal) {
        Ok(goal) => Ok(goal),
        Err(fault) => Err(DeriveFault::Term(fault)),
    }
}

// The derivative of this number on both sides of the goal, with these terms for its parameters,
// under the goal's conditions.
fn both_sides(
    alloc: Global,
    theory: &Theory,
    derivative: u32,
    params: &[Term],
    goal: &Goal,
) -> Result<Goal, TermFault>
    requires left { FitSome (slice_get theory.now.derivatives derivative)
        params.now goal.now.left }
    requires right { FitSome (slice_get theory.now.derivatives derivative)
        params.now goal.now.right }
    ensures { IfSome (slice_get theory.now.derivatives derivative)
        (λ d. BuildsBoth (instances_on d params.now goal.now) result) }
{
    match theory.instance(derivative, params, &goal.left) {
        Err(fault) => Err(fault),
        Ok(left) => match theory.instance(derivative, params, &goal.right) {
            Err(fault) => Err(fault),
            Ok(right) => {
                let conds = goal.conds.share(alloc)?;
                Ok(Goal { conds, left, right })
            }
        },
    }
}
