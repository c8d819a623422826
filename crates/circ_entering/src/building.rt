//! Goals are built of numbers.
ghost use Rattle.std.specs.Prelude.{◌≡◌, ◌++◌, map, IfOk, OnOk};
ghost use Rattle.std.specs.List.{AllByRecursion};
ghost use Rattle.circ_theory.specs.Theory.{goal};
ghost use Rattle.circ_theory.specs.Pairs.{plain_pair};
ghost use Rattle.circ_nodes.specs.Named.{tree_at};
ghost use Rattle.circ_nodes.specs.Built.{AreBuilt};
ghost use Rattle.circ_shared.specs.Patterns.{pairs_at, goal_at, IsThere, AreThere, IsPattern};
ghost use Rattle.circ_steps.specs.States.{shared_goals, IsGoalThere};

use circ_nodes::{Nodes, Terms};
use circ_shared::{Pattern, Sides};
use circ_steps::SharedGoal;
use circ_theory::{Goal, Pair, Pairs};
use std::alloc::{AllocError, Global};

/// The goal of these conditions and sides. Costs as much as there are parts that were not built
/// yet.
pub fn build_goal(
    alloc: Global,
    nodes: &Nodes,
    terms: &mut Terms,
    conds: &[Sides],
    sides: Sides,
) -> Result<Goal, AllocError>
    requires conditions { AreThere nodes.now conds.now }
    requires sides { IsThere nodes.now sides }
    requires built { AreBuilt nodes.now terms.old }
    ensures built { AreBuilt nodes.now terms.new }
    ensures same { IfOk result (λ g. g ≡ goal (pairs_at nodes.now conds.now)
        (tree_at nodes.now sides.left) (tree_at nodes.now sides.right)) }
{
    let conds = build_pairs(alloc, nodes, terms, conds)?;
    let left = terms.term(nodes, sides.left)?;
    let right = terms.term(nodes, sides.right)?;
    Ok(Goal {
        conds: Pairs::of(conds),
        left,
        right,
    })
}

// The pairs with the terms of their numbers.
fn build_pairs(
    alloc: Global,
    nodes: &Nodes,
    terms: &mut Terms,
    pairs: &[Sides],
) -> Result<Vec<Pair>, AllocError>
    requires there { AreThere nodes.now pairs.now }
    requires built { AreBuilt nodes.now terms.old }
    ensures built { AreBuilt nodes.now terms.new }
    ensures same { IfOk result (λ v. map plain_pair v.items ≡ pairs_at nodes.now pairs.now) }
{
    let mut made = Vec::with_capacity(alloc, pairs.len())?;
    for pair in pairs {
        let left = terms.term(nodes, pair.left)?;
        let right = terms.term(nodes, pair.right)?;
        made.push(Pair { left, right })?;
    }
    Ok(made)
}

// The goals of hypotheses.
pub(crate) fn build_hypotheses(
    alloc: Global,
    nodes: &Nodes,
    terms: &mut Terms,
    hyps: &[Pattern],
) -> Result<Vec<Goal>, AllocError>
    requires there { AllByRecursion (IsPattern nodes.now) hyps.now }
    requires built { AreBuilt nodes.now terms.old }
    ensures built { AreBuilt nodes.now terms.new }
    ensures same { IfOk result (λ v. v.items ≡ map (goal_at nodes.now) hyps.now) }
{
    let mut made = Vec::with_capacity(alloc, hyps.len())?;
    for hyp in hyps {
        made.push(build_goal(alloc, nodes, terms, hyp.conds.as_slice(), hyp.sides)?)?;
    }
    Ok(made)
}

// The goals are put behind those that are there.
pub(crate) fn build_goals(
    alloc: Global,
    nodes: &Nodes,
    terms: &mut Terms,
    goals: &[SharedGoal],
    made: &mut Vec<Goal>,
) -> Result<(), AllocError>
    requires there { AllByRecursion (IsGoalThere nodes.now) goals.now }
    requires built { AreBuilt nodes.now terms.old }
    ensures built { AreBuilt nodes.now terms.new }
    ensures same { OnOk result (made.new.items ≡
        made.old.items ++ shared_goals nodes.now goals.now) }
{
    for goal in goals {
        made.push(build_goal(alloc, nodes, terms, goal.conds.as_slice(), goal.sides)?)?;
    }
    Ok(())
}
