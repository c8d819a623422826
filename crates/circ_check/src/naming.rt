//! The goals of a block, by the numbers of the table.
ghost use Rattle.std.specs.Prelude.{◌≡◌, ◌<◌, ◌++◌, [], List, length, map, IfOk, OnOk};
ghost use Rattle.std.specs.List.{AllByRecursion};
ghost use Rattle.circ_term.specs.Tree.{Tree};
ghost use Rattle.circ_term.specs.Growing.{Grows};
ghost use Rattle.circ_proof.specs.Proof.{goal_at as named_goal, pair_at as named_pair};
ghost use Rattle.circ_proof.specs.PlainProof.{plain_names};
ghost use Rattle.circ_nodes.specs.Named.{tree_at};
ghost use Rattle.circ_shared.specs.Patterns.{goal_at, pairs_at, AreThere, IsPattern};
ghost use Rattle.circ_steps.specs.States.{shared_goal, shared_goals, IsGoalThere};
ghost use Rattle.circ_check.specs.Naming.{IsNameWithin};

use circ_nodes::Nodes;
use circ_proof::GoalNames;
use circ_shared::{Pattern, Sides, pattern};
use circ_steps::SharedGoal;
use std::alloc::{AllocError, Global};
use std::collections::VecDeque;

/// The goals go behind those that are there, and as patterns behind those that are there.
pub(crate) fn put_goals(
    alloc: Global,
    nodes: &mut Nodes,
    table: &[u32],
    names: &[GoalNames],
    goals: &mut VecDeque<SharedGoal>,
    own: &mut Vec<Pattern>,
) -> Result<(), AllocError>
    requires table { AllByRecursion (λ n. n < length nodes.old) table.now }
    requires names { AllByRecursion (IsNameWithin (length table.now)) (map plain_names names.now) }
    requires no_goal { goals.old.items ≡ [] }
    requires no_pattern { own.old.items ≡ [] }
    ensures grows { Grows nodes.old nodes.new }
    ensures goals_there { OnOk result (AllByRecursion (IsGoalThere nodes.new) goals.new.items) }
    ensures goals { OnOk result (shared_goals nodes.new goals.new.items ≡
        map (named_goal (map (tree_at nodes.old) table.now)) (map plain_names names.now)) }
    ensures patterns { OnOk result (AllByRecursion (IsPattern nodes.new) own.new.items) }
    ensures own { OnOk result (map (goal_at nodes.new) own.new.items ≡
        map (named_goal (map (tree_at nodes.old) table.now)) (map plain_names names.now)) }
{
    for name in names {
        let goal = share_goal(alloc, table, name)?;
        let made = own_goal(alloc, nodes, &goal)?;
        own.push(made)?;
        goals.push_back(goal)?;
    }
    Ok(())
}

// The goal as a pattern.
fn own_goal(alloc: Global, nodes: &mut Nodes, goal: &SharedGoal) -> Result<Pattern, AllocError>
    requires { IsGoalThere nodes.old goal.now }
    ensures grows { Grows nodes.old nodes.new }
    ensures pattern { IfOk result (IsPattern nodes.new) }
    ensures same { IfOk result (λ p. goal_at nodes.new p ≡ shared_goal nodes.old goal.now) }
{
    let conds = Vec::from_slice(alloc, goal.conds.as_slice())?;
    pattern(alloc, nodes, conds, goal.sides)
}

// The goal of these names.
fn share_goal(alloc: Global, table: &[u32], name: &GoalNames) -> Result<SharedGoal, AllocError>
    requires { IsNameWithin (length table.now) (plain_names name.now) }
    ensures there { (nodes : List Tree) → AllByRecursion (λ n. n < length nodes) table.now
        → IfOk result (IsGoalThere nodes) }
    ensures same { (nodes : List Tree) → IfOk result (λ g. shared_goal nodes g ≡
        named_goal (map (tree_at nodes) table.now) (plain_names name.now)) }
{
    let conds = share_conditions(alloc, table, name.conds.as_slice())?;
    let sides = Sides {
        left: table[name.left as usize],
        right: table[name.right as usize],
    };
    Ok(SharedGoal { conds, sides })
}

// The conditions of these names.
fn share_conditions(
    alloc: Global,
    table: &[u32],
    names: &[(u32, u32)],
) -> Result<Vec<Sides>, AllocError>
    requires { AllByRecursion (λ c. (c.0 < length table.now) × (c.1 < length table.now)) names.now }
    ensures there { (nodes : List Tree) → AllByRecursion (λ n. n < length nodes) table.now
        → IfOk result (λ v. AreThere nodes v.items) }
    ensures same { (nodes : List Tree) → IfOk result (λ v. pairs_at nodes v.items ≡
        map (named_pair (map (tree_at nodes) table.now)) names.now) }
{
    let mut conds = Vec::with_capacity(alloc, names.len())?;
    for name in names {
        conds.push(Sides {
            left: table[name.0 as usize],
            right: table[name.1 as usize],
        })?;
    }
    Ok(conds)
}
