//! Terms and goals get numbers.
ghost use Rattle.std.specs.Prelude.{◌≡◌, ◌<◌, ◌++◌, length, map, IfOk, OnOk};
ghost use Rattle.std.specs.List.{AllByRecursion};
ghost use Rattle.circ_term.specs.Growing.{Grows};
ghost use Rattle.circ_nodes.specs.Named.{tree_at};
ghost use Rattle.circ_shared.specs.Patterns.{goal_at, IsPattern};
ghost use Rattle.circ_steps.specs.States.{shared_goal, shared_goals, IsGoalThere};

use circ_nodes::Nodes;
use circ_shared::{Pattern, Sides, pattern};
use circ_steps::{SharedGoal, share_pairs};
use circ_term::Term;
use circ_theory::Goal;
use std::alloc::{AllocError, Global};
use std::collections::VecDeque;

/// The numbers of terms, in order. Costs a look-up for each node of them, counted as trees.
pub fn enter_terms(alloc: Global, nodes: &mut Nodes, terms: &[Term]) -> Result<Vec<u32>, AllocError>
    ensures grows { Grows nodes.old nodes.new }
    ensures there { IfOk result (λ v. AllByRecursion (λ n. n < length nodes.new) v.items) }
    ensures exact { IfOk result (λ v. map (tree_at nodes.new) v.items ≡ terms.now) }
{
    let mut numbers = Vec::with_capacity(alloc, terms.len())?;
    for term in terms {
        numbers.push(nodes.intern(term)?)?;
    }
    Ok(numbers)
}

/// Goals by number are put behind those that are there. After want of memory some of them may be.
/// Costs as [`enter_terms`] does.
pub fn enter_goals(
    alloc: Global,
    nodes: &mut Nodes,
    goals: &[Goal],
    entered: &mut VecDeque<SharedGoal>,
) -> Result<(), AllocError>
    requires { AllByRecursion (IsGoalThere nodes.old) entered.old.items }
    ensures grows { Grows nodes.old nodes.new }
    ensures there { AllByRecursion (IsGoalThere nodes.new) entered.new.items }
    ensures exact { OnOk result (shared_goals nodes.new entered.new.items ≡
        shared_goals nodes.old entered.old.items ++ goals.now) }
{
    for goal in goals {
        entered.push_back(enter_goal(alloc, nodes, goal)?)?;
    }
    Ok(())
}

/// The same of goals that are used as hypotheses.
pub fn enter_hypotheses(
    alloc: Global,
    nodes: &mut Nodes,
    goals: &[Goal],
    entered: &mut Vec<Pattern>,
) -> Result<(), AllocError>
    requires { AllByRecursion (IsPattern nodes.old) entered.old.items }
    ensures grows { Grows nodes.old nodes.new }
    ensures there { AllByRecursion (IsPattern nodes.new) entered.new.items }
    ensures exact { OnOk result (map (goal_at nodes.new) entered.new.items ≡
        map (goal_at nodes.old) entered.old.items ++ goals.now) }
{
    for goal in goals {
        entered.push(enter_hypothesis(alloc, nodes, goal)?)?;
    }
    Ok(())
}

fn enter_hypothesis(alloc: Global, nodes: &mut Nodes, goal: &Goal) -> Result<Pattern, AllocError>
    ensures grows { Grows nodes.old nodes.new }
    ensures pattern { IfOk result (IsPattern nodes.new) }
    ensures same { IfOk result (λ p. goal_at nodes.new p ≡ goal.now) }
{
    let made = enter_goal(alloc, nodes, goal)?;
    let SharedGoal { conds, sides } = made;
    pattern(alloc, nodes, conds, sides)
}

fn enter_goal(alloc: Global, nodes: &mut Nodes, goal: &Goal) -> Result<SharedGoal, AllocError>
    ensures grows { Grows nodes.old nodes.new }
    ensures there { IfOk result (IsGoalThere nodes.new) }
    ensures same { IfOk result (λ g. shared_goal nodes.new g ≡ goal.now) }
{
    let conds = share_pairs(alloc, nodes, goal.conds.as_slice())?;
    let left = nodes.intern(&goal.left)?;
    let right = nodes.intern(&goal.right)?;
    let sides = Sides { left, right };
    Ok(SharedGoal { conds, sides })
}
