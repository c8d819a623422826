//! What a step makes a hypothesis.
ghost use Rattle.std.specs.Prelude.{◌≡◌, IfOk};
ghost use Rattle.std.specs.List.{AllByRecursion};
ghost use Rattle.circ_proof.specs.Rules.{Derive};
ghost use Rattle.circ_proof.specs.PlainProof.{plain_step};
ghost use Rattle.circ_nodes.specs.Built.{AreBuilt};
ghost use Rattle.circ_steps.specs.States.{shared_goals, IsGoalThere};
ghost use Rattle.circ_check.specs.Checking.{made_by, goals_in};

use circ_entering::build_goal;
use circ_nodes::{Nodes, Terms};
use circ_proof::Step;
use circ_steps::SharedGoal;
use circ_theory::Goal;
use std::alloc::{AllocError, Global};
use std::collections::VecDeque;

/// What the step makes a hypothesis, if it holds.
pub(crate) fn made_by(
    alloc: Global,
    nodes: &Nodes,
    terms: &mut Terms,
    step: &Step,
    goals: &VecDeque<SharedGoal>,
) -> Result<Option<Goal>, AllocError>
    requires there { AllByRecursion (IsGoalThere nodes.now) goals.now.items }
    requires built { AreBuilt nodes.now terms.old }
    ensures built { AreBuilt nodes.now terms.new }
    ensures made { IfOk result (λ o. goals_in o ≡
        made_by (plain_step step.now) (shared_goals nodes.now goals.now.items)) }
{
    match step {
        Step::Derive => first(alloc, nodes, terms, goals),
        _ => Ok(None),
    }
}

// The first goal.
fn first(
    alloc: Global,
    nodes: &Nodes,
    terms: &mut Terms,
    goals: &VecDeque<SharedGoal>,
) -> Result<Option<Goal>, AllocError>
    requires there { AllByRecursion (IsGoalThere nodes.now) goals.now.items }
    requires built { AreBuilt nodes.now terms.old }
    ensures built { AreBuilt nodes.now terms.new }
    ensures made { IfOk result (λ o. goals_in o ≡
        made_by Derive (shared_goals nodes.now goals.now.items)) }
{
    match goals.front() {
        Some(goal) => {
            let conds = goal.conds.as_slice();
            Ok(Some(build_goal(alloc, nodes, terms, conds, goal.sides)?))
        }
        None => Ok(None),
    }
}
