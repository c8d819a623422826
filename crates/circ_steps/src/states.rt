//! Hypotheses and goals by number.
ghost use Rattle.std.specs.Prelude.{◌≡◌, [], take};
ghost use Rattle.std.specs.List.{AllByRecursion};
ghost use Rattle.circ_proof.specs.Rules.{state};
ghost use Rattle.circ_shared.specs.Patterns.{IsPattern};
ghost use Rattle.circ_steps.specs.States.{state_at, IsStateThere};

use circ_nodes::Nodes;
use circ_shared::{Pattern, Sides};
use std::collections::VecDeque;

/// A goal: the sides of its conditions, and its own, by number.
#[derive(Drop)]
pub struct SharedGoal {
    pub conds: Vec<Sides>,
    pub sides: Sides,
}

/// What a proof has shown so far, and what is left, by number. The rules act on the first goal.
#[derive(Drop)]
pub struct SharedState {
    /// What is taken as proved, by the numbers that links use.
    pub hyps: Vec<Pattern>,
    /// What is still to be proved.
    pub goals: VecDeque<SharedGoal>,
}

impl SharedState {
    /// Keeps the first hypotheses and no goal, and the first terms of the table: so a block ends
    /// whose hypotheses were there with their terms when it began. Costs as much as goes.
    pub fn cut(&mut self, nodes: &mut Nodes, terms: usize, hyps: usize)
        requires { AllByRecursion (IsPattern (take terms nodes.old))
            (take hyps self.old.hyps.items) }
        ensures nodes { nodes.new ≡ take terms nodes.old }
        ensures hyps { self.new.hyps.items ≡ take hyps self.old.hyps.items }
        ensures there { IsStateThere nodes.new self.new }
        ensures cut { state_at nodes.new self.new
            ≡ state (take hyps (state_at nodes.old self.old).hypotheses) [] }
    {
        nodes.cut(terms);
        self.hyps.truncate(hyps);
        self.goals.clear();
    }
}
