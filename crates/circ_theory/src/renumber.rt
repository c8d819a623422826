//! Goals with their variables numbered anew.
ghost use Rattle.std.specs.Prelude.{◌≡◌, ◌≤◌, ◌^◌, length, IfOk};
ghost use Rattle.circ_pairs.specs.Goal.{sides};
ghost use Rattle.circ_pairs.specs.Variables.{IsInOrder, variables_of};
ghost use Rattle.circ_pairs.specs.Renumbering.{renumbered};
ghost use Rattle.circ_theory.specs.Signature.{Signature};
ghost use Rattle.circ_theory.specs.Theory.{IsWellSortedPair};

use circ_pairs::{Goal, renumbered as numbered_anew};
use std::alloc::{AllocError, Global};

/// The goal with its variables numbered anew: they get the numbers 0, 1 and so on by their first
/// occurrence, the left side first, the conditions last. Costs as much as the terms have nodes.
pub fn renumbered(alloc: Global, goal: &Goal) -> Result<Goal, AllocError>
    requires few { length (variables_of goal.now) ≤ 2 ^ 32 }
    ensures exact { IfOk result (λ g. g ≡ renumbered goal.now) }
    ensures in_order { IfOk result (λ g. IsInOrder g) }
    ensures sorted { (sig : Signature) → IsWellSortedPair sig (sides goal.now) →
        IfOk result (λ g. IsWellSortedPair sig (sides g)) }
{
    numbered_anew(alloc, goal)
}
