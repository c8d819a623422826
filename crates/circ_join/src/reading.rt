//! Whether a goal can be a rule.
ghost use Rattle.std.specs.Prelude.{◌≡◌, [], map, IfOk, OnOk};
ghost use Rattle.circ_theory.specs.Occurring.{variable_of};
ghost use Rattle.circ_theory.specs.Pairs.{plain_pair};
ghost use Rattle.circ_theory.specs.Rule.{is_bound};
ghost use Rattle.circ_theory.specs.Variables.{seen_in_pairs};
ghost use Rattle.circ_plain_search.specs.BlockRules.{can_rewrite};

use circ_theory::{Goal, Occurring, Pair, gather};
use indexmap::IndexSet;
use std::alloc::{AllocError, Global};

/// Whether the left side is no variable, and has all variables of the right side and of the
/// conditions.
pub fn can_rewrite(alloc: Global, goal: &Goal) -> Result<bool, AllocError>
    ensures { IfOk result (λ b. b ≡ can_rewrite goal.now) }
{
    if goal.left.op_number().is_none() {
        return Ok(false);
    }
    is_bound(alloc, goal)
}

fn is_bound(alloc: Global, goal: &Goal) -> Result<bool, AllocError>
    ensures { IfOk result (λ b. b ≡ is_bound goal.now) }
{
    let mut variables = IndexSet::new(alloc);
    adds_no_variable(goal, &mut variables)
}

// Gathers the variables of the left side and then the others. Whether these add none.
fn adds_no_variable(goal: &Goal, variables: &mut IndexSet<Occurring>) -> Result<bool, AllocError>
    requires empty { variables.old.keys ≡ [] }
    ensures { IfOk result (λ b. b ≡ is_bound goal.now) }
{
    gather(&goal.left, variables)?;
    let count = variables.len();
    gather(&goal.right, variables)?;
    gather_pairs(goal.conds.as_slice(), variables)?;
    Ok(variables.len() == count)
}

// Adds the variables of pairs to those that were seen so far.
fn gather_pairs(pairs: &[Pair], variables: &mut IndexSet<Occurring>) -> Result<(), AllocError>
    ensures { OnOk result (map variable_of variables.new.keys ≡
        seen_in_pairs (map plain_pair pairs.now) (map variable_of variables.old.keys)) }
{
    for pair in pairs {
        gather(&pair.left, variables)?;
        gather(&pair.right, variables)?;
    }
    Ok(())
}
