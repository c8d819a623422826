//! Leaves weighed number by number.
ghost use Rattle.std.specs.Prelude.{IfOk};
ghost use Rattle.std.specs.Bool.{OnTrue, OnFalse};
ghost use Rattle.std.specs.List.Sorted.{IsNonDecreasingBy};
ghost use Rattle.circ_weigh.specs.Weighing.{BalancesOut, Tilts};

use crate::weighing::{Part, sum};
use std::alloc::AllocError;

// Whether each number weighs the same on both sides.
pub(crate) fn balances_out(mut leaves: Vec<Part>) -> Result<bool, AllocError>
    ensures out { IfOk result (λ b. OnTrue b (BalancesOut leaves.items)) }
    ensures tilts { IfOk result (λ b. OnFalse b (Tilts leaves.items)) }
{
    leaves.sort_unstable_by_key(|leaf| leaf.number);
    runs_balance(&leaves)
}

// The same, where the parts of one number stand together: each run of them is summed up.
fn runs_balance(leaves: &[Part]) -> Result<bool, AllocError>
    requires sorted { IsNonDecreasingBy (λ p. p.number) leaves.now }
    ensures out { IfOk result (λ b. OnTrue b (BalancesOut leaves.now)) }
    ensures tilts { IfOk result (λ b. OnFalse b (Tilts leaves.now)) }
{
    let mut run = Part {
        size: 0,
        number: 0,
        left: 0,
        right: 0,
    };
    for leaf in leaves {
        if leaf.number == run.number {
            run.left = sum(run.left, leaf.left)?;
            run.right = sum(run.right, leaf.right)?;
        } else if run.left == run.right {
            run = *leaf;
        } else {
            return Ok(false);
        }
    }
    Ok(run.left == run.right)
}
