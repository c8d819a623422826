//! The goals of a proof by number.
ghost use Rattle.std.specs.Prelude.{◌≡◌, None, map, option_copied};
ghost use Rattle.std.specs.List.{slice_get};
ghost use Rattle.circ_proof.specs.PlainProof.{plain_block, plain_proof};
ghost use Rattle.circ_entry.specs.Entries.{HaveParameters};
ghost use Rattle.circ_entry.specs.Plain.{plain_entries};
ghost use Rattle.circ_expansion.specs.Goals.{all_goals, goal_misfit, FitGoal};

use circ_entry::{Entry, misfit};
use circ_proof::{Block, Proof};
use circ_theory::{Goal, Theory};

/// The goal of this number, counted from 0 over all blocks. None where there is no such goal.
pub fn goal_numbered(proof: &Proof, number: u32) -> Option<&Goal>
    ensures { option_copied result ≡ slice_get (all_goals (plain_proof proof.now).blocks) number }
{
    find_goal(proof.blocks.as_slice(), number as usize)
}

fn find_goal(blocks: &[Block], number: usize) -> Option<&Goal>
    ensures { option_copied result ≡ slice_get (all_goals (map plain_block blocks.now)) number }
{
    let mut left = number;
    for block in blocks {
        if let Some(goal) = block.goals.get(left) {
            return Some(goal);
        }
        left -= block.goals.len();
    }
    None
}

/// Where an experiment on the goal of this number does not fit: 0 where there is no such goal, else
/// the first entry, counted from 1, whose derivative does not exist or has no hole of the sort that
/// is reached, or the number of entries plus 1 where the last sort is hidden.
pub fn goal_misfit(theory: &Theory, proof: &Proof, number: u32, entries: &[Entry]) -> Option<usize>
    ensures exact { result ≡ goal_misfit theory.now (plain_proof proof.now) number
        (plain_entries entries.now) }
    ensures fits { HaveParameters theory.now (plain_entries entries.now) → result ≡ None →
        FitGoal theory.now (plain_proof proof.now) number (plain_entries entries.now) }
{
    let Some(goal) = goal_numbered(proof, number) else {
        return Some(0);
    };
    misfit(theory, goal.left.sort(), entries)
}
