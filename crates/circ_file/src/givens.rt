//! A condition more of the last goal, and of its numbers.
ghost use Rattle.std.specs.Prelude.{map, IfOk};
ghost use Rattle.circ_theory.specs.Pairs.{plain_pair};
ghost use Rattle.circ_proof.specs.PlainProof.{plain_names};
ghost use Rattle.circ_grammar.specs.Machine.{add_given};
ghost use Rattle.circ_file.specs.Givens.{add_pair, Gives};

use circ_proof::GoalNames;
use circ_theory::{Goal, Pair};
use std::alloc::AllocError;

/// The last goal has the condition too. False where there is no goal.
pub(crate) fn give_pair(goals: &mut Vec<Goal>, pair: Pair) -> Result<bool, AllocError>
    ensures { IfOk result (λ given. Gives given
        (add_pair goals.old.items (plain_pair pair)) goals.new.items) }
{
    let Some(mut goal) = goals.pop() else {
        return Ok(false);
    };
    goal.conds.push(pair)?;
    goals.push(goal)?;
    Ok(true)
}

/// The same of the numbers of a goal's sides and of those of the condition.
pub(crate) fn give_names(
    names: &mut Vec<GoalNames>,
    left: u32,
    right: u32,
) -> Result<bool, AllocError>
    ensures { IfOk result (λ given. Gives given
        (add_given (map plain_names names.old.items) (left, right))
        (map plain_names names.new.items)) }
{
    let Some(mut last) = names.pop() else {
        return Ok(false);
    };
    last.conds.push((left, right))?;
    names.push(last)?;
    Ok(true)
}
