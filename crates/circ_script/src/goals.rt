//! The goals of a script.
ghost use Rattle.std.specs.Prelude.{◌≡◌, map};
ghost use Rattle.std.specs.Option.{option_map};
ghost use Rattle.circ_read.specs.Causes.{cause_of};
ghost use Rattle.circ_read.specs.Steps.{StepAnswers};
ghost use Rattle.circ_theory.specs.Adding.{hidden_condition};
ghost use Rattle.circ_theory.specs.Pairs.{plain_pair};
ghost use Rattle.circ_script.specs.Adding.{goal_fault};
ghost use Rattle.circ_script.specs.Steps.{terms_added};

use circ_read::{Cause, Fault, because, goal_of};
use circ_term::Term;
use circ_theory::{Goal, MOST_CONDITIONS, Pair, Pairs, Theory};
use std::alloc::Global;

// Adds the goal that terms are, where its conditions have no fault.
pub(crate) fn push_goal(
    alloc: Global,
    theory: &Theory,
    goals: &mut Vec<Goal>,
    terms: &[Term],
) -> Result<(), Fault>
    ensures { StepAnswers result goals.new.items
        (λ r. r ≡ terms_added theory.now goals.old.items terms.now) }
{
    let Some(goal) = goal_of(alloc, terms)? else {
        return Err(because(Cause::NoParse));
    };
    match goal_fault(theory, &goal.conds) {
        Some(cause) => Err(because(cause)),
        None => {
            goals.push(goal)?;
            Ok(())
        }
    }
}

// Why a goal with these conditions is not added.
fn goal_fault(theory: &Theory, conds: &Pairs) -> Option<Cause>
    ensures { result ≡ option_map cause_of (goal_fault theory.now conds.now) }
{
    if let Some(sort) = hidden_condition(theory, conds.as_slice()) {
        return Some(Cause::NotVisible { sort });
    }
    if conds.len() > MOST_CONDITIONS {
        return Some(Cause::Limit {
            count: conds.len() as u64,
        });
    }
    None
}

// The sort of the first condition of a hidden sort.
fn hidden_condition(theory: &Theory, conds: &[Pair]) -> Option<u32>
    ensures { result ≡ hidden_condition theory.now (map plain_pair conds.now) }
{
    for pair in conds {
        let sort = pair.left.sort();
        if theory.is_hidden(sort) {
            return Some(sort);
        }
    }
    None
}
