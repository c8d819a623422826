//! The cases of a term, and what a hidden goal is split on.
ghost use Rattle.std.specs.Prelude.{◌≡◌, map, IfOk};
ghost use Rattle.std.specs.Option.{option_copied};
ghost use Rattle.circ_term.specs.Tree.{sort_of};
ghost use Rattle.circ_theory.specs.Pairs.{plain_pair};
ghost use Rattle.circ_proof.specs.Goals.{with_cond};
ghost use Rattle.circ_plain_search.specs.Search.{case_of, constants_of};
ghost use Rattle.circ_conditional_search.specs.Search.{case_term};

use crate::opening::first_open_of;
use circ_term::Term;
use circ_theory::{Goal, MOST_CONDITIONS, Pair, Theory, constant_of};
use std::alloc::{AllocError, Global};

/// What a hidden goal is split on: where hidden goals are split, and the goal has fewer conditions
/// than a goal may have, the first open subterm of its left side, or else of its right side. Takes
/// no memory.
pub fn case_term<'a>(theory: &Theory, split: bool, goal: &'a Goal) -> Option<&'a Term>
    ensures { option_copied result ≡ case_term theory.now split goal.now }
{
    if split && goal.conds.len() < MOST_CONDITIONS {
        first_open_of(theory, &goal.left, &goal.right)
    } else {
        None
    }
}

/// The goal in each case of a term: for each constant of its sort's case list, in order, the goal
/// with the condition more that the term is the constant.
pub fn case_goals(
    alloc: Global,
    theory: &Theory,
    goal: &Goal,
    term: &Term,
) -> Result<Vec<Goal>, AllocError>
    ensures { IfOk result (λ v. v.items ≡ map (λ c. with_cond goal.now (case_of term.now c))
        (constants_of theory.now (sort_of term.now))) }
{
    let constants = constants_of(theory, term.sort());
    let mut goals = Vec::with_capacity(alloc, constants.len())?;
    for constant in constants {
        goals.push(case_goal(alloc, goal, term, *constant)?)?;
    }
    Ok(goals)
}

// The goal in the case that the term is the constant.
fn case_goal(alloc: Global, goal: &Goal, term: &Term, constant: u32) -> Result<Goal, AllocError>
    ensures { IfOk result (λ g. g ≡ with_cond goal.now (case_of term.now constant)) }
{
    let mut conds = goal.conds.share(alloc)?;
    conds.push(case_of(alloc, term, constant)?)?;
    let left = goal.left.share()?;
    let right = goal.right.share()?;
    Ok(Goal { conds, left, right })
}

/// The case that the term is the constant.
pub fn case_of(alloc: Global, term: &Term, constant: u32) -> Result<Pair, AllocError>
    ensures { IfOk result (λ p. plain_pair p ≡ case_of term.now constant) }
{
    let left = term.share()?;
    let right = constant_of(alloc, constant, term.sort())?;
    Ok(Pair { left, right })
}

/// The constants of a sort's case list. None where it has no case list.
pub fn constants_of(theory: &Theory, sort: u32) -> &[u32]
    ensures { result.now ≡ constants_of theory.now sort }
{
    match theory.cases(sort) {
        Some(constants) => constants,
        None => &[],
    }
}
