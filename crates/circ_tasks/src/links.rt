//! What links put into terms.
ghost use Rattle.std.specs.Prelude.{◌≡◌, IfOk, map, unwrap_or};
ghost use Rattle.circ_term.specs.Limits.{Builds};
ghost use Rattle.circ_term.specs.Substitution.{instance};
ghost use Rattle.circ_theory.specs.Theory.{goal, sides, pair_with};
ghost use Rattle.circ_theory.specs.Pairs.{plain_pair};
ghost use Rattle.circ_theory.specs.Rewriting.{named, by_terms, to_side};
ghost use Rattle.circ_expansion.specs.Followed.{equation_at, no_goal, assumption_at};
ghost use Rattle.std.specs.Option.{option_copied};

use circ_term::{Term, TermFault};
use circ_theory::{Goal, Pair, Theory, Way};
use circ_uses::{By, given, variables_of};
use std::alloc::{AllocError, Global};

/// The term of a table with this number.
pub fn named(table: &[Term], number: u32) -> Result<Term, AllocError>
    ensures { IfOk result (λ t. t ≡ named table.now number) }
{
    match table.get(number as usize) {
        Some(term) => term.share(),
        None => Ok(Term::var(0, 0)),
    }
}

/// The terms of a table with these numbers.
pub fn all_named(alloc: Global, table: &[Term], numbers: &[u32]) -> Result<Vec<Term>, AllocError>
    ensures { IfOk result (λ v. v.items ≡ map (named table.now) numbers.now) }
{
    let mut terms = Vec::with_capacity(alloc, numbers.len())?;
    for number in numbers {
        terms.push(named(table, *number)?)?;
    }
    Ok(terms)
}

// What an equation puts at its path.
pub(crate) fn by_equation(
    alloc: Global,
    theory: &Theory,
    number: u32,
    way: Way,
    terms: &[Term],
) -> Result<Term, TermFault>
    ensures { Builds result (instance (by_terms (equation_at theory.now number) terms.now)
        (to_side way (sides (equation_at theory.now number)))) }
{
    match theory.equation(number) {
        Some(equation) => other_side(
            alloc,
            &equation.left,
            &equation.right,
            equation.conds.as_slice(),
            way,
            terms,
        ),
        None => {
            let nothing = Term::var(0, 0);
            other_side(alloc, &nothing, &nothing, &[], way, terms)
        }
    }
}

// What a hypothesis puts at its path.
pub(crate) fn by_hypothesis(
    alloc: Global,
    goal: Option<&Goal>,
    way: Way,
    terms: &[Term],
) -> Result<Term, TermFault>
    ensures { Builds result (instance
        (by_terms (unwrap_or (option_copied goal.entry) no_goal) terms.now)
        (to_side way (sides (unwrap_or (option_copied goal.entry) no_goal)))) }
{
    match goal {
        Some(goal) => other_side(
            alloc,
            &goal.left,
            &goal.right,
            goal.conds.as_slice(),
            way,
            terms,
        ),
        None => {
            let nothing = Term::var(0, 0);
            other_side(alloc, &nothing, &nothing, &[], way, terms)
        }
    }
}

// What an assumption puts at its path.
pub(crate) fn by_assumption(assumptions: &[Pair], number: u32, way: Way) -> Result<Term, AllocError>
    ensures { IfOk result (λ t. t ≡
        to_side way (assumption_at (map plain_pair assumptions.now) number)) }
{
    match assumptions.get(number as usize) {
        Some(pair) => to_side(way, &pair.left, &pair.right).share(),
        None => Ok(Term::var(0, 0)),
    }
}

// The side of a goal that replaces the other, with the terms for its variables.
pub(crate) fn other_side(
    alloc: Global,
    left: &Term,
    right: &Term,
    conds: &[Pair],
    way: Way,
    terms: &[Term],
) -> Result<Term, TermFault>
    ensures { Builds result (instance
        (by_terms (goal (map plain_pair conds.now) left.now right.now) terms.now)
        (to_side way (sides (goal (map plain_pair conds.now) left.now right.now)))) }
{
    let variables = variables_of(alloc, left, right, conds)?;
    let values = given(alloc, &variables, terms)?;
    let by = By::of(alloc, values)?;
    by.apply(alloc, to_side(way, left, right))
}

// The side that replaces the other.
pub(crate) fn to_side<'a>(way: Way, left: &'a Term, right: &'a Term) -> &'a Term
    ensures { result.now ≡ to_side way (pair_with left.now right.now) }
{
    match way {
        Way::Forth => right,
        Way::Back => left,
    }
}
