//! The variables of terms in order, and terms for them.
ghost use Rattle.std.specs.Prelude.{◌≡◌, ℕ, IfOk, OnOk, map, unwrap_or};
ghost use Rattle.std.specs.Option.{option_copied};
ghost use Rattle.circ_term.specs.Tree.{trees_of};
ghost use Rattle.circ_theory.specs.Theory.{goal};
ghost use Rattle.circ_theory.specs.Variables.{given, sorted, variables_of};
ghost use Rattle.circ_theory.specs.Pairs.{plain_pair};
ghost use Rattle.circ_replay.specs.Gathering.{gathered, gathered_all, gathered_pairs};
ghost use Rattle.circ_expansion.specs.Followed.{no_goal};
ghost use Rattle.circ_uses.specs.Valuations.{variable_of, valued_by};

use crate::valuation::{Valuation, Variable};
use circ_term::{Kind, Term};
use circ_theory::{Goal, Pair};
use std::alloc::{AllocError, Global};
use std::collections::BTreeSet;

/// The variables of two sides and of conditions, by number, then sort. Costs a look-up for each
/// occurrence.
pub fn variables_of(
    alloc: Global,
    left: &Term,
    right: &Term,
    conds: &[Pair],
) -> Result<BTreeSet<Variable>, AllocError>
    ensures { IfOk result (λ s. map variable_of s.keys ≡
        sorted (variables_of (goal (map plain_pair conds.now) left.now right.now))) }
{
    let mut variables = BTreeSet::new(alloc);
    gather(left, &mut variables)?;
    gather(right, &mut variables)?;
    gather_pairs(conds, &mut variables)?;
    Ok(variables)
}

fn gather_pairs(pairs: &[Pair], variables: &mut BTreeSet<Variable>) -> Result<(), AllocError>
    ensures { OnOk result (map variable_of variables.new.keys ≡
        gathered_pairs (map plain_pair pairs.now) (map variable_of variables.old.keys)) }
{
    for pair in pairs {
        gather(&pair.left, variables)?;
        gather(&pair.right, variables)?;
    }
    Ok(())
}

/// The variables of a goal, or none where there is no goal.
pub fn variables_in(alloc: Global, goal: Option<&Goal>) -> Result<BTreeSet<Variable>, AllocError>
    ensures { IfOk result (λ s. map variable_of s.keys ≡
        sorted (variables_of (unwrap_or (option_copied goal.entry) no_goal))) }
{
    match goal {
        Some(goal) => variables_of(alloc, &goal.left, &goal.right, goal.conds.as_slice()),
        None => {
            let nothing = Term::var(0, 0);
            variables_of(alloc, &nothing, &nothing, &[])
        }
    }
}

// Adds the variables of the term.
#[cycle(gather)]
fn gather(term: &Term, variables: &mut BTreeSet<Variable>) -> Result<(), AllocError>
    ensures { OnOk result (map variable_of variables.new.keys ≡
        gathered term.now (map variable_of variables.old.keys)) }
{
    if term.is_ground() {
        return Ok(());
    }
    match term.kind() {
        Kind::Variable { number, sort } => {
            variables.insert(Variable { number, sort })?;
            Ok(())
        }
        Kind::Application { args, .. } => gather_all(args, variables),
    }
}

#[cycle(gather)]
fn gather_all(terms: &[Term], variables: &mut BTreeSet<Variable>) -> Result<(), AllocError>
    ensures { OnOk result (map variable_of variables.new.keys ≡
        gathered_all (trees_of terms.now) (map variable_of variables.old.keys)) }
{
    for term in terms {
        gather(term, variables)?;
    }
    Ok(())
}

/// The terms in order for the variables in order.
pub fn given(
    alloc: Global,
    variables: &BTreeSet<Variable>,
    terms: &[Term],
) -> Result<Valuation, AllocError>
    ensures { IfOk result (λ v. (n s : ℕ) → valued_by v n s ≡
        given (map variable_of variables.now.keys) terms.now n s) }
{
    let mut values = Valuation::new(alloc);
    let mut rest = variables.iter();
    for term in terms {
        let Some(variable) = rest.next() else {
            return Ok(values);
        };
        values.put(variable.number, variable.sort, term)?;
    }
    Ok(values)
}
