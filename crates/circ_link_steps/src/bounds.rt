//! What a substitution gives the variables of two terms.
ghost use Rattle.std.specs.Prelude.{◌≡◌, IfOk, map};
ghost use Rattle.circ_expansion.specs.Expand.{bounds_of};
ghost use Rattle.circ_written.specs.Rows.{given_bound};
ghost use Rattle.circ_uses.specs.Valuations.{by_of, variable_of, bound_by};

use circ_term::Term;
use circ_uses::{By, Variable, variables_of};
use circ_written::Given;
use std::alloc::{AllocError, Global};

// The variables of both terms, by number, then sort, with what the substitution gives them.
pub(crate) fn bounds_of(
    alloc: Global,
    by: &By,
    old: &Term,
    new: &Term,
) -> Result<Vec<Given>, AllocError>
    ensures { IfOk result (λ v. map given_bound v.items ≡
        bounds_of (by_of by.now) old.now new.now) }
{
    let variables = variables_of(alloc, old, new, &[])?;
    let mut bounds = Vec::new(alloc);
    let mut rest = variables.iter();
    while let Some(variable) = rest.next() {
        let one = bound(by, variable)?;
        bounds.push(one)?;
    }
    Ok(bounds)
}

// One variable with what the substitution gives it.
fn bound(by: &By, variable: &Variable) -> Result<Given, AllocError>
    ensures { IfOk result (λ g. given_bound g ≡
        bound_by (by_of by.now) (variable_of variable.now)) }
{
    let term = by.value(variable.number, variable.sort)?;
    Ok(Given {
        number: variable.number,
        sort: variable.sort,
        term,
    })
}
