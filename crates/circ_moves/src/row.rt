//! Terms joined by an operator, from the right.
ghost use Rattle.std.specs.Prelude.{◌≡◌, None};
ghost use Rattle.circ_term.specs.Tree.{trees_of};
ghost use Rattle.circ_term.specs.Limits.{Builds, first_limits};
ghost use Rattle.circ_theory.specs.Theory.{twice};
ghost use Rattle.circ_aci.specs.Canonical.{join};

use circ_term::{Term, TermFault};
use std::alloc::Global;

/// The operator on all the parts, grouped to the right; one part alone is that part. Of none it is
/// a variable.
pub(crate) fn joined(alloc: Global, op: u32, sort: u32, parts: Vec<Term>) -> Result<Term, TermFault>
    ensures { Builds result (join op sort parts.items) }
{
    known(parts.as_slice());
    let mut parts = parts;
    let Some(last) = parts.pop() else {
        return Ok(Term::var(0, sort));
    };
    let mut joined = last;
    while let Some(part) = parts.pop() {
        match on_two(alloc, op, sort, part, joined) {
            Ok(term) => joined = term,
            Err(fault) => return Err(fault),
        }
    }
    joined.known();
    Ok(joined)
}

// Does nothing. Its contract is the law that terms are within the limits.
fn known(terms: &[Term])
    ensures { first_limits (trees_of terms.now) ≡ None }
{
    for term in terms {
        term.known();
    }
}

fn on_two(alloc: Global, op: u32, sort: u32, first: Term, second: Term) -> Result<Term, TermFault>
    ensures { Builds result (twice op sort first second) }
{
    Term::app(alloc, op, sort, vec![in alloc; first, second]?)
}
