//! Terms that rules of proofs make: constants of case lists, and variables with fresh numbers.
ghost use Rattle.std.specs.Prelude.{◌≡◌, ◌≤◌, ◌+◌, ◌^◌, length, IfOk};
ghost use Rattle.circ_term.specs.Tree.{App, none};
ghost use Rattle.circ_pairs.specs.Fresh.{variables_from};

use circ_term::{Term, TermFault};
use std::alloc::{AllocError, Global};

/// The constant with this operator number and sort.
pub fn constant_of(alloc: Global, constant: u32, sort: u32) -> Result<Term, AllocError>
    ensures { IfOk result (λ t. t ≡ App constant sort none) }
{
    match Term::app(alloc, constant, sort, Vec::new(alloc)) {
        Ok(term) => Ok(term),
        Err(TermFault::Memory) => Err(AllocError),
        Err(TermFault::TooBig { .. }) => unreachable!(),
        Err(TermFault::TooDeep { .. }) => unreachable!(),
    }
}

/// Variables of these sorts, numbered from `first`.
pub fn variables_from(alloc: Global, first: u64, sorts: &[u32]) -> Result<Vec<Term>, AllocError>
    requires { first + length sorts.now ≤ 2 ^ 32 }
    ensures { IfOk result (λ v. v.items ≡ variables_from first sorts.now) }
{
    let mut made = Vec::with_capacity(alloc, sorts.len())?;
    let mut next = first;
    for sort in sorts {
        made.push(Term::var(next as u32, *sort))?;
        next += 1;
    }
    Ok(made)
}
