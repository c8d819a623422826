//! Terms of the chart, with their variables numbered anew.
ghost use Rattle.std.specs.Prelude.{◌≡◌, ◌<◌, ◌^◌, [], map, length, IfOk};
ghost use Rattle.circ_term.specs.Substitution.{instance};
ghost use Rattle.circ_term.specs.Subst.{substitution_of};
ghost use Rattle.circ_theory.specs.Occurring.{variable_of};
ghost use Rattle.circ_theory.specs.Variables.{seen_in};
ghost use Rattle.circ_mixfix.specs.Numbering.{numbered_anew, Numbers};

use crate::HOLE;
use circ_term::{Subst, Term};
use circ_theory::{Occurring, gather};
use indexmap::IndexSet;
use std::alloc::{AllocError, Global};

// Each variable is bound to one that has the next number. Where there is a hole, it has the number
// 0.
fn numbering(alloc: Global, variables: &[Occurring], hole: bool) -> Result<Subst, AllocError>
    requires { length variables.now < 2 ^ 31 }
    ensures { IfOk result (λ σ. Numbers hole (substitution_of σ) (map variable_of variables.now)) }
{
    let mut subst = Subst::new(alloc);
    let mut next = if hole { 1 } else { 0 };
    for variable in variables {
        let is_hole = hole && variable.number == HOLE;
        let number = if is_hole { 0 } else { next };
        let new = Term::var(number, variable.sort);
        subst.bind(variable.number, variable.sort, &new)?;
        if !is_hole {
            next += 1;
        }
    }
    Ok(subst)
}

// What numbers the variables of the term anew.
fn term_numbering(alloc: Global, term: &Term, hole: bool) -> Result<Subst, AllocError>
    ensures { IfOk result (λ σ. Numbers hole (substitution_of σ) (seen_in term.now [])) }
{
    term.known();
    let mut variables = IndexSet::new(alloc);
    gather(term, &mut variables)?;
    numbering(alloc, variables.as_slice(), hole)
}

// The term with its variables numbered by first occurrence, from 0; where there is a hole, it is
// variable 0 and the others are numbered from 1.
pub fn numbered_anew(alloc: Global, term: &Term, hole: bool) -> Result<Term, AllocError>
    ensures { IfOk result (λ t. t ≡ numbered_anew hole term.now) }
{
    let subst = term_numbering(alloc, term, hole)?;
    match subst.apply(term) {
        Ok(term) => Ok(term),
        Err(_) => Err(AllocError),
    }
}
