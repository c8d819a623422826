//! Entries with their terms, experiments on terms, and the start terms of certificates.
ghost use Rattle.std.specs.Prelude.{◌≡◌, ◌≤◌, ◌∷◌, ℕ, [], length, IfOk};
ghost use Rattle.circ_term.specs.Tree.{App, trees_of};
ghost use Rattle.circ_term.specs.Limits.{Builds};
ghost use Rattle.circ_theory.specs.Limits.{argument_limit};
ghost use Rattle.circ_theory.specs.Operators.{operator_of};
ghost use Rattle.circ_theory.specs.Experiment.{on};
ghost use Rattle.circ_theory.specs.Fresh.{given_parameters, numbered_from};
ghost use Rattle.circ_proof.specs.Certified.{start_args, start_term};
ghost use Rattle.circ_entry.specs.Entries.{derivative_at, bare_entries};
ghost use Rattle.circ_expansion.specs.Expand.{stages};
ghost use Rattle.circ_expansion.specs.Expand as expand;
ghost use Rattle.circ_uses.specs.Uses.{entries_of, BuildsLast};
ghost use Rattle.circ_uses.specs.Valuations.{valued_by};
ghost use Rattle.circ_uses.specs.Starting.{StartsWith};

use crate::uses::{Held, Layer, layered};
use crate::valuation::Valuation;
use circ_special::Place;
use circ_term::{Term, TermFault};
use circ_theory::{OpDecl, Theory, variables_from};
use std::alloc::{AllocError, Global};
use std::rc::Rc;

/// These terms for the parameters 1, 2 and so on of their sorts.
pub fn parameters(alloc: Global, terms: &[Term]) -> Result<Valuation, AllocError>
    requires { length terms.now ≤ argument_limit }
    ensures { IfOk result (λ v. (n s : ℕ) → valued_by v n s ≡ given_parameters terms.now n s) }
{
    let mut values = Valuation::new(alloc);
    let mut number = 1;
    for term in terms {
        values.put(number, term.sort(), term)?;
        number += 1;
    }
    Ok(values)
}

/// The experiment on a term, entry by entry. The first entry is the last that is kept.
pub fn experiment(
    alloc: Global,
    theory: &Theory,
    entries: &[Rc<Held>],
    term: &Term,
) -> Result<Term, TermFault>
    ensures { BuildsLast result
        (stages (bare_entries (entries_of theory.now entries.now)) term.now)
        (on (bare_entries (entries_of theory.now entries.now)) term.now) }
{
    term.known();
    let mut here = term.share()?;
    let mut left = entries.len();
    while left > 0 {
        left -= 1;
        match on_one(alloc, theory, &entries[left], &here) {
            Err(fault) => return Err(fault),
            Ok(made) => here = made,
        }
    }
    Ok(here)
}

// One entry on a term.
fn on_one(alloc: Global, theory: &Theory, entry: &Rc<Held>, term: &Term) -> Result<Term, TermFault>
    ensures { Builds result (on (bare_entries (entries_of theory.now (entry.now ∷ []))) term.now) }
{
    term.known();
    let held = entry.clone()?;
    let layer = Rc::new(alloc, Layer::Entry { held }).map_err(AllocError::from)?;
    let mut layers = Vec::new(alloc);
    layers.push(layer)?;
    layered(alloc, theory, layers.as_slice(), term)
}

/// The start term of the certificate of a place for the derivative of this number.
pub fn start_at(
    alloc: Global,
    theory: &Theory,
    place: Place,
    derivative: u32,
) -> Result<Term, TermFault>
    ensures { Builds result
        (expand.start_at theory.now place (derivative_at theory.now derivative)) }
{
    theory.known();
    match theory.op(place.op) {
        Some(decl) => start_of(alloc, theory, place, decl, derivative),
        None => Ok(Term::var(0, 0)),
    }
}

// The same, with the operator of the place.
fn start_of(
    alloc: Global,
    theory: &Theory,
    place: Place,
    decl: &OpDecl,
    derivative: u32,
) -> Result<Term, TermFault>
    requires { length decl.now.args.items ≤ argument_limit }
    ensures { Builds result (start_term (operator_of decl.now) place
        (derivative_at theory.now derivative)) }
{
    let inner = start_application(alloc, place, decl)?;
    let params = start_parameters(alloc, theory, derivative, decl.args.len() as u64)?;
    let held = held(alloc, derivative, params)?;
    on_one(alloc, theory, &held, &inner)
}

// An entry of the derivative of this number.
fn held(alloc: Global, number: u32, params: Valuation) -> Result<Rc<Held>, AllocError>
    ensures number { IfOk result (λ h. h.value.number ≡ number) }
    ensures params { IfOk result (λ h. h.value.params.value ≡ params) }
{
    let params = Rc::new(alloc, params).map_err(AllocError::from)?;
    Rc::new(alloc, Held { number, params }).map_err(AllocError::from)
}

// Variables numbered from `first` for the parameters of a derivative.
fn start_parameters(
    alloc: Global,
    theory: &Theory,
    derivative: u32,
    first: u64,
) -> Result<Valuation, AllocError>
    requires { first ≤ argument_limit }
    ensures { IfOk result (StartsWith theory.now derivative first) }
{
    theory.known();
    match theory.parameter_sorts(derivative) {
        Some(sorts) => {
            let terms = variables_from(alloc, first, sorts)?;
            parameters(alloc, terms.as_slice())
        }
        None => Ok(Valuation::new(alloc)),
    }
}

// The operator of a place on variables: variable 0 at the place, and variables 1, 2 and so on at
// the other arguments from the left.
fn start_application(alloc: Global, place: Place, decl: &OpDecl) -> Result<Term, AllocError>
    requires { length decl.now.args.items ≤ argument_limit }
    ensures { IfOk result (λ term. term ≡ App place.op decl.now.result
        (start_args place.arg 1 decl.now.args.items)) }
{
    let args = start_args(alloc, place.arg, decl.args.as_slice())?;
    match Term::app(alloc, place.op, decl.result, args) {
        Ok(term) => Ok(term),
        Err(TermFault::Memory) => Err(AllocError),
        Err(TermFault::TooBig { .. }) => unreachable!(),
        Err(TermFault::TooDeep { .. }) => unreachable!(),
    }
}

fn start_args(alloc: Global, arg: u16, sorts: &[u32]) -> Result<Vec<Term>, AllocError>
    requires { length sorts.now ≤ argument_limit }
    ensures { IfOk result (λ v. trees_of v.items ≡ start_args arg 1 sorts.now) }
{
    let mut args = Vec::with_capacity(alloc, sorts.len())?;
    let mut next = 1;
    for i in 0..sorts.len() {
        if i == arg as usize {
            args.push(Term::var(0, sorts[i]))?;
        } else {
            args.push(Term::var(next, sorts[i]))?;
            next += 1;
        }
    }
    Ok(args)
}
