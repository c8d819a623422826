//! The terms at which certificates start.
ghost use Rattle.std.specs.Prelude.{◌≡◌, ◌≤◌, Some, length, IfOk};
ghost use Rattle.std.specs.List.{slice_get};
ghost use Rattle.std.specs.Option.{IfSome, option_map};
ghost use Rattle.circ_term.specs.Tree.{App, trees_of};
ghost use Rattle.circ_theory.specs.Experiment.{derived};
ghost use Rattle.circ_theory.specs.Fresh.{given_parameters, FitSome};
ghost use Rattle.circ_theory.specs.Limits.{argument_limit};
ghost use Rattle.circ_theory.specs.Operators.{operator_of};
ghost use Rattle.circ_theory.specs.Signature.{IsWellSorted};
ghost use Rattle.circ_special.specs.Special.{IsPlace};
ghost use Rattle.circ_proof.specs.Certified.{start_args, start_term};
ghost use Rattle.circ_rules.specs.Answers.{Gives};
ghost use Rattle.circ_rules.specs.Deriving.{IsBuilt};
ghost use Rattle.circ_rules.specs.Admitting.{IsStartOf, IsStart};

use circ_special::Place;
use circ_term::{Term, TermFault};
use circ_theory::{OpDecl, Theory, variables_from};
use std::alloc::{AllocError, Global};

/// A place, with its operator on variables: variable 0 at the place, and variables 1, 2 and so on
/// at the other arguments from the left.
#[derive(Drop)]
pub struct Start<'a> {
    /// The place.
    pub place: Place,
    /// Its operator.
    pub decl: &'a OpDecl,
    /// The sort of the argument.
    pub sort: u32,
    /// The operator on the variables.
    pub term: Term,
}

fn start_args(alloc: Global, arg: u16, sorts: &[u32]) -> Result<Vec<Term>, AllocError>
    requires { length sorts.now ≤ argument_limit }
    ensures { IfOk result (λ v. trees_of v.items ≡ start_args arg 1 sorts.now) }
{
    let mut args = Vec::with_capacity(alloc, sorts.len())?;
    let mut next = 1;
    for i in 0..sorts.len() {
        if i == arg as usize {
            args.push(Term::var(0, sorts[i]))?;
        } else {
            args.push(Term::var(next, sorts[i]))?;
            next += 1;
        }
    }
    Ok(args)
}

/// The start of a place: from it come the start terms of its certificates.
pub fn start_at<'a>(
    alloc: Global,
    theory: &'a Theory,
    place: Place,
) -> Result<Start<'a>, AllocError>
    requires { IsPlace theory.now place }
    ensures { IfOk result (IsStartOf theory.now place) }
{
    theory.known();
    let Some(decl) = theory.op(place.op) else {
        unreachable!()
    };
    let Some(sort) = decl.args.get(place.arg as usize) else {
        unreachable!()
    };
    let term = start_application(alloc, place, decl)?;
    Ok(Start {
        place,
        decl,
        sort: *sort,
        term,
    })
}

// The operator of a place on variables, as at the start of the place.
fn start_application(alloc: Global, place: Place, decl: &OpDecl) -> Result<Term, AllocError>
    requires { length decl.now.args.items ≤ argument_limit }
    ensures { IfOk result (λ term. term ≡ App place.op decl.now.result
        (start_args place.arg 1 decl.now.args.items)) }
{
    let args = start_args(alloc, place.arg, decl.args.as_slice())?;
    match Term::app(alloc, place.op, decl.result, args) {
        Ok(term) => Ok(term),
        Err(TermFault::Memory) => Err(AllocError),
        Err(TermFault::TooBig { .. }) => unreachable!(),
        Err(TermFault::TooDeep { .. }) => unreachable!(),
    }
}

/// The start term of a place and the derivative of this number, whose parameters get the next
/// variables. None where it passes a limit.
pub fn start_term(
    alloc: Global,
    theory: &Theory,
    start: &Start<'_>,
    derivative: u32,
) -> Result<Option<Term>, AllocError>
    requires start { IsStart theory.now start.now }
    requires hole { option_map (λ d. d.hole)
        (slice_get theory.now.derivatives derivative) ≡ Some start.now.decl.now.result }
    ensures exact { IfSome (slice_get theory.now.derivatives derivative)
        (λ d. IfOk result (Gives (IsBuilt
        (start_term (operator_of start.now.decl.now) start.now.place d)))) }
    ensures well_sorted { IfOk result (λ o. IfSome o (IsWellSorted theory.now.signature)) }
{
    theory.known();
    let Some(sorts) = theory.parameter_sorts(derivative) else {
        return Ok(None);
    };
    let params = variables_from(alloc, start.decl.args.len() as u64, sorts)?;
    instance(theory, derivative, params.as_slice(), &start.term)
}

// The derivative of this number on a term, with the terms of `params` for its parameters. None
// where that passes a limit.
fn instance(
    theory: &Theory,
    derivative: u32,
    params: &[Term],
    term: &Term,
) -> Result<Option<Term>, AllocError>
    requires { FitSome (slice_get theory.now.derivatives derivative) params.now term.now }
    ensures { IfSome (slice_get theory.now.derivatives derivative)
        (λ d. IfOk result
        (Gives (IsBuilt (derived d term.now (given_parameters params.now))))) }
{
    match theory.instance(derivative, params, term) {
        Ok(made) => Ok(Some(made)),
        Err(TermFault::TooBig { .. }) => Ok(None),
        Err(TermFault::TooDeep { .. }) => Ok(None),
        Err(TermFault::Memory) => Err(AllocError),
    }
}
