//! Terms over a theory.
ghost use Rattle.std.specs.Prelude.{◌≡◌, ◌↔◌, ◌≤◌, ℕ, map, length, IsTrue, IfOk, IfSome, nat_eq};
ghost use Rattle.std.specs.List.{AllByRecursion, slice_get};
ghost use Rattle.std.specs.Cmp.Lexicographic.{pointwise};
ghost use Rattle.circ_term.specs.Tree.{trees_of, sort_of};
ghost use Rattle.circ_term.specs.Limits.{Builds, BuildsSome};
ghost use Rattle.circ_term.specs.Subst.{substitution_of};
ghost use Rattle.circ_theory.specs.Limits.{parameter_limit};
ghost use Rattle.circ_theory.specs.Signature.{IsWellSorted, HaveSorts};
ghost use Rattle.circ_theory.specs.Experiment.{plug, derived};
ghost use Rattle.circ_theory.specs.Fresh.{given_parameters, FitSome};
ghost use Rattle.circ_theory.specs.Adding.{application};

use super::Theory;
use circ_term::{Kind, Subst, Term, TermFault};
use std::alloc::{AllocError, Global};

impl Theory {
    /// The operator on these terms. None where there is no such operator, or its argument sorts are
    /// others. The terms are given up where none is built.
    pub fn app(&self, op: u32, args: Vec<Term>) -> Result<Option<Term>, TermFault>
        ensures built { BuildsSome result (application self.now.signature op args.items) }
        ensures well_sorted { AllByRecursion (IsWellSorted self.now.signature) args.items →
            IfOk result (λ o. IfSome o (IsWellSorted self.now.signature)) }
    {
        let Some(decl) = self.op(op) else {
            return Ok(None);
        };
        if !are_of_sorts(args.as_slice(), decl.args.as_slice()) {
            return Ok(None);
        }
        match Term::app(self.alloc, op, decl.result, args) {
            Ok(term) => Ok(Some(term)),
            Err(fault) => Err(fault),
        }
    }

    /// The instance of a derivative: the term at its hole, and the terms of `params` for its
    /// parameters 1, 2 and so on.
    pub fn instance(&self, derivative: u32, params: &[Term], term: &Term) -> Result<Term, TermFault>
        requires { FitSome (slice_get self.now.derivatives derivative) params.now term.now }
        ensures { IfSome (slice_get self.now.derivatives derivative)
            (λ d. Builds result (derived d term.now (given_parameters params.now))) }
    {
        self.known();
        let Some(observer) = self.observer(derivative) else {
            unreachable!()
        };
        let subst = plugged(self.alloc, observer.hole, term, params)?;
        subst.apply(&observer.term)
    }

    /// Whether each variable of the term has a sort of the theory, and each application an operator
    /// with its sorts.
    #[cycle(well_sorted)]
    pub fn well_sorted(&self, term: &Term) -> bool
        ensures { IsTrue result ↔ IsWellSorted self.now.signature term.now }
    {
        match term.kind() {
            Kind::Variable { sort, .. } => sort < self.sort_count(),
            Kind::Application { op, sort, args } => {
                let Some(decl) = self.op(op) else {
                    return false;
                };
                if decl.result != sort {
                    return false;
                }
                self.have_sorts(args, decl.args.as_slice())
            }
        }
    }

    #[cycle(well_sorted)]
    fn have_sorts(&self, terms: &[Term], sorts: &[u32]) -> bool
        ensures { IsTrue result ↔ HaveSorts self.now.signature (trees_of terms.now) sorts.now }
    {
        if terms.len() != sorts.len() {
            return false;
        }
        for i in 0..terms.len() {
            if terms[i].sort() != sorts[i] {
                return false;
            }
            if !self.well_sorted(&terms[i]) {
                return false;
            }
        }
        true
    }
}

// What puts the term at a hole of this sort, and the other terms in the place of parameters 1, 2
// and so on of their sorts.
fn plugged(alloc: Global, hole: u32, term: &Term, params: &[Term]) -> Result<Subst, AllocError>
    requires sort { sort_of term.now ≡ hole }
    requires few { length params.now ≤ parameter_limit }
    ensures { IfOk result (λ σ. (n s : ℕ) → substitution_of σ n s ≡
        plug hole term.now (given_parameters params.now) n s) }
{
    let mut subst = Subst::new(alloc);
    subst.bind(0, hole, term)?;
    for i in 0..params.len() {
        let param = &params[i];
        let bound = subst.bind(i as u32 + 1, param.sort(), param)?;
        prove!(bound);
    }
    Ok(subst)
}

fn are_of_sorts(terms: &[Term], sorts: &[u32]) -> bool
    ensures { result ≡ pointwise nat_eq (map sort_of terms.now) sorts.now }
{
    if terms.len() != sorts.len() {
        return false;
    }
    for i in 0..terms.len() {
        if terms[i].sort() != sorts[i] {
            return false;
        }
    }
    true
}
