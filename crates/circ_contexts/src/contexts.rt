//! The greatest special set, by dropping candidates until none is dropped.
ghost use Rattle.std.specs.Prelude.{◌≡◌, List, IfOk};
ghost use Rattle.circ_special.specs.Special.{IsSet};
ghost use Rattle.circ_rewrite.specs.Replacement.{Traced};
ghost use Rattle.circ_plain_search.specs.Greatest.{GreatestSpecialSet};
ghost use Rattle.circ_plain_search.specs.Keeps.{Keeps};
ghost use Rattle.circ_contexts.specs.ByTheory.{by_theory};
ghost use Rattle.circ_contexts.specs.Candidates.{Passes, StandsAt, IsLast, IsGreatest};
ghost use Rattle.circ_contexts.specs.Candidates.{places_of, plain_lists};

use crate::candidates::{Candidate, Means};
use crate::places::hidden_places;
use circ_rewrite::{Trace, theory_rules};
use circ_special::{Gamma, Place};
use circ_theory::Theory;
use circ_tries::Reducer;
use std::alloc::{AllocError, Global};

/// The greatest special set of a theory, with a list of traces for each certificate that is due
/// for it. Each start term is brought to its normal form with the whole budget.
pub fn special_contexts(
    alloc: Global,
    theory: &Theory,
    budget: u64,
) -> Result<(Gamma, Vec<Vec<Trace>>), AllocError>
    ensures greatest { IfOk result (λ r.
        GreatestSpecialSet theory.now budget r.0 (plain_lists r.1.items)) }
{
    let means = Means {
        alloc,
        theory,
        budget,
    };
    let mut reducer = Reducer::new(alloc, theory, theory_rules(alloc, theory)?)?;
    let found = means.set_with_traces(&mut reducer);
    drop(reducer);
    found
}

/// The greatest special set of a theory. Its traces are not made.
pub fn special_places(alloc: Global, theory: &Theory, budget: u64) -> Result<Gamma, AllocError>
    ensures greatest { IfOk result (λ g. (traces : List (List Traced))
        × GreatestSpecialSet theory.now budget g traces) }
{
    let means = Means {
        alloc,
        theory,
        budget,
    };
    let mut reducer = Reducer::new(alloc, theory, theory_rules(alloc, theory)?)?;
    let found = means.greatest_set(&mut reducer);
    drop(reducer);
    found
}

impl Means<'_> {
    // The greatest set of the theory, with the traces of its certificates.
    fn set_with_traces(
        &self,
        reducer: &mut Reducer<'_>,
    ) -> Result<(Gamma, Vec<Vec<Trace>>), AllocError>
        requires reducer { reducer.old ≡ by_theory self.now.theory.now }
        ensures greatest { IfOk result (λ r. GreatestSpecialSet self.now.theory.now
            self.now.budget r.0 (plain_lists r.1.items)) }
    {
        let gamma = self.greatest_set(reducer)?;
        let traces = self.traces(reducer, gamma.places())?;
        Ok((gamma, traces))
    }

    // The greatest set of the theory.
    fn greatest_set(&self, reducer: &mut Reducer<'_>) -> Result<Gamma, AllocError>
        requires reducer { reducer.old ≡ by_theory self.now.theory.now }
        ensures exact { IfOk result (IsGreatest self.now.theory.now self.now.budget) }
        ensures same { reducer.new ≡ reducer.old }
    {
        let places = hidden_places(self.alloc, self.theory)?;
        let candidates = self.candidates(reducer, places.as_slice())?;
        let left = self.greatest(candidates)?;
        set_of(self.alloc, self.theory, left.as_slice())
    }

    // The candidates of the greatest set: those are dropped that have a normal form which is not
    // guarded by those that are left, again and again.
    fn greatest(&self, candidates: Vec<Candidate>) -> Result<Vec<Candidate>, AllocError>
        requires { StandsAt self.now.theory.now self.now.budget candidates.items }
        ensures { IfOk result (λ v. IsLast self.now.theory.now self.now.budget v.items) }
    {
        let mut left = candidates;
        let mut before = left.len() + 1;
        while left.len() < before {
            before = left.len();
            let gamma = set_of(self.alloc, self.theory, left.as_slice())?;
            narrow(&gamma, &mut left);
        }
        Ok(left)
    }
}

// Drops the candidates that have a normal form which is not guarded by the set.
fn narrow(gamma: &Gamma, candidates: &mut Vec<Candidate>)
    ensures { Keeps (Passes gamma.now) candidates.old.items candidates.new.items }
{
    candidates.retain(|candidate| candidate.needs.are_in(gamma));
}

// The set of the candidates' places.
fn set_of(alloc: Global, theory: &Theory, candidates: &[Candidate]) -> Result<Gamma, AllocError>
    requires { IsSet theory.now (places_of candidates.now) }
    ensures { IfOk result (λ g. g ≡ places_of candidates.now) }
{
    let places = places_in(alloc, candidates)?;
    match Gamma::of(theory, places) {
        Some(gamma) => Ok(gamma),
        None => unreachable!(),
    }
}

fn places_in(alloc: Global, candidates: &[Candidate]) -> Result<Vec<Place>, AllocError>
    ensures { IfOk result (λ v. v.items ≡ places_of candidates.now) }
{
    let mut places = Vec::with_capacity(alloc, candidates.len())?;
    for candidate in candidates {
        places.push(candidate.place)?;
    }
    Ok(places)
}
