//! The candidates of the greatest special set.
ghost use Rattle.std.specs.Prelude.{◌≡◌, true, false, IfOk, Some};
ghost use Rattle.std.specs.List.{AllByRecursion, slice_get};
ghost use Rattle.std.specs.Option.{IfSome, option_map};
ghost use Rattle.circ_special.specs.Special.{IsPlace};
ghost use Rattle.circ_conditional_norm.specs.Norm.{conditional_norm};
ghost use Rattle.circ_rules.specs.Admitting.{IsStart};
ghost use Rattle.circ_contexts.specs.Candidates.{ComesToTerm, GivesTerm, takes, AddsNeeds, GivesNeeds};
ghost use Rattle.circ_contexts.specs.Candidates.{GivesCandidate, AreCandidates};
ghost use Rattle.circ_contexts.specs.ByTheory.{by_theory};

use circ_needs::{Needs, Observers};
use circ_rewrite::RewriteFault;
use circ_rules::{Start, start_at, start_term};
use circ_special::Place;
use circ_term::Term;
use circ_theory::Theory;
use circ_tries::Reducer;
use std::alloc::{AllocError, Global};

// A place, with the places that a set must have to guard the normal forms of its start terms.
#[derive(Drop)]
pub(crate) struct Candidate {
    pub(crate) place: Place,
    pub(crate) needs: Needs,
}

// The theory, and the budget for each start term.
#[derive(Clone, Copy)]
pub(crate) struct Means<'a> {
    pub(crate) alloc: Global,
    pub(crate) theory: &'a Theory,
    pub(crate) budget: u64,
}

impl Means<'_> {
    // The candidates among the places, in order. Normal forms are kept from one place to the next.
    pub(crate) fn candidates(
        &self,
        reducer: &mut Reducer<'_>,
        places: &[Place],
    ) -> Result<Vec<Candidate>, AllocError>
        requires reducer { reducer.old ≡ by_theory self.now.theory.now }
        requires places { AllByRecursion (IsPlace self.now.theory.now) places.now }
        ensures exact { IfOk result (λ v. AreCandidates self.now.theory.now self.now.budget
            places.now v.items) }
        ensures same { reducer.new ≡ reducer.old }
    {
        let observers = Observers::new(self.alloc, self.theory)?;
        let found = self.candidates_by(reducer, &observers, places);
        drop(observers);
        found
    }

    // The same by the observers of the theory.
    fn candidates_by(
        &self,
        reducer: &mut Reducer<'_>,
        observers: &Observers<'_>,
        places: &[Place],
    ) -> Result<Vec<Candidate>, AllocError>
        requires reducer { reducer.old ≡ by_theory self.now.theory.now }
        requires observers { observers.now ≡ self.now.theory.now }
        requires places { AllByRecursion (IsPlace self.now.theory.now) places.now }
        ensures exact { IfOk result (λ v. AreCandidates self.now.theory.now self.now.budget
            places.now v.items) }
        ensures same { reducer.new ≡ reducer.old }
    {
        let mut found = Vec::new(self.alloc);
        for place in places {
            match self.candidate(reducer, observers, *place)? {
                Some(candidate) => found.push(candidate)?,
                None => {}
            }
        }
        Ok(found)
    }

    // The candidate of a place. None where it is none.
    fn candidate(
        &self,
        reducer: &mut Reducer<'_>,
        observers: &Observers<'_>,
        place: Place,
    ) -> Result<Option<Candidate>, AllocError>
        requires reducer { reducer.old ≡ by_theory self.now.theory.now }
        requires observers { observers.now ≡ self.now.theory.now }
        requires place { IsPlace self.now.theory.now place }
        ensures exact { IfOk result (GivesCandidate self.now.theory.now self.now.budget place) }
        ensures same { reducer.new ≡ reducer.old }
    {
        let start = start_at(self.alloc, self.theory, place)?;
        match self.needs(reducer, observers, &start)? {
            Some(needs) => Ok(Some(Candidate { place, needs })),
            None => Ok(None),
        }
    }

    // What the normal forms of a place's start terms need. None where one of them has none.
    fn needs(
        &self,
        reducer: &mut Reducer<'_>,
        observers: &Observers<'_>,
        start: &Start<'_>,
    ) -> Result<Option<Needs>, AllocError>
        requires reducer { reducer.old ≡ by_theory self.now.theory.now }
        requires observers { observers.now ≡ self.now.theory.now }
        requires start { IsStart self.now.theory.now start.now }
        ensures exact { IfOk result
            (GivesNeeds self.now.theory.now self.now.budget start.now.place) }
        ensures same { reducer.new ≡ reducer.old }
    {
        let mut needs = Needs::new(self.alloc);
        for derivative in 0..self.theory.derivative_count() {
            let goes_on = self.add_needs(reducer, observers, start, derivative, &mut needs)?;
            if !goes_on {
                return Ok(None);
            }
        }
        Ok(Some(needs))
    }

    // Adds what the normal form of the start term of a derivative needs, if it takes the place's
    // operator. False where it has none.
    fn add_needs(
        &self,
        reducer: &mut Reducer<'_>,
        observers: &Observers<'_>,
        start: &Start<'_>,
        derivative: u32,
        needs: &mut Needs,
    ) -> Result<bool, AllocError>
        requires reducer { reducer.old ≡ by_theory self.now.theory.now }
        requires observers { observers.now ≡ self.now.theory.now }
        requires start { IsStart self.now.theory.now start.now }
        ensures passed { takes (slice_get self.now.theory.now.derivatives derivative)
            start.now.decl.now.result ≡ false
            → IfOk result (λ b. (b ≡ true) × (needs.new ≡ needs.old)) }
        ensures taken { takes (slice_get self.now.theory.now.derivatives derivative)
            start.now.decl.now.result ≡ true
            → IfSome (slice_get self.now.theory.now.derivatives derivative) (λ d.
            IfOk result (AddsNeeds self.now.theory.now self.now.budget start.now.place
            start.now.sort d needs.old needs.new)) }
        ensures same { reducer.new ≡ reducer.old }
    {
        if !self.theory.takes(derivative, start.decl.result) {
            return Ok(true);
        }
        let Some(normal) = self.term(reducer, start, derivative)? else {
            return Ok(false);
        };
        needs.add(observers, &normal, 0, start.sort)?;
        Ok(true)
    }

    // The normal form of the start term of a derivative. None where it has none.
    fn term(
        &self,
        reducer: &mut Reducer<'_>,
        start: &Start<'_>,
        derivative: u32,
    ) -> Result<Option<Term>, AllocError>
        requires reducer { reducer.old ≡ by_theory self.now.theory.now }
        requires start { IsStart self.now.theory.now start.now }
        requires hole { option_map (λ d. d.hole)
            (slice_get self.now.theory.now.derivatives derivative) ≡
            Some start.now.decl.now.result }
        ensures exact { IfSome (slice_get self.now.theory.now.derivatives derivative) (λ d.
            IfOk result (GivesTerm self.now.theory.now self.now.budget start.now.place d)) }
        ensures same { reducer.new ≡ reducer.old }
    {
        match start_term(self.alloc, self.theory, start, derivative)? {
            Some(term) => self.normal_term(reducer, &term),
            None => Ok(None),
        }
    }

    // The normal form of a term. None where it has none within the budget and the limits.
    fn normal_term(
        &self,
        reducer: &mut Reducer<'_>,
        term: &Term,
    ) -> Result<Option<Term>, AllocError>
        ensures exact { IfOk result (ComesToTerm (conditional_norm 0 reducer.old.theory.signature
            reducer.old.rules reducer.old.assumptions self.now.budget term.now)) }
        ensures same { reducer.new ≡ reducer.old }
    {
        let mut budget = self.budget;
        match reducer.value(term, 0, &mut budget) {
            Ok(normal) => Ok(Some(normal)),
            Err(RewriteFault::Memory) => Err(AllocError),
            Err(RewriteFault::Spent) => Ok(None),
            Err(RewriteFault::TooBig { .. }) => Ok(None),
            Err(RewriteFault::TooDeep { .. }) => Ok(None),
        }
    }
}
