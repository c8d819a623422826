//! The traces of the start terms of candidates.
ghost use Rattle.std.specs.Prelude.{◌≡◌, ◌++◌, IfOk, OnOk, Some, map};
ghost use Rattle.std.specs.List.{AllByRecursion, slice_get};
ghost use Rattle.std.specs.Option.{IfSome, option_map};
ghost use Rattle.circ_conditional_norm.specs.Norm.{conditional_norm};
ghost use Rattle.circ_plain_search.specs.Greatest.{IsCandidate, AreTraces};
ghost use Rattle.circ_proof.specs.Certified.{due};
ghost use Rattle.circ_rules.specs.Admitting.{IsStart};
ghost use Rattle.circ_contexts.specs.Candidates.{ComesTo, GivesNormal, GivesNormals};
ghost use Rattle.circ_contexts.specs.Candidates.{AddsTraces, plain_lists};
ghost use Rattle.circ_contexts.specs.ByTheory.{by_theory};

use crate::candidates::Means;
use circ_rewrite::{Normal, RewriteFault, Trace};
use circ_rules::{Start, start_at, start_term};
use circ_special::Place;
use circ_term::Term;
use circ_tries::Reducer;
use std::alloc::AllocError;

impl Means<'_> {
    // The traces of the start terms of candidates, in order.
    pub(crate) fn traces(
        &self,
        reducer: &mut Reducer<'_>,
        places: &[Place],
    ) -> Result<Vec<Vec<Trace>>, AllocError>
        requires reducer { reducer.old ≡ by_theory self.now.theory.now }
        requires candidates { AllByRecursion
            (IsCandidate self.now.theory.now self.now.budget) places.now }
        ensures { IfOk result (λ v. AreTraces self.now.theory.now self.now.budget
            (due self.now.theory.now places.now) (plain_lists v.items)) }
    {
        let mut traces = Vec::new(self.alloc);
        for place in places {
            self.push_traces(reducer, *place, &mut traces)?;
        }
        Ok(traces)
    }

    // Appends those of one candidate.
    fn push_traces(
        &self,
        reducer: &mut Reducer<'_>,
        place: Place,
        traces: &mut Vec<Vec<Trace>>,
    ) -> Result<(), AllocError>
        requires reducer { reducer.old ≡ by_theory self.now.theory.now }
        requires candidate { IsCandidate self.now.theory.now self.now.budget place }
        ensures added { OnOk result (AddsTraces self.now.theory.now self.now.budget place
            traces.old.items traces.new.items) }
        ensures same { reducer.new ≡ reducer.old }
    {
        let start = start_at(self.alloc, self.theory, place)?;
        match self.normals(reducer, &start)? {
            Some(normals) => push_all(normals, traces),
            None => unreachable!(),
        }
    }

    // The normal forms of a place's start terms, in the order of the derivatives. None where one of
    // them has none.
    fn normals(
        &self,
        reducer: &mut Reducer<'_>,
        start: &Start<'_>,
    ) -> Result<Option<Vec<Normal>>, AllocError>
        requires reducer { reducer.old ≡ by_theory self.now.theory.now }
        requires start { IsStart self.now.theory.now start.now }
        ensures exact { IfOk result
            (GivesNormals self.now.theory.now self.now.budget start.now.place) }
        ensures same { reducer.new ≡ reducer.old }
    {
        let mut normals = Vec::new(self.alloc);
        for derivative in 0..self.theory.derivative_count() {
            if self.theory.takes(derivative, start.decl.result) {
                match self.normal(reducer, start, derivative)? {
                    Some(normal) => normals.push(normal)?,
                    None => return Ok(None),
                }
            }
        }
        Ok(Some(normals))
    }

    // The normal form of the start term of a derivative. None where it has none.
    fn normal(
        &self,
        reducer: &mut Reducer<'_>,
        start: &Start<'_>,
        derivative: u32,
    ) -> Result<Option<Normal>, AllocError>
        requires reducer { reducer.old ≡ by_theory self.now.theory.now }
        requires start { IsStart self.now.theory.now start.now }
        requires hole { option_map (λ d. d.hole)
            (slice_get self.now.theory.now.derivatives derivative) ≡
            Some start.now.decl.now.result }
        ensures exact { IfSome (slice_get self.now.theory.now.derivatives derivative) (λ d.
            IfOk result (GivesNormal self.now.theory.now self.now.budget start.now.place d)) }
        ensures same { reducer.new ≡ reducer.old }
    {
        match start_term(self.alloc, self.theory, start, derivative)? {
            Some(term) => self.normal_form(reducer, &term),
            None => Ok(None),
        }
    }

    // The normal form of a term. None where it has none within the budget and the limits.
    fn normal_form(
        &self,
        reducer: &mut Reducer<'_>,
        term: &Term,
    ) -> Result<Option<Normal>, AllocError>
        ensures exact { IfOk result (ComesTo (conditional_norm 0 reducer.old.theory.signature
            reducer.old.rules reducer.old.assumptions self.now.budget term.now)) }
        ensures same { reducer.new ≡ reducer.old }
    {
        let mut budget = self.budget;
        match reducer.normal(term, 0, &mut budget) {
            Ok(normal) => Ok(Some(normal)),
            Err(RewriteFault::Memory) => Err(AllocError),
            Err(RewriteFault::Spent) => Ok(None),
            Err(RewriteFault::TooBig { .. }) => Ok(None),
            Err(RewriteFault::TooDeep { .. }) => Ok(None),
        }
    }
}

fn push_all(normals: Vec<Normal>, traces: &mut Vec<Vec<Trace>>) -> Result<(), AllocError>
    ensures { OnOk result
        (traces.new.items ≡ traces.old.items ++ map (λ n. n.traces) normals.items) }
{
    for normal in normals {
        traces.push(normal.traces)?;
    }
    Ok(())
}
