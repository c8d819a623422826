//! Guarded variables in interned terms.
ghost use Rattle.std.specs.Prelude.{◌≡◌, ◌≤◌, ◌<◌, ◌↔◌, ◌⊎◌, ◌++◌, ◌||◌, ◌^◌, true, not};
ghost use Rattle.std.specs.Prelude.{length, IsTrue, IfOk, OnOk};
ghost use Rattle.std.specs.List.{AllByRecursion, Contains};
ghost use Rattle.circ_term.specs.Tree.{Var};
ghost use Rattle.circ_theory.specs.Theory.{Derivative};
ghost use Rattle.circ_theory.specs.Observing.{is_hidden};
ghost use Rattle.circ_special.specs.Guarded.{Guarded};
ghost use Rattle.circ_special.specs.Special.{place};
ghost use Rattle.circ_nodes.specs.Named.{tree_at};
ghost use Rattle.circ_steps.specs.Derivatives.{IsDerivativeAt};
ghost use Rattle.circ_steps.specs.Judging.{AreRules};
ghost use Rattle.circ_certificates.specs.Covering.{begins, begun, below, numbered_terms, IsAsked};
ghost use Rattle.circ_certificates.specs.Covering.{IsCovered, AreCovered};
ghost use Rattle.circ_certificates.specs.Visits.{IsVisit, IsCoveredVisit, AreCoveredVisits};

use crate::fitting::{fits, is_variable};
use circ_nodes::{Nodes, Numbers, Shape};
use circ_steps::{Rules, SharedDerivative};
use indexmap::IndexSet;
use std::alloc::AllocError;

/// Whether a variable is guarded in the term of a number: each occurrence of it is the hole of an
/// instance of a visible derivative, or stands at a special path, or is the hole of an instance of
/// a hidden derivative that stands at a special path.
///
/// By its code the term is gone over from its root. With a node it is known whether its path is
/// special, and which parts of derivatives' bodies have to do with it; nothing that was found so
/// is gone over again.
pub fn guarded(
    rules: &Rules<'_>,
    nodes: &Nodes,
    term: u32,
    id: u32,
    sort: u32,
) -> Result<bool, AllocError>
    requires rules { AreRules nodes.now rules.now }
    requires term { term < length nodes.now }
    ensures { IfOk result (λ b. IsTrue b ↔
        Guarded rules.now.theory.now rules.now.gamma.now (tree_at nodes.now term) id sort) }
{
    let asked = Asked {
        rules: *rules,
        nodes,
        id,
        sort,
    };
    let mut seen = IndexSet::new(rules.alloc);
    let visit = Visit {
        term,
        is_special: true,
        bodies: Numbers::new(rules.alloc),
    };
    asked.holds(&mut seen, visit)
}

// What is asked: whether the variable is guarded.
#[derive(Clone, Copy)]
struct Asked<'a> {
    rules: Rules<'a>,
    nodes: &'a Nodes,
    id: u32,
    sort: u32,
}

// A term by number, whether it stands at a special path, and the parts of the bodies of derivatives
// that stand where it does, if their instances began above it.
#[derive(PartialEq, Eq, Hash, Drop)]
struct Visit {
    term: u32,
    is_special: bool,
    bodies: Numbers,
}

impl Asked<'_> {
    // Whether each occurrence in the term is guarded from it on, or is the hole of one of the
    // bodies.
    #[cycle(holds)]
    fn holds(&self, seen: &mut IndexSet<Visit>, visit: Visit) -> Result<bool, AllocError>
        requires asked { IsAsked self.now }
        requires visit { IsVisit self.now visit }
        requires seen { AreCoveredVisits self.now seen.old.keys }
        ensures seen { OnOk result (AreCoveredVisits self.now seen.new.keys) }
        ensures exact { IfOk result (λ b. IsTrue b ↔ IsCoveredVisit self.now visit) }
    {
        if self.nodes.is_ground(visit.term) {
            return Ok(true);
        }
        if seen.contains(&visit) {
            return Ok(true);
        }
        if !self.holds_below(seen, &visit)? {
            return Ok(false);
        }
        seen.insert(visit)?;
        Ok(true)
    }

    // The same of what was not gone over yet.
    #[cycle(holds)]
    fn holds_below(&self, seen: &mut IndexSet<Visit>, visit: &Visit) -> Result<bool, AllocError>
        requires asked { IsAsked self.now }
        requires visit { IsVisit self.now visit.now }
        requires seen { AreCoveredVisits self.now seen.old.keys }
        ensures seen { OnOk result (AreCoveredVisits self.now seen.new.keys) }
        ensures exact { IfOk result (λ b. IsTrue b ↔ IsCoveredVisit self.now visit.now) }
    {
        self.rules.theory.known();
        let bodies = self.bodies_at(visit)?;
        match self.nodes.shape(visit.term) {
            Shape::Variable { number, sort } => {
                Ok(self.at_variable(number, sort, visit.is_special, bodies.as_slice()))
            }
            Shape::Application { op, args, .. } => {
                self.all_hold(seen, op, args, visit.is_special, bodies.as_slice())
            }
        }
    }

    // The same of the arguments of an operator.
    #[cycle(holds)]
    fn all_hold(
        &self,
        seen: &mut IndexSet<Visit>,
        op: u32,
        args: &[u32],
        is_special: bool,
        bodies: &[u32],
    ) -> Result<bool, AllocError>
        requires asked { IsAsked self.now }
        requires args { AllByRecursion (λ n. n < length self.now.nodes.now) args.now }
        requires few { length args.now ≤ 2 ^ 16 }
        requires bodies { AllByRecursion (λ n. n < length self.now.nodes.now) bodies.now }
        requires seen { AreCoveredVisits self.now seen.old.keys }
        ensures seen { OnOk result (AreCoveredVisits self.now seen.new.keys) }
        ensures exact { IfOk result (λ b. IsTrue b ↔ AreCovered self.now (is_special ≡ true) op
            (numbered_terms self.now bodies.now) (numbered_terms self.now args.now)) }
    {
        for place in 0..args.len() {
            let inner = self.below(bodies, place)?;
            let visit = Visit {
                term: args[place],
                is_special: self.goes_on(is_special, op, place as u16),
                bodies: inner,
            };
            if !self.holds(seen, visit)? {
                return Ok(false);
            }
        }
        Ok(true)
    }

    // Whether a special path goes on to an argument of an operator.
    fn goes_on(&self, is_special: bool, op: u32, arg: u16) -> bool
        ensures { IsTrue result ↔
            ((is_special ≡ true) × Contains self.now.rules.gamma.now (place op arg)) }
    {
        if !is_special {
            return false;
        }
        self.rules.gamma.has(op, arg)
    }

    // Whether the variable is another one, or is guarded where it stands, or is one of the bodies'
    // holes.
    fn at_variable(&self, number: u32, sort: u32, is_special: bool, bodies: &[u32]) -> bool
        requires { AllByRecursion (λ n. n < length self.now.nodes.now) bodies.now }
        ensures { IsTrue result ↔ (Var number sort ≡ Var self.now.id self.now.sort →
            (is_special ≡ true) ⊎
            Contains (numbered_terms self.now bodies.now) (Var 0 self.now.sort)) }
    {
        if number != self.id {
            return true;
        }
        if sort != self.sort {
            return true;
        }
        if is_special {
            return true;
        }
        self.has_hole(bodies)
    }

    // Whether one of the bodies is the hole.
    fn has_hole(&self, bodies: &[u32]) -> bool
        requires { AllByRecursion (λ n. n < length self.now.nodes.now) bodies.now }
        ensures { IsTrue result ↔
            Contains (numbered_terms self.now bodies.now) (Var 0 self.now.sort) }
    {
        for body in bodies {
            if is_variable(self.nodes, *body, 0, self.sort) {
                return true;
            }
        }
        false
    }

    // The arguments at a place, of those bodies that have one there.
    fn below(&self, bodies: &[u32], place: usize) -> Result<Numbers, AllocError>
        requires { AllByRecursion (λ n. n < length self.now.nodes.now) bodies.now }
        ensures there { IfOk result (λ v.
            AllByRecursion (λ n. n < length self.now.nodes.now) v.items) }
        ensures below { IfOk result (λ v.
            numbered_terms self.now v.items ≡ below place (numbered_terms self.now bodies.now)) }
    {
        let mut args = Numbers::new(self.rules.alloc);
        for body in bodies {
            if let Some(arg) = self.nodes.arg(*body, place) {
                args.push(arg)?;
            }
        }
        Ok(args)
    }

    // The bodies, and behind them those of the derivatives whose instances begin at the term.
    fn bodies_at(&self, visit: &Visit) -> Result<Numbers, AllocError>
        requires asked { IsAsked self.now }
        requires visit { IsVisit self.now visit.now }
        ensures there { IfOk result (λ v.
            AllByRecursion (λ n. n < length self.now.nodes.now) v.items) }
        ensures bodies { IfOk result (λ v. numbered_terms self.now v.items ≡
            numbered_terms self.now visit.now.bodies.items ++ begun self.now visit.now.is_special
            (tree_at self.now.nodes.now visit.now.term)
            self.now.rules.theory.now.derivatives) }
    {
        let mut bodies = Numbers::from_slice(self.rules.alloc, visit.bodies.as_slice())?;
        for derivative in self.rules.derivatives {
            if self.begins(derivative, visit.term, visit.is_special) {
                bodies.push(derivative.body)?;
            }
        }
        Ok(bodies)
    }

    // Whether an instance of the derivative on the variable is at the term, and counts there.
    fn begins(&self, derivative: &SharedDerivative, term: u32, is_special: bool) -> bool
        requires derivative { (d : Derivative) ×
            IsDerivativeAt self.now.nodes.now d derivative.now }
        requires term { term < length self.now.nodes.now }
        ensures { (d : Derivative) → IsDerivativeAt self.now.nodes.now d derivative.now →
            result ≡ begins self.now is_special (tree_at self.now.nodes.now term) d }
    {
        if self.nodes.sort(derivative.hole) != self.sort {
            return false;
        }
        if !self.counts(self.nodes.sort(derivative.body), is_special) {
            return false;
        }
        fits(self.nodes, derivative.body, term, self.id, self.sort)
    }

    // Whether a derivative with this result sort counts: it is visible, or at a special path.
    fn counts(&self, sort: u32, is_special: bool) -> bool
        ensures { result ≡ (not (is_hidden self.now.rules.theory.now sort) || is_special) }
    {
        if is_special {
            return true;
        }
        !self.rules.theory.is_hidden(sort)
    }
}
