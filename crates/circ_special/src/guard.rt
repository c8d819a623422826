//! Guarded variables.
ghost use Rattle.std.specs.Prelude.{◌≡◌, ◌≤◌, ◌+◌, ◌↔◌, ◌⊎◌, ◌^◌, Some, IsTrue, length, take};
ghost use Rattle.circ_term.specs.Tree.{Var, at, depth_of, depths_of, trees_of, sort_of};
ghost use Rattle.circ_term.specs.declared.TheConstants.{MOST_DEPTH};
ghost use Rattle.circ_special.specs.Guarded.{Guarded};
ghost use Rattle.circ_special.specs.Occurrences.{IsGuarded, GuardedBelow, AllGuardedBelow};
ghost use Rattle.circ_special.specs.Occurrences.{IsObserved, IsObservedBy, IsHoleOf, IsHoleAt};
ghost use Rattle.circ_special.specs.Occurrences.{Counts};

use crate::fitting::{fits, has_hole, is_variable};
use crate::place::Gamma;
use circ_term::{Kind, Term};
use circ_theory::Theory;

/// Whether a variable is guarded in a term: each occurrence of it is the hole of an instance of a
/// visible derivative, or stands at a special path, or is the hole of an instance of a hidden
/// derivative that stands at a special path.
///
/// By its code the term is walked once. At each occurrence the derivatives that take the variable's
/// sort are tried, each at the few places above it where its instance can begin.
pub fn guarded(theory: &Theory, gamma: &Gamma, term: &Term, id: u32, sort: u32) -> bool
    ensures { IsTrue result ↔ Guarded theory.now gamma.now term.now id sort }
{
    term.known();
    let asked = Asked {
        theory,
        gamma,
        root: term,
        id,
        sort,
    };
    let mut path = room();
    asked.below(term, &mut path, 0)
}

// The most steps of a path and one: the greatest depth of a term.
const ROOM: usize = 1_000;

// Room for each path in a term, which has fewer steps than the term is deep.
fn room() -> [u16; ROOM]
    ensures { length result ≡ MOST_DEPTH }
{
    [0u16; ROOM]
}

// What is asked: whether the variable is guarded in the root.
#[derive(Clone, Copy)]
struct Asked<'a> {
    theory: &'a Theory,
    gamma: &'a Gamma,
    root: &'a Term,
    id: u32,
    sort: u32,
}

impl Asked<'_> {
    // Whether each occurrence in the subterm at the path, which has this length, is guarded.
    #[cycle(below)]
    fn below(&self, term: &Term, path: &mut [u16], len: usize) -> bool
        requires room { len + depth_of term.now ≤ length path.old }
        ensures exact { IsTrue result ↔ GuardedBelow self.now (take len path.old) term.now }
        ensures same { take len path.new ≡ take len path.old }
        ensures long { length path.new ≡ length path.old }
    {
        match term.kind() {
            Kind::Variable { .. } => self.at_variable(term, &path[..len]),
            Kind::Application { args, .. } => self.all_below(args, path, len),
        }
    }

    #[cycle(below)]
    fn all_below(&self, args: &[Term], path: &mut [u16], len: usize) -> bool
        requires room { len + depths_of (trees_of args.now) + 1 ≤ length path.old }
        requires few { length args.now ≤ 2 ^ 16 }
        ensures exact { IsTrue result ↔ AllGuardedBelow self.now (take len path.old) args.now }
        ensures same { take len path.new ≡ take len path.old }
        ensures long { length path.new ≡ length path.old }
    {
        for i in 0..args.len() {
            path[len] = i as u16;
            if !self.below(&args[i], path, len + 1) {
                return false;
            }
        }
        true
    }

    // Whether the variable at the path is another one, or is guarded.
    fn at_variable(&self, variable: &Term, path: &[u16]) -> bool
        ensures { IsTrue result ↔
            (variable.now ≡ Var self.now.id self.now.sort → IsGuarded self.now path.now) }
    {
        if is_variable(variable, self.id, self.sort) {
            self.is_guarded(path)
        } else {
            true
        }
    }

    // Whether the occurrence at the path is guarded.
    fn is_guarded(&self, path: &[u16]) -> bool
        ensures { IsTrue result ↔ IsGuarded self.now path.now }
    {
        self.theory.known();
        if self.gamma.on_path(self.root, path) {
            return true;
        }
        self.is_observed(path)
    }

    // Whether it is the hole of an instance of a derivative that is visible or at a special path.
    fn is_observed(&self, path: &[u16]) -> bool
        ensures { IsTrue result ↔ IsObserved self.now path.now }
    {
        for number in 0..self.theory.derivative_count() {
            if self.is_observed_by(path, number) {
                return true;
            }
        }
        false
    }

    // The same for the derivative of this number.
    fn is_observed_by(&self, path: &[u16], number: u32) -> bool
        ensures { IsTrue result ↔ IsObservedBy self.now path.now number }
    {
        let Some(body) = self.theory.derivative(number) else {
            return false;
        };
        if self.theory.hole_sort(number) != Some(self.sort) {
            return false;
        }
        self.is_hole_of(path, body)
    }

    // The same for the derivative with this body.
    fn is_hole_of(&self, path: &[u16], body: &Term) -> bool
        ensures { IsTrue result ↔ IsHoleOf self.now path.now body.now }
    {
        // The hole is no deeper than the body.
        let first = path.len().saturating_sub(body.depth() as usize);
        for at in first..path.len() + 1 {
            if self.is_hole_at(&path[..at], &path[at..], body) {
                return true;
            }
        }
        false
    }

    // The same for an instance at the front of the path, whose hole is at the rest.
    fn is_hole_at(&self, front: &[u16], rest: &[u16], body: &Term) -> bool
        ensures { IsTrue result ↔ IsHoleAt self.now front.now rest.now body.now }
    {
        if !has_hole(body, rest, self.sort) {
            return false;
        }
        let Some(subterm) = self.root.at(front) else {
            return false;
        };
        if !fits(body, subterm, self.id, self.sort) {
            return false;
        }
        self.counts(front, body)
    }

    // Whether an instance of the body at the path counts: it is visible, or the path is special.
    fn counts(&self, front: &[u16], body: &Term) -> bool
        ensures { IsTrue result ↔ Counts self.now front.now body.now }
    {
        if !self.theory.is_hidden(body.sort()) {
            return true;
        }
        self.gamma.on_path(self.root, front)
    }
}
