//! Substitutions: terms for variables.
ghost use Rattle.std.specs.Prelude.{◌≡◌, ◌↔◌, [], IsTrue, IfOk, OnOk, OnErr, map, unwrap_or};
ghost use Rattle.std.specs.List.Sorted.{IsStrictlySortedBy};
ghost use Rattle.std.specs.Bool.{OnTrue, OnFalse};
ghost use Rattle.std.specs.Option.{option_copied};
ghost use Rattle.circ_term.specs.Tree.{sort_of, trees_of};
ghost use Rattle.circ_term.specs.Limits.{Builds};
ghost use Rattle.circ_term.specs.Substitution.{KeepsSorts, instance, instances};
ghost use Rattle.circ_term.specs.Subst.{bound_cmp, found, substitution_of, Binds, BuildsAll};

use crate::fault::TermFault;
use crate::node::{Kind, Term};
use std::alloc::{AllocError, Global};
use std::collections::BTreeMap;
use std::marker::Model;

#[derive(Clone, Copy, PartialEq, Eq, PartialOrd, Ord)]
struct Variable {
    number: u32,
    sort: u32,
}

/// A substitution: finitely many variables, each bound to a term of its sort. It acts at all places
/// at once, and a variable that is not bound stays.
#[derive(Drop)]
pub struct Subst {
    alloc: Global,
    terms: BTreeMap<Variable, Term>,
}

impl Model for Subst {
    ghost use Rattle.std.specs.Prelude.{List, map};
    ghost use Rattle.circ_term.specs.Subst.{Bound, bounds_code, substitution_of};
    ghost use Rattle.circ_term.specs.Substitution.{KeepsSorts};

    ghost Value = { List Bound };

    ghost coded = { bounds_code };

    ghost use Rattle.circ_term.specs.Bindings.{bound_of};

    ghost view = { λ a. map bound_of a.terms.entries };

    ghost invariant = { λ a. KeepsSorts (substitution_of (map bound_of a.terms.entries)) };
}

impl Subst {
    /// The substitution that binds nothing.
    pub fn new(alloc: Global) -> Subst
        ensures { result ≡ [] }
    {
        Subst {
            alloc,
            terms: BTreeMap::new(alloc),
        }
    }

    /// Does nothing. Its contract is the law that each variable is given a term of its sort.
    pub fn known(&self)
        ensures { KeepsSorts (substitution_of self.now) }
    {
        let _ = &self.terms;
    }

    /// The term that a variable is bound to.
    pub fn get(&self, id: u32, sort: u32) -> Option<&Term>
        ensures { option_copied result ≡ found self.now id sort }
    {
        self.terms.get(&Variable { number: id, sort })
    }

    /// The bound terms, in the increasing order of their variables by number, then sort.
    pub fn terms(&self) -> Result<Vec<Term>, AllocError>
        ensures terms { IfOk result (λ v. v.items ≡ map (λ b. b.term) self.now) }
        ensures ordered { OnOk result (IsStrictlySortedBy bound_cmp self.now) }
    {
        let mut terms = Vec::with_capacity(self.alloc, self.terms.len())?;
        for term in self.terms.values() {
            term.share_to(&mut terms)?;
        }
        Ok(terms)
    }

    /// Binds a variable. False where it is bound to another term already.
    pub fn bind(&mut self, id: u32, sort: u32, term: &Term) -> Result<bool, AllocError>
        requires { sort_of term.now ≡ sort }
        ensures agrees { IfOk result (λ b.
            IsTrue b ↔ (unwrap_or (found self.old id sort) term.now ≡ term.now)) }
        ensures bound { IfOk result (λ b. OnTrue b (Binds self.old self.new id sort term.now)) }
        ensures refused { IfOk result (λ b. OnFalse b (self.new ≡ self.old)) }
        ensures err { OnErr result (self.new ≡ self.old) }
    {
        if let Some(bound) = self.get(id, sort) {
            return Ok(bound.same(term));
        }
        let term = term.share()?;
        self.terms.insert(Variable { number: id, sort }, term)?;
        Ok(true)
    }

    /// The instance of a term. A subterm without a variable is shared.
    #[cycle(apply)]
    pub fn apply(&self, term: &Term) -> Result<Term, TermFault>
        ensures { Builds result (instance (substitution_of self.now) term.now) }
    {
        if term.is_ground() {
            return shared(term);
        }
        match term.kind() {
            Kind::Variable { number, sort } => match self.get(number, sort) {
                Some(bound) => shared(bound),
                None => shared(term),
            },
            Kind::Application { op, sort, args } => match self.apply_all(args) {
                Err(fault) => Err(fault),
                Ok(args) => Term::app(self.alloc, op, sort, args),
            },
        }
    }

    #[cycle(apply)]
    fn apply_all(&self, terms: &[Term]) -> Result<Vec<Term>, TermFault>
        ensures { BuildsAll (λ v. v.items) result
            (instances (substitution_of self.now) (trees_of terms.now)) }
    {
        let mut made = Vec::with_capacity(self.alloc, terms.len())?;
        for term in terms {
            match self.apply(term) {
                Err(fault) => return Err(fault),
                Ok(term) => made.push(term)?,
            }
        }
        Ok(made)
    }

    /// Whether the instance of the pattern is the term. Builds nothing.
    #[cycle(gives)]
    pub fn gives(&self, pattern: &Term, term: &Term) -> bool
        ensures { IsTrue result
            ↔ (instance (substitution_of self.now) pattern.now ≡ term.now) }
    {
        if pattern.is_ground() {
            return pattern.same(term);
        }
        match (pattern.kind(), term.kind()) {
            (Kind::Variable { number, sort }, _) => match self.get(number, sort) {
                Some(bound) => bound.same(term),
                None => pattern.same(term),
            },
            (Kind::Application { .. }, Kind::Variable { .. }) => false,
            (
                Kind::Application { op, sort, args },
                Kind::Application {
                    op: term_op,
                    sort: term_sort,
                    args: term_args,
                },
            ) => {
                if op != term_op || sort != term_sort {
                    return false;
                }
                self.gives_all(args, term_args)
            }
        }
    }

    #[cycle(gives)]
    fn gives_all(&self, patterns: &[Term], terms: &[Term]) -> bool
        ensures { IsTrue result
            ↔ (instances (substitution_of self.now) (trees_of patterns.now) ≡ trees_of terms.now) }
    {
        if patterns.len() != terms.len() {
            return false;
        }
        for i in 0..patterns.len() {
            if !self.gives(&patterns[i], &terms[i]) {
                return false;
            }
        }
        true
    }
}

// The same term once more.
fn shared(term: &Term) -> Result<Term, TermFault>
    ensures { Builds result term.now }
{
    Ok(term.share()?)
}
