//! Variables with terms for them.
ghost use Rattle.std.specs.Prelude.{◌≡◌, [], IfOk, OnOk};
ghost use Rattle.std.specs.Option.{option_copied};
ghost use Rattle.circ_term.specs.Subst.{found};
ghost use Rattle.circ_uses.specs.Valuations.{bounds_in, valued_by, Fills};

use circ_term::Term;
use std::alloc::{AllocError, Global};
use std::collections::BTreeMap;

#[derive(Clone, Copy, PartialEq, Eq, PartialOrd, Ord)]
pub struct Variable {
    pub number: u32,
    pub sort: u32,
}

/// Finitely many variables, each with a term of any sort.
#[derive(Drop)]
pub struct Valuation {
    terms: BTreeMap<Variable, Term>,
}

impl Valuation {
    pub fn new(alloc: Global) -> Valuation
        ensures { bounds_in result ≡ [] }
    {
        Valuation {
            terms: BTreeMap::new(alloc),
        }
    }

    /// The term for a variable.
    pub fn get(&self, number: u32, sort: u32) -> Option<&Term>
        ensures { option_copied result ≡ found (bounds_in self.now) number sort }
    {
        self.terms.get(&Variable { number, sort })
    }

    /// The term for a variable: itself, if none is kept.
    pub fn value(&self, number: u32, sort: u32) -> Result<Term, AllocError>
        ensures { IfOk result (λ t. t ≡ valued_by self.now number sort) }
    {
        match self.get(number, sort) {
            Some(term) => term.share(),
            None => Ok(Term::var(number, sort)),
        }
    }

    /// Gives a variable its term, unless it has one.
    pub fn put(&mut self, number: u32, sort: u32, term: &Term) -> Result<(), AllocError>
        ensures { OnOk result (Fills (bounds_in self.old) (bounds_in self.new)
            number sort term.now) }
    {
        match self.get(number, sort) {
            Some(_) => Ok(()),
            None => {
                let term = term.share()?;
                self.terms.insert(Variable { number, sort }, term)?;
                Ok(())
            }
        }
    }
}
