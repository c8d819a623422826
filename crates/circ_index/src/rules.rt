//! The first of many left sides that has a term as an instance.
ghost use Rattle.std.specs.Prelude.{◌≡◌, ◌+◌, ◌<◌, ◌^◌, [], ◌∷◌, ◌++◌, length};
ghost use Rattle.std.specs.Prelude.{IfOk, OnOk, OnErr};
ghost use Rattle.circ_index.specs.Finding.{FindsFirst};
ghost use Rattle.circ_index.specs.Indexed.{AreLefts};
ghost use Rattle.circ_index.specs.Keys.{term_keys};
ghost use Rattle.circ_index.specs.Walking.{IsOnWay, term_seats};

use crate::finder::Finder;
use crate::keys::term_keys;
use crate::walk::Walk;
use circ_match::match_term;
use circ_term::{Subst, Term};
use std::alloc::{AllocError, Global};
use std::marker::Model;

/// Left sides of rules, found by the operators at the root and at the root of the first argument,
/// and where many have the same, by their paths. Contracts see the list of the left sides.
#[derive(Drop)]
pub struct RuleIndex {
    alloc: Global,
    lefts: Vec<Term>,
    finder: Finder,
}

impl Model for RuleIndex {
    ghost use Rattle.std.specs.Prelude.{List};
    ghost use Rattle.std.specs.Coded.{coded_list};
    ghost use Rattle.circ_term.specs.Tree.{Tree};
    ghost use Rattle.circ_term.specs.Code.{tree_code};
    ghost use Rattle.circ_index.specs.Indexed.{AreLefts};

    ghost Value = { List Tree };

    ghost coded = { coded_list tree_code };

    ghost view = { λ a. a.lefts.items };

    ghost invariant = { λ a. AreLefts a.lefts.items a.finder };
}

impl RuleIndex {
    /// No left sides.
    pub fn new(alloc: Global) -> RuleIndex
        ensures { result ≡ [] }
    {
        RuleIndex {
            alloc,
            lefts: Vec::new(alloc),
            finder: Finder::new(alloc),
        }
    }

    /// Puts a left side last. After want of memory the index is as before.
    pub fn add(&mut self, left: &Term) -> Result<(), AllocError>
        requires { length self.old + 1 < 2 ^ 32 }
        ensures added { OnOk result (self.new ≡ self.old ++ left.now ∷ []) }
        ensures err { OnErr result (self.new ≡ self.old) }
    {
        self.lefts.push(left.share()?)?;
        match self.finder.add_left(left) {
            Ok(()) => Ok(()),
            Err(fault) => {
                let _last = self.lefts.pop();
                Err(fault)
            }
        }
    }

    /// The least number at or above `from` whose left side matches the term, with the substitution.
    pub fn first(&self, from: u32, term: &Term) -> Result<Option<(u32, Subst)>, AllocError>
        ensures { IfOk result (FindsFirst self.now from term.now) }
    {
        let mut walk = self.finder.start(&term_keys(term), from)?;
        let lefts = self.lefts.as_slice();
        first_on(self.alloc, lefts, &self.finder, from, term, &mut walk)
    }
}

// The same on a walk from there.
fn first_on(
    alloc: Global,
    lefts: &[Term],
    finder: &Finder,
    from: u32,
    term: &Term,
    walk: &mut Walk,
) -> Result<Option<(u32, Subst)>, AllocError>
    requires lefts { AreLefts lefts.now finder.now }
    requires way { IsOnWay finder.now (term_keys term.now)
        (term_seats finder.now (term_keys term.now) term.now) from walk.old }
    ensures { IfOk result (FindsFirst lefts.now from term.now) }
{
    let keys = term_keys(term);
    let mut place = finder.next_left(term, &keys, from, walk)?;
    while (place as usize) < lefts.len() {
        match match_term(alloc, &lefts[place as usize], term)? {
            Some(subst) => return Ok(Some((place, subst))),
            None => finder.pass(place, walk),
        }
        place = finder.next_left(term, &keys, place + 1, walk)?;
    }
    Ok(None)
}
