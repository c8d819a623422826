//! The first of many pairs that has two terms as an instance, one way or the other.
ghost use Rattle.std.specs.Prelude.{◌≡◌, ◌+◌, ◌<◌, ◌^◌};
ghost use Rattle.std.specs.Prelude.{[], ◌∷◌, ◌++◌, length, Some, IfOk};
ghost use Rattle.std.specs.Prelude.{OnOk, OnErr};
ghost use Rattle.std.specs.List.{slice_get};
ghost use Rattle.circ_term.specs.Tree.{Tree};
ghost use Rattle.circ_index.specs.Finding.{FindsFirstPair, PairMatches, both_ways};
ghost use Rattle.circ_index.specs.Indexed.{ArePairs};
ghost use Rattle.circ_index.specs.Keys.{pair_keys};
ghost use Rattle.circ_index.specs.Walking.{IsOnWay, pair_seats};

use crate::finder::Finder;
use crate::keys::pair_keys;
use crate::walk::Walk;
use circ_match::match_pair;
use circ_term::{Subst, Term};
use std::alloc::{AllocError, Global};
use std::marker::Model;

/// Pairs of patterns, found by the operators at both roots, and by their sizes where they have no
/// variables, and where many have the same, by their paths. Contracts see the list of the pairs.
/// Place 2n is pair n as it stands, and place 2n + 1 is pair n turned.
#[derive(Drop)]
pub struct PairIndex {
    alloc: Global,
    pairs: Vec<(Term, Term)>,
    finder: Finder,
}

impl Model for PairIndex {
    ghost use Rattle.std.specs.Prelude.{List};
    ghost use Rattle.std.specs.Coded.{coded_list, coded×};
    ghost use Rattle.circ_term.specs.Tree.{Tree};
    ghost use Rattle.circ_term.specs.Code.{tree_code};
    ghost use Rattle.circ_index.specs.Indexed.{ArePairs};

    ghost Value = { List (Tree × Tree) };

    ghost coded = { coded_list (coded× tree_code tree_code) };

    ghost view = { λ a. a.pairs.items };

    ghost invariant = { λ a. ArePairs a.pairs.items a.finder };
}

impl PairIndex {
    /// No pairs.
    pub fn new(alloc: Global) -> PairIndex
        ensures { result ≡ [] }
    {
        PairIndex {
            alloc,
            pairs: Vec::new(alloc),
            finder: Finder::new(alloc),
        }
    }

    /// How many pairs there are.
    pub fn len(&self) -> usize
        ensures { result ≡ length self.now }
    {
        self.pairs.len()
    }

    /// Puts a pair last. After want of memory the index is as before.
    pub fn add(&mut self, left: &Term, right: &Term) -> Result<(), AllocError>
        requires { length self.old + 1 < 2 ^ 31 }
        ensures added { OnOk result (self.new ≡ self.old ++ (left.now, right.now) ∷ []) }
        ensures err { OnErr result (self.new ≡ self.old) }
    {
        self.pairs.push((left.share()?, right.share()?))?;
        match self.finder.add_pair(left, right) {
            Ok(()) => Ok(()),
            Err(fault) => {
                let _last = self.pairs.pop();
                Err(fault)
            }
        }
    }

    /// The least place at or above `from` whose pair has the two terms as an instance, with the
    /// substitution.
    pub fn first(&self, from: u32, a: &Term, b: &Term) -> Result<Option<(u32, Subst)>, AllocError>
        ensures { IfOk result (FindsFirstPair self.now from a.now b.now) }
    {
        let mut walk = self.finder.start(&pair_keys(a, b), from)?;
        let pairs = self.pairs.as_slice();
        first_on(self.alloc, pairs, &self.finder, from, a, b, &mut walk)
    }
}

// The same on a walk from there.
fn first_on(
    alloc: Global,
    pairs: &[(Term, Term)],
    finder: &Finder,
    from: u32,
    a: &Term,
    b: &Term,
    walk: &mut Walk,
) -> Result<Option<(u32, Subst)>, AllocError>
    requires pairs { ArePairs pairs.now finder.now }
    requires way { IsOnWay finder.now (pair_keys a.now b.now)
        (pair_seats finder.now (pair_keys a.now b.now) a.now b.now) from walk.old }
    ensures { IfOk result (FindsFirstPair pairs.now from a.now b.now) }
{
    let keys = pair_keys(a, b);
    let mut place = finder.next_pair(a, b, &keys, from, walk)?;
    while place as usize / 2 < pairs.len() {
        match try_at(alloc, pairs, place, a, b)? {
            Some(subst) => return Ok(Some((place, subst))),
            None => finder.pass(place, walk),
        }
        place = finder.next_pair(a, b, &keys, place + 1, walk)?;
    }
    Ok(None)
}

// Matches the pair at a place.
fn try_at(
    alloc: Global,
    pairs: &[(Term, Term)],
    place: u32,
    a: &Term,
    b: &Term,
) -> Result<Option<Subst>, AllocError>
    requires { place < length (both_ways pairs.now) }
    ensures { (p : Tree × Tree) → slice_get (both_ways pairs.now) place ≡ Some p
        → IfOk result (PairMatches a.now b.now p) }
{
    let (left, right) = &pairs[place as usize / 2];
    if place % 2 == 0 {
        match_both(alloc, left, right, a, b)
    } else {
        match_both(alloc, right, left, a, b)
    }
}

// Matches one pair. Where a side is larger than its term, no memory is taken.
fn match_both(
    alloc: Global,
    left: &Term,
    right: &Term,
    a: &Term,
    b: &Term,
) -> Result<Option<Subst>, AllocError>
    ensures { IfOk result (PairMatches a.now b.now (left.now, right.now)) }
{
    if left.size() > a.size() {
        return Ok(None);
    }
    if right.size() > b.size() {
        return Ok(None);
    }
    match_pair(alloc, left, right, a, b)
}
