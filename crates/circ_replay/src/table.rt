//! The table of a proof that is being written.
ghost use Rattle.std.specs.Prelude.{◌≡◌, ◌≤◌, ◌++◌, ◌∷◌, [], length, take, true, Some, IfOk};
ghost use Rattle.std.specs.List.{slice_get, AllByRecursion};
ghost use Rattle.std.specs.Option.{IfSome};
ghost use Rattle.circ_term.specs.Tree.{args_of, trees_of};
ghost use Rattle.circ_proof.specs.Table.{IsTable, IsNext, Numbers, added, entered, has};
ghost use Rattle.circ_proof.specs.Table.{number_in, term_limit};
ghost use Rattle.circ_replay.specs.Growing.{NumbersSoFar, AddsAllSoFar};
ghost use Rattle.circ_replay.specs.Fingerprints.{Finds, IsKeyed};

use circ_hash_chains::HashChains;
use circ_proof::MOST_TERMS;
use circ_term::Term;
use std::alloc::{AllocError, Global};
use std::marker::Model;

/// The terms of a proof, each of which is there once and after its arguments. A term's number is
/// its place.
#[derive(Drop)]
pub struct TableBuilder {
    alloc: Global,
    terms: Vec<Term>,
    // The terms' fingerprints, in the same order.
    chains: HashChains,
}

impl Model for TableBuilder {
    ghost use Rattle.std.specs.Prelude.{List};
    ghost use Rattle.std.specs.Coded.{coded_list};
    ghost use Rattle.circ_term.specs.Tree.{Tree};
    ghost use Rattle.circ_term.specs.Code.{tree_code};

    ghost Value = { List Tree };

    ghost coded = { coded_list tree_code };

    ghost use Rattle.circ_replay.specs.Fingerprints.{IsKeyed};

    ghost view = { λ a. a.terms.items };

    ghost invariant = { λ a. IsKeyed a.terms.items a.chains };
}

impl TableBuilder {
    /// An empty table.
    pub fn new(alloc: Global) -> TableBuilder
        ensures { result ≡ [] }
    {
        TableBuilder {
            alloc,
            terms: Vec::new(alloc),
            chains: HashChains::new(alloc),
        }
    }

    /// The term's number. Its subterms that are not in the table are added, in post-order. None
    /// where the table would then have too many terms. It is unchanged then, and after want of
    /// memory. By its code a subterm that is there is compared with the term of its number, and
    /// what stands below it is not looked up; no term is copied.
    pub fn number(&mut self, term: &Term) -> Result<Option<u32>, AllocError>
        ensures exact { Numbers self.old self.new (added self.old term.now) term.now result }
        ensures named { IfOk result (λ o. IfSome o (λ n. slice_get self.new n ≡ Some term.now)) }
        ensures few { IfOk result (λ o. IfSome o (λ n. length self.new ≤ term_limit)) }
    {
        let count = self.terms.len();
        match self.add(term) {
            Ok(Some(number)) => {
                self.terms();
                Ok(Some(number))
            }
            Ok(None) => {
                self.cut(count);
                Ok(None)
            }
            Err(fault) => {
                self.cut(count);
                Err(fault)
            }
        }
    }

    /// The number of a term whose arguments are in the table. It goes last where it is new. None
    /// where the table would then have too many terms. It is unchanged then, and after want of
    /// memory.
    pub fn enter(&mut self, term: &Term) -> Result<Option<u32>, AllocError>
        requires { AllByRecursion (λ a. has self.old a ≡ true) (args_of term.now) }
        ensures { Numbers self.old self.new (entered self.old term.now) term.now result }
    {
        match self.find(term) {
            Some(number) => Ok(Some(number)),
            None => self.put(term),
        }
    }

    /// The number of a term that is in the table. By its code it is compared with none where no
    /// other term has its fingerprint.
    pub fn known_number(&self, term: &Term) -> u32
        requires { has self.now term.now ≡ true }
        ensures { result ≡ number_in self.now term.now }
    {
        find_known(self.terms.as_slice(), &self.chains, term)
    }

    /// The terms, by their numbers.
    pub fn terms(&self) -> &[Term]
        ensures value { result.now ≡ self.now }
        ensures table { IsTable self.now }
    {
        self.terms.as_slice()
    }

    // The term's number, once its subterms are added. What was added stays on a refusal.
    #[cycle(add)]
    fn add(&mut self, term: &Term) -> Result<Option<u32>, AllocError>
        ensures { NumbersSoFar self.old self.new term.now result }
    {
        if let Some(number) = self.find(term) {
            return Ok(Some(number));
        }
        if !self.add_all(term.args())? {
            return Ok(None);
        }
        self.enter(term)
    }

    // The terms and their subterms are added, or there is no room for all.
    #[cycle(add)]
    fn add_all(&mut self, terms: &[Term]) -> Result<bool, AllocError>
        ensures { AddsAllSoFar self.old self.new (trees_of terms.now) result }
    {
        for term in terms {
            let Some(_) = self.add(term)? else {
                return Ok(false);
            };
        }
        Ok(true)
    }

    // The number of the term, if it is there.
    fn find(&self, term: &Term) -> Option<u32>
        ensures { Finds self.now term.now result }
    {
        find(self.terms.as_slice(), &self.chains, term)
    }

    // The new term goes last, where there is room.
    fn put(&mut self, term: &Term) -> Result<Option<u32>, AllocError>
        requires { IsNext self.old term.now }
        ensures { Numbers self.old self.new (self.old ++ term.now ∷ []) term.now result }
    {
        let number = self.terms.len();
        if number >= MOST_TERMS {
            return Ok(None);
        }
        self.terms.reserve(1)?;
        let copy = term.share()?;
        self.chains.push(term.fingerprint())?;
        self.terms.push_reserved(copy);
        Ok(Some(number as u32))
    }

    // The first terms alone are kept.
    fn cut(&mut self, count: usize)
        ensures { self.new ≡ take count self.old }
    {
        self.terms.truncate(count);
        self.chains.truncate(count);
    }
}

// The number of the term, if it is there.
fn find(terms: &[Term], chains: &HashChains, term: &Term) -> Option<u32>
    requires { IsKeyed terms.now chains.now }
    ensures { Finds terms.now term.now result }
{
    let mut last = chains.newest(term.fingerprint());
    while let Some(number) = last {
        if terms[number as usize].same(term) {
            return Some(number);
        }
        last = chains.older(number);
    }
    None
}

// The number of the term, which is there. Where one number is left it is that.
fn find_known(terms: &[Term], chains: &HashChains, term: &Term) -> u32
    requires keyed { IsKeyed terms.now chains.now }
    requires there { has terms.now term.now ≡ true }
    ensures { result ≡ number_in terms.now term.now }
{
    let Some(newest) = chains.newest(term.fingerprint()) else {
        unreachable!();
    };
    let mut last = newest;
    while let Some(next) = chains.older(last) {
        if terms[last as usize].same(term) {
            return last;
        }
        last = next;
    }
    last
}
