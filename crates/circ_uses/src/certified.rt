//! The certificate of a place for a derivative.
ghost use Rattle.std.specs.Prelude.{◌≡◌, ◌≤◌, ◌==◌, if◌then◌else◌, length, take, drop};
ghost use Rattle.std.specs.List.{slice_get};
ghost use Rattle.std.specs.Option.{IfSome};
ghost use Rattle.circ_proof.specs.Plain.{plain_links};
ghost use Rattle.circ_proof.specs.Link.{resolved_links};
ghost use Rattle.circ_expansion.specs.Expand.{certificate_of, links_for, links_after, result_sort};
ghost use Rattle.circ_expansion.specs.Expand.{later_links};
ghost use Rattle.circ_uses.specs.Certificates.{lists_in};

use circ_proof::Link;
use circ_special::{Gamma, Place};
use circ_term::Term;
use circ_theory::Theory;

/// The certificates of a proof.
#[derive(Clone, Copy)]
pub struct Certificates<'a> {
    pub theory: &'a Theory,
    pub table: &'a [Term],
    pub gamma: &'a Gamma,
    pub lists: &'a [Vec<Link>],
}

impl<'a> Certificates<'a> {
    /// The links of the certificate of a place for the derivative of this number.
    pub fn links(&self, place: Place, derivative: u32) -> &'a [Link]
        ensures { resolved_links self.now.table.now (plain_links result.now) ≡ certificate_of
            self.now.theory.now self.now.gamma.now
            (lists_in self.now.table.now self.now.lists.now) place derivative }
    {
        let mut rest = self.lists;
        for other in self.gamma.places() {
            let sort = self.result_sort(*other);
            if other.op == place.op && other.arg == place.arg {
                return self.list_for(rest, sort, derivative);
            }
            rest = self.after(rest, sort, self.theory.derivative_count());
        }
        &[]
    }

    // The sort of the operator of a place.
    fn result_sort(&self, place: Place) -> u32
        ensures { result ≡ result_sort self.now.theory.now place }
    {
        match self.theory.op(place.op) {
            Some(decl) => decl.result,
            None => 0,
        }
    }

    // The lists stand for the derivatives of the sort: the one for the derivative of this number.
    fn list_for(&self, lists: &'a [Vec<Link>], sort: u32, derivative: u32) -> &'a [Link]
        ensures { resolved_links self.now.table.now (plain_links result.now) ≡ links_for
            self.now.theory.now.derivatives sort (lists_in self.now.table.now lists.now)
            derivative }
    {
        if derivative >= self.theory.derivative_count() {
            return &[];
        }
        match self.after(lists, sort, derivative).first() {
            Some(links) => links.as_slice(),
            None => &[],
        }
    }

    // The lists after those for the first derivatives.
    fn after(&self, lists: &'a [Vec<Link>], sort: u32, count: u32) -> &'a [Vec<Link>]
        requires { count ≤ length self.now.theory.now.derivatives }
        ensures { lists_in self.now.table.now result.now ≡ links_after
            (take count self.now.theory.now.derivatives) sort
            (lists_in self.now.table.now lists.now) }
    {
        let mut rest = lists;
        for number in 0..count {
            rest = self.passed(rest, sort, number);
        }
        rest
    }

    // The lists after the one for this derivative, if it is of the sort.
    fn passed(&self, lists: &'a [Vec<Link>], sort: u32, number: u32) -> &'a [Vec<Link>]
        ensures { IfSome (slice_get self.now.theory.now.derivatives number) (λ d.
            lists_in self.now.table.now result.now ≡ (if d.hole == sort
            then later_links (lists_in self.now.table.now lists.now)
            else lists_in self.now.table.now lists.now)) }
    {
        if self.theory.takes(number, sort) {
            return behind_first(lists);
        }
        lists
    }
}

// The lists but the first.
fn behind_first(lists: &[Vec<Link>]) -> &[Vec<Link>]
    ensures { result.now ≡ drop 1 lists.now }
{
    match lists.split_first() {
        Some((_, rest)) => rest,
        None => &[],
    }
}
