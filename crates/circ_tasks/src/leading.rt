//! The terms to which links lead.
ghost use Rattle.std.specs.Prelude.{◌≡◌, List, unwrap_or};
ghost use Rattle.std.specs.Option.{option_copied};
ghost use Rattle.circ_term.specs.Tree.{Tree};
ghost use Rattle.circ_term.specs.Limits.{Builds};
ghost use Rattle.circ_proof.specs.Plain.{plain_link, plain_links};
ghost use Rattle.circ_proof.specs.Link.{resolved_link, resolved_links};
ghost use Rattle.circ_expansion.specs.Followed.{link_path, new_of, led, led_all, hypothesis_at, no_goal};
ghost use Rattle.circ_expansion.specs.Expand.{link_terms, trail};
ghost use Rattle.circ_tasks.specs.Settings.{goals_at, setting_of};
ghost use Rattle.circ_uses.specs.Uses.{BuildsLast};

use crate::links::{all_named, by_assumption, by_equation, by_hypothesis, named};
use circ_book::Book;
use circ_proof::Link;
use circ_special::Gamma;
use circ_term::{Term, TermFault};
use circ_theory::{Goal, Pair, Theory};
use circ_uses::put;
use std::alloc::Global;

/// What the links of a side are read against: the hypotheses at the end of a block, if there are
/// some, and the proof's own assumptions.
#[derive(Clone, Copy)]
pub struct Side<'a, 'b> {
    pub alloc: Global,
    pub theory: &'a Theory,
    pub gamma: &'a Gamma,
    pub table: &'a [Term],
    pub book: &'a Book<'b>,
    pub block: Option<u32>,
    pub assumptions: &'a [Pair],
}

impl Side<'_, '_> {
    /// The term to which the link leads.
    pub fn led(&self, link: &Link, term: &Term) -> Result<Term, TermFault>
        ensures { BuildsLast result
            (link_terms (setting_of self.now)
            (resolved_link self.now.table.now (plain_link link.now)) term.now)
            (led (setting_of self.now)
            (resolved_link self.now.table.now (plain_link link.now)) term.now) }
    {
        match self.new_of(link) {
            Err(fault) => Err(fault),
            Ok(new) => put(self.alloc, term, path_of(link), &new),
        }
    }

    /// The term to which links lead, one after another.
    pub fn led_all(&self, links: &[Link], term: &Term) -> Result<Term, TermFault>
        ensures { BuildsLast result
            (trail (setting_of self.now)
            (resolved_links self.now.table.now (plain_links links.now)) term.now)
            (led_all (setting_of self.now)
            (resolved_links self.now.table.now (plain_links links.now)) term.now) }
    {
        let mut here = term.share()?;
        for link in links {
            match self.led(link, &here) {
                Err(fault) => return Err(fault),
                Ok(next) => here = next,
            }
        }
        Ok(here)
    }

    // What the link puts at its path.
    fn new_of(&self, link: &Link) -> Result<Term, TermFault>
        ensures { Builds result (new_of (setting_of self.now)
            (resolved_link self.now.table.now (plain_link link.now))) }
    {
        match link {
            Link::Equation {
                number,
                way,
                terms,
                ..
            } => {
                let terms = all_named(self.alloc, self.table, terms.as_slice())?;
                by_equation(self.alloc, self.theory, *number, *way, terms.as_slice())
            }
            Link::Hypothesis {
                number,
                way,
                terms,
                ..
            } => {
                let terms = all_named(self.alloc, self.table, terms.as_slice())?;
                let goal = self.hypothesis(*number);
                by_hypothesis(self.alloc, goal, *way, terms.as_slice())
            }
            Link::Assumption { number, way, .. } => {
                let new = by_assumption(self.assumptions, *number, *way)?;
                new.known();
                Ok(new)
            }
            Link::Content { term, .. } => {
                let new = named(self.table, *term)?;
                new.known();
                Ok(new)
            }
        }
    }

    // The hypothesis of this number.
    fn hypothesis(&self, number: u32) -> Option<&Goal>
        ensures { unwrap_or (option_copied result) no_goal ≡
            hypothesis_at (goals_at self.now.book.now self.now.block) number }
    {
        let Some(block) = self.block else {
            return None;
        };
        match self.book.hypothesis(block, number) {
            Some(followed) => self.book.goal(followed.node),
            None => None,
        }
    }
}

// The path of the link.
fn path_of(link: &Link) -> &[u16]
    ensures { (table : List Tree) → result.now ≡
        link_path (resolved_link table (plain_link link.now)) }
{
    match link {
        Link::Equation { path, .. } => path.as_slice(),
        Link::Hypothesis { path, .. } => path.as_slice(),
        Link::Assumption { path, .. } => path.as_slice(),
        Link::Content { path, .. } => path.as_slice(),
    }
}
