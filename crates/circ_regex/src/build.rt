//! The terms of expressions.
ghost use Rattle.circ_term.specs.Limits.{Builds};
ghost use Rattle.circ_regex.specs.Lang.{on_none, on_term, on_terms, lang_sort};
ghost use Rattle.circ_regex.specs.Matches.{plain_regex};
ghost use Rattle.circ_regex.specs.Member.{expression_term};

use crate::regex::Regex;
use circ_term::{Term, TermFault};
use std::alloc::Global;

const LANG_SORT: u32 = 1;

fn on_none(alloc: Global, op: u32) -> Result<Term, TermFault>
    ensures { Builds result (on_none op lang_sort) }
{
    Term::app(alloc, op, LANG_SORT, Vec::new(alloc))
}

fn on_one(alloc: Global, op: u32, first: Term) -> Result<Term, TermFault>
    ensures { Builds result (on_term op lang_sort first) }
{
    let mut args = Vec::new(alloc);
    args.push(first)?;
    Term::app(alloc, op, LANG_SORT, args)
}

fn on_two(alloc: Global, op: u32, first: Term, second: Term) -> Result<Term, TermFault>
    ensures { Builds result (on_terms op lang_sort first second) }
{
    let mut args = Vec::new(alloc);
    args.push(first)?;
    args.push(second)?;
    Term::app(alloc, op, LANG_SORT, args)
}

/// The term of an expression in the theory LANG.
pub fn term_of(alloc: Global, regex: &Regex) -> Result<Term, TermFault>
    ensures { Builds result (expression_term (plain_regex regex.now)) }
{
    match regex {
        Regex::Empty => on_none(alloc, 7),
        Regex::Eps => on_none(alloc, 8),
        Regex::A => on_none(alloc, 9),
        Regex::B => on_none(alloc, 10),
        Regex::Sum(left, right) => {
            let first = term_of(alloc, left)?;
            let second = term_of(alloc, right)?;
            on_two(alloc, 13, first, second)
        }
        Regex::Product(left, right) => {
            let first = term_of(alloc, left)?;
            let second = term_of(alloc, right)?;
            on_two(alloc, 12, first, second)
        }
        Regex::Star(body) => {
            let inner = term_of(alloc, body)?;
            on_one(alloc, 11, inner)
        }
    }
}
