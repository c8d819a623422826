//! What is checked of a line by itself and by the table before it.
ghost use Rattle.std.specs.Prelude.{◌≡◌, nat_lt, length};
ghost use Rattle.std.specs.List.{list_all};
ghost use Rattle.circ_special.specs.Special.{place, comes_before};
ghost use Rattle.circ_proof.specs.Plain.{plain_link};
ghost use Rattle.circ_proof_text.specs.Checks.{is_next, is_place, is_goal, is_condition};
ghost use Rattle.circ_proof_text.specs.Checks.{is_in_table, path_of, path_limit};

use crate::MOST_ENTRIES;
use circ_proof::Link;
use circ_special::Place;
use circ_table::Table;
use circ_term::Path;
use circ_theory::Theory;

/// Whether the place is greater than the last of these.
pub(crate) fn is_next(places: &[Place], op: u32, arg: u32) -> bool
    ensures { result ≡ is_next places.now (place op arg) }
{
    match places.last() {
        Some(last) => comes_before(*last, op, arg),
        None => true,
    }
}

fn comes_before(last: Place, op: u32, arg: u32) -> bool
    ensures { result ≡ comes_before last (place op arg) }
{
    last.op < op || (last.op == op && (last.arg as u32) < arg)
}

/// Whether the place is an argument of hidden sort of an operator of hidden sort.
pub(crate) fn is_place(theory: &Theory, op: u32, arg: u32) -> bool
    ensures { result ≡ is_place theory.now (place op arg) }
{
    let Some(decl) = theory.op(op) else {
        return false;
    };
    if !theory.is_hidden(decl.result) {
        return false;
    }
    match decl.args.get(arg as usize) {
        Some(sort) => theory.is_hidden(*sort),
        None => false,
    }
}

/// Whether both numbers are in the table, and their terms have one sort.
pub(crate) fn is_goal(table: &Table, left: u32, right: u32) -> bool
    ensures { result ≡ is_goal table.now left right }
{
    match (table.sort(left), table.sort(right)) {
        (Some(left), Some(right)) => right == left,
        _ => false,
    }
}

/// The same, and the sort is visible.
pub(crate) fn is_condition(theory: &Theory, table: &Table, left: u32, right: u32) -> bool
    ensures { result ≡ is_condition theory.now table.now left right }
{
    if !is_goal(table, left, right) {
        return false;
    }
    match table.sort(left) {
        Some(sort) => !theory.is_hidden(sort),
        None => false,
    }
}

/// Whether the terms of the link are in a table of this length.
pub(crate) fn is_in_table(count: usize, link: &Link) -> bool
    ensures { result ≡ is_in_table count (plain_link link.now) }
{
    match link {
        Link::Equation { terms, .. } => are_below(count, terms),
        Link::Hypothesis { terms, .. } => are_below(count, terms),
        Link::Assumption { .. } => true,
        Link::Content { term, .. } => (*term as usize) < count,
    }
}

fn are_below(count: usize, numbers: &[u32]) -> bool
    ensures { result ≡ list_all (λ n. nat_lt n count) numbers.now }
{
    for number in numbers {
        if *number as usize >= count {
            return false;
        }
    }
    true
}

// Where the link applies.
fn path_of(link: &Link) -> &Path
    ensures { result.now.items ≡ path_of (plain_link link.now) }
{
    match link {
        Link::Equation { path, .. } => path,
        Link::Hypothesis { path, .. } => path,
        Link::Assumption { path, .. } => path,
        Link::Content { path, .. } => path,
    }
}

/// Whether the path of the link has more entries than there may be.
pub(crate) fn is_long(link: &Link) -> bool
    ensures { result ≡ nat_lt path_limit (length (path_of (plain_link link.now))) }
{
    path_of(link).len() > MOST_ENTRIES
}
