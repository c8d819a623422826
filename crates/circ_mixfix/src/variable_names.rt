//! Terms of the chart, with their variables numbered by name over several token lists.
ghost use Rattle.std.specs.Prelude.{◌≡◌, ◌≤◌, ◌++◌, length, map, IfOk, OnOk};
ghost use Rattle.circ_term.specs.Tree.{App, trees_of};
ghost use Rattle.circ_term.specs.declared.TheConstants.{MOST_ARGS};
ghost use Rattle.circ_mixfix.specs.Named.{Variable, numbered, place_from, seen_in, seen_in_all};
ghost use Rattle.circ_mixfix.specs.Coding.{text_at, named_by, all_named_by};
ghost use Rattle.circ_mixfix.specs.NamesSeen.{named_of, numbered_by};

use crate::words::Words;
use circ_term::{Kind, Term};
use indexmap::IndexSet;
use std::alloc::{AllocError, Global};

// The most variables that one reading has: that many numbers there are.
const MOST_VARIABLES: usize = 4_294_967_296;

// A variable by its name.
#[derive(Clone, Copy, PartialEq, Eq, Hash)]
pub struct VariableName<'a> {
    pub name: &'a [u8],
    pub sort: u32,
}

// The number of a variable among those seen, to which it is added if it is not there. Where there
// is no number left, it counts as out of memory.
fn number_of<'a>(
    seen: &mut IndexSet<VariableName<'a>>,
    name: &'a [u8],
    sort: u32,
) -> Result<u32, AllocError>
    ensures seen { OnOk result (map named_of seen.new.keys ≡ seen_in (Variable name.now sort)
        (map named_of seen.old.keys)) }
    ensures number { IfOk result (λ n. n ≡ place_from 0 (map named_of seen.new.keys) name.now
        sort) }
{
    let (place, _) = seen.insert_full(VariableName { name, sort })?;
    if place >= MOST_VARIABLES {
        return Err(AllocError);
    }
    Ok(place as u32)
}

// The text of a number.
fn text_of<'a>(words: &Words<'a>, number: u32) -> &'a [u8]
    ensures { result.now ≡ text_at words.now number }
{
    match words.text(number as usize) {
        Some(text) => text,
        None => b"".as_slice(),
    }
}

// The operator on these arguments. The arguments are as large as those that the chart found, so no
// limit is passed.
fn application(alloc: Global, op: u32, sort: u32, args: Vec<Term>) -> Result<Term, AllocError>
    requires { length args.items ≤ MOST_ARGS }
    ensures { IfOk result (λ t. t ≡ App op sort (trees_of args.items)) }
{
    match Term::app(alloc, op, sort, args) {
        Ok(term) => Ok(term),
        Err(_) => Err(AllocError),
    }
}

// The term with its variables, whose names are texts, numbered by their places among those seen.
#[cycle(naming)]
fn numbered<'a>(
    alloc: Global,
    words: &Words<'a>,
    seen: &mut IndexSet<VariableName<'a>>,
    term: &Term,
) -> Result<Term, AllocError>
    ensures seen { OnOk result (map named_of seen.new.keys ≡ seen_in (named_by words.now term.now)
        (map named_of seen.old.keys)) }
    ensures term { IfOk result (λ t. t ≡ numbered (place_from 0 (map named_of seen.new.keys))
        (named_by words.now term.now)) }
{
    match term.kind() {
        Kind::Variable { number, sort } => {
            let number = number_of(seen, text_of(words, number), sort)?;
            Ok(Term::var(number, sort))
        }
        Kind::Application { op, sort, args } => {
            let mut out = Vec::with_capacity(alloc, args.len())?;
            push_numbered(alloc, words, seen, args, &mut out)?;
            application(alloc, op, sort, out)
        }
    }
}

// Appends the terms, numbered so.
#[cycle(naming)]
pub fn push_numbered<'a>(
    alloc: Global,
    words: &Words<'a>,
    seen: &mut IndexSet<VariableName<'a>>,
    terms: &[Term],
    out: &mut Vec<Term>,
) -> Result<(), AllocError>
    ensures seen { OnOk result (map named_of seen.new.keys ≡ seen_in_all
        (all_named_by words.now (trees_of terms.now)) (map named_of seen.old.keys)) }
    ensures terms { OnOk result (out.new.items ≡ out.old.items ++
        numbered_by words.now (map named_of seen.new.keys) terms.now) }
{
    for term in terms {
        out.push(numbered(alloc, words, seen, term)?)?;
    }
    Ok(())
}
