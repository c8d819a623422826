//! Readings of several pairs of token lists: none, one, or two of several.
ghost use Rattle.std.specs.Prelude.{IfOk, OnOk};
ghost use Rattle.circ_mixfix.specs.Choices.{IsAdded, IsNew, HaveNothing, Extends, OneOf};
ghost use Rattle.circ_mixfix.specs.Found.{KeepsReadings};

use crate::few::{Few, Reading, with_reading};
use crate::variable_names::{VariableName, push_numbered};
use crate::words::Words;
use circ_term::Term;
use indexmap::IndexSet;
use std::alloc::{AllocError, Global};

// Terms that some pairs of token lists spell, with their variables numbered over all of them.
#[derive(Drop)]
pub struct Choice<'a> {
    pub seen: IndexSet<VariableName<'a>>,
    pub terms: Vec<Term>,
}

// Two choices for the same pairs. Where they do not differ, there is no other.
#[derive(Drop)]
pub struct Choices<'a> {
    pub first: Choice<'a>,
    pub second: Choice<'a>,
    pub differ: bool,
}

fn no_choice<'a>(alloc: Global) -> Choice<'a>
    ensures { IsNew result }
{
    Choice {
        seen: IndexSet::new(alloc),
        terms: Vec::new(alloc),
    }
}

// The choices for no pair.
pub fn no_choices<'a>(alloc: Global) -> Choices<'a>
    ensures { HaveNothing result }
{
    Choices {
        first: no_choice(alloc),
        second: no_choice(alloc),
        differ: false,
    }
}

// Adds the terms of one pair more.
fn push<'a>(
    alloc: Global,
    words: &Words<'a>,
    choice: &mut Choice<'a>,
    pair: &Reading,
) -> Result<(), AllocError>
    ensures { OnOk result (Extends words.now pair.now.terms.items choice.old choice.new) }
{
    push_numbered(
        alloc,
        words,
        &mut choice.seen,
        &pair.terms,
        &mut choice.terms,
    )
}

// Adds what one pair more is spelled by, if it is spelled by anything.
pub fn add<'a>(
    alloc: Global,
    words: &Words<'a>,
    choices: &mut Choices<'a>,
    found: &Few,
) -> Result<bool, AllocError>
    ensures { IfOk result (IsAdded words.now found.now choices.old choices.new) }
{
    match found {
        Few::Empty => Ok(false),
        Few::One(pair) => {
            push(alloc, words, &mut choices.first, pair)?;
            push(alloc, words, &mut choices.second, pair)?;
            Ok(true)
        }
        Few::Two(pair, other) => {
            push(alloc, words, &mut choices.first, pair)?;
            push(alloc, words, &mut choices.second, other)?;
            choices.differ = true;
            Ok(true)
        }
    }
}

// The readings that the terms of two choices are, which are one where the choices do not differ.
pub fn chosen(first: Vec<Term>, second: Vec<Term>, differ: bool) -> Few
    ensures { KeepsReadings result (OneOf first.items second.items differ) }
{
    let found = Few::One(Reading { terms: first });
    if !differ {
        return found;
    }
    with_reading(found, Reading { terms: second })
}
