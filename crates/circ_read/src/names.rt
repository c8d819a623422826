//! The words of a text, and the sorts that they name.
ghost use Rattle.std.specs.Prelude.{◌≡◌, List, map, nat_eq, IfOk};
ghost use Rattle.std.specs.Cmp.Lexicographic.{pointwise};
ghost use Rattle.circ_lexer.specs.TokenList.{tokens_of, tokens_in, IsWithin};
ghost use Rattle.circ_statement.specs.Said.{token_at, IsPlace};
ghost use Rattle.circ_read.specs.Outcomes.{sort_named, sorts_named};
ghost use Rattle.circ_read.specs.Steps.{Finds, FindsAll};

use crate::cause::{Cause, Fault, because};
use circ_lexer::{Span, Tokens};
use circ_theory::Theory;
use std::alloc::Global;

/// The token of a number, counted from 0.
pub fn word<'a>(tokens: &Tokens<'a>, n: usize) -> &'a [u8]
    requires { IsPlace tokens.now n }
    ensures { result.now ≡ token_at tokens.now n }
{
    match tokens.token(n) {
        Some(word) => word,
        None => unreachable!(),
    }
}

/// The number of the sort of a name. A name of no sort is UnknownSort.
pub fn sort_named(theory: &Theory, name: &[u8]) -> Result<u32, Fault>
    ensures { Finds result (sort_named theory.now name.now) }
{
    match theory.sort_named(name) {
        Some(sort) => Ok(sort),
        None => Err(because(Cause::UnknownSort)),
    }
}

pub(crate) fn sorts_named(
    alloc: Global,
    theory: &Theory,
    tokens: &Tokens<'_>,
    names: Span,
) -> Result<Vec<u32>, Fault>
    requires { IsWithin tokens.now names }
    ensures { FindsAll result (sorts_named theory.now (tokens_in tokens.now names)) }
{
    let mut sorts = Vec::new(alloc);
    for n in names.from..names.to {
        match theory.sort_named(word(tokens, n)) {
            Some(sort) => sorts.push(sort)?,
            None => return Err(because(Cause::UnknownSort)),
        }
    }
    Ok(sorts)
}

pub(crate) fn is_word(word: &[u8], text: &[u8]) -> bool
    ensures { result ≡ pointwise nat_eq word.now text.now }
{
    word == text
}
