//! Where tokens stand in a span of tokens.
ghost use Rattle.std.specs.Prelude.{◌≡◌, IfOk};
ghost use Rattle.circ_lexer.specs.TokenList.{tokens_in, IsWithin};
ghost use Rattle.circ_statement.specs.Words.{is_name, are_names, are_some_names};
ghost use Rattle.circ_statement.specs.Said.{IsPlace, token_at};
ghost use Rattle.circ_statement.specs.Statement.{joined};
ghost use Rattle.circ_statement.specs.Reading.{GivesFirst, GivesAfter, GivesName, GivesSplit};

use crate::keywords::{is_name, is_word};
use circ_lexer::{Span, Tokens};
use std::alloc::{AllocError, Global};

// The first token of a span, with its number, and the tokens after it.
#[derive(Clone, Copy)]
pub(crate) struct First<'a> {
    pub place: usize,
    pub word: &'a [u8],
    pub rest: Span,
}

pub(crate) fn first_of<'a>(tokens: &Tokens<'a>, span: Span) -> Option<First<'a>>
    requires { IsWithin tokens.now span }
    ensures { GivesFirst result tokens.now span }
{
    if span.from == span.to {
        return None;
    }
    let word = tokens.token(span.from)?;
    let rest = Span {
        from: span.from + 1,
        to: span.to,
    };
    Some(First {
        place: span.from,
        word,
        rest,
    })
}

// The tokens after this first word.
pub(crate) fn after(tokens: &Tokens<'_>, span: Span, word: &[u8]) -> Option<Span>
    requires { IsWithin tokens.now span }
    ensures { GivesAfter result tokens.now span word.now }
{
    let first = first_of(tokens, span)?;
    if is_word(first.word, word) {
        Some(first.rest)
    } else {
        None
    }
}

// The number of the only token, where it is a name.
pub(crate) fn only_name(tokens: &Tokens<'_>, span: Span) -> Option<usize>
    requires { IsWithin tokens.now span }
    ensures { GivesName result tokens.now span }
{
    let first = first_of(tokens, span)?;
    if first.rest.from < first.rest.to {
        return None;
    }
    if is_name(first.word) {
        Some(first.place)
    } else {
        None
    }
}

// Whether the token of this number can be a name.
pub(crate) fn is_name_at(tokens: &Tokens<'_>, place: usize) -> bool
    requires { IsPlace tokens.now place }
    ensures { result ≡ is_name (token_at tokens.now place) }
{
    match tokens.token(place) {
        Some(word) => is_name(word),
        None => false,
    }
}

// The tokens before the first such word, and those after it.
pub(crate) fn split(tokens: &Tokens<'_>, span: Span, word: &[u8]) -> Option<(Span, Span)>
    requires { IsWithin tokens.now span }
    ensures { GivesSplit result tokens.now span word.now }
{
    let mut rest = span;
    while let Some(first) = first_of(tokens, rest) {
        if is_word(first.word, word) {
            let before = Span {
                from: span.from,
                to: first.place,
            };
            return Some((before, first.rest));
        }
        rest = first.rest;
    }
    None
}

// Whether each token can be a name.
pub(crate) fn are_names(tokens: &Tokens<'_>, span: Span) -> bool
    requires { IsWithin tokens.now span }
    ensures { result ≡ are_names (tokens_in tokens.now span) }
{
    let mut rest = span;
    while let Some(first) = first_of(tokens, rest) {
        if !is_name(first.word) {
            return false;
        }
        rest = first.rest;
    }
    true
}

// The same, and that there is a token.
pub(crate) fn are_some_names(tokens: &Tokens<'_>, span: Span) -> bool
    requires { IsWithin tokens.now span }
    ensures { result ≡ are_some_names (tokens_in tokens.now span) }
{
    span.from < span.to && are_names(tokens, span)
}

// The tokens, joined without blanks.
pub(crate) fn joined(alloc: Global, tokens: &Tokens<'_>, span: Span) -> Result<Vec<u8>, AllocError>
    requires { IsWithin tokens.now span }
    ensures { IfOk result (λ v. v.items ≡ joined (tokens_in tokens.now span)) }
{
    let mut bytes = Vec::new(alloc);
    let mut rest = span;
    while let Some(first) = first_of(tokens, rest) {
        bytes.extend_from_slice(first.word)?;
        rest = first.rest;
    }
    Ok(bytes)
}
