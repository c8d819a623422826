//! A theory of what is declared before a statement or an item.
use crate::parts::{Part, behind_item, is, item_from, next, without_open};
use crate::unreadable_hint::Source;
use circ_lexer::Tokens;
use circ_read::{ReadFault, read_theory};
use circ_theory::Theory;
use std::alloc::{AllocError, Global};

/// A theory's text with what is declared before a part, without its end: the statements of the
/// text, or a script's theory with the variables of the items.
pub(crate) fn declared_before(
    alloc: Global,
    source: &Source<'_>,
    tokens: &Tokens<'_>,
    part: Part,
) -> Result<Vec<u8>, AllocError> {
    let mut text = Vec::new(alloc);
    match push_declared(alloc, &mut text, source, tokens, part.from) {
        Ok(()) => Ok(text),
        Err(fault) => Err(fault),
    }
}

fn push_declared(
    alloc: Global,
    text: &mut Vec<u8>,
    source: &Source<'_>,
    tokens: &Tokens<'_>,
    end: usize,
) -> Result<(), AllocError> {
    if source.kind.is_script() {
        push_body(alloc, text, source.theory)?;
        push_variables(text, source.bytes, tokens, end)
    } else {
        push_range(text, source.bytes, tokens, without_open(tokens, 0), end)
    }
}

/// The theory that a text reads as, once it is ended.
pub(crate) fn read_ended(alloc: Global, mut text: Vec<u8>) -> Result<Theory, ReadFault> {
    match text.extend_from_slice(b" endtheory") {
        Ok(()) => read_theory(alloc, text.as_slice()),
        Err(_) => Err(ReadFault::Memory),
    }
}

/// Appends a theory's text without the token that ends it, and without the parentheses round it.
fn push_body(alloc: Global, text: &mut Vec<u8>, theory: &[u8]) -> Result<(), AllocError> {
    match Tokens::of(alloc, theory) {
        Ok(tokens) => {
            let begin = without_open(&tokens, 0);
            let end = tokens.count().saturating_sub(next(begin));
            push_range(text, theory, &tokens, begin, end)
        }
        Err(_) => Ok(()),
    }
}

/// Appends the items before a token that declare variables.
fn push_variables(
    text: &mut Vec<u8>,
    bytes: &[u8],
    tokens: &Tokens<'_>,
    end: usize,
) -> Result<(), AllocError> {
    let mut from = 0;
    for _ in 0..tokens.count() {
        let item = item_from(tokens, from);
        if !item.is_ended || end <= item.from {
            break;
        }
        if is(tokens, item.from, b"var") || is(tokens, item.from, b"vars") {
            push_range(text, bytes, tokens, item.from, next(item.to))?;
        }
        from = behind_item(tokens, from, item);
    }
    Ok(())
}

/// Appends the bytes from a token on up to another one, and a blank.
pub(crate) fn push_range(
    text: &mut Vec<u8>,
    bytes: &[u8],
    tokens: &Tokens<'_>,
    from: usize,
    to: usize,
) -> Result<(), AllocError> {
    let begin = begin_of(tokens, from, bytes.len());
    let end = begin_of(tokens, to, bytes.len());
    if begin <= end && end <= bytes.len() {
        text.extend_from_slice(&bytes[begin..end])?;
    }
    text.push(b' ')?;
    Ok(())
}

/// Where a token begins among so many bytes; behind them if there is none.
fn begin_of(tokens: &Tokens<'_>, number: usize, count: usize) -> usize {
    match tokens.span(number) {
        Some(span) => span.from,
        None => count,
    }
}
