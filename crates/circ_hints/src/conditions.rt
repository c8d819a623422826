//! The conditions of an equation or a goal, one by one.
use crate::declared::{declared_before, push_range, read_ended};
use crate::parts::{Part, is, next, outside};
use crate::unreadable_hint::Source;
use circ_lexer::Tokens;
use circ_read::{Cause, ReadFault};
use std::alloc::{AllocError, Global};

/// As many conditions as an equation or a goal has at most.
pub(crate) const MOST_CONDITIONS: usize = 8;

/// Whether a part is an equation or a goal with conditions.
pub(crate) fn has_conditions(tokens: &Tokens<'_>, part: Part) -> bool {
    is(tokens, part.from, b"ceq") || is_conditional_goal(tokens, part)
}

/// Whether an item begins as a goal with conditions.
pub(crate) fn is_conditional_goal(tokens: &Tokens<'_>, part: Part) -> bool {
    is(tokens, part.from, b"add") && is(tokens, part.nth(1), b"cgoal")
}

/// Where the terms of a statement end: at the mark `[ nonexec ]`, or at the stop.
pub(crate) fn behind_terms(tokens: &Tokens<'_>, part: Part) -> usize {
    let mark = part.to.saturating_sub(3);
    if is(tokens, mark, b"[") && is(tokens, next(mark), b"nonexec") {
        mark
    } else {
        part.to
    }
}

/// The condition of a statement that begins with a token.
fn condition_from(tokens: &Tokens<'_>, from: usize, end: usize) -> Part {
    Part {
        from,
        to: outside(tokens, from, end, b"/\\").unwrap_or(end),
        is_ended: true,
    }
}

/// The first condition of a statement that is of a hidden sort, where there is one.
pub(crate) fn hidden_condition(
    alloc: Global,
    source: &Source<'_>,
    tokens: &Tokens<'_>,
    part: Part,
) -> Result<Part, AllocError> {
    let end = behind_terms(tokens, part);
    let word = outside(tokens, part.from, end, b"if").unwrap_or(part.from);
    let mut condition = condition_from(tokens, next(word), end);
    for _ in 1..MOST_CONDITIONS {
        if condition.to >= end || is_hidden(alloc, source, tokens, part, condition.to)? {
            break;
        }
        condition = condition_from(tokens, next(condition.to), end);
    }
    Ok(condition)
}

/// Whether a condition is of a hidden sort, of those of a statement before a token. Those of a goal
/// are read as an equation's.
fn is_hidden(
    alloc: Global,
    source: &Source<'_>,
    tokens: &Tokens<'_>,
    part: Part,
    end: usize,
) -> Result<bool, AllocError> {
    let text = declared_up_to(alloc, source, tokens, part, end)?;
    match read_ended(alloc, text) {
        Ok(_) => Ok(false),
        Err(ReadFault::Memory) => Err(AllocError),
        Err(ReadFault::Statement { cause, .. }) => Ok(is_not_visible(&cause)),
    }
}

/// A theory's text with what is declared before a part, and the part up to a token as an equation.
fn declared_up_to(
    alloc: Global,
    source: &Source<'_>,
    tokens: &Tokens<'_>,
    part: Part,
    end: usize,
) -> Result<Vec<u8>, AllocError> {
    let mut text = declared_before(alloc, source, tokens, part)?;
    match push_equation(&mut text, source.bytes, tokens, part, end) {
        Ok(()) => Ok(text),
        Err(fault) => Err(fault),
    }
}

/// Appends a conditional equation up to a token, or a goal as one.
fn push_equation(
    text: &mut Vec<u8>,
    bytes: &[u8],
    tokens: &Tokens<'_>,
    part: Part,
    end: usize,
) -> Result<(), AllocError> {
    let mut begin = part.from;
    if is_conditional_goal(tokens, part) {
        text.extend_from_slice(b"ceq ")?;
        begin = part.nth(2);
    }
    push_range(text, bytes, tokens, begin, end)?;
    text.push(b'.')?;
    Ok(())
}

fn is_not_visible(cause: &Cause) -> bool {
    match cause {
        Cause::NotVisible { .. } => true,
        _ => false,
    }
}
