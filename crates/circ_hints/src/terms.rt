//! Which token of a term that does not read is the likely cause.
use crate::conditions::has_conditions;
use crate::drawing::rest_from;
use crate::known::Known;
use crate::marks::Mark;
use crate::openings::{begins_statement, begins_work, says_of_conditions};
use crate::parts::{Part, is, is_either, is_same, next};
use crate::prefixes::unread_behind;
use crate::unreadable_hint::Source;
use circ_lexer::Tokens;
use std::alloc::{AllocError, Global};

/// What is said of a term without a reading where nothing more is known.
pub(crate) const NO_TERM: &str =
    "each word is declared, but this spells no term: see sorts, parentheses and blanks";

/// The mark of the first word of a statement or an item with a term that has no reading which
/// nothing declares, or else of a parenthesis without its other one, where there is one.
pub(crate) fn unread_word(tokens: &Tokens<'_>, part: Part, known: &Known<'_>) -> Option<Mark> {
    let from = terms_begin(tokens, part);
    match undeclared(tokens, part, from, known) {
        Some(number) => Some(Mark::naming(number, says_of_word(tokens, part, number, known))),
        None => unbalanced(tokens, from, part.to),
    }
}

/// The mark of a statement or an item with a term that has no reading, each word of which is
/// declared: behind the longest part that reads, or of the whole.
pub(crate) fn unread_part(
    alloc: Global,
    source: &Source<'_>,
    tokens: &Tokens<'_>,
    part: Part,
) -> Result<Mark, AllocError> {
    let from = terms_begin(tokens, part);
    let whole = Mark::at(from, NO_TERM);
    if is(tokens, part.from, b"cases") {
        return Ok(whole);
    }
    match unread_behind(alloc, source, tokens, part, from) {
        Ok(read) => Ok(read.unwrap_or(whole)),
        Err(fault) => Err(fault),
    }
}

/// Where the terms of a statement or an item begin.
fn terms_begin(tokens: &Tokens<'_>, part: Part) -> usize {
    if is(tokens, part.from, b"add") {
        return part.nth(2);
    }
    if is(tokens, part.from, b"cases") {
        return part.nth(3);
    }
    part.nth(1)
}

/// The first token of a part from one on that no declaration has.
fn undeclared(tokens: &Tokens<'_>, part: Part, from: usize, known: &Known<'_>) -> Option<usize> {
    let conditional = has_conditions(tokens, part);
    for number in from..part.to {
        match tokens.token(number) {
            Some(word) if may_stand(word, known, conditional) => {}
            _ => return Some(number),
        }
    }
    None
}

/// Whether a token may stand in a term, or between terms.
fn may_stand(word: &[u8], known: &Known<'_>, conditional: bool) -> bool {
    known.has_word(word)
        || is_of_any_term(word)
        || (conditional && is_of_conditions(word))
        || known.has_sort(behind_colon(word))
}

/// Whether a token may stand in a term, or between terms, without a declaration.
fn is_of_any_term(word: &[u8]) -> bool {
    is_one_of(word, b"()[]{},=") || is_same(word, b"nonexec")
}

/// Whether a token may stand between conditions.
fn is_of_conditions(word: &[u8]) -> bool {
    is_same(word, b"if") || is_same(word, b"/\\")
}

fn is_one_of(word: &[u8], signs: &[u8]) -> bool {
    match word {
        [byte] => signs.contains(byte),
        _ => false,
    }
}

/// What stands behind the first colon of a word: the sort of a variable that is written with it.
fn behind_colon(word: &[u8]) -> &[u8] {
    for n in 0..word.len() {
        if word[n] == b':' {
            return rest_from(word, next(n));
        }
    }
    &[]
}

/// What is said of a word that no declaration has.
fn says_of_word(tokens: &Tokens<'_>, part: Part, number: usize, known: &Known<'_>) -> &'static str {
    if begins_statement(tokens, number) || begins_work(tokens, number) {
        return "is a ` .` missing before?";
    }
    if let Some(says) = says_of_mark(tokens, part, number, known) {
        return says;
    }
    if has_sort(tokens, number) {
        return "no sort of this name is declared";
    }
    if is(tokens, number, b"if") {
        return says_of_conditions(tokens, part, number).unwrap_or(UNDECLARED);
    }
    UNDECLARED
}

/// Whether a token is a variable that is written with its sort.
fn has_sort(tokens: &Tokens<'_>, number: usize) -> bool {
    match tokens.token(number) {
        Some(word) => !behind_colon(word).is_empty(),
        None => false,
    }
}

/// What is said of a word that nothing declares.
const UNDECLARED: &str =
    "nothing that is declared before has this word (an inclusion brings no variables)";

/// What is said of a word between the brackets of a label before an equation, or of marks behind
/// it. None where it stands there in neither, or may be of a term.
fn says_of_mark(
    tokens: &Tokens<'_>,
    part: Part,
    number: usize,
    known: &Known<'_>,
) -> Option<&'static str> {
    let is_equation = is_either(tokens, part.from, b"eq", b"ceq");
    if !is_equation || known.has_word(b"[") {
        return None;
    }
    if is(tokens, part.nth(1), b"[") && number == part.nth(2) {
        return Some("circ has no labels: leave it away");
    }
    if is(tokens, part.to.saturating_sub(1), b"]") && bracket_before(tokens, part, number) {
        return Some("only [nonexec] may stand here");
    }
    None
}

/// Whether a bracket opens before a token of a part, and none closes between.
fn bracket_before(tokens: &Tokens<'_>, part: Part, number: usize) -> bool {
    let mut is_open = false;
    for before in part.from..number {
        if is(tokens, before, b"[") {
            is_open = true;
        }
        if is(tokens, before, b"]") {
            is_open = false;
        }
    }
    is_open
}

/// The first closing parenthesis without an open one, or the end of the first term with an open one
/// that nothing closes.
fn unbalanced(tokens: &Tokens<'_>, from: usize, to: usize) -> Option<Mark> {
    let mut depth: u64 = 0;
    let mut end = to;
    for number in from..to {
        if depth > 0 && separates(tokens, number) {
            end = number;
            break;
        }
        if is(tokens, number, b"(") {
            depth = depth.saturating_add(1);
        }
        if is(tokens, number, b")") {
            if depth == 0 {
                return Some(Mark::at(number, "nothing opens this parenthesis"));
            }
            depth = depth.saturating_sub(1);
        }
    }
    if depth == 0 {
        return None;
    }
    Some(Mark::behind(end.saturating_sub(1), "`)` is expected here or before"))
}

/// Whether a token stands between two terms.
fn separates(tokens: &Tokens<'_>, number: usize) -> bool {
    is(tokens, number, b"=") || is(tokens, number, b"/\\")
}
