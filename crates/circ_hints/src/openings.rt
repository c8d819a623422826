//! The words that begin statements and items.
use crate::conditions::is_conditional_goal;
use crate::parts::{Part, first, is};
use circ_lexer::Tokens;

/// The first words of statements.
const STATEMENT_WORDS: &[&[u8]] = &[
    b"inc",
    b"including",
    b"pr",
    b"protecting",
    b"sort",
    b"sorts",
    b"op",
    b"ops",
    b"var",
    b"vars",
    b"eq",
    b"ceq",
    b"derivative",
    b"cases",
];

/// The first words of items, beside those of variables.
const ITEM_WORDS: &[&[u8]] = &[b"add", b"coinduction", b"red", b"reduce"];

/// Whether a token begins a statement.
pub(crate) fn begins_statement(tokens: &Tokens<'_>, number: usize) -> bool {
    is_one_of(tokens, number, STATEMENT_WORDS)
}

/// Whether a token begins an item that declares nothing.
pub(crate) fn begins_work(tokens: &Tokens<'_>, number: usize) -> bool {
    is_one_of(tokens, number, ITEM_WORDS)
}

/// Whether the token of a number is one of these words.
fn is_one_of(tokens: &Tokens<'_>, number: usize, words: &[&[u8]]) -> bool {
    for n in 0..words.len() {
        if is(tokens, number, words[n]) {
            return true;
        }
    }
    false
}

/// What is said of an `if` where it begins conditions that may not stand there. None if a `then` of
/// the same part shows that it begins a term.
pub(crate) fn says_of_conditions(
    tokens: &Tokens<'_>,
    part: Part,
    number: usize,
) -> Option<&'static str> {
    if first(tokens, number, part.to, b"then").is_some() {
        return None;
    }
    if is_conditional_goal(tokens, part) {
        return None;
    }
    if is(tokens, part.from, b"add") {
        return Some("a goal with conditions begins with `add cgoal`");
    }
    if is(tokens, part.from, b"eq") {
        return Some("an equation with conditions begins with `ceq`");
    }
    None
}
