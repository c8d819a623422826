//! The statements of a text, or the items of a script, as ranges of its tokens.
use crate::drawing::Place;
use circ_lexer::Tokens;

/// The tokens of a statement, of an item, or of what stands behind the last one.
#[derive(Clone, Copy)]
pub(crate) struct Part {
    /// The number of the first token.
    pub from: usize,
    /// The number behind that of the last token before the stop.
    pub to: usize,
    /// Whether a stop, or the `is` of a head, is there.
    pub is_ended: bool,
}

impl Part {
    /// The number of the token that comes so many behind the first.
    pub fn nth(&self, count: usize) -> usize {
        self.from.saturating_add(count)
    }

    /// The place of the tokens, if there are such.
    pub fn place(&self, tokens: &Tokens<'_>) -> Option<Place> {
        let begin = tokens.span(self.from)?;
        let end = tokens.span(self.to.saturating_sub(1))?;
        Some(Place {
            at: begin.from,
            width: end.to.saturating_sub(begin.from),
        })
    }
}

/// The number behind a number.
pub(crate) fn next(number: usize) -> usize {
    number.saturating_add(1)
}

/// Whether the token of a number is this word.
pub(crate) fn is(tokens: &Tokens<'_>, number: usize, word: &[u8]) -> bool {
    match tokens.token(number) {
        Some(token) => token == word,
        None => false,
    }
}

/// Whether the token of a number is one of two words.
pub(crate) fn is_either(tokens: &Tokens<'_>, number: usize, one: &[u8], other: &[u8]) -> bool {
    is(tokens, number, one) || is(tokens, number, other)
}

/// Whether a word is this text.
pub(crate) fn is_same(word: &[u8], text: &[u8]) -> bool {
    word == text
}

/// The first token of this word in a range.
pub(crate) fn first(tokens: &Tokens<'_>, from: usize, to: usize, word: &[u8]) -> Option<usize> {
    for number in from..to {
        if is(tokens, number, word) {
            return Some(number);
        }
    }
    None
}

/// The first token of this word in a range that stands in no parentheses there.
pub(crate) fn outside(tokens: &Tokens<'_>, from: usize, to: usize, word: &[u8]) -> Option<usize> {
    let mut depth: u64 = 0;
    for number in from..to {
        if depth == 0 && is(tokens, number, word) {
            return Some(number);
        }
        if is(tokens, number, b"(") {
            depth = depth.saturating_add(1);
        }
        if is(tokens, number, b")") {
            depth = depth.saturating_sub(1);
        }
    }
    None
}

/// The statement of a number from 1, of a text whose head ends with `is`; what stands behind the
/// last stop has the next number.
pub(crate) fn statement_at(tokens: &Tokens<'_>, number: u64) -> Part {
    let mut from = 0;
    let mut count: u64 = 1;
    for n in 0..tokens.count() {
        if !is(tokens, n, b".") && !(count == 1 && is(tokens, n, b"is")) {
            continue;
        }
        if count == number {
            return Part {
                from,
                to: n,
                is_ended: true,
            };
        }
        count = count.saturating_add(1);
        from = next(n);
    }
    last_part(tokens, from)
}

/// The item that begins with a token, without the parenthesis before it.
pub(crate) fn item_from(tokens: &Tokens<'_>, from: usize) -> Part {
    let begin = without_open(tokens, from);
    match first(tokens, begin, tokens.count(), b".") {
        Some(stop) => Part {
            from: begin,
            to: stop,
            is_ended: true,
        },
        None => last_part(tokens, begin),
    }
}

/// The number of the token behind an item that began with a token, and behind the parenthesis after
/// it.
pub(crate) fn behind_item(tokens: &Tokens<'_>, from: usize, item: Part) -> usize {
    let behind = next(item.to);
    if item.from != from && is(tokens, behind, b")") {
        next(behind)
    } else {
        behind
    }
}

/// The item of a number from 1, without the parentheses round it.
pub(crate) fn item_at(tokens: &Tokens<'_>, number: u64) -> Part {
    let mut from = 0;
    for _ in 1..number {
        let item = item_from(tokens, from);
        if !item.is_ended {
            return item;
        }
        from = behind_item(tokens, from, item);
    }
    item_from(tokens, from)
}

/// The number behind a parenthesis that opens there.
pub(crate) fn without_open(tokens: &Tokens<'_>, from: usize) -> usize {
    if is(tokens, from, b"(") {
        next(from)
    } else {
        from
    }
}

/// What stands from a token on, without a stop.
fn last_part(tokens: &Tokens<'_>, from: usize) -> Part {
    Part {
        from,
        to: tokens.count(),
        is_ended: false,
    }
}
