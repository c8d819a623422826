//! Tokens outside parentheses.
ghost use Rattle.std.specs.Prelude.{◌≡◌, ◌<◌, ◌==◌, ◌&&◌};
ghost use Rattle.circ_lexer.specs.TokenList.{IsWithin};
ghost use Rattle.circ_statement.specs.Words.{is_word};
ghost use Rattle.circ_statement.specs.Outside.{opened};
ghost use Rattle.circ_statement.specs.Reading.{GivesCut};

use crate::keywords::is_word;
use crate::places::first_of;
use circ_lexer::{Span, Tokens};

// Where tokens are cut.
#[derive(Clone, Copy)]
pub(crate) enum Cut {
    // Between these.
    At { before: Span, after: Span },
    // Nowhere.
    Nowhere,
    // A parenthesis is closed before that was not open.
    Unopened,
}

// The tokens before and behind the first such word outside parentheses.
pub(crate) fn cut_outside(tokens: &Tokens<'_>, span: Span, word: &[u8]) -> Cut
    requires { IsWithin tokens.now span }
    ensures { GivesCut result tokens.now span word.now }
{
    let mut rest = span;
    let mut level = 0;
    while let Some(first) = first_of(tokens, rest) {
        if is_here(first.word, word, level) {
            let before = Span {
                from: span.from,
                to: first.place,
            };
            return Cut::At {
                before,
                after: first.rest,
            };
        }
        let Some(now) = opened(level, first.word) else {
            return Cut::Unopened;
        };
        level = now;
        rest = first.rest;
    }
    Cut::Nowhere
}

fn is_here(word: &[u8], at: &[u8], level: usize) -> bool
    ensures { result ≡ (is_word word.now at.now && (level == 0)) }
{
    is_word(word, at) && level == 0
}

// How many parentheses are open behind the word.
fn opened(level: usize, word: &[u8]) -> Option<usize>
    requires { level < 18446744073709551615 }
    ensures { result ≡ opened level word.now }
{
    if is_word(word, b"(") {
        return Some(level + 1);
    }
    if is_word(word, b")") {
        return level.checked_sub(1);
    }
    Some(level)
}
