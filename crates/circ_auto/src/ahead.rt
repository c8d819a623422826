//! The words of a text, taken from the left.
ghost use Rattle.std.specs.Prelude.{◌≡◌, length};
ghost use Rattle.std.specs.Option.{option_map};
ghost use Rattle.circ_lexer.specs.TokenList.{tokens_of};
ghost use Rattle.circ_auto.specs.Reading.{front_of, after, is_word, is_none_left};

use circ_lexer::Tokens;
use std::marker::Model;

/// The words of a text that lie ahead.
#[derive(Drop)]
pub(crate) struct Ahead<'b, 'a> {
    tokens: &'b Tokens<'a>,
    at: usize,
}

impl<'b, 'a> Model for Ahead<'b, 'a> {
    ghost use Rattle.std.specs.Prelude.{◌≤◌, List, ℕ, length, drop};
    ghost use Rattle.circ_lexer.specs.TokenList.{tokens_of};

    ghost Value = { List (List ℕ) };

    ghost view = { λ a. drop a.at (tokens_of a.tokens.now) };

    ghost invariant = { λ a. a.at ≤ length (tokens_of a.tokens.now) };
}

/// All words.
pub(crate) fn all_of<'b, 'a>(tokens: &'b Tokens<'a>) -> Ahead<'b, 'a>
    ensures { result ≡ tokens_of tokens.now }
{
    Ahead { tokens, at: 0 }
}

/// The first word, and those behind it.
pub(crate) fn front_of<'b, 'a>(words: Ahead<'b, 'a>) -> Option<(&'a [u8], Ahead<'b, 'a>)>
    ensures { option_map (λ r. (r.0.now, r.1)) result ≡ front_of words.entry }
{
    let at = words.at;
    if at == words.tokens.count() {
        return None;
    }
    match words.tokens.token(at) {
        Some(word) => {
            let rest = Ahead {
                tokens: words.tokens,
                at: at + 1,
            };
            Some((word, rest))
        }
        None => None,
    }
}

/// The words behind this first word.
pub(crate) fn after<'b, 'a>(words: Ahead<'b, 'a>, text: &[u8]) -> Option<Ahead<'b, 'a>>
    ensures { result ≡ after text.now words.entry }
{
    let (word, rest) = front_of(words)?;
    if is_word(word, text) {
        Some(rest)
    } else {
        None
    }
}

/// Whether no word is left.
pub(crate) fn is_none_left(words: Ahead<'_, '_>) -> bool
    ensures { result ≡ is_none_left words.entry }
{
    front_of(words).is_none()
}

pub(crate) fn is_word(word: &[u8], text: &[u8]) -> bool
    ensures { result ≡ is_word word.now text.now }
{
    word == text
}
