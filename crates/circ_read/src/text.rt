//! The form of a text: its head, its stops and its end.
ghost use Rattle.std.specs.Prelude.{◌≡◌, ◌≤◌, ◌<◌, ◌+◌, ◌^◌, ◌↔◌, IsTrue, IfSome, length, drop};
ghost use Rattle.std.specs.Option.{option_copied};
ghost use Rattle.circ_lexer.specs.TokenList.{tokens_of};
ghost use Rattle.circ_read.specs.Text.{ending};
ghost use Rattle.circ_read.specs.Steps.{has_word_at, GivesTextName, GivesTextHead, GivesStop};

use crate::names::is_word;
use circ_lexer::Tokens;
use circ_statement::is_name;

// How many tokens a head has: `theory`, a name and `is`.
const HEAD_TOKENS: usize = 3;

// The head of a text.
#[derive(Drop)]
pub(crate) struct Head<'a> {
    // Whether it stands after a parenthesis.
    pub(crate) opened: bool,
    pub(crate) name: &'a [u8],
    // The number of the first token after it.
    pub(crate) body: usize,
}

pub(crate) fn read_head<'a>(tokens: &Tokens<'a>) -> Option<Head<'a>>
    ensures { GivesTextHead result (tokens_of tokens.now) }
{
    if has_word(tokens, 0, b"(") {
        let name = name_after(tokens, 1)?;
        Some(Head {
            opened: true,
            name,
            body: HEAD_TOKENS + 1,
        })
    } else {
        let name = name_after(tokens, 0)?;
        Some(Head {
            opened: false,
            name,
            body: HEAD_TOKENS,
        })
    }
}

// The name in the head that stands at a place.
fn name_after<'a>(tokens: &Tokens<'a>, at: usize) -> Option<&'a [u8]>
    requires { at ≤ 1 }
    ensures { GivesTextName (option_copied result) (tokens_of tokens.now) at }
{
    if !has_word(tokens, at, b"theory") {
        return None;
    }
    if !has_word(tokens, at + 2, b"is") {
        return None;
    }
    let name = tokens.token(at + 1)?;
    if is_name(name) { Some(name) } else { None }
}

/// The place of the first stop from a place on. Places count tokens from 0.
pub fn next_stop(tokens: &Tokens<'_>, at: usize) -> Option<usize>
    requires { at ≤ length (tokens_of tokens.now) }
    ensures stop { GivesStop result (tokens_of tokens.now) at }
    ensures fits { IfSome result (λ n. n + 1 < 2 ^ 64) }
{
    for n in at..tokens.count() {
        if has_word(tokens, n, b".") {
            return Some(n);
        }
    }
    None
}

// Whether the tokens from a place on are the end of a text.
pub(crate) fn is_end(tokens: &Tokens<'_>, at: usize, opened: bool) -> bool
    requires { at ≤ length (tokens_of tokens.now) }
    ensures { IsTrue result ↔ (drop at (tokens_of tokens.now) ≡ ending opened) }
{
    let rest = tokens.count() - at;
    if !has_word(tokens, at, b"endtheory") {
        return false;
    }
    if !opened {
        return rest == 1;
    }
    rest == 2 && has_word(tokens, at + 1, b")")
}

/// Whether the token of a number, counted from 0, is this word.
pub fn has_word(tokens: &Tokens<'_>, n: usize, text: &[u8]) -> bool
    ensures { result ≡ has_word_at (tokens_of tokens.now) n text.now }
{
    match tokens.token(n) {
        Some(word) => is_word(word, text),
        None => false,
    }
}
