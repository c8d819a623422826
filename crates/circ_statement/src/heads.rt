//! The parts of an operator's statement.
ghost use Rattle.std.specs.Prelude.{◌≡◌, ◌||◌};
ghost use Rattle.circ_lexer.specs.TokenList.{IsWithin};
ghost use Rattle.circ_statement.specs.Heads.{is_listed};
ghost use Rattle.circ_statement.specs.Reading.{GivesHead, GivesBracket, GivesForeign, GivesForeignMark};

use crate::keywords::is_word;
use crate::places::{after, first_of, split};
use circ_lexer::{Span, Tokens};

// What stands before the first colon, between it and the next arrow, the word after the arrow, and
// what follows it.
#[derive(Clone, Copy)]
pub(crate) struct Head {
    pub front: Span,
    pub args: Span,
    pub result: usize,
    pub marks: Span,
}

pub(crate) fn head_of(tokens: &Tokens<'_>, span: Span) -> Option<Head>
    requires { IsWithin tokens.now span }
    ensures { GivesHead result tokens.now span }
{
    let Some((front, sorts)) = split(tokens, span, b":") else {
        return None;
    };
    let Some((args, last)) = split(tokens, sorts, b"->") else {
        return None;
    };
    let Some(last) = first_of(tokens, last) else {
        return None;
    };
    Some(Head {
        front,
        args,
        result: last.place,
        marks: last.rest,
    })
}

// What stands between an opening bracket and the next closing one, and what follows.
pub(crate) fn bracket(tokens: &Tokens<'_>, span: Span) -> Option<(Span, Span)>
    requires { IsWithin tokens.now span }
    ensures { GivesBracket result tokens.now span }
{
    let opened = after(tokens, span, b"[")?;
    split(tokens, opened, b"]")
}

// The first token in the brackets after a result sort that may not stand there.
pub(crate) fn foreign_mark(tokens: &Tokens<'_>, marks: Span) -> Option<usize>
    requires { IsWithin tokens.now marks }
    ensures { GivesForeignMark result tokens.now marks }
{
    let (inside, _) = bracket(tokens, marks)?;
    foreign(tokens, inside)
}

fn foreign(tokens: &Tokens<'_>, inside: Span) -> Option<usize>
    requires { IsWithin tokens.now inside }
    ensures { GivesForeign result tokens.now inside }
{
    let mut rest = inside;
    let mut is_number = false;
    while let Some(first) = first_of(tokens, rest) {
        if !is_allowed(is_number, first.word) {
            return Some(first.place);
        }
        is_number = is_word(first.word, b"prec");
        rest = first.rest;
    }
    None
}

// Whether the word may stand among attributes, perhaps as a number.
fn is_allowed(is_number: bool, word: &[u8]) -> bool
    ensures { result ≡ (is_number || is_listed word.now) }
{
    is_number || is_listed(word)
}

fn is_listed(word: &[u8]) -> bool
    ensures { result ≡ is_listed word.now }
{
    is_word(word, b"left")
        || is_word(word, b"right")
        || is_word(word, b"assoc")
        || is_word(word, b"comm")
        || is_word(word, b"idem")
        || is_word(word, b"prec")
}
