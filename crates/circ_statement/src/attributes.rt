//! The attributes of operators.
ghost use Rattle.std.specs.Prelude.{◌≡◌, ◌<◌, IfSome};
ghost use Rattle.circ_lexer.specs.TokenList.{tokens_in, IsWithin};
ghost use Rattle.circ_statement.specs.Attributes.{is_neither, no_attributes, with_attribute};
ghost use Rattle.circ_statement.specs.Reading.{flag_of, digit_of, two_digits, number_of, GivesAttribute, GivesAdded, GivesAttributes};

use crate::MOST_PRECEDENCE;
use crate::heads::bracket;
use crate::keywords::is_word;
use crate::places::first_of;
use circ_lexer::{Span, Tokens};
use circ_theory::Side;

#[derive(Clone, Copy)]
pub(crate) enum Attribute {
    Prec(u8),
    ToLeft,
    ToRight,
    Assoc,
    Comm,
    Idem,
}

// The attributes that a statement gives.
#[derive(Clone, Copy)]
pub(crate) struct Attributes {
    pub prec: Option<u8>,
    pub side: Side,
    pub assoc: bool,
    pub comm: bool,
    pub idem: bool,
}

pub(crate) fn is_neither(side: Side) -> bool
    ensures { result ≡ is_neither side }
{
    match side {
        Side::Neither => true,
        Side::Left => false,
        Side::Right => false,
    }
}

fn no_attributes() -> Attributes
    ensures { result ≡ no_attributes }
{
    Attributes {
        prec: None,
        side: Side::Neither,
        assoc: false,
        comm: false,
        idem: false,
    }
}

// The attributes with one more, where it may be given.
fn with_attribute(given: Attributes, attribute: Attribute) -> Option<Attributes>
    ensures { result ≡ with_attribute given attribute }
{
    let mut with = given;
    let is_new = match attribute {
        Attribute::Prec(number) => {
            with.prec = Some(number);
            given.prec.is_none() && number <= MOST_PRECEDENCE
        }
        Attribute::ToLeft => {
            with.side = Side::Left;
            is_neither(given.side)
        }
        Attribute::ToRight => {
            with.side = Side::Right;
            is_neither(given.side)
        }
        Attribute::Assoc => {
            with.assoc = true;
            !given.assoc
        }
        Attribute::Comm => {
            with.comm = true;
            !given.comm
        }
        Attribute::Idem => {
            with.idem = true;
            !given.idem
        }
    };
    if is_new { Some(with) } else { None }
}

// What follows the result sort: nothing, or attributes in brackets.
pub(crate) fn attributes_of(tokens: &Tokens<'_>, marks: Span) -> Option<Attributes>
    requires { IsWithin tokens.now marks }
    ensures { GivesAttributes result (tokens_in tokens.now marks) }
{
    if marks.from == marks.to {
        return Some(no_attributes());
    }
    let (inside, rest) = bracket(tokens, marks)?;
    if rest.from < rest.to {
        return None;
    }
    added(tokens, inside)
}

fn added(tokens: &Tokens<'_>, inside: Span) -> Option<Attributes>
    requires { IsWithin tokens.now inside }
    ensures { GivesAdded result no_attributes (tokens_in tokens.now inside) }
{
    let mut given = no_attributes();
    let mut rest = inside;
    while rest.from < rest.to {
        let Some((attribute, after)) = attribute_at(tokens, rest) else {
            return None;
        };
        let Some(with) = with_attribute(given, attribute) else {
            return None;
        };
        given = with;
        rest = after;
    }
    Some(given)
}

// The attribute in front, and the tokens after it.
fn attribute_at(tokens: &Tokens<'_>, span: Span) -> Option<(Attribute, Span)>
    requires { IsWithin tokens.now span }
    ensures { GivesAttribute result tokens.now span }
{
    let first = first_of(tokens, span)?;
    if is_word(first.word, b"prec") {
        let number = first_of(tokens, first.rest)?;
        return Some((Attribute::Prec(number_of(number.word)?), number.rest));
    }
    Some((flag_of(first.word)?, first.rest))
}

// The attribute of one word.
fn flag_of(word: &[u8]) -> Option<Attribute>
    ensures { result ≡ flag_of word.now }
{
    if is_word(word, b"left") {
        return Some(Attribute::ToLeft);
    }
    if is_word(word, b"right") {
        return Some(Attribute::ToRight);
    }
    if is_word(word, b"assoc") {
        return Some(Attribute::Assoc);
    }
    if is_word(word, b"comm") {
        return Some(Attribute::Comm);
    }
    if is_word(word, b"idem") {
        return Some(Attribute::Idem);
    }
    None
}

// The precedence that the digits write, with no zero in front.
fn number_of(word: &[u8]) -> Option<u8>
    ensures { result ≡ number_of word.now }
{
    match word {
        [ones] => digit_of(*ones),
        [tens, ones] if *tens != b'0' => two_digits(*tens, *ones),
        [b'1', tens, ones] => Some(100 + two_digits(*tens, *ones)?),
        _ => None,
    }
}

fn two_digits(tens: u8, ones: u8) -> Option<u8>
    ensures value { result ≡ two_digits tens ones }
    ensures small { IfSome result (λ n. n < 100) }
{
    Some(10 * digit_of(tens)? + digit_of(ones)?)
}

fn digit_of(byte: u8) -> Option<u8>
    ensures value { result ≡ digit_of byte }
    ensures small { IfSome result (λ n. n < 10) }
{
    if byte.is_ascii_digit() {
        Some(byte - b'0')
    } else {
        None
    }
}
