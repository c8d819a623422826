//! Forms, and what attributes make of them.
ghost use Rattle.std.specs.Prelude.{◌≡◌, true};
ghost use Rattle.circ_lexer.specs.TokenList.{tokens_in, IsWithin};
ghost use Rattle.circ_form.specs.Form.{is_hole_piece};
ghost use Rattle.circ_statement.specs.Attributes.{begins_with_hole, ends_with_hole, is_between};
ghost use Rattle.circ_statement.specs.Attributes.{precedence_of, side_of, is_fitting};
ghost use Rattle.circ_statement.specs.Statement.{forms_of};
ghost use Rattle.circ_statement.specs.Reading.{GivesForm, GivesSpelling, GivesSpellings};

use crate::attributes::{Attributes, is_neither};
use crate::places::{first_of, joined};
use crate::{Spelling, StatementFault, USUAL_PRECEDENCE};
use circ_form::{Form, FormFault, Piece};
use circ_lexer::{Span, Tokens};
use circ_theory::Side;
use std::alloc::Global;

fn is_hole(piece: &Piece) -> bool
    ensures { result ≡ is_hole_piece piece.now }
{
    match piece {
        Piece::Hole => true,
        Piece::Word(_) => false,
    }
}

fn begins_with_hole(pieces: &[Piece]) -> bool
    ensures { result ≡ begins_with_hole pieces.now }
{
    match pieces {
        [first, ..] => is_hole(first),
        _ => false,
    }
}

fn ends_with_hole(pieces: &[Piece]) -> bool
    ensures { result ≡ ends_with_hole pieces.now }
{
    match pieces {
        [.., last] => is_hole(last),
        _ => false,
    }
}

fn is_between(pieces: &[Piece]) -> bool
    ensures { result ≡ is_between pieces.now }
{
    begins_with_hole(pieces) && ends_with_hole(pieces)
}

fn precedence_of(given: Option<u8>, pieces: &[Piece]) -> u8
    ensures { result ≡ precedence_of given pieces.now }
{
    match given {
        Some(number) => number,
        None => {
            if begins_with_hole(pieces) || ends_with_hole(pieces) {
                USUAL_PRECEDENCE
            } else {
                0
            }
        }
    }
}

fn side_of(given: Attributes, pieces: &[Piece]) -> Side
    ensures { result ≡ side_of given pieces.now }
{
    if is_neither(given.side) && given.assoc && is_between(pieces) {
        Side::Right
    } else {
        given.side
    }
}

// Whether the attributes may be given to a form.
fn is_fitting(given: Attributes, form: &Form) -> bool
    ensures { result ≡ is_fitting given form.now }
{
    (given.prec.is_none() || form.has_hole())
        && (is_neither(given.side) || is_between(form.pieces()))
}

fn form_of(alloc: Global, text: &[u8]) -> Result<Form, StatementFault>
    ensures { GivesForm result text.now }
{
    match Form::read(alloc, text) {
        Ok(form) => Ok(form),
        Err(FormFault::NoWord) => Err(StatementFault::Shape),
        Err(FormFault::BadWord) => Err(StatementFault::Shape),
        Err(FormFault::Memory) => Err(StatementFault::Memory),
    }
}

// The form that a text spells, with what the attributes make of it.
fn spelling(alloc: Global, text: &[u8], given: Attributes) -> Result<Spelling, StatementFault>
    ensures { GivesSpelling result given text.now }
{
    let form = form_of(alloc, text)?;
    let prec = precedence_of(given.prec, form.pieces());
    let side = side_of(given, form.pieces());
    let is_above = is_neither(side) || prec != 0;
    if is_above && is_fitting(given, &form) {
        Ok(Spelling { form, prec, side })
    } else {
        Err(StatementFault::Shape)
    }
}

// A form for each token.
fn spellings(
    alloc: Global,
    tokens: &Tokens<'_>,
    front: Span,
    given: Attributes,
) -> Result<Vec<Spelling>, StatementFault>
    requires { IsWithin tokens.now front }
    ensures { GivesSpellings result given (tokens_in tokens.now front) }
{
    let mut forms = Vec::new(alloc);
    let mut rest = front;
    while let Some(first) = first_of(tokens, rest) {
        match spelling(alloc, first.word, given) {
            Err(fault) => return Err(fault),
            Ok(form) => forms.push(form)?,
        }
        rest = first.rest;
    }
    Ok(forms)
}

// The form of all tokens joined.
fn joined_spelling(
    alloc: Global,
    tokens: &Tokens<'_>,
    front: Span,
    given: Attributes,
) -> Result<Vec<Spelling>, StatementFault>
    requires { IsWithin tokens.now front }
    ensures { GivesSpellings result given (forms_of true (tokens_in tokens.now front)) }
{
    let text = joined(alloc, tokens, front)?;
    let form = spelling(alloc, text.as_slice(), given)?;
    let mut forms = Vec::new(alloc);
    forms.push(form)?;
    Ok(forms)
}

// The forms before the colon: one of all tokens joined, or one for each token.
pub(crate) fn forms(
    alloc: Global,
    tokens: &Tokens<'_>,
    front: Span,
    is_one: bool,
    given: Attributes,
) -> Result<Vec<Spelling>, StatementFault>
    requires { IsWithin tokens.now front }
    ensures { GivesSpellings result given (forms_of is_one (tokens_in tokens.now front)) }
{
    if is_one {
        joined_spelling(alloc, tokens, front, given)
    } else {
        spellings(alloc, tokens, front, given)
    }
}
