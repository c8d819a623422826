//! `cases`.
ghost use Rattle.std.specs.Prelude.{◌≡◌, IfOk};
ghost use Rattle.circ_lexer.specs.TokenList.{tokens_in, IsWithin};
ghost use Rattle.circ_statement.specs.Said.{token_at, IsPlace};
ghost use Rattle.circ_read.specs.Adding.{word_form, one_word, of_sort, constant_number};
ghost use Rattle.circ_read.specs.Outcomes.{adds, sort_named, constants_named, followed_by};
ghost use Rattle.circ_theory.specs.Observing.{cases_fault, with_cases};
ghost use Rattle.circ_read.specs.Steps.{StepAnswers, FindsAll};

use crate::cause::{Cause, Fault, because, done};
use crate::names::{sort_named, word};
use circ_form::{Form, FormFault, Piece};
use circ_lexer::{Span, Tokens};
use circ_theory::Theory;
use std::alloc::{AllocError, Global};

pub(crate) fn add_cases(
    alloc: Global,
    theory: &mut Theory,
    tokens: &Tokens<'_>,
    sort: usize,
    names: Span,
) -> Result<(), Fault>
    requires names { IsWithin tokens.now names }
    requires sort { IsPlace tokens.now sort }
    ensures { StepAnswers result theory.new (λ r. r ≡
        followed_by (sort_named theory.old (token_at tokens.now sort))
        (λ s. followed_by (constants_named theory.old s (tokens_in tokens.now names))
        (λ cs. adds (cases_fault theory.old s cs) (with_cases theory.old s cs)))) }
{
    let sort = match sort_named(theory, word(tokens, sort)) {
        Ok(sort) => sort,
        Err(fault) => return Err(fault),
    };
    match constants_named(alloc, theory, tokens, sort, names) {
        Ok(constants) => done(theory.add_cases(sort, constants)),
        Err(fault) => Err(fault),
    }
}

fn constants_named(
    alloc: Global,
    theory: &Theory,
    tokens: &Tokens<'_>,
    sort: u32,
    names: Span,
) -> Result<Vec<u32>, Fault>
    requires { IsWithin tokens.now names }
    ensures { FindsAll result (constants_named theory.now sort (tokens_in tokens.now names)) }
{
    let mut constants = Vec::new(alloc);
    for n in names.from..names.to {
        let found = constant_number(alloc, theory, sort, word(tokens, n))?;
        match found {
            Some(number) => constants.push(number)?,
            None => return Err(because(Cause::NoParse)),
        }
    }
    Ok(constants)
}

// The number of the constant of a sort that is written as this one word.
fn constant_number(
    alloc: Global,
    theory: &Theory,
    sort: u32,
    word: &[u8],
) -> Result<Option<u32>, AllocError>
    ensures { IfOk result (λ o. o ≡ constant_number theory.now.signature sort word.now) }
{
    let Some(form) = word_form(alloc, word)? else {
        return Ok(None);
    };
    match theory.op_named(&form, &[])? {
        Some(number) => Ok(of_sort(theory, sort, number)),
        None => Ok(None),
    }
}

fn of_sort(theory: &Theory, sort: u32, number: u32) -> Option<u32>
    ensures { result ≡ of_sort theory.now.signature sort number }
{
    match theory.op(number) {
        Some(decl) if decl.result == sort => Some(number),
        _ => None,
    }
}

// The form that is one word, if this word is one.
fn word_form(alloc: Global, word: &[u8]) -> Result<Option<Form>, AllocError>
    ensures { IfOk result (λ o. o ≡ word_form word.now) }
{
    match Form::read(alloc, word) {
        Ok(form) => Ok(one_word(form)),
        Err(FormFault::Memory) => Err(AllocError),
        Err(_) => Ok(None),
    }
}

fn one_word(form: Form) -> Option<Form>
    ensures { result ≡ one_word form }
{
    match form.pieces() {
        [Piece::Word(_)] => Some(form),
        _ => None,
    }
}
