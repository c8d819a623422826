//! `derivative`.
ghost use Rattle.std.specs.Prelude.{◌≡◌};
ghost use Rattle.circ_lexer.specs.TokenList.{tokens_in, IsWithin};
ghost use Rattle.circ_mixfix.specs.Found.{IsOneSorted, IsWithParameters};
ghost use Rattle.circ_read.specs.Outcomes.{derivative_added};
ghost use Rattle.circ_read.specs.Steps.{StepAnswers, GivesDerivative};

use crate::cause::{Fault, done};
use crate::terms::unread;
use circ_lexer::{Span, Tokens};
use circ_mixfix::parse_one_declared;
use circ_term::Term;
use circ_theory::Theory;
use std::alloc::Global;

pub(crate) fn add_derivative(
    alloc: Global,
    theory: &mut Theory,
    tokens: &Tokens<'_>,
    term: Span,
) -> Result<(), Fault>
    requires { IsWithin tokens.now term }
    ensures { StepAnswers result theory.new
        (GivesDerivative theory.old (tokens_in tokens.now term)) }
{
    match parse_one_declared(alloc, theory, tokens, term, true) {
        Ok(reading) => add_term(theory, reading.terms),
        Err(fault) => Err(unread(alloc, theory, true, fault)),
    }
}

fn add_term(theory: &mut Theory, terms: Vec<Term>) -> Result<(), Fault>
    requires sorted { IsOneSorted theory.old.signature terms.items }
    requires parameters { IsWithParameters terms.items }
    ensures { StepAnswers result theory.new (λ r. r ≡ derivative_added theory.old terms.items) }
{
    let mut terms = terms;
    match terms.pop() {
        Some(term) => done(theory.add_derivative(term)),
        None => unreachable!(),
    }
}
