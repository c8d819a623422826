//! One statement of a text.
ghost use Rattle.std.specs.Prelude.{◌≡◌};
ghost use Rattle.circ_lexer.specs.TokenList.{tokens_in, IsWithin};
ghost use Rattle.circ_statement.specs.Said.{said_of, token_at, IsPlace, LiesWithin};
ghost use Rattle.circ_read.specs.Outcomes.{ComesTo};
ghost use Rattle.circ_read.specs.Steps.{StepAnswers, GivesShape};

use crate::body::Receiver;
use crate::cases::add_cases;
use crate::cause::{Cause, Fault, because};
use crate::derivatives::add_derivative;
use crate::equations::add_equation;
use crate::names::word;
use crate::operators::{Marks, add_operators};
use crate::sorts::add_sorts;
use crate::variables::add_variables;
use circ_form::Text;
use circ_lexer::{Span, Tokens};
use circ_statement::{Statement, StatementFault, statement as read_statement};
use circ_theory::Theory;
use std::alloc::Global;

/// The statement that the tokens of a span are, without the stop that ends it. A statement that is
/// left out is LeftOut, with the word by which it is, and any other that says nothing is Shape.
pub fn shape(alloc: Global, tokens: &Tokens<'_>, span: Span) -> Result<Statement, Fault>
    requires { IsWithin tokens.now span }
    ensures { GivesShape result tokens.now (tokens_in tokens.now span) }
{
    match read_statement(alloc, tokens, span) {
        Ok(statement) => Ok(statement),
        Err(StatementFault::LeftOut { word: n }) => {
            let word = Text::of(alloc, word(tokens, n))?;
            Err(because(Cause::LeftOut { word }))
        }
        Err(StatementFault::Shape) => Err(because(Cause::Shape)),
        Err(StatementFault::Memory) => Err(Fault::Memory),
    }
}

// Adds what a statement says, where no theory can be included.
pub(crate) fn add_statement(
    alloc: Global,
    theory: &mut Theory,
    tokens: &Tokens<'_>,
    statement: Statement,
) -> Result<(), Fault>
    requires { LiesWithin tokens.now statement }
    ensures { StepAnswers result theory.new (ComesTo theory.old (said_of tokens.now statement)) }
{
    match statement {
        Statement::Inclusion { .. } => Err(because(Cause::UnknownTheory)),
        Statement::Sorts { names } => add_sorts(theory, tokens, names),
        Statement::Operators {
            forms,
            args,
            result,
            assoc,
            comm,
            idem,
        } => {
            let marks = Marks { assoc, comm, idem };
            add_operators(alloc, theory, tokens, forms, args, result, marks)
        }
        Statement::Variables { names, sort } => add_variables(theory, tokens, names, sort),
        Statement::Equation {
            left,
            right,
            conds,
            exec,
        } => add_equation(alloc, theory, tokens, left, right, &conds, exec),
        Statement::Derivative { term } => add_derivative(alloc, theory, tokens, term),
        Statement::Cases { sort, names } => add_cases(alloc, theory, tokens, sort, names),
    }
}

impl Receiver for Theory {
    ghost use Rattle.circ_read.specs.Adding.{AddsStatement};
    ghost use Rattle.circ_read.specs.Refusing.{RefusesStatement};

    ghost adds = { AddsStatement };

    ghost refuses = { RefusesStatement };

    fn add(
        &mut self,
        alloc: Global,
        tokens: &Tokens<'_>,
        statement: Statement,
    ) -> Result<(), Fault> {
        add_statement(alloc, self, tokens, statement)
    }
}
