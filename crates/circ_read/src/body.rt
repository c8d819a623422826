//! The statements of a text, added one by one.
ghost use Rattle.std.specs.Prelude.{◌≡◌, drop};
ghost use Rattle.circ_lexer.specs.TokenList.{tokens_of, tokens_in, IsWithin};
ghost use Rattle.circ_statement.specs.Said.{Said, said_of, LiesWithin};
ghost use Rattle.circ_read.specs.declared.cause.Cause.{Cause};
ghost use Rattle.circ_read.specs.Steps.{StepAnswers, SaidOutcome, TokensOutcome, IsHeadOf};
ghost use Rattle.circ_read.specs.Steps.{GivesBody, fault_at};

use crate::cause::{Cause, Fault, ReadFault};
use crate::statement::shape;
use crate::text::{Head, is_end, next_stop};
use circ_lexer::{Span, Tokens};
use circ_statement::Statement;
use std::alloc::Global;

// The number of the first statement after a head, which is statement 1.
const FIRST_STATEMENT: u64 = 2;

// What statements are added to.
pub(crate) trait Receiver {
    // The statement is accepted, and leads to the second value.
    ghost adds: { Self → Said → Self → Type 0 };

    // The statement is refused, for this cause.
    ghost refuses: { Self → Said → Cause → Type 0 };

    fn add(&mut self, alloc: Global, tokens: &Tokens<'_>, statement: Statement) -> Result<(), Fault>
        requires { LiesWithin tokens.now statement }
        ensures { StepAnswers result self.new
            (SaidOutcome adds refuses self.old (said_of tokens.now statement)) };
}

// Adds what the statements after a head say, up to the end. A fault has its statement's number.
pub(crate) fn add_body<R: Receiver>(
    alloc: Global,
    receiver: &mut R,
    tokens: &Tokens<'_>,
    head: &Head<'_>,
) -> Result<(), ReadFault>
    requires { IsHeadOf (tokens_of tokens.now) head.now }
    ensures { GivesBody R.adds R.refuses result receiver.old receiver.new
        (drop head.now.body (tokens_of tokens.now)) head.now.opened }
{
    let mut at = head.body;
    let mut number = FIRST_STATEMENT;
    while let Some(stop) = next_stop(tokens, at) {
        match add_tokens(alloc, receiver, tokens, Span { from: at, to: stop }) {
            Ok(()) => {}
            Err(fault) => return Err(fault_at(number, fault)),
        }
        at = stop + 1;
        number += 1;
    }
    if is_end(tokens, at, head.opened) {
        Ok(())
    } else {
        Err(ReadFault::Statement {
            number,
            cause: Cause::Shape,
        })
    }
}

// Adds what the tokens of a span say.
fn add_tokens<R: Receiver>(
    alloc: Global,
    receiver: &mut R,
    tokens: &Tokens<'_>,
    span: Span,
) -> Result<(), Fault>
    requires { IsWithin tokens.now span }
    ensures { StepAnswers result receiver.new
        (TokensOutcome R.adds R.refuses receiver.old (tokens_in tokens.now span)) }
{
    match shape(alloc, tokens, span) {
        Ok(statement) => receiver.add(alloc, tokens, statement),
        Err(fault) => Err(fault),
    }
}

/// A fault of a step, with the number of its statement.
pub fn fault_at(number: u64, fault: Fault) -> ReadFault
    ensures { result ≡ fault_at number fault }
{
    match fault {
        Fault::Because { cause } => ReadFault::Statement { number, cause },
        Fault::Memory => ReadFault::Memory,
    }
}
