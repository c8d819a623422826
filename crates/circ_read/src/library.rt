//! A text of the library, read in a theory.
ghost use Rattle.std.specs.Prelude.{◌≡◌};
ghost use Rattle.circ_read.specs.Steps.{StepAnswers, TextOutcome, without_number};

use crate::body::add_body;
use crate::cause::{Cause, Fault, ReadFault, because, byte_fault};
use crate::text::read_head;
use circ_lexer::Tokens;
use circ_theory::Theory;
use std::alloc::Global;

// Adds what the statements of a text say. No theory can be included.
pub(crate) fn add_text(alloc: Global, theory: &mut Theory, bytes: &[u8]) -> Result<(), Fault>
    ensures { StepAnswers result theory.new (TextOutcome theory.old bytes.now) }
{
    match Tokens::of(alloc, bytes) {
        Ok(tokens) => add_all(alloc, theory, &tokens),
        Err(fault) => Err(byte_fault(fault)),
    }
}

fn add_all(alloc: Global, theory: &mut Theory, tokens: &Tokens<'_>) -> Result<(), Fault>
    ensures { StepAnswers result theory.new (TextOutcome theory.old tokens.now.source) }
{
    tokens.known();
    match read_head(tokens) {
        Some(head) => match add_body(alloc, theory, tokens, &head) {
            Ok(()) => Ok(()),
            Err(fault) => Err(without_number(fault)),
        },
        None => Err(because(Cause::Shape)),
    }
}

fn without_number(fault: ReadFault) -> Fault
    ensures { result ≡ without_number fault }
{
    match fault {
        ReadFault::Statement { cause, .. } => because(cause),
        ReadFault::Memory => Fault::Memory,
    }
}
