//! The reader of a theory text.
ghost use Rattle.std.specs.Prelude.{◌≡◌, ◌+◌, IfOk, drop, nat_eq, false, Some};
ghost use Rattle.circ_lexer.specs.TokenList.{tokens_of};
ghost use Rattle.circ_read.specs.Includes.{is_included, text_named};
ghost use Rattle.circ_read.specs.ReadsAs.{begun, GivesTheory};
ghost use Rattle.circ_read.specs.Steps.{StepAnswers, InclusionOutcome, IsHeadOf, GivesRead};
ghost use Rattle.circ_read.specs.Steps.{fault_at, scope_of};

use crate::body::{Receiver, add_body, fault_at};
use crate::cause::{Cause, Fault, ReadFault, because, byte_fault};
use crate::library::add_text;
use crate::names::{is_word, word};
use crate::statement::add_statement;
use crate::text::{Head, read_head};
use circ_form::Text;
use circ_lexer::Tokens;
use circ_statement::Statement;
use circ_theory::Theory;
use std::alloc::{AllocError, Global};

/// The theory that the bytes read as. A fault has the number of the statement with the first
/// cause: the head is statement 1, the statements are counted on, and the end has the next number.
/// A bad byte stands under the number 0.
pub fn read_theory(alloc: Global, bytes: &[u8]) -> Result<Theory, ReadFault>
    ensures gives { GivesTheory result bytes.now }
{
    match Tokens::of(alloc, bytes) {
        Ok(tokens) => theory_of(alloc, &tokens),
        Err(fault) => Err(fault_at(0, byte_fault(fault))),
    }
}

fn theory_of(alloc: Global, tokens: &Tokens<'_>) -> Result<Theory, ReadFault>
    ensures { GivesTheory result tokens.now.source }
{
    tokens.known();
    match read_head(tokens) {
        Some(head) => theory_after(alloc, tokens, &head),
        None => Err(ReadFault::Statement {
            number: 1,
            cause: Cause::Shape,
        }),
    }
}

fn theory_after(alloc: Global, tokens: &Tokens<'_>, head: &Head<'_>) -> Result<Theory, ReadFault>
    requires { IsHeadOf (tokens_of tokens.now) head.now }
    ensures { GivesRead result (begun head.now.name.now)
        (drop head.now.body (tokens_of tokens.now)) head.now.opened }
{
    match Reader::new(alloc, head.name) {
        Ok(reader) => reader.whole(tokens, head),
        Err(_) => Err(ReadFault::Memory),
    }
}

// A theory, and what was included in it.
#[derive(Drop)]
struct Reader {
    alloc: Global,
    theory: Theory,
    included: Vec<Text>,
}

impl Reader {
    fn new(alloc: Global, name: &[u8]) -> Result<Reader, AllocError>
        ensures { IfOk result (λ r. scope_of r ≡ begun name.now) }
    {
        Ok(Reader {
            alloc,
            theory: Theory::new(alloc, name)?,
            included: Vec::new(alloc),
        })
    }

    // The theory that the text after a head leads to.
    fn whole(self, tokens: &Tokens<'_>, head: &Head<'_>) -> Result<Theory, ReadFault>
        requires { IsHeadOf (tokens_of tokens.now) head.now }
        ensures { GivesRead result (scope_of self)
            (drop head.now.body (tokens_of tokens.now)) head.now.opened }
    {
        let mut reader = self;
        match add_body(reader.alloc, &mut reader, tokens, head) {
            Ok(()) => {
                let Reader { theory, .. } = reader;
                Ok(theory)
            }
            Err(fault) => Err(fault),
        }
    }

    fn include(&mut self, name: &[u8]) -> Result<(), Fault>
        ensures { StepAnswers result (scope_of self.new)
            (InclusionOutcome (scope_of self.old) name.now) }
    {
        if self.is_included(name) {
            return Ok(());
        }
        match circ_lib::lookup(name) {
            Some(text) => self.include_text(name, text),
            None => Err(because(Cause::UnknownTheory)),
        }
    }

    fn include_text(&mut self, name: &[u8], text: &[u8]) -> Result<(), Fault>
        requires new { is_included (scope_of self.old) name.now ≡ false }
        requires text { text_named name.now ≡ Some text.now }
        ensures { StepAnswers result (scope_of self.new)
            (InclusionOutcome (scope_of self.old) name.now) }
    {
        self.theory.known();
        let name = Text::of(self.alloc, name)?;
        let vars = self.theory.take_vars();
        match add_text(self.alloc, &mut self.theory, text) {
            Ok(()) => {}
            Err(fault) => return Err(fault),
        }
        self.theory.put_vars(vars);
        self.included.push(name)?;
        Ok(())
    }

    fn is_included(&self, name: &[u8]) -> bool
        ensures { result ≡ is_included (scope_of self.now) name.now }
    {
        self.included.iter().any(|word| is_word(word.bytes(), name))
    }
}

impl Receiver for Reader {
    ghost use Rattle.circ_read.specs.Includes.{AddsIn};
    ghost use Rattle.circ_read.specs.RefusesIn.{RefusesIn};
    ghost use Rattle.circ_read.specs.Steps.{scope_of};

    ghost adds = { λ a s b. AddsIn (scope_of a) s (scope_of b) };

    ghost refuses = { λ a s c. RefusesIn (scope_of a) s c };

    fn add(
        &mut self,
        alloc: Global,
        tokens: &Tokens<'_>,
        statement: Statement,
    ) -> Result<(), Fault> {
        match statement {
            Statement::Inclusion { name } => self.include(word(tokens, name)),
            statement => add_statement(alloc, &mut self.theory, tokens, statement),
        }
    }
}
