//! The reader of a script.
ghost use Rattle.std.specs.Prelude.{◌≡◌, ◌↔◌, IsTrue};
ghost use Rattle.circ_lexer.specs.TokenList.{tokens_of, tokens_in, IsWithin};
ghost use Rattle.circ_theory.specs.Theory.{Theory};
ghost use Rattle.circ_read.specs.Steps.{StepAnswers};
ghost use Rattle.circ_script.specs.Drafts.{AsksFor, first_draft};
ghost use Rattle.circ_script.specs.ReadsAsScript.{GivesScript};
ghost use Rattle.circ_script.specs.Steps.{draft_of, TakingOutcome, GivesEnd, GivesDraft};
ghost use Rattle.circ_script.specs.Steps.{GivesScriptFrom, IsButVariables};

use crate::Job;
use crate::adding::{Asked, add_item};
use crate::items::{is_for, item};
use crate::script::Script;
use crate::spans::set_aside;
use crate::variables::declare_copies;
use circ_lexer::{Span, Tokens};
use circ_read::{Cause, Fault, ReadFault, because, byte_fault, fault_at, next_stop};
use circ_theory::Theory;
use std::alloc::Global;

/// The script that the bytes read as for a job. The theory's variables are known in it, and its own
/// are numbered after them; afterwards the theory is as it was. A fault has the number of the item
/// with the first cause, counted from 1; the end has the next number, and a bad byte the number 0.
pub fn read_script(
    alloc: Global,
    theory: &mut Theory,
    bytes: &[u8],
    job: Job,
) -> Result<Script, ReadFault>
    ensures gives { GivesScript result theory.old job bytes.now }
    ensures kept { theory.new ≡ theory.old }
{
    match Tokens::of(alloc, bytes) {
        Ok(tokens) => read_tokens(alloc, theory, &tokens, job),
        Err(fault) => Err(fault_at(0, byte_fault(fault))),
    }
}

// Declares the script's variables besides copies of the theory's, which are put back.
fn read_tokens(
    alloc: Global,
    theory: &mut Theory,
    tokens: &Tokens<'_>,
    job: Job,
) -> Result<Script, ReadFault>
    ensures gives { GivesScript result theory.old job tokens.now.source }
    ensures kept { theory.new ≡ theory.old }
{
    tokens.known();
    theory.known();
    match declare_copies(alloc, theory) {
        Ok(vars) => {
            let script = read_all(alloc, theory, tokens, job);
            theory.put_vars(vars);
            script
        }
        Err(_) => Err(ReadFault::Memory),
    }
}

fn read_all(
    alloc: Global,
    theory: &mut Theory,
    tokens: &Tokens<'_>,
    job: Job,
) -> Result<Script, ReadFault>
    ensures gives { GivesScriptFrom result job (first_draft theory.old) (tokens_of tokens.now) }
    ensures kept { IsButVariables theory.old theory.new }
{
    let mut asked = Asked {
        blocks: Vec::new(alloc),
        goals: Vec::new(alloc),
        terms: Vec::new(alloc),
    };
    match read_items(alloc, theory, &mut asked, tokens, job) {
        Ok(()) => Ok(Script {
            blocks: asked.blocks,
            terms: asked.terms,
        }),
        Err(fault) => Err(fault),
    }
}

// Reads the items one by one, up to the end. A fault has its item's number.
fn read_items(
    alloc: Global,
    theory: &mut Theory,
    asked: &mut Asked,
    tokens: &Tokens<'_>,
    job: Job,
) -> Result<(), ReadFault>
    ensures gives { GivesDraft result job (draft_of theory.old asked.old)
        (draft_of theory.new asked.new) (tokens_of tokens.now) }
    ensures kept { IsButVariables theory.old theory.new }
{
    let mut rest = Span {
        from: 0,
        to: tokens.count(),
    };
    let mut number = 1;
    while let Some(stop) = next_stop(tokens, rest.from) {
        let before = Span {
            from: rest.from,
            to: stop,
        };
        let after = Span {
            from: stop + 1,
            to: rest.to,
        };
        match take_item(alloc, theory, asked, tokens, job, before, after) {
            Ok(()) => {}
            Err(fault) => return Err(fault_at(number, fault)),
        }
        rest = set_aside(tokens, after, b")").rest;
        number += 1;
    }
    match unfinished(asked, job, rest) {
        Some(cause) => Err(ReadFault::Statement { number, cause }),
        None => Ok(()),
    }
}

// Adds the item that stands before and after a stop.
fn take_item(
    alloc: Global,
    theory: &mut Theory,
    asked: &mut Asked,
    tokens: &Tokens<'_>,
    job: Job,
    before: Span,
    after: Span,
) -> Result<(), Fault>
    requires before { IsWithin tokens.now before }
    requires after { IsWithin tokens.now after }
    ensures outcome { StepAnswers result (draft_of theory.new asked.new)
        (TakingOutcome job (draft_of theory.old asked.old)
        (tokens_in tokens.now before) (tokens_in tokens.now after)) }
    ensures kept { IsButVariables theory.old theory.new }
{
    circ_statement::laws::said_in_one_way();
    let opening = set_aside(tokens, before, b"(");
    let closing = set_aside(tokens, after, b")");
    match item(alloc, tokens, opening.rest) {
        Ok(item) => {
            if closing.found != opening.found {
                return Err(because(Cause::Shape));
            }
            if !is_for(job, &item) {
                return Err(because(Cause::Shape));
            }
            add_item(alloc, theory, asked, tokens, item)
        }
        Err(fault) => Err(fault),
    }
}

// Why a script cannot end with these tokens left.
fn unfinished(asked: &Asked, job: Job, left: Span) -> Option<Cause>
    ensures { (th : Theory) → GivesEnd result job (draft_of th asked.now) left }
{
    if left.from < left.to {
        return Some(Cause::Shape);
    }
    if !asked.goals.is_empty() {
        return Some(Cause::Unclosed);
    }
    if asks(asked, job) {
        None
    } else {
        Some(Cause::NoGoal)
    }
}

// Whether there is what the job is done on.
fn asks(asked: &Asked, job: Job) -> bool
    ensures { (th : Theory) → IsTrue result ↔ AsksFor job (draft_of th asked.now) }
{
    match job {
        Job::Prove => !asked.blocks.is_empty(),
        Job::Differ => !asked.blocks.is_empty(),
        Job::Reduce => !asked.terms.is_empty(),
    }
}
