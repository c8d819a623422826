//! The reader of an automaton's text.
ghost use Rattle.std.specs.Prelude.{◌≡◌, IfOk, map};
ghost use Rattle.circ_lexer.specs.TokenList.{tokens_of};
ghost use Rattle.circ_auto.specs.Parts.{opening, closing, automaton_of};
ghost use Rattle.circ_auto.specs.Text.{GivesAutomaton};
ghost use Rattle.circ_auto.specs.Gives.{GivesPart, byte_fault, opening_of, IsOpening};

use crate::ahead::{Ahead, all_of};
use crate::automaton::Automaton;
use crate::fault::{AutoCause, AutoFault};
use crate::rows::{FIRST_ROW, rows};
use crate::statements::{
    ACCEPT, HEAD, START, accept_in, head_in, is_end, letters, marked, shape, start_in, states,
};
use circ_lexer::{LexFault, Tokens};
use std::alloc::{AllocError, Global};

/// The automaton that the bytes read as. A fault has the number of the statement with the first
/// cause: the head is statement 1, the statements are counted on, and the end has the next number.
/// A bad byte stands under the number 0.
pub fn read_automaton(alloc: Global, bytes: &[u8]) -> Result<Automaton, AutoFault>
    ensures gives { GivesAutomaton result bytes.now }
{
    match Tokens::of(alloc, bytes) {
        Ok(tokens) => {
            tokens.known();
            automaton_of(alloc, all_of(&tokens))
        }
        Err(fault) => Err(byte_fault(fault)),
    }
}

fn byte_fault(fault: LexFault) -> AutoFault
    ensures { result ≡ byte_fault fault }
{
    let cause = match fault {
        LexFault::NotAscii { place } => AutoCause::NotAscii { place },
        LexFault::Control { place } => AutoCause::Control { place },
        LexFault::Memory => return AutoFault::Memory,
    };
    AutoFault::Statement { number: 0, cause }
}

fn automaton_of(alloc: Global, words: Ahead<'_, '_>) -> Result<Automaton, AutoFault>
    ensures { GivesPart (λ m. m) result (automaton_of words.entry) }
{
    match read_opening(alloc, words) {
        Ok(opening) => read_closing(alloc, opening),
        Err(fault) => Err(fault),
    }
}

/// What the first four statements give, with the words behind them.
#[derive(Drop)]
struct Opening<'b, 'a> {
    letters: Vec<Vec<u8>>,
    states: u32,
    start: u32,
    ahead: Ahead<'b, 'a>,
}

fn read_opening<'b, 'a>(alloc: Global, words: Ahead<'b, 'a>) -> Result<Opening<'b, 'a>, AutoFault>
    ensures gives { GivesPart opening_of result (opening words.entry) }
    ensures within { IfOk result (λ o. IsOpening (opening_of o)) }
{
    let Some(words) = head_in(words) else {
        return Err(shape(HEAD));
    };
    let (letters, words) = match letters(alloc, words) {
        Ok(letters) => letters,
        Err(fault) => return Err(fault),
    };
    let (states, words) = match states(words) {
        Ok(states) => states,
        Err(fault) => return Err(fault),
    };
    let Some((start, ahead)) = start_in(words, states) else {
        return Err(shape(START));
    };
    Ok(Opening {
        letters: copies(alloc, letters.as_slice())?,
        states,
        start,
        ahead,
    })
}

/// Copies of texts.
fn copies(alloc: Global, texts: &[&[u8]]) -> Result<Vec<Vec<u8>>, AllocError>
    ensures { IfOk result (λ v. map (λ w. w.items) v.items ≡ map (λ w. w.now) texts.now) }
{
    let mut copies = Vec::new(alloc);
    for text in texts {
        copies.push(Vec::from_slice(alloc, text)?)?;
    }
    Ok(copies)
}

/// The automaton of an opening and the words behind it.
fn read_closing(alloc: Global, opening: Opening<'_, '_>) -> Result<Automaton, AutoFault>
    requires { IsOpening (opening_of opening) }
    ensures { GivesPart (λ m. m) result (closing (opening_of opening.entry)) }
{
    let Opening {
        letters,
        states,
        start,
        ahead,
    } = opening;
    let Some((accepted, ahead)) = accept_in(alloc, ahead, states)? else {
        return Err(shape(ACCEPT));
    };
    let accepting = marked(alloc, states, accepted.as_slice())?;
    let (targets, ahead) = match rows(alloc, ahead, letters.len(), states) {
        Ok(targets) => targets,
        Err(fault) => return Err(fault),
    };
    if !is_end(ahead) {
        return Err(shape(FIRST_ROW + u64::from(states)));
    }
    Ok(Automaton::of(letters, start, accepting, targets))
}
