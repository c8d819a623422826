//! The statements of an automaton's text but the rows, and its end.
ghost use Rattle.std.specs.Prelude.{◌≡◌, ℕ, List, IfOk, Some, None, map, true, false, replicate};
ghost use Rattle.std.specs.Prelude.{if◌then◌else◌};
ghost use Rattle.std.specs.Option.{option_map};
ghost use Rattle.circ_auto.specs.Reading.{are_below};
ghost use Rattle.circ_auto.specs.Parts.{unless_refused, head_in, letters_cause, letters_part};
ghost use Rattle.circ_auto.specs.Parts.{states_cause, states_part};
ghost use Rattle.circ_auto.specs.Parts.{start_in, accept_in, end_in, marked};
ghost use Rattle.circ_auto.specs.Gives.{GivesPart};
ghost use Rattle.circ_auto.specs.declared.fault.AutoFault.TheVariants.{Statement};
ghost use Rattle.circ_auto.specs.declared.fault.AutoCause.TheVariants.{Shape};

use crate::ahead::{Ahead, after, front_of, is_none_left};
use crate::fault::{AutoCause, AutoFault};
use crate::numbers::{are_below, names_in, number_in, numbers_in};
use crate::repeats::first_repeat;
use crate::{MOST_LETTERS, MOST_STATES};
use circ_statement::is_name;
use std::alloc::{AllocError, Global};

// The numbers of the statements.
pub(crate) const HEAD: u64 = 1;

const LETTERS: u64 = 2;

const STATES: u64 = 3;

pub(crate) const START: u64 = 4;

pub(crate) const ACCEPT: u64 = 5;

/// The statement of this number has not its form.
pub(crate) fn shape(number: u64) -> AutoFault
    ensures { result ≡ Statement number Shape }
{
    AutoFault::Statement {
        number,
        cause: AutoCause::Shape,
    }
}

/// The words behind the head.
pub(crate) fn head_in<'b, 'a>(words: Ahead<'b, 'a>) -> Option<Ahead<'b, 'a>>
    ensures { result ≡ head_in words.entry }
{
    let words = after(words, b"automaton")?;
    let (name, words) = front_of(words)?;
    if !is_name(name) {
        return None;
    }
    after(words, b"is")
}

/// The letters, and the words behind their statement.
pub(crate) fn letters<'b, 'a>(
    alloc: Global,
    words: Ahead<'b, 'a>,
) -> Result<(Vec<&'a [u8]>, Ahead<'b, 'a>), AutoFault>
    ensures { GivesPart (λ r. (map (λ w. w.now) r.0.items, r.1)) result (letters_part words.entry) }
{
    let Some(words) = after(words, b"letters") else {
        return Err(shape(LETTERS));
    };
    match names_in(alloc, words) {
        Ok(Some((letters, words))) => checked(alloc, letters, words),
        Ok(None) => Err(shape(LETTERS)),
        Err(_) => Err(AutoFault::Memory),
    }
}

/// The letters, unless they are refused.
fn checked<'b, 'a>(
    alloc: Global,
    letters: Vec<&'a [u8]>,
    words: Ahead<'b, 'a>,
) -> Result<(Vec<&'a [u8]>, Ahead<'b, 'a>), AutoFault>
    ensures { GivesPart {B = List (List ℕ) × List (List ℕ)}
        (λ r. (map (λ w. w.now) r.0.items, r.1)) result
        (unless_refused 2 (letters_cause (map (λ w. w.now) letters.entry.items))
        (map (λ w. w.now) letters.entry.items, words.entry)) }
{
    match letters_cause(alloc, letters.as_slice()) {
        Ok(None) => Ok((letters, words)),
        Ok(Some(cause)) => Err(AutoFault::Statement {
            number: LETTERS,
            cause,
        }),
        Err(_) => Err(AutoFault::Memory),
    }
}

fn letters_cause(alloc: Global, letters: &[&[u8]]) -> Result<Option<AutoCause>, AllocError>
    ensures { IfOk result (λ o. o ≡ letters_cause (map (λ w. w.now) letters.now)) }
{
    if letters.is_empty() {
        return Ok(Some(AutoCause::Shape));
    }
    if let Some(place) = first_repeat(alloc, letters)? {
        // Places past 32 bits would take more memory than there is.
        let Ok(number) = u32::try_from(place) else {
            return Err(AllocError);
        };
        return Ok(Some(AutoCause::Twice { number }));
    }
    if letters.len() > MOST_LETTERS {
        return Ok(Some(AutoCause::Limit {
            count: letters.len() as u64,
        }));
    }
    Ok(None)
}

/// The number of states, and the words behind its statement.
pub(crate) fn states<'b, 'a>(words: Ahead<'b, 'a>) -> Result<(u32, Ahead<'b, 'a>), AutoFault>
    ensures { GivesPart (λ r. (r.0, r.1)) result (states_part words.entry) }
{
    let Some(words) = after(words, b"states") else {
        return Err(shape(STATES));
    };
    let Some((count, words)) = number_in(words) else {
        return Err(shape(STATES));
    };
    match states_cause(count) {
        None => Ok((count, words)),
        Some(cause) => Err(AutoFault::Statement {
            number: STATES,
            cause,
        }),
    }
}

fn states_cause(count: u32) -> Option<AutoCause>
    ensures { result ≡ states_cause count }
{
    if count == 0 {
        return Some(AutoCause::Shape);
    }
    if count as usize > MOST_STATES {
        return Some(AutoCause::Limit {
            count: u64::from(count),
        });
    }
    None
}

/// The state at which the automaton starts, and the words behind its statement.
pub(crate) fn start_in<'b, 'a>(words: Ahead<'b, 'a>, states: u32) -> Option<(u32, Ahead<'b, 'a>)>
    ensures { option_map (λ r. (r.0, r.1)) result ≡ start_in states words.entry }
{
    let words = after(words, b"start")?;
    let (start, words) = number_in(words)?;
    if start < states {
        Some((start, words))
    } else {
        None
    }
}

/// The accepting states as they are listed, and the words behind their statement.
pub(crate) fn accept_in<'b, 'a>(
    alloc: Global,
    words: Ahead<'b, 'a>,
    states: u32,
) -> Result<Option<(Vec<u32>, Ahead<'b, 'a>)>, AllocError>
    ensures { IfOk result (λ o.
        option_map (λ r. (r.0.items, r.1)) o ≡ accept_in states words.entry) }
{
    let Some(words) = after(words, b"accept") else {
        return Ok(None);
    };
    let Some((accepted, words)) = numbers_in(alloc, words)? else {
        return Ok(None);
    };
    if are_below(accepted.as_slice(), states) {
        Ok(Some((accepted, words)))
    } else {
        Ok(None)
    }
}

/// For each state whether it is listed.
pub(crate) fn marked(alloc: Global, states: u32, listed: &[u32]) -> Result<Vec<bool>, AllocError>
    requires { are_below states listed.now ≡ true }
    ensures { IfOk result (λ v. v.items ≡ marked (replicate states false) listed.now) }
{
    let mut marks = vec![in alloc; false; states as usize]?;
    for state in listed {
        marks[*state as usize] = true;
    }
    Ok(marks)
}

/// Whether the words are the end and nothing else.
pub(crate) fn is_end(words: Ahead<'_, '_>) -> bool
    ensures { (if result then Some tt else None) ≡ end_in words.entry }
{
    match after(words, b"endautomaton") {
        Some(rest) => is_none_left(rest),
        None => false,
    }
}
