//! The rows of an automaton's text.
ghost use Rattle.std.specs.Prelude.{◌≡◌, IfOk, codes};
ghost use Rattle.std.specs.Option.{option_map, option_and_then};
ghost use Rattle.circ_auto.specs.Reading.{after};
ghost use Rattle.circ_auto.specs.Parts.{behind_state, row_in, rows_part};
ghost use Rattle.circ_auto.specs.Gives.{GivesPart};

use crate::ahead::{Ahead, after, front_of};
use crate::fault::AutoFault;
use crate::numbers::{are_below, numbers_in, numeral};
use crate::statements::shape;
use std::alloc::{AllocError, Global};

/// The number of the statement of the first row.
pub(crate) const FIRST_ROW: u64 = 6;

/// The targets of all rows, one after another, and the words behind them.
pub(crate) fn rows<'b, 'a>(
    alloc: Global,
    words: Ahead<'b, 'a>,
    letters: usize,
    states: u32,
) -> Result<(Vec<u32>, Ahead<'b, 'a>), AutoFault>
    ensures { GivesPart (λ r. (r.0.items, r.1)) result
        (rows_part letters states states 0 words.entry) }
{
    let mut targets = Vec::new(alloc);
    let mut left = words;
    for state in 0..states {
        match row_in(alloc, left, letters, states, state) {
            Ok(Some((row, rest))) => {
                targets.extend_from_slice(row.as_slice())?;
                left = rest;
            }
            Ok(None) => return Err(shape(FIRST_ROW + u64::from(state))),
            Err(_) => return Err(AutoFault::Memory),
        }
    }
    Ok((targets, left))
}

/// The targets of the row of a state, and the words behind it.
fn row_in<'b, 'a>(
    alloc: Global,
    words: Ahead<'b, 'a>,
    letters: usize,
    states: u32,
    state: u32,
) -> Result<Option<(Vec<u32>, Ahead<'b, 'a>)>, AllocError>
    ensures { IfOk result (λ o.
        option_map (λ r. (r.0.items, r.1)) o ≡ row_in letters states state words.entry) }
{
    let Some(words) = row_head(words, state) else {
        return Ok(None);
    };
    let Some((row, words)) = numbers_in(alloc, words)? else {
        return Ok(None);
    };
    if row.len() == letters && are_below(row.as_slice(), states) {
        Ok(Some((row, words)))
    } else {
        Ok(None)
    }
}

/// The words behind the head of the row of a state.
fn row_head<'b, 'a>(words: Ahead<'b, 'a>, state: u32) -> Option<Ahead<'b, 'a>>
    ensures { result ≡ option_and_then (behind_state state) (after (codes "from") words.entry) }
{
    let words = after(words, b"from")?;
    let (number, words) = front_of(words)?;
    if numeral(number) == Some(state) {
        Some(words)
    } else {
        None
    }
}
