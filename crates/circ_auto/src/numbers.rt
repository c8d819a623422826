//! Numbers, and lists of words up to a stop.
ghost use Rattle.std.specs.Prelude.{◌≡◌, ◌<◌, ◌^◌, IfOk, map};
ghost use Rattle.std.specs.Option.{option_map};
ghost use Rattle.circ_auto.specs.Reading.{numeral, digits_on, names_in, numbers_in, number_in};
ghost use Rattle.circ_auto.specs.Reading.{are_below};

use crate::ahead::{Ahead, after, front_of, is_word};
use circ_statement::is_name;
use std::alloc::{AllocError, Global};

/// The greatest number that can be written.
const GREATEST_NUMBER: u64 = 4_294_967_295;

/// The number that a word spells, in decimal digits with no zero in front.
pub(crate) fn numeral(word: &[u8]) -> Option<u32>
    ensures { result ≡ numeral word.now }
{
    match word {
        [b'0'] => Some(0),
        [b'0', ..] => None,
        [b, rest @ ..] if b.is_ascii_digit() => digits_on((*b - b'0') as u64, rest),
        _ => None,
    }
}

/// The number that digits go on to after `start`.
fn digits_on(start: u64, bytes: &[u8]) -> Option<u32>
    requires { start < 2 ^ 32 }
    ensures { result ≡ digits_on start bytes.now }
{
    let mut number = start;
    for b in bytes {
        if !b.is_ascii_digit() {
            return None;
        }
        number = 10 * number + (*b - b'0') as u64;
        if number > GREATEST_NUMBER {
            return None;
        }
    }
    Some(number as u32)
}

/// Names up to a stop, and the words behind it.
pub(crate) fn names_in<'b, 'a>(
    alloc: Global,
    words: Ahead<'b, 'a>,
) -> Result<Option<(Vec<&'a [u8]>, Ahead<'b, 'a>)>, AllocError>
    ensures { IfOk result (λ o.
        option_map (λ r. (map (λ w. w.now) r.0.items, r.1)) o ≡ names_in words.entry) }
{
    let mut names = Vec::new(alloc);
    let mut left = words;
    while let Some((word, rest)) = front_of(left) {
        if is_word(word, b".") {
            return Ok(Some((names, rest)));
        }
        if !is_name(word) {
            return Ok(None);
        }
        names.push(word)?;
        left = rest;
    }
    Ok(None)
}

/// Numbers up to a stop, and the words behind it.
pub(crate) fn numbers_in<'b, 'a>(
    alloc: Global,
    words: Ahead<'b, 'a>,
) -> Result<Option<(Vec<u32>, Ahead<'b, 'a>)>, AllocError>
    ensures { IfOk result (λ o.
        option_map (λ r. (r.0.items, r.1)) o ≡ numbers_in words.entry) }
{
    let mut numbers = Vec::new(alloc);
    let mut left = words;
    while let Some((word, rest)) = front_of(left) {
        if is_word(word, b".") {
            return Ok(Some((numbers, rest)));
        }
        let Some(number) = numeral(word) else {
            return Ok(None);
        };
        numbers.push(number)?;
        left = rest;
    }
    Ok(None)
}

/// One number, a stop, and the words behind it.
pub(crate) fn number_in<'b, 'a>(words: Ahead<'b, 'a>) -> Option<(u32, Ahead<'b, 'a>)>
    ensures { option_map (λ r. (r.0, r.1)) result ≡ number_in words.entry }
{
    let (word, rest) = front_of(words)?;
    let number = numeral(word)?;
    let rest = after(rest, b".")?;
    Some((number, rest))
}

/// Whether all numbers are below this one.
pub(crate) fn are_below(numbers: &[u32], limit: u32) -> bool
    ensures { result ≡ are_below limit numbers.now }
{
    numbers.iter().all(|number| *number < limit)
}
