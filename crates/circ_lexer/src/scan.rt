//! One pass over the bytes, from token to token.
ghost use Rattle.std.specs.Prelude.{◌≡◌, ◌≤◌, ◌<◌, length, drop, [], true, false};
ghost use Rattle.circ_lexer.specs.Bytes.{is_blank, begins_comment};
ghost use Rattle.circ_lexer.specs.Scanning.{Scans, BeginsToken, GivesToken, GivesSpans, begins, fault_in};

use crate::bytes::{
    DELETE, begins_comment, blank_count, is_bad, is_special, line_length, plain_count, rest,
};
use crate::{LexFault, Span};
use std::alloc::Global;

// The spans of the tokens, from the left.
pub(crate) fn spans_of(alloc: Global, bytes: &[u8]) -> Result<Vec<Span>, LexFault>
    ensures { GivesSpans result bytes.now }
{
    let mut spans = Vec::new(alloc);
    let mut at = gap_end(bytes, 0);
    while at < bytes.len() {
        let to = token_end(bytes, at)?;
        spans.push(Span { from: at, to })?;
        at = gap_end(bytes, to);
    }
    Ok(spans)
}

// Where the next token begins, at or after a place between tokens.
fn gap_end(bytes: &[u8], from: usize) -> usize
    requires { from ≤ length bytes.now }
    ensures gap { Scans bytes.now from [] result }
    ensures token { BeginsToken (drop result bytes.now) }
{
    let mut at = blanks_end(bytes, from);
    while begins_comment(rest(bytes, at)) {
        at = blanks_end(bytes, comment_end(bytes, at));
    }
    at
}

fn blanks_end(bytes: &[u8], at: usize) -> usize
    requires { at ≤ length bytes.now }
    ensures gap { Scans bytes.now at [] result }
    ensures no_blank { begins is_blank (drop result bytes.now) ≡ false }
{
    at + blank_count(rest(bytes, at))
}

fn comment_end(bytes: &[u8], at: usize) -> usize
    requires inside { at ≤ length bytes.now }
    requires comment { begins_comment (drop at bytes.now) ≡ true }
    ensures gap { Scans bytes.now at [] result }
    ensures some { at < result }
{
    at + line_length(rest(bytes, at))
}

// Where the token ends that begins at a place.
fn token_end(bytes: &[u8], at: usize) -> Result<usize, LexFault>
    requires inside { at < length bytes.now }
    requires token { BeginsToken (drop at bytes.now) }
    ensures { GivesToken result bytes.now at }
{
    if is_special(bytes[at]) {
        return Ok(at + 1);
    }
    let end = at + plain_count(rest(bytes, at));
    match fault_at(bytes, end) {
        Some(fault) => Err(fault),
        None => Ok(end),
    }
}

// What is wrong with the byte at a place.
fn fault_at(bytes: &[u8], at: usize) -> Option<LexFault>
    requires { at ≤ length bytes.now }
    ensures { result ≡ fault_in (drop at bytes.now) at }
{
    let byte = *bytes.get(at)?;
    if !is_bad(byte) {
        return None;
    }
    let place = at as u64;
    if byte <= DELETE {
        Some(LexFault::Control { place })
    } else {
        Some(LexFault::NotAscii { place })
    }
}
