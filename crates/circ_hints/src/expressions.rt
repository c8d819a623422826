//! The hint for a word of `regex` that is no expression.
use crate::drawing::{Place, push_picture};
use crate::run_words::Asked;
use crate::texts::written;
use circ_read::Cause;
use std::alloc::{AllocError, Global};
use std::fmt::Write;

/// The signs of expressions.
const SIGNS: &[u8] = b"ab01+*()";

/// What an expression wants next.
#[derive(Clone, Copy)]
struct Scan {
    /// How many parentheses are open.
    open: u64,
    /// Whether a letter, 0, 1 or a parenthesis that opens has to come.
    wants: bool,
}

/// The hint for a word of `regex`, by its number, 1 or 2: the place in the form `LEFT:COLUMN: ..`
/// and the word with a mark below. Empty if the words have none of this number.
pub fn unread_expression(
    alloc: Global,
    asked: Asked<'_>,
    number: u8,
    cause: &Cause,
) -> Result<String, AllocError> {
    let mut out = String::new(alloc);
    let side = if number == 1 { "LEFT" } else { "RIGHT" };
    let done = match asked.expression(number) {
        Some(word) => push_fault(&mut out, side, word.as_bytes(), cause),
        None => Ok(()),
    };
    written(out, done)
}

fn push_fault(out: &mut String, side: &str, word: &[u8], cause: &Cause) -> Result<(), AllocError> {
    let (at, says) = match cause {
        Cause::Limit { .. } => (0, "an expression has 1,000 bytes at most"),
        _ => fault_of(word),
    };
    push_column(out, side, at.saturating_add(1), says)?;
    push_picture(out, word, Place { at, width: 1 })
}

/// Appends what is said of a column of a side.
fn push_column(out: &mut String, side: &str, column: usize, says: &str) -> Result<(), AllocError> {
    writeln!(out, "{side}:{column}: {says}")
}

/// The place of the first sign at which a word is no expression, and why.
fn fault_of(word: &[u8]) -> (usize, &'static str) {
    let mut scan = Scan {
        open: 0,
        wants: true,
    };
    for at in 0..word.len() {
        if let Some(says) = scan.fault(word[at]) {
            return (at, says);
        }
        scan.take(word[at]);
    }
    let says = if scan.wants {
        "an a, b, 0, 1 or ( is expected here"
    } else if scan.open > 0 {
        "`)` is expected here"
    } else {
        "this is no expression"
    };
    (word.len(), says)
}

impl Scan {
    /// Why a sign may not come next.
    fn fault(&self, sign: u8) -> Option<&'static str> {
        if !SIGNS.contains(&sign) {
            return Some("the signs are a b 0 1 + * ( )");
        }
        if begins_part(sign) {
            return None;
        }
        if self.wants {
            return Some("an a, b, 0, 1 or ( is expected here");
        }
        if sign == b')' && self.open == 0 {
            return Some("nothing opens this parenthesis");
        }
        None
    }

    /// Goes on behind a sign.
    fn take(&mut self, sign: u8) {
        self.wants = sign == b'(' || sign == b'+';
        if sign == b'(' {
            self.open = self.open.saturating_add(1);
        }
        if sign == b')' {
            self.open = self.open.saturating_sub(1);
        }
    }
}

/// Whether a part of an expression begins with a sign.
fn begins_part(sign: u8) -> bool {
    b"ab01(".contains(&sign)
}
