//! Terms of LANG from short texts, in which each operator stands before its arguments.
ghost use Rattle.std.specs.Prelude.{◌≡◌, ◌==◌, find, reverse, Some, OnOk, IfOk};
ghost use Rattle.std.specs.Option.{option_map};
ghost use Rattle.circ_regex.specs.Making.{coded_var, put_none, put_one, put_two, put_row};
ghost use Rattle.circ_regex.specs.Making.{put_byte, put_coded_op, coded_terms};

use circ_term::Term;
use circ_theory::{Side, TheoryFault};
use std::alloc::Global;

// An operator of LANG with its number, and the byte that stands for it in texts of terms.
#[derive(Clone, Copy)]
pub(crate) struct OpRow {
    pub(crate) op: u32,
    pub(crate) code: u8,
    pub(crate) form: &'static [u8],
    pub(crate) args: &'static [u32],
    pub(crate) result: u32,
    pub(crate) prec: u8,
    pub(crate) side: Side,
    pub(crate) marked: bool,
}

// The terms of a text, the first one last. The text is read from its end, with a stack of terms.
pub(crate) fn terms(alloc: Global, rows: &[OpRow], text: &[u8]) -> Result<Vec<Term>, TheoryFault>
    ensures { IfOk result (λ v. coded_terms rows.now text.now ≡ Some (reverse v.items)) }
{
    let mut stack = Vec::new(alloc);
    let mut at = text.len();
    while at > 0 {
        at -= 1;
        put_byte(alloc, rows, &mut stack, text[at])?;
    }
    Ok(stack)
}

fn put_byte(
    alloc: Global,
    rows: &[OpRow],
    stack: &mut Vec<Term>,
    byte: u8,
) -> Result<(), TheoryFault>
    ensures { OnOk result (put_byte rows.now byte (reverse stack.old.items) ≡
        Some (reverse stack.new.items)) }
{
    match variable(byte) {
        Some(term) => {
            stack.push(term)?;
            Ok(())
        }
        None => put_op(alloc, rows, stack, byte),
    }
}

fn variable(byte: u8) -> Option<Term>
    ensures { result ≡ coded_var byte }
{
    match byte {
        b'x' => Some(Term::var(0, 0)),
        b'r' => Some(Term::var(0, 1)),
        b's' => Some(Term::var(1, 1)),
        _ => None,
    }
}

fn put_op(alloc: Global, rows: &[OpRow], stack: &mut Vec<Term>, byte: u8) -> Result<(), TheoryFault>
    ensures { OnOk result (put_coded_op rows.now byte (reverse stack.old.items) ≡
        Some (reverse stack.new.items)) }
{
    match row_of(rows, byte) {
        Some(row) => put_row(alloc, stack, row),
        None => Err(TheoryFault::Memory),
    }
}

fn row_of(rows: &[OpRow], byte: u8) -> Option<&OpRow>
    ensures { option_map (λ r. r.now) result ≡ find (λ r. byte == r.code) rows.now }
{
    rows.iter().find(|row| byte == row.code)
}

fn put_row(alloc: Global, stack: &mut Vec<Term>, row: &OpRow) -> Result<(), TheoryFault>
    ensures { OnOk result (put_row row.now (reverse stack.old.items) ≡
        Some (reverse stack.new.items)) }
{
    match row.args.len() {
        0 => put_none(alloc, stack, row.op, row.result),
        1 => put_one(alloc, stack, row.op, row.result),
        _ => put_two(alloc, stack, row.op, row.result),
    }
}

fn put_none(alloc: Global, stack: &mut Vec<Term>, op: u32, sort: u32) -> Result<(), TheoryFault>
    ensures { OnOk result (put_none op sort (reverse stack.old.items) ≡
        Some (reverse stack.new.items)) }
{
    match Term::app(alloc, op, sort, Vec::new(alloc)) {
        Ok(term) => {
            stack.push(term)?;
            Ok(())
        }
        Err(_) => Err(TheoryFault::Memory),
    }
}

// Puts the operator on the topmost term in its place.
fn put_one(alloc: Global, stack: &mut Vec<Term>, op: u32, sort: u32) -> Result<(), TheoryFault>
    ensures { OnOk result (put_one op sort (reverse stack.old.items) ≡
        Some (reverse stack.new.items)) }
{
    let Some(first) = stack.pop() else {
        return Err(TheoryFault::Memory);
    };
    let mut args = Vec::new(alloc);
    args.push(first)?;
    match Term::app(alloc, op, sort, args) {
        Ok(term) => {
            stack.push(term)?;
            Ok(())
        }
        Err(_) => Err(TheoryFault::Memory),
    }
}

// Puts the operator on the two topmost terms in their place.
fn put_two(alloc: Global, stack: &mut Vec<Term>, op: u32, sort: u32) -> Result<(), TheoryFault>
    ensures { OnOk result (put_two op sort (reverse stack.old.items) ≡
        Some (reverse stack.new.items)) }
{
    let Some(first) = stack.pop() else {
        return Err(TheoryFault::Memory);
    };
    let Some(second) = stack.pop() else {
        return Err(TheoryFault::Memory);
    };
    let mut args = Vec::new(alloc);
    args.push(first)?;
    args.push(second)?;
    match Term::app(alloc, op, sort, args) {
        Ok(term) => {
            stack.push(term)?;
            Ok(())
        }
        Err(_) => Err(TheoryFault::Memory),
    }
}
