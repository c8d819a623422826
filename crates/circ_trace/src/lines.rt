//! Terms, goals and hypotheses in the lines of turns.
ghost use Rattle.std.specs.Prelude.{◌≡◌, ◌+◌, ◌++◌, codes, flat_map, IfOk, OnOk};
ghost use Rattle.std.specs.Option.{option_copied, option_or};
ghost use Rattle.circ_plain_search.specs.Joining.{first_open};
ghost use Rattle.circ_trace.specs.TurnText.{shown, shown_sides, shown_goal, shown_side};
ghost use Rattle.circ_trace.specs.TurnText.{derivative_text, hypothesis_text, further_hypothesis};
ghost use Rattle.circ_trace.specs.TurnText.{hypothesis_lines, uses_line, split_line, cases_line};

use circ_mixfix::{print, print_derivative, print_goal};
use circ_split::first_open;
use circ_status::{push_counted, push_numbered};
use circ_term::Term;
use circ_theory::{Goal, Theory};
use std::alloc::{AllocError, Global};

/// A term that has more nodes is not written out.
const MOST_SHOWN_NODES: u64 = 1_000;

fn put_term(
    alloc: Global,
    theory: &Theory,
    term: &Term,
    out: &mut Vec<u8>,
) -> Result<(), AllocError>
    ensures { OnOk result (out.new.items ≡ out.old.items ++ shown theory.now.signature term.now) }
{
    if term.size() > MOST_SHOWN_NODES {
        return push_counted(out, b"(", term.size(), b" nodes)");
    }
    print(alloc, theory, term, out)
}

/// Appends a goal.
pub(crate) fn put_goal(
    alloc: Global,
    theory: &Theory,
    goal: &Goal,
    out: &mut Vec<u8>,
) -> Result<(), AllocError>
    ensures { OnOk result (out.new.items ≡ out.old.items
        ++ shown_goal theory.now.signature goal.now) }
{
    if goal.conds.len() > 0 {
        return print_goal(alloc, theory, goal, out);
    }
    put_sides(alloc, theory, &goal.left, &goal.right, out)
}

fn put_sides(
    alloc: Global,
    theory: &Theory,
    left: &Term,
    right: &Term,
    out: &mut Vec<u8>,
) -> Result<(), AllocError>
    ensures { OnOk result (out.new.items ≡ out.old.items
        ++ shown_sides theory.now.signature left.now right.now) }
{
    put_term(alloc, theory, left, out)?;
    out.extend_from_slice(b" = ")?;
    put_term(alloc, theory, right, out)
}

/// Appends a line for a side.
pub(crate) fn put_side(
    alloc: Global,
    theory: &Theory,
    label: &[u8],
    term: &Term,
    out: &mut Vec<u8>,
) -> Result<(), AllocError>
    ensures { OnOk result (out.new.items ≡ out.old.items
        ++ shown_side label.now theory.now.signature term.now) }
{
    out.extend_from_slice(label)?;
    put_term(alloc, theory, term, out)?;
    out.extend_from_slice(b"\n")
}

/// Appends the text of a derivative.
pub(crate) fn put_derivative(
    alloc: Global,
    theory: &Theory,
    number: u32,
    out: &mut Vec<u8>,
) -> Result<(), AllocError>
    ensures { OnOk result (out.new.items ≡ out.old.items ++ derivative_text theory.now number) }
{
    match theory.derivative(number) {
        None => Ok(()),
        Some(body) => print_derivative(alloc, theory, body, out),
    }
}

/// Appends a line for the term on whose cases a hidden goal is split.
pub(crate) fn put_cases(
    alloc: Global,
    theory: &Theory,
    term: &Term,
    out: &mut Vec<u8>,
) -> Result<(), AllocError>
    ensures { OnOk result (out.new.items ≡ out.old.items
        ++ cases_line theory.now.signature term.now) }
{
    put_side(alloc, theory, b"cases on ", term, out)
}

/// Appends a line for what a visible goal is split on.
pub(crate) fn put_split(
    alloc: Global,
    theory: &Theory,
    left: &Term,
    right: &Term,
    out: &mut Vec<u8>,
) -> Result<(), AllocError>
    ensures { OnOk result (out.new.items ≡ out.old.items ++ split_line theory.now.signature
        (option_or (first_open theory.now left.now) (first_open theory.now right.now))) }
{
    match open_of(theory, left, right) {
        None => out.extend_from_slice(b"no term to split on\n"),
        Some(term) => {
            out.extend_from_slice(b"split on ")?;
            put_term(alloc, theory, term, out)?;
            out.extend_from_slice(b"\n")
        }
    }
}

// The first open subterm of the left side, or, where it has none, of the right side.
fn open_of<'a>(theory: &Theory, left: &'a Term, right: &'a Term) -> Option<&'a Term>
    ensures { option_copied result
        ≡ option_or (first_open theory.now left.now) (first_open theory.now right.now) }
{
    match first_open(theory, left) {
        Some(term) => Some(term),
        None => first_open(theory, right),
    }
}

/// Appends a line for the hypotheses that are used, or with other words where none is.
pub(crate) fn put_uses(
    none: &[u8],
    some: &[u8],
    numbers: &[u32],
    out: &mut Vec<u8>,
) -> Result<(), AllocError>
    ensures { OnOk result (out.new.items ≡ out.old.items
        ++ uses_line none.now some.now numbers.now) }
{
    let Some((first, others)) = numbers.split_first() else {
        out.extend_from_slice(none)?;
        return out.extend_from_slice(b"\n");
    };
    out.extend_from_slice(some)?;
    put_name(*first, out)?;
    put_others(others, out)?;
    out.extend_from_slice(b"\n")
}

// The name of the hypothesis of this number from 0.
fn put_name(number: u32, out: &mut Vec<u8>) -> Result<(), AllocError>
    ensures { OnOk result (out.new.items ≡ out.old.items ++ hypothesis_text (number + 1)) }
{
    push_numbered(out, b"hypothesis ", u64::from(number) + 1)
}

fn put_others(numbers: &[u32], out: &mut Vec<u8>) -> Result<(), AllocError>
    ensures { OnOk result (out.new.items ≡ out.old.items
        ++ flat_map further_hypothesis numbers.now) }
{
    for number in numbers {
        put_other(*number, out)?;
    }
    Ok(())
}

fn put_other(number: u32, out: &mut Vec<u8>) -> Result<(), AllocError>
    ensures { OnOk result (out.new.items ≡ out.old.items ++ further_hypothesis number) }
{
    out.extend_from_slice(b", ")?;
    put_name(number, out)
}

/// Appends a line for each goal, as a hypothesis. So many hypotheses are before them.
pub(crate) fn put_hypotheses(
    alloc: Global,
    theory: &Theory,
    before: u64,
    goals: &[Goal],
    out: &mut Vec<u8>,
) -> Result<(), AllocError>
    ensures { OnOk result (out.new.items ≡ out.old.items
        ++ hypothesis_lines theory.now.signature before goals.now) }
{
    let mut before = before;
    for goal in goals {
        let number = following(before)?;
        put_hypothesis(alloc, theory, number, goal, out)?;
        before = number;
    }
    Ok(())
}

fn put_hypothesis(
    alloc: Global,
    theory: &Theory,
    number: u64,
    goal: &Goal,
    out: &mut Vec<u8>,
) -> Result<(), AllocError>
    ensures { OnOk result (out.new.items ≡ out.old.items ++ (hypothesis_text number
        ++ codes ": " ++ shown_goal theory.now.signature goal.now ++ codes "\n")) }
{
    push_counted(out, b"hypothesis ", number, b": ")?;
    put_goal(alloc, theory, goal, out)?;
    out.extend_from_slice(b"\n")
}

// The next number. That there is none is want of memory.
fn following(number: u64) -> Result<u64, AllocError>
    ensures { IfOk result (λ n. n ≡ number + 1) }
{
    match number.checked_add(1) {
        Some(next) => Ok(next),
        None => Err(AllocError),
    }
}
