//! Terms that were read, and why tokens do not read as terms.
ghost use Rattle.std.specs.Prelude.{◌≡◌, ◌++◌, IfOk, OnOk};
ghost use Rattle.circ_mixfix.specs.Found.{pairs_of};
ghost use Rattle.circ_read.specs.declared.cause.Cause.TheVariants.{Ambiguous};
ghost use Rattle.circ_read.specs.Outcomes.{goal_of_terms};
ghost use Rattle.circ_mixfix.specs.Printing.{text_of_term};
ghost use Rattle.circ_read.specs.Refusing.{shown_text};
ghost use Rattle.circ_read.specs.Steps.{IsNoReading};

use crate::cause::{Cause, Fault, because};
use circ_form::Text;
use circ_mixfix::{ParseFault, Reading, print, print_derivative, print_goal};
use circ_term::Term;
use circ_theory::{Goal, Pair, Pairs, Theory};
use std::alloc::{AllocError, Global};

/// The goal that terms are: its sides, then those of its conditions.
pub fn goal_of(alloc: Global, terms: &[Term]) -> Result<Option<Goal>, AllocError>
    ensures { IfOk result (λ o. o ≡ goal_of_terms terms.now) }
{
    let Some((left, rest)) = terms.split_first() else {
        return Ok(None);
    };
    let Some((right, rest)) = rest.split_first() else {
        return Ok(None);
    };
    let left = left.share()?;
    let right = right.share()?;
    let conds = pairs_of(alloc, rest)?;
    Ok(Some(Goal { conds, left, right }))
}

// Terms in twos.
fn pairs_of(alloc: Global, terms: &[Term]) -> Result<Pairs, AllocError>
    ensures { IfOk result (λ ps. ps ≡ pairs_of terms.now) }
{
    let mut pairs = Pairs::new(alloc);
    let mut at = 0;
    while terms.len() - at >= 2 {
        let left = terms[at].share()?;
        let right = terms[at + 1].share()?;
        pairs.push(Pair { left, right })?;
        at += 2;
    }
    Ok(pairs)
}

/// The cause that a fault of reading terms is. Where a term by itself may have the hole of a
/// derivative, it is shown so.
pub fn unread(alloc: Global, theory: &Theory, hole: bool, fault: ParseFault) -> Fault
    ensures { IsNoReading hole result theory.now fault }
{
    match fault {
        ParseFault::TooLong { count } => because(Cause::TooLong { count }),
        ParseFault::NoParse => because(Cause::NoParse),
        ParseFault::Ambiguous { first, second } => {
            match ambiguous(alloc, theory, hole, &first, &second) {
                Ok(cause) => because(cause),
                Err(_) => Fault::Memory,
            }
        }
        ParseFault::Memory => Fault::Memory,
    }
}

fn ambiguous(
    alloc: Global,
    theory: &Theory,
    hole: bool,
    first: &Reading,
    second: &Reading,
) -> Result<Cause, AllocError>
    ensures { IfOk result (λ c. c ≡ Ambiguous
        (shown_text hole theory.now first.now.terms.items)
        (shown_text hole theory.now second.now.terms.items)) }
{
    let first = shown_text(alloc, theory, hole, &first.terms)?;
    let second = shown_text(alloc, theory, hole, &second.terms)?;
    Ok(Cause::Ambiguous { first, second })
}

fn shown_text(
    alloc: Global,
    theory: &Theory,
    hole: bool,
    terms: &[Term],
) -> Result<Text, AllocError>
    ensures { IfOk result (λ t. t ≡ shown_text hole theory.now terms.now) }
{
    let mut text = Vec::new(alloc);
    if let [term] = terms {
        put_term(alloc, theory, hole, term, &mut text)?;
    }
    if let Some(goal) = goal_of(alloc, terms)? {
        print_goal(alloc, theory, &goal, &mut text)?;
    }
    Text::of(alloc, text.as_slice())
}

fn put_term(
    alloc: Global,
    theory: &Theory,
    hole: bool,
    term: &Term,
    out: &mut Vec<u8>,
) -> Result<(), AllocError>
    ensures { OnOk result (out.new.items ≡ out.old.items ++
        text_of_term theory.now.signature hole term.now) }
{
    if hole {
        return print_derivative(alloc, theory, term, out);
    }
    print(alloc, theory, term, out)
}
