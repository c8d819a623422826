//! At most two readings, which are different.
ghost use Rattle.std.specs.Prelude.{◌≡◌, ◌∷◌, [], IsTrue, IfOk};
ghost use Rattle.circ_chart.specs.Few.{Or};
ghost use Rattle.circ_mixfix.specs.Numbering.{numbered_anew};
ghost use Rattle.circ_mixfix.specs.Found.{In, AreOrdered, IsTwo, KeepsReadings, OneRead, RightRead};
ghost use Rattle.circ_mixfix.specs.Found.{BothRead};

use crate::numbering::numbered_anew;
use circ_term::{Term, cmp_all};
use std::alloc::{AllocError, Global};
use std::cmp::Ordering;

/// What tokens read as: the terms in order.
#[derive(Drop)]
pub struct Reading {
    pub terms: Vec<Term>,
}

// No reading, one, or the lesser and the greater of two, which stand for any number of readings
// above one.
#[derive(Drop)]
pub enum Few {
    Empty,
    One(Reading),
    Two(Reading, Reading),
}

// The readings with one more; two that are there already are enough.
pub fn with_reading(found: Few, reading: Reading) -> Few
    requires { AreOrdered found }
    ensures { KeepsReadings result (Or (In found) (λ ts. ts ≡ reading.terms.items)) }
{
    match found {
        Few::Empty => Few::One(reading),
        Few::One(first) => match cmp_all(&first.terms, &reading.terms) {
            Ordering::Less => Few::Two(first, reading),
            Ordering::Equal => Few::One(first),
            Ordering::Greater => Few::Two(reading, first),
        },
        Few::Two(first, second) => Few::Two(first, second),
    }
}

// Whether there are two readings.
fn is_full(found: &Few) -> bool
    ensures { IsTrue result → IsTwo found.now }
{
    match found {
        Few::Two(..) => true,
        _ => false,
    }
}

fn with_one(alloc: Global, found: Few, term: &Term, hole: bool) -> Result<Few, AllocError>
    requires { AreOrdered found }
    ensures { IfOk result (λ f. KeepsReadings f (Or (In found)
        (λ ts. ts ≡ numbered_anew hole term.now ∷ []))) }
{
    if is_full(&found) {
        return Ok(found);
    }
    let mut terms = Vec::new(alloc);
    terms.push(numbered_anew(alloc, term, hole)?)?;
    Ok(with_reading(found, Reading { terms }))
}

// The readings of a token list that is spelled by these terms.
pub fn readings_of_one(alloc: Global, terms: &[Term], hole: bool) -> Result<Few, AllocError>
    ensures { IfOk result (λ f. KeepsReadings f (OneRead hole terms.now)) }
{
    let mut found = Few::Empty;
    for term in terms {
        found = with_one(alloc, found, term, hole)?;
    }
    Ok(found)
}

fn with_pair(alloc: Global, found: Few, left: &Term, right: &Term) -> Result<Few, AllocError>
    requires { AreOrdered found }
    ensures { IfOk result (λ f. KeepsReadings f (Or (In found)
        (RightRead left.now (right.now ∷ [])))) }
{
    if is_full(&found) {
        return Ok(found);
    }
    if left.sort() != right.sort() {
        return Ok(found);
    }
    let reading = reading_of_pair(alloc, left, right)?;
    Ok(with_reading(found, reading))
}

fn reading_of_pair(alloc: Global, left: &Term, right: &Term) -> Result<Reading, AllocError>
    ensures { IfOk result (λ r. r.terms.items ≡ left.now ∷ right.now ∷ []) }
{
    let left = left.share()?;
    let right = right.share()?;
    let terms = vec![in alloc; left, right]?;
    Ok(Reading { terms })
}

fn with_left(alloc: Global, found: Few, left: &Term, rights: &[Term]) -> Result<Few, AllocError>
    requires { AreOrdered found }
    ensures { IfOk result (λ f. KeepsReadings f (Or (In found) (RightRead left.now rights.now))) }
{
    let mut found = found;
    for right in rights {
        found = with_pair(alloc, found, left, right)?;
    }
    Ok(found)
}

// The terms of one sort by which two token lists are spelled, out of these. Their variables are not
// numbered yet.
pub fn readings_of_both(alloc: Global, lefts: &[Term], rights: &[Term]) -> Result<Few, AllocError>
    ensures { IfOk result (λ f. KeepsReadings f (BothRead lefts.now rights.now)) }
{
    let mut found = Few::Empty;
    for left in lefts {
        found = with_left(alloc, found, left, rights)?;
    }
    Ok(found)
}
