//! What has been asked of ranges of tokens, with the answers.
ghost use Rattle.std.specs.Prelude.{◌≡◌, ℕ, List, [], IfOk, OnOk, IsTrue, Some, true};
ghost use Rattle.std.specs.Option.{option_copied};
ghost use Rattle.circ_spelling.specs.declared.grammar.Grammar.{Grammar};
ghost use Rattle.circ_chart.specs.declared.few.Few.TheVariants.{Empty};
ghost use Rattle.circ_chart.specs.declared.memo.Question.TheVariants.{OfTerm};
ghost use Rattle.circ_chart.specs.Asked.{IsAnswer, AreAnswers, Listed, IsListed};

use crate::few::{Few, shared};
use circ_spelling::Wanted;
use std::alloc::{AllocError, Global};

/// What is asked of a range.
#[derive(Clone, Copy)]
pub enum Question {
    // The terms of this sort, of a precedence below this one.
    OfTerm { sort: u32, below: u8 },
    // The rows of the symbols of this rule from this place on.
    OfRow { number: usize, place: usize },
}

// A question, the range of which it is asked, and its answer.
#[derive(Drop)]
pub struct Entry {
    pub question: Question,
    pub from: usize,
    pub to: usize,
    pub few: Few,
}

/// The questions that were answered. Each entry says itself what it answers, so that nothing hangs
/// on slots and links.
#[derive(Drop)]
pub struct Memo {
    pub entries: Vec<Entry>,
    // Of each entry the place of the one before it that has the same slot.
    pub links: Vec<usize>,
    // Of each slot the place of its last entry.
    pub heads: Vec<usize>,
}

// No entry has this place.
const NONE: usize = usize::MAX;

// How many slots there are at first, a power of 2.
const FIRST_SLOTS: usize = 256;

/// Nothing asked yet.
pub fn no_answers(alloc: Global) -> Result<Memo, AllocError>
    ensures { IfOk result (λ m. m.entries.items ≡ []) }
{
    let heads = vec![in alloc; NONE; FIRST_SLOTS]?;
    let links = Vec::new(alloc);
    let entries = Vec::new(alloc);
    Ok(Memo {
        entries,
        links,
        heads,
    })
}

// The slot of a question, of so many, which are a power of 2.
fn slot_of(slots: usize, question: Question, from: usize, to: usize) -> usize {
    let (one, other) = match question {
        Question::OfTerm { sort, below } => (sort as usize, below as usize),
        Question::OfRow { number, place } => (number, place.wrapping_add(128)),
    };
    let key = one
        .wrapping_mul(1031)
        .wrapping_add(other)
        .wrapping_mul(257)
        .wrapping_add(from)
        .wrapping_mul(257)
        .wrapping_add(to);
    let mixed = key.wrapping_mul(0x9e37_79b9_7f4a_7c15);
    (mixed >> 32) & slots.wrapping_sub(1)
}

fn place_in(places: &[usize], index: usize) -> usize {
    match places.get(index) {
        Some(place) => *place,
        None => NONE,
    }
}

// Makes an entry the last of its slot.
fn link(links: &mut Vec<usize>, heads: &mut Vec<usize>, place: usize, slot: usize) {
    if place < links.len() {
        links[place] = place_in(heads.as_slice(), slot);
    }
    if slot < heads.len() {
        heads[slot] = place;
    }
}

// The heads of so many slots, with the links of all entries.
fn linked(
    alloc: Global,
    entries: &[Entry],
    links: &mut Vec<usize>,
    slots: usize,
) -> Result<Vec<usize>, AllocError> {
    let mut heads = vec![in alloc; NONE; slots]?;
    for (place, entry) in entries.iter().enumerate() {
        let slot = slot_of(slots, entry.question, entry.from, entry.to);
        link(links, &mut heads, place, slot);
    }
    Ok(heads)
}

// Makes room for one entry more: on the average a slot has one at most.
fn grow(alloc: Global, memo: &mut Memo) -> Result<(), AllocError>
    ensures { OnOk result (memo.new.entries.items ≡ memo.old.entries.items) }
{
    if memo.entries.len() < memo.heads.len() {
        return Ok(());
    }
    let slots = memo.heads.len().wrapping_mul(4);
    let heads = linked(alloc, &memo.entries, &mut memo.links, slots)?;
    memo.heads = heads;
    Ok(())
}

fn is_same(one: Question, other: Question) -> bool
    ensures { IsTrue result → one ≡ other }
{
    match one {
        Question::OfTerm { sort, below } => match other {
            Question::OfTerm { sort: s, below: b } => sort == s && below == b,
            Question::OfRow { .. } => false,
        },
        Question::OfRow { number, place } => match other {
            Question::OfTerm { .. } => false,
            Question::OfRow {
                number: n,
                place: p,
            } => number == n && place == p,
        },
    }
}

fn is_of(entry: &Entry, question: Question, from: usize, to: usize) -> bool
    ensures { IsTrue result → (entry.now.question ≡ question) × (entry.now.from ≡ from) ×
        (entry.now.to ≡ to) }
{
    entry.from == from && entry.to == to && is_same(entry.question, question)
}

// The answer of one of the entries that are linked from a place on.
fn find<'a>(
    entries: &'a [Entry],
    links: &[usize],
    start: usize,
    question: Question,
    from: usize,
    to: usize,
) -> Option<&'a Few>
    ensures { IsListed entries.now question from to (option_copied result) }
{
    let mut place = start;
    'all: for turn in 0..entries.len() {
        let _ = turn;
        if place >= entries.len() {
            return None;
        }
        let entry = &entries[place];
        if is_of(entry, question, from, to) {
            return Some(&entry.few);
        }
        place = place_in(links, place);
    }
    None
}

fn answer(memo: &Memo, question: Question, from: usize, to: usize) -> Option<&Few>
    ensures { IsListed memo.now.entries.items question from to (option_copied result) }
{
    let slot = slot_of(memo.heads.len(), question, from, to);
    let start = place_in(&memo.heads, slot);
    find(&memo.entries, &memo.links, start, question, from, to)
}

/// The answer, if the question was asked before.
pub fn recalled(
    memo: &Memo,
    question: Question,
    from: usize,
    to: usize,
) -> Result<Option<Few>, AllocError>
    ensures { IfOk result (IsListed memo.now.entries.items question from to) }
{
    match answer(memo, question, from, to) {
        None => Ok(None),
        Some(few) => Ok(Some(shared(few)?)),
    }
}

/// Whether there are no such terms, if it was asked before.
pub fn known_none(memo: &Memo, wanted: Wanted, from: usize, to: usize) -> Option<bool>
    ensures { result ≡ Some true → Listed memo.now.entries.items (OfTerm wanted.sort wanted.below)
        from to Empty }
{
    let question = Question::OfTerm {
        sort: wanted.sort,
        below: wanted.below,
    };
    match answer(memo, question, from, to) {
        Some(Few::Empty) => Some(true),
        Some(_) => Some(false),
        None => None,
    }
}

/// Keeps an answer, and gives it.
pub fn kept(
    alloc: Global,
    memo: &mut Memo,
    question: Question,
    from: usize,
    to: usize,
    few: Few,
) -> Result<Few, AllocError>
    ensures same { IfOk result (λ v. v ≡ few) }
    ensures kept { OnOk result ((g : Grammar) (ts : List ℕ) →
        AreAnswers g ts memo.old.entries.items → IsAnswer g ts question from to few →
        AreAnswers g ts memo.new.entries.items) }
{
    let copy = shared(&few)?;
    keep(alloc, memo, question, from, to, copy)?;
    Ok(few)
}

fn keep(
    alloc: Global,
    memo: &mut Memo,
    question: Question,
    from: usize,
    to: usize,
    few: Few,
) -> Result<(), AllocError>
    ensures { OnOk result ((g : Grammar) (ts : List ℕ) → AreAnswers g ts memo.old.entries.items →
        IsAnswer g ts question from to few → AreAnswers g ts memo.new.entries.items) }
{
    grow(alloc, memo)?;
    let place = memo.entries.len();
    let slot = slot_of(memo.heads.len(), question, from, to);
    memo.entries.push(Entry {
        question,
        from,
        to,
        few,
    })?;
    memo.links.push(NONE)?;
    link(&mut memo.links, &mut memo.heads, place, slot);
    Ok(())
}
