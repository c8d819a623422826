//! The places that the symbols of a rule may reach, where precedences are left aside.
ghost use Rattle.std.specs.Prelude.{◌≡◌, ◌<◌, ◌≤◌, ◌+◌, ◌∷◌, ℕ, List, length, drop, get_or};
ghost use Rattle.std.specs.Prelude.{IsTrue};
ghost use Rattle.circ_spelling.specs.declared.grammar.Symbol.{Symbol};
ghost use Rattle.circ_spelling.specs.Ends.{Has, Keeps, ends_at};
ghost use Rattle.circ_spelling.specs.Reads.{IsToken};
ghost use Rattle.circ_spelling.specs.May.{MayRow};
ghost use Rattle.circ_spelling.specs.Reads.{CanBegin};

use crate::ends::{Ends, has, joined, no_ends, with};
use crate::grammar::Symbol;
use crate::starts::{Starts, ends_at};
use crate::steps::{Step, step_at};

// With the place behind a word, if the word stands at this place and this one is reached.
fn past_word(out: Ends, tokens: &[u32], reached: Ends, word: u32, place: usize) -> Ends
    requires { place < length tokens.now }
    ensures stay { Keeps out result }
    ensures here { Has reached place → get_or tokens.now place 0 ≡ word → Has result (place + 1) }
{
    if tokens[place] != word {
        return out;
    }
    if !has(reached, place) {
        return out;
    }
    with(out, place + 1)
}

// The places behind a word, from those that are reached from `low` on.
fn after_word(tokens: &[u32], reached: Ends, word: u32, low: usize) -> Ends
    ensures { (m : ℕ) → low ≤ m → Has reached m → IsToken tokens.now m word → Has result (m + 1) }
{
    let mut out = no_ends();
    for place in low..tokens.len() {
        out = past_word(out, tokens, reached, word, place);
    }
    out
}

// With the ends of the hole's terms that begin at this place, if it is reached.
fn past_hole(out: Ends, starts: &[Starts], reached: Ends, sort: usize, place: usize) -> Ends
    ensures stay { Keeps out result }
    ensures here { Has reached place → Keeps (ends_at starts.now sort place) result }
{
    if !has(reached, place) {
        return out;
    }
    joined(out, ends_at(starts, sort, place))
}

// The places behind a hole, from those that are reached from `low` on.
fn after_hole(starts: &[Starts], reached: Ends, sort: usize, low: usize, count: usize) -> Ends
    ensures { (m : ℕ) → low ≤ m → m < count → Has reached m → Keeps (ends_at starts.now sort m)
        result }
{
    let mut out = no_ends();
    for place in low..count {
        out = past_hole(out, starts, reached, sort, place);
    }
    out
}

// The places behind a symbol, from those that are reached from `low` on.
fn after(tokens: &[u32], starts: &[Starts], symbol: Symbol, reached: Ends, low: usize) -> Ends
    ensures { (ps : List Symbol) (m j : ℕ) → low ≤ m → Has reached m
        → MayRow tokens.now starts.now (symbol ∷ ps) m j
        → (k : ℕ) × (low ≤ k) × Has result k × MayRow tokens.now starts.now ps k j }
{
    match symbol {
        Symbol::Word(word) => after_word(tokens, reached, word, low),
        Symbol::Hole { sort, .. } => {
            after_hole(starts, reached, sort as usize, low, tokens.len())
        }
    }
}

// Symbols up to a place, and where they may end.
#[derive(Clone, Copy)]
struct Front {
    passed: usize,
    ends: Ends,
}

// Where the symbols at the front of those from one on may end: words, and the hole behind them.
fn front_at(
    tokens: &[u32],
    starts: &[Starts],
    symbols: &[Symbol],
    first: usize,
    from: usize,
) -> Front
    requires { first ≤ length symbols.now }
    ensures within { result.passed ≤ length symbols.now }
    ensures leads { (j : ℕ) → MayRow tokens.now starts.now (drop first symbols.now) from j
        → (k : ℕ) × (from ≤ k) × Has result.ends k
        × MayRow tokens.now starts.now (drop result.passed symbols.now) k j }
{
    let mut place = first;
    let mut here = from;
    while let Step::AtWord(word) = step_at(symbols, place) {
        if here >= tokens.len() || tokens[here] != word {
            return Front {
                passed: symbols.len(),
                ends: no_ends(),
            };
        }
        place += 1;
        here += 1;
    }
    behind_words(starts, symbols, place, here)
}

// Where the hole may end that begins at a place of the tokens, if there is one.
fn behind_words(starts: &[Starts], symbols: &[Symbol], place: usize, here: usize) -> Front
    requires { place ≤ length symbols.now }
    ensures within { result.passed ≤ length symbols.now }
    ensures leads { (ts : List ℕ) (j : ℕ) → MayRow ts starts.now (drop place symbols.now) here j
        → (k : ℕ) × (here ≤ k) × Has result.ends k
        × MayRow ts starts.now (drop result.passed symbols.now) k j }
{
    if place < symbols.len() {
        if let Symbol::Hole { sort, .. } = symbols[place] {
            return Front {
                passed: place + 1,
                ends: ends_at(starts, sort as usize, here),
            };
        }
    }
    Front {
        passed: place,
        ends: with(no_ends(), here),
    }
}

/// Where the symbols from one on may end that begin at a place.
pub fn row_ends(
    tokens: &[u32],
    starts: &[Starts],
    symbols: &[Symbol],
    first: usize,
    from: usize,
) -> Ends
    requires { first ≤ length symbols.now }
    ensures { (j : ℕ) → MayRow tokens.now starts.now (drop first symbols.now) from j → Has result
        j }
{
    let front = front_at(tokens, starts, symbols, first, from);
    let mut reached = front.ends;
    for place in front.passed..symbols.len() {
        reached = after(tokens, starts, symbols[place], reached, from);
    }
    reached
}

/// Whether the symbols from one on can begin at a place: where that is a word, it stands there.
pub fn can_begin(tokens: &[u32], symbols: &[Symbol], first: usize, from: usize) -> bool
    ensures { CanBegin tokens.now (drop first symbols.now) from → IsTrue result }
{
    match step_at(symbols, first) {
        Step::AtWord(word) => match tokens.get(from) {
            Some(token) => *token == word,
            None => false,
        },
        _ => true,
    }
}
