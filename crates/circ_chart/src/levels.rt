//! How loosely tokens bind. Where holes take nothing looser than their rule, a term has outside
//! parentheses only tokens that bind as tightly as it has to.
ghost use Rattle.std.specs.Prelude.{◌≡◌, ◌≤◌, ◌<◌, ◌∷◌, ℕ, List, length, get_or, IfOk, IsTrue};
ghost use Rattle.circ_spelling.specs.declared.grammar.Symbol.{Symbol};
ghost use Rattle.circ_chart.specs.Levels.{IsAtMost, AreAtMost, RulesAtMost, VariablesAtMost};
ghost use Rattle.circ_chart.specs.Levels.{AreLevels, IsAbove};

use crate::OPENING;
use crate::places::{Table, next_at, word_table};
use circ_spelling::{Grammar, Rule, Symbol, Variable};
use std::alloc::{AllocError, Global};

/// How loosely each token binds.
#[derive(Drop)]
pub struct Levels {
    /// Up to this bound the levels are to be relied on.
    pub bound: u8,
    /// Of each token the least precedence of a rule that has it as a word; 0 where it is a
    /// variable.
    pub tokens: Vec<u8>,
    /// For each place but the first the next place, from there on, of a higher level than the one
    /// before it; counted from 0, and the number of tokens where there is none.
    pub higher: Vec<usize>,
    // Where the next parenthesis opens.
    pub opened: Table,
}

// Lists of fewer tokens are read as quickly without levels.
const SOME_TOKENS: usize = 24;

fn no_levels(alloc: Global) -> Levels
    ensures { (g : _) (ts : List ℕ) → AreLevels g ts result }
{
    Levels {
        bound: 0,
        tokens: Vec::new(alloc),
        higher: Vec::new(alloc),
        opened: Table {
            next: Vec::new(alloc),
        },
    }
}

/// The levels of the tokens.
pub fn all_levels(alloc: Global, grammar: &Grammar, tokens: &[u32]) -> Result<Levels, AllocError>
    ensures { IfOk result (AreLevels grammar.now tokens.now) }
{
    if tokens.len() < SOME_TOKENS {
        return Ok(no_levels(alloc));
    }
    if has_loose_hole(&grammar.rules) {
        return Ok(no_levels(alloc));
    }
    let levels = least_precs(alloc, grammar, tokens)?;
    let higher = next_higher(alloc, &levels)?;
    let opened = word_table(alloc, tokens, OPENING)?;
    let bound = tested_bound(tokens, &levels, grammar);
    Ok(Levels {
        bound,
        tokens: levels,
        higher,
        opened,
    })
}

// Whether one of the tightest rules has a hole for looser terms, so that no bound is left.
fn has_loose_hole(rules: &[Rule]) -> bool {
    for rule in rules {
        if rule.prec == 0 && is_loose(&rule.symbols) {
            return true;
        }
    }
    false
}

fn is_loose(symbols: &[Symbol]) -> bool {
    for symbol in symbols {
        if let Symbol::Hole { below, .. } = symbol {
            if *below > 1 {
                return true;
            }
        }
    }
    false
}

// The least precedences. No clause says so: it is tested afterwards.
fn least_precs(alloc: Global, grammar: &Grammar, tokens: &[u32]) -> Result<Vec<u8>, AllocError> {
    let mut levels = vec![in alloc; u8::MAX; tokens.len()]?;
    for rule in &grammar.rules {
        lower_words(&mut levels, tokens, rule);
    }
    for variable in &grammar.variables {
        lower(&mut levels, tokens, variable.word, 0);
    }
    Ok(levels)
}

fn lower_words(levels: &mut Vec<u8>, tokens: &[u32], rule: &Rule) {
    for symbol in &rule.symbols {
        if let Symbol::Word(word) = symbol {
            lower(levels, tokens, *word, rule.prec);
        }
    }
}

fn lower(levels: &mut Vec<u8>, tokens: &[u32], word: u32, prec: u8) {
    for place in 0..tokens.len() {
        if tokens[place] == word {
            lower_at(levels, place, prec);
        }
    }
}

fn lower_at(levels: &mut Vec<u8>, place: usize, prec: u8) {
    if place < levels.len() {
        levels[place] = levels[place].min(prec);
    }
}

fn level_at(levels: &[u8], place: usize) -> u8
    ensures { result ≡ get_or levels.now place 0 }
{
    match levels.get(place) {
        Some(level) => *level,
        None => 0,
    }
}

// The tables of the next places of higher levels. No clause says so: each level that is found is
// looked at.
fn next_higher(alloc: Global, levels: &[u8]) -> Result<Vec<usize>, AllocError> {
    let mut higher = vec![in alloc; levels.len(); levels.len() + 1]?;
    for back in 0..levels.len() {
        let place = levels.len() - back;
        let next = first_higher(levels, &higher, level_at(levels, place - 1), place);
        if place < higher.len() {
            higher[place] = next;
        }
    }
    Ok(higher)
}

fn first_higher(levels: &[u8], higher: &[usize], low: u8, from: usize) -> usize {
    let mut place = from;
    while place < levels.len() {
        if level_at(levels, place) > low {
            return place;
        }
        place = next_at(higher, place + 1);
    }
    levels.len()
}

// Whether the word stands only where the level is this precedence or less.
fn is_at_most(tokens: &[u32], levels: &[u8], word: u32, prec: u8) -> bool
    ensures { IsTrue result → IsAtMost tokens.now levels.now word prec }
{
    for place in 0..tokens.len() {
        if tokens[place] != word {
            continue;
        }
        if level_at(levels, place) > prec {
            return false;
        }
    }
    true
}

fn is_symbol_at_most(tokens: &[u32], levels: &[u8], symbol: Symbol, prec: u8) -> bool
    ensures { IsTrue result → (ps : List Symbol) → AreAtMost tokens.now levels.now prec ps
        → AreAtMost tokens.now levels.now prec (symbol ∷ ps) }
{
    match symbol {
        Symbol::Word(word) => is_at_most(tokens, levels, word, prec),
        Symbol::Hole { below, .. } => below as usize <= prec as usize + 1,
    }
}

fn are_at_most(tokens: &[u32], levels: &[u8], symbols: &[Symbol], prec: u8) -> bool
    ensures { IsTrue result → AreAtMost tokens.now levels.now prec symbols.now }
{
    for symbol in symbols {
        if !is_symbol_at_most(tokens, levels, *symbol, prec) {
            return false;
        }
    }
    true
}

// The bound, or the precedence of the rule, if that is less and the levels do not hold for it.
fn bound_with(tokens: &[u32], levels: &[u8], rule: &Rule, bound: u8) -> u8
    ensures least { result ≤ bound }
    ensures rule { rule.now.prec < result → AreAtMost tokens.now levels.now rule.now.prec
        rule.now.symbols.items }
{
    if rule.prec >= bound {
        return bound;
    }
    if are_at_most(tokens, levels, &rule.symbols, rule.prec) {
        return bound;
    }
    rule.prec
}

fn bound_of(tokens: &[u32], levels: &[u8], rules: &[Rule]) -> u8
    ensures { RulesAtMost tokens.now levels.now rules.now (length rules.now) result }
{
    let mut bound = u8::MAX;
    for rule in rules {
        bound = bound_with(tokens, levels, rule, bound);
    }
    bound
}

fn are_variables_least(tokens: &[u32], levels: &[u8], variables: &[Variable]) -> bool
    ensures { IsTrue result → VariablesAtMost tokens.now levels.now variables.now
        (length variables.now) }
{
    for variable in variables {
        if !is_at_most(tokens, levels, variable.word, 0) {
            return false;
        }
    }
    true
}

// The bound up to which the levels hold.
fn tested_bound(tokens: &[u32], levels: &[u8], grammar: &Grammar) -> u8
    ensures rules { RulesAtMost tokens.now levels.now grammar.now.rules.items
        (length grammar.now.rules.items) result }
    ensures variables { 0 < result → VariablesAtMost tokens.now levels.now
        grammar.now.variables.items (length grammar.now.variables.items) }
{
    if !are_variables_least(tokens, levels, &grammar.variables) {
        return 0;
    }
    bound_of(tokens, levels, &grammar.rules)
}

/// Whether a token of the range, with no parenthesis opened before it, binds too loosely for a
/// term of a precedence below the bound.
pub fn is_above(levels: &Levels, below: u8, from: usize, to: usize) -> bool
    ensures { IsTrue result → IsAbove levels.now below from to }
{
    if below > levels.bound {
        return false;
    }
    let end = to.min(next_at(&levels.opened.next, from));
    let mut place = from;
    while place < end {
        if level_at(&levels.tokens, place) >= below {
            return true;
        }
        place = next_at(&levels.higher, place + 1);
    }
    false
}
