//! Where the word behind a hole stands next.
ghost use Rattle.std.specs.Prelude.{◌≡◌, ◌+◌, ◌<◌, ◌≤◌, ◌∷◌, [], Some, false, length, max};
ghost use Rattle.std.specs.Prelude.{drop, IfOk};
ghost use Rattle.std.specs.List.{slice_get};
ghost use Rattle.circ_spelling.specs.declared.grammar.Symbol.TheVariants.{Word};
ghost use Rattle.circ_chart.specs.Places.{Skips, AreTables, HaveTables, table_in, tables_in};
ghost use Rattle.circ_chart.specs.Places.{next_of};
ghost use Rattle.circ_term.specs.Tree.{Trees};
ghost use Rattle.circ_spelling.specs.declared.grammar.Grammar.{Grammar};
ghost use Rattle.circ_spelling.specs.Words.{HaveWords};
ghost use Rattle.circ_spelling.specs.Reads.{Row};

use circ_spelling::{Rule, Step, Symbol, are_words, step_at};
use std::alloc::{AllocError, Global};

// For each place of the tokens the next one, from there on, where a word stands, or their end.
// Empty where every place may do.
#[derive(Drop)]
pub struct Table {
    pub next: Vec<usize>,
}

// The tables of a rule, one for each of its symbols.
#[derive(Drop)]
pub struct Tables {
    pub symbols: Vec<Table>,
}

/// The table of a word.
pub fn word_table(alloc: Global, tokens: &[u32], word: u32) -> Result<Table, AllocError>
    ensures { IfOk result (λ t. Skips tokens.now (Word word ∷ []) t.next.items) }
{
    let mut next = vec![in alloc; tokens.len(); tokens.len() + 1]?;
    let mut place = tokens.len();
    while place > 0 {
        place -= 1;
        next[place] = if tokens[place] == word {
            place
        } else {
            next[place + 1]
        };
    }
    Ok(Table { next })
}

// The table for the symbols behind one of a rule.
fn table_behind(
    alloc: Global,
    tokens: &[u32],
    symbols: &[Symbol],
    place: usize,
) -> Result<Table, AllocError>
    requires { place < length symbols.now }
    ensures { IfOk result (λ t. Skips tokens.now (drop (place + 1) symbols.now) t.next.items) }
{
    if let Symbol::Hole { .. } = symbols[place] {
        if let Step::AtWord(word) = step_at(symbols, place + 1) {
            return Ok(word_table(alloc, tokens, word)?);
        }
    }
    Ok(Table {
        next: Vec::new(alloc),
    })
}

fn rule_tables(alloc: Global, tokens: &[u32], symbols: &[Symbol]) -> Result<Tables, AllocError>
    ensures { IfOk result (λ t. AreTables tokens.now symbols.now t.symbols.items) }
{
    let mut all = Vec::with_capacity(alloc, symbols.len())?;
    for place in 0..symbols.len() {
        all.push(table_behind(alloc, tokens, symbols, place)?)?;
    }
    Ok(Tables { symbols: all })
}

/// The tables of all rules.
pub fn all_tables(alloc: Global, tokens: &[u32], rules: &[Rule]) -> Result<Vec<Tables>, AllocError>
    ensures { IfOk result (λ v. HaveTables tokens.now rules.now v.items) }
{
    let mut all = Vec::with_capacity(alloc, rules.len())?;
    for rule in rules {
        all.push(rule_tables(alloc, tokens, &rule.symbols)?)?;
    }
    Ok(all)
}

fn table_of(tables: &Tables, place: usize) -> &[usize]
    ensures { result.now ≡ table_in (slice_get tables.now.symbols.items place) }
{
    match tables.symbols.get(place) {
        Some(table) => table.next.as_slice(),
        None => &[],
    }
}

/// The table for the symbols behind one of a rule.
pub fn table_at(tables: &[Tables], number: usize, place: usize) -> &[usize]
    ensures { result.now ≡ table_in (slice_get (tables_in (slice_get tables.now number)) place) }
{
    match tables.get(number) {
        Some(tables) => table_of(tables, place),
        None => &[],
    }
}

/// The next place from this one on that the table says.
pub fn next_at(table: &[usize], place: usize) -> usize
    ensures { result ≡ max place (next_of table.now place) }
{
    match table.get(place) {
        Some(next) => place.max(*next),
        None => place,
    }
}

/// Whether a rule may spell a range: there is a token for each symbol, and for no other where all
/// are words, and what is behind its first symbol can begin in the range. If not, no row of its
/// symbols goes over the range.
pub fn can_span(
    tokens: &[u32],
    tables: &[Tables],
    rule: &Rule,
    number: usize,
    from: usize,
    to: usize,
) -> bool
    requires before { from < to }
    requires inside { to ≤ length tokens.now }
    ensures { result ≡ false → (g : Grammar) (args : Trees) → HaveWords g → slice_get g.rules.items
        number ≡ Some rule.now → HaveTables tokens.now g.rules.items tables.now → Row g tokens.now
        rule.now.symbols.items from to args → ⊥ }
{
    if rule.symbols.len() > to - from {
        return false;
    }
    if rule.symbols.len() != to - from && are_words(&rule.symbols) {
        return false;
    }
    match step_at(&rule.symbols, 0) {
        Step::AtWord(word) => tokens[from] == word,
        Step::AtHole { .. } => next_at(table_at(tables, number, 0), from + 1) < to,
        _ => true,
    }
}
