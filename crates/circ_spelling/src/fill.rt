//! Where terms may end, worked out once for a list of tokens.
//!
//! The sets are filled from the last place of the list to the first. No clause says that nothing is
//! missing: that is tested when they are full, and sets that fail the test are left out.
ghost use Rattle.std.specs.Prelude.{◌≤◌, ◌<◌, ℕ, List, length, IfOk};
ghost use Rattle.circ_spelling.specs.declared.grammar.Grammar.{Grammar};
ghost use Rattle.circ_spelling.specs.Limits.{most_tokens};
ghost use Rattle.circ_spelling.specs.May.{IsClosed};

use crate::closed::is_closed;
use crate::ends::{Ends, has, joined, no_ends, with};
use crate::grammar::{Grammar, Rule, Variable};
use crate::marks::width;
use crate::reached::{can_begin, row_ends};
use crate::starts::{Starts, ends_at, width_at};
use crate::steps::{Step, step_at};
use crate::{CLOSING, OPENING};
use std::alloc::{AllocError, Global};

// Lists of fewer tokens are read as quickly without the sets, and so are those of fewer than
// MANY_TOKENS by a few rules.
const SOME_TOKENS: usize = 24;

const MANY_TOKENS: usize = 64;

const MANY_RULES: usize = 32;

// Sorts from here on have no sets.
const MOST_SORTS: usize = 256;

// What a rule adds wherever its first hole ends at a place: the rest of it ends at one of these.
#[derive(Clone, Copy)]
struct Going {
    place: usize,
    hole: usize,
    sort: usize,
    ends: Ends,
}

// Whether the sets are worth their time.
fn is_worth(tokens: usize, rules: usize) -> bool {
    if tokens < SOME_TOKENS {
        return false;
    }
    tokens >= MANY_TOKENS || rules >= MANY_RULES
}

/// Sets of ends that leave out nothing, or no sets.
pub fn all_starts(
    alloc: Global,
    grammar: &Grammar,
    tokens: &[u32],
) -> Result<Vec<Starts>, AllocError>
    requires { length tokens.now ≤ most_tokens }
    ensures { IfOk result (λ v. IsClosed grammar.now tokens.now v.items) }
{
    if !is_worth(tokens.len(), grammar.rules.len()) {
        return Ok(no_starts(alloc));
    }
    let starts = filled(alloc, grammar, tokens)?;
    if !is_closed(tokens, &starts, grammar) {
        return Ok(no_starts(alloc));
    }
    Ok(starts)
}

fn no_starts(alloc: Global) -> Vec<Starts>
    ensures { (g : Grammar) (ts : List ℕ) → IsClosed g ts result.items }
{
    Vec::new(alloc)
}

// The sets of all places, the last place first, since what begins at a place rests on those behind
// it. The last set, behind all tokens, is empty.
fn filled(alloc: Global, grammar: &Grammar, tokens: &[u32]) -> Result<Vec<Starts>, AllocError>
    requires { length tokens.now ≤ most_tokens }
{
    let mut starts = empty_starts(alloc, tokens.len(), width(&grammar.rules).min(MOST_SORTS))?;
    let mut goings = Vec::new(alloc);
    let mut place = tokens.len();
    while place > 0 {
        place -= 1;
        add_variables(&mut starts, tokens, &grammar.variables, place);
        add_parentheses(&mut starts, tokens, place);
        add_words(&mut starts, tokens, &grammar.rules, place);
        go_on(&mut starts, &goings, place);
        push_goings(&mut goings, &starts, tokens, &grammar.rules, place)?;
    }
    Ok(starts)
}

fn empty_starts(alloc: Global, count: usize, width: usize) -> Result<Vec<Starts>, AllocError> {
    let mut starts = Vec::new(alloc);
    'all: for turn in 0..count {
        let _ = turn;
        let ends = vec![in alloc; no_ends(); width]?;
        starts.push(Starts { ends })?;
    }
    let none = vec![in alloc; no_ends(); width]?;
    starts.push(Starts { ends: none })?;
    Ok(starts)
}

// Where the sort has a set.
fn add_to(row: &mut Starts, sort: usize, ends: Ends) {
    if sort < row.ends.len() {
        row.ends[sort] = joined(row.ends[sort], ends);
    }
}

fn add(starts: &mut Vec<Starts>, sort: usize, place: usize, ends: Ends) {
    if place < starts.len() {
        add_to(&mut starts[place], sort, ends);
    }
}

fn add_variables(starts: &mut Vec<Starts>, tokens: &[u32], variables: &[Variable], place: usize)
    requires { place < length tokens.now }
{
    for variable in variables {
        if tokens[place] == variable.word {
            add(
                starts,
                variable.sort as usize,
                place,
                with(no_ends(), place + 1),
            );
        }
    }
}

// What is between a parenthesis at this place and one behind it.
fn add_parentheses(starts: &mut Vec<Starts>, tokens: &[u32], place: usize)
    requires inside { place < length tokens.now }
    requires few { length tokens.now ≤ most_tokens }
{
    if tokens[place] != OPENING {
        return;
    }
    for closed in place + 1..tokens.len() {
        if tokens[closed] == CLOSING {
            add_pair(starts, place, closed);
        }
    }
}

// What is between these two, for each sort that has a set.
fn add_pair(starts: &mut Vec<Starts>, opened: usize, closed: usize)
    requires opened { opened < closed }
    requires closed { closed < 256 }
{
    for sort in 0..width_at(starts.as_slice(), opened) {
        if has(ends_at(starts.as_slice(), sort, opened + 1), closed) {
            add(starts, sort, opened, with(no_ends(), closed + 1));
        }
    }
}

// What the rules that begin with a word add.
fn add_words(starts: &mut Vec<Starts>, tokens: &[u32], rules: &[Rule], place: usize) {
    for rule in rules {
        if let Step::AtWord(_) = step_at(&rule.symbols, 0) {
            add_row(starts, tokens, rule, place);
        }
    }
}

fn add_row(starts: &mut Vec<Starts>, tokens: &[u32], rule: &Rule, place: usize) {
    if can_begin(tokens, &rule.symbols, 0, place) {
        let ends = row_ends(tokens, starts.as_slice(), &rule.symbols, 0, place);
        add(starts, rule.sort as usize, place, ends);
    }
}

// What the rules that begin with a hole add, where the hole begins at this place. The last ones are
// those whose hole is shortest.
fn go_on(starts: &mut Vec<Starts>, goings: &[Going], place: usize) {
    for going in goings.iter().rev() {
        if has(ends_at(starts.as_slice(), going.hole, place), going.place) {
            add(starts, going.sort, place, going.ends);
        }
    }
}

// How the rules that begin with a hole go on behind it at this place.
fn push_goings(
    goings: &mut Vec<Going>,
    starts: &[Starts],
    tokens: &[u32],
    rules: &[Rule],
    place: usize,
) -> Result<(), AllocError> {
    for rule in rules {
        push_going(goings, starts, tokens, rule, place)?;
    }
    Ok(())
}

fn push_going(
    goings: &mut Vec<Going>,
    starts: &[Starts],
    tokens: &[u32],
    rule: &Rule,
    place: usize,
) -> Result<(), AllocError> {
    let hole = match step_at(&rule.symbols, 0) {
        Step::AtHole(wanted) => wanted.sort as usize,
        _ => return Ok(()),
    };
    if !can_begin(tokens, &rule.symbols, 1, place) {
        return Ok(());
    }
    let ends = row_ends(tokens, starts, &rule.symbols, 1, place);
    goings.push(Going {
        place,
        hole,
        sort: rule.sort as usize,
        ends,
    })?;
    Ok(())
}
