//! Whether sets of ends leave out nothing that ranges may spell.
ghost use Rattle.std.specs.Prelude.{◌≡◌, ◌<◌, ◌≤◌, ◌+◌, ℕ, length, drop, IsTrue};
ghost use Rattle.circ_spelling.specs.Ends.{Has, Keeps, ends_at};
ghost use Rattle.circ_spelling.specs.Reads.{IsToken};
ghost use Rattle.circ_spelling.specs.Limits.{most_tokens};
ghost use Rattle.circ_spelling.specs.May.{MayRow, RuleClosed, RulesClosed, VariablesClosed};
ghost use Rattle.circ_spelling.specs.May.{PairClosed, ParenthesesClosed, ClosedAt, IsClosed};

use crate::ends::{Ends, are_within, has};
use crate::grammar::{Grammar, Rule, Variable};
use crate::reached::{can_begin, row_ends};
use crate::starts::{Starts, ends_at, width_at};
use crate::steps::{Step, step_at};
use crate::{CLOSING, OPENING};

// Whether a term of the sort may end at each of these ends, wherever a first hole begins that may
// end at the place.
fn is_hole_closed(starts: &[Starts], hole: usize, sort: usize, ends: Ends, place: usize) -> bool
    ensures { IsTrue result → (i : ℕ) → i < place → Has (ends_at starts.now hole i) place
        → Keeps ends (ends_at starts.now sort i) }
{
    for from in 0..place {
        if !has(ends_at(starts, hole, from), place) {
            continue;
        }
        if !are_within(ends, ends_at(starts, sort, from)) {
            return false;
        }
    }
    true
}

// Whether the sets have what a rule that begins with a word adds to them at the place.
fn is_word_rule_closed(tokens: &[u32], starts: &[Starts], rule: &Rule, place: usize) -> bool
    ensures { IsTrue result → (j : ℕ) → MayRow tokens.now starts.now rule.now.symbols.items place j
        → Has (ends_at starts.now rule.now.sort place) j }
{
    if !can_begin(tokens, &rule.symbols, 0, place) {
        return true;
    }
    let ends = row_ends(tokens, starts, &rule.symbols, 0, place);
    are_within(ends, ends_at(starts, rule.sort as usize, place))
}

// The same of a rule that begins with a hole of this sort, which ends at the place.
fn is_hole_rule_closed(
    tokens: &[u32],
    starts: &[Starts],
    rule: &Rule,
    hole: usize,
    place: usize,
) -> bool
    requires { 1 ≤ length rule.now.symbols.items }
    ensures { IsTrue result → (i j : ℕ) → i < place → Has (ends_at starts.now hole i) place
        → MayRow tokens.now starts.now (drop 1 rule.now.symbols.items) place j
        → Has (ends_at starts.now rule.now.sort i) j }
{
    if !can_begin(tokens, &rule.symbols, 1, place) {
        return true;
    }
    let ends = row_ends(tokens, starts, &rule.symbols, 1, place);
    is_hole_closed(starts, hole, rule.sort as usize, ends, place)
}

// The same of any rule.
fn is_rule_closed(tokens: &[u32], starts: &[Starts], rule: &Rule, place: usize) -> bool
    ensures { IsTrue result → RuleClosed tokens.now starts.now rule.now.sort rule.now.symbols.items
        place }
{
    match step_at(&rule.symbols, 0) {
        Step::AtEnd => true,
        Step::AtWord(_) => is_word_rule_closed(tokens, starts, rule, place),
        Step::AtLast(hole) => {
            is_hole_rule_closed(tokens, starts, rule, hole.sort as usize, place)
        }
        Step::AtHole(hole) => {
            is_hole_rule_closed(tokens, starts, rule, hole.sort as usize, place)
        }
    }
}

fn are_rules_closed(tokens: &[u32], starts: &[Starts], rules: &[Rule], place: usize) -> bool
    ensures { IsTrue result → RulesClosed tokens.now starts.now rules.now (length rules.now) place }
{
    for rule in rules {
        if !is_rule_closed(tokens, starts, rule, place) {
            return false;
        }
    }
    true
}

// Whether the sets have the variable, if it stands at the place.
fn is_variable_closed(tokens: &[u32], starts: &[Starts], variable: &Variable, place: usize) -> bool
    ensures { IsTrue result → IsToken tokens.now place variable.now.word
        → Has (ends_at starts.now variable.now.sort place) (place + 1) }
{
    if place >= tokens.len() {
        return true;
    }
    if tokens[place] != variable.word {
        return true;
    }
    has(ends_at(starts, variable.sort as usize, place), place + 1)
}

fn are_variables_closed(
    tokens: &[u32],
    starts: &[Starts],
    variables: &[Variable],
    place: usize,
) -> bool
    ensures { IsTrue result → VariablesClosed tokens.now starts.now variables.now
        (length variables.now) place }
{
    for variable in variables {
        if !is_variable_closed(tokens, starts, variable, place) {
            return false;
        }
    }
    true
}

// Whether what may be spelled between two parentheses may be with them.
fn is_pair_closed(starts: &[Starts], opened: usize, closed: usize) -> bool
    requires opened { opened < 256 }
    requires closed { closed < 256 }
    ensures { IsTrue result → PairClosed starts.now opened closed }
{
    for sort in 0..width_at(starts, opened) {
        if !has(ends_at(starts, sort, opened + 1), closed) {
            continue;
        }
        if !has(ends_at(starts, sort, opened), closed + 1) {
            return false;
        }
    }
    true
}

// The same of a parenthesis at the place and each that closes one.
fn are_parentheses_closed(tokens: &[u32], starts: &[Starts], place: usize) -> bool
    requires { length tokens.now ≤ most_tokens }
    ensures { IsTrue result → ParenthesesClosed tokens.now starts.now place }
{
    if place >= tokens.len() {
        return true;
    }
    if tokens[place] != OPENING {
        return true;
    }
    for closed in 0..tokens.len() {
        if tokens[closed] != CLOSING {
            continue;
        }
        if !is_pair_closed(starts, place, closed) {
            return false;
        }
    }
    true
}

// Whether nothing is missing at the place.
fn is_closed_at(tokens: &[u32], starts: &[Starts], grammar: &Grammar, place: usize) -> bool
    requires { length tokens.now ≤ most_tokens }
    ensures { IsTrue result → ClosedAt grammar.now tokens.now starts.now place }
{
    if !are_variables_closed(tokens, starts, &grammar.variables, place) {
        return false;
    }
    if !are_parentheses_closed(tokens, starts, place) {
        return false;
    }
    are_rules_closed(tokens, starts, &grammar.rules, place)
}

/// Whether the sets have all ends.
pub fn is_closed(tokens: &[u32], starts: &[Starts], grammar: &Grammar) -> bool
    requires { length tokens.now ≤ most_tokens }
    ensures { IsTrue result → IsClosed grammar.now tokens.now starts.now }
{
    for place in 0..tokens.len() + 1 {
        if !is_closed_at(tokens, starts, grammar, place) {
            return false;
        }
    }
    true
}
