//! The rules that can have a part in reading some tokens.
ghost use Rattle.std.specs.Prelude.{◌≡◌, ◌↔◌, ◌≤◌, ℕ, false, length, IfOk, OnOk, IsTrue};
ghost use Rattle.circ_spelling.specs.Words.{HaveWords};
ghost use Rattle.circ_spelling.specs.Usable.{IsMarked, AreMarked, StayMarked, VariablesMarked};
ghost use Rattle.circ_spelling.specs.Usable.{RulesMarked, Covers, IsSame, AddsRule, KeepsRules};
ghost use Rattle.circ_spelling.specs.Usable.{IsAmong, AreAmong, HasTokens, GenerateAlike};
ghost use Rattle.circ_spelling.specs.declared.grammar.Rule.{Rule};

use crate::grammar::{Grammar, Rule, Symbol};
use crate::marks::{is_marked, mark, mark_variables, width};
use std::alloc::{AllocError, Global};

/// The grammar without the rules that have a word that is none of the tokens, and without those
/// that have a hole of a sort of which no list of so many tokens spells a term. Each rule has a
/// word. The only fault is want of memory.
pub fn usable_part(alloc: Global, grammar: &Grammar, tokens: &[u32]) -> Result<Grammar, AllocError>
    requires words { HaveWords grammar.now }
    ensures { IfOk result (GenerateAlike (λ ts. ts ≡ tokens.now) grammar.now) }
{
    let worded = worded_part(alloc, grammar, tokens)?;
    let marks = spelled_sorts(alloc, &worded, tokens.len())?;
    if are_usable(&worded.rules, &marks) {
        return Ok(worded);
    }
    Ok(spelled_part(alloc, &worded, &marks)?)
}

// Whether the holes of each rule are marked.
fn are_usable(rules: &[Rule], marks: &[bool]) -> bool {
    for rule in rules {
        if !are_marked(marks, &rule.symbols) {
            return false;
        }
    }
    true
}

// The grammar without the rules that have a word that is none of the tokens.
fn worded_part(alloc: Global, grammar: &Grammar, tokens: &[u32]) -> Result<Grammar, AllocError>
    requires words { HaveWords grammar.now }
    ensures { IfOk result (GenerateAlike (AreAmong tokens.now) grammar.now) }
{
    let rules = worded_rules(alloc, &grammar.rules, tokens)?;
    let variables = Vec::from_slice(alloc, &grammar.variables)?;
    Ok(Grammar { rules, variables })
}

// The grammar without the rules that have a hole that is not marked.
fn spelled_part(alloc: Global, grammar: &Grammar, marks: &[bool]) -> Result<Grammar, AllocError>
    requires words { HaveWords grammar.now }
    ensures { (n : ℕ) → Covers grammar.now n marks.now
        → IfOk result (GenerateAlike (λ ts. length ts ≤ n) grammar.now) }
{
    let rules = usable_rules(alloc, &grammar.rules, marks)?;
    let variables = Vec::from_slice(alloc, &grammar.variables)?;
    Ok(Grammar { rules, variables })
}

fn is_among(tokens: &[u32], word: u32) -> bool
    ensures { IsTrue result ↔ IsAmong tokens.now word }
{
    for token in tokens {
        if *token == word {
            return true;
        }
    }
    false
}

fn has_tokens(tokens: &[u32], symbols: &[Symbol]) -> bool
    ensures { IsTrue result ↔ HasTokens tokens.now symbols.now }
{
    for symbol in symbols {
        if let Symbol::Word(word) = symbol {
            if !is_among(tokens, *word) {
                return false;
            }
        }
    }
    true
}

// Marks the sorts of the terms that lists of at most `count` tokens spell.
fn spelled_sorts(alloc: Global, grammar: &Grammar, count: usize) -> Result<Vec<bool>, AllocError>
    requires words { HaveWords grammar.now }
    ensures { IfOk result (λ v. Covers grammar.now count v.items) }
{
    let mut marks = vec![in alloc; false; width(&grammar.rules)]?;
    mark_variables(&mut marks, &grammar.variables);
    mark_turns(&mut marks, grammar, count);
    Ok(marks)
}

// A term of one token more has arguments of fewer tokens, so that each turn marks the sorts of
// lists that are longer by one. A turn that marks nothing is the last.
fn mark_turns(marks: &mut Vec<bool>, grammar: &Grammar, count: usize)
    requires words { HaveWords grammar.now }
    requires variables { VariablesMarked grammar.now.variables.items
        (length grammar.now.variables.items) marks.old.items }
    ensures { Covers grammar.now count marks.new.items }
{
    'all: for turn in 0..count {
        let _ = turn;
        if !mark_rules(marks, &grammar.rules) {
            return;
        }
    }
}

fn are_marked(marks: &[bool], symbols: &[Symbol]) -> bool
    ensures { IsTrue result ↔ AreMarked marks.now symbols.now }
{
    for symbol in symbols {
        if let Symbol::Hole { sort, .. } = symbol {
            if !is_marked(marks, *sort) {
                return false;
            }
        }
    }
    true
}

// Marks the sort of a rule whose holes are marked. Whether it was not.
fn mark_rule(marks: &mut Vec<bool>, rule: &Rule) -> bool
    ensures marked { AreMarked marks.old.items rule.now.symbols.items → IsMarked marks.new.items
        rule.now.sort }
    ensures stay { StayMarked marks.old.items marks.new.items }
    ensures same { result ≡ false → marks.new.items ≡ marks.old.items }
{
    if is_marked(marks.as_slice(), rule.sort) {
        return false;
    }
    if !are_marked(marks.as_slice(), &rule.symbols) {
        return false;
    }
    mark(marks, rule.sort);
    true
}

// Whether a sort was marked.
fn mark_rules(marks: &mut Vec<bool>, rules: &[Rule]) -> bool
    ensures rules { RulesMarked rules.now (length rules.now) marks.old.items marks.new.items }
    ensures stay { StayMarked marks.old.items marks.new.items }
    ensures same { result ≡ false → marks.new.items ≡ marks.old.items }
{
    let mut any = false;
    for rule in rules {
        any = mark_rule(marks, rule) | any;
    }
    any
}

fn same(alloc: Global, rule: &Rule) -> Result<Rule, AllocError>
    ensures { IfOk result (IsSame rule.now) }
{
    let symbols = Vec::from_slice(alloc, &rule.symbols)?;
    Ok(Rule {
        op: rule.op,
        sort: rule.sort,
        prec: rule.prec,
        symbols,
    })
}

// Adds the rule, if its holes are marked.
fn push_usable(
    alloc: Global,
    some: &mut Vec<Rule>,
    rule: &Rule,
    marks: &[bool],
) -> Result<(), AllocError>
    ensures { OnOk result (AddsRule (λ r. AreMarked marks.now r.symbols.items) rule.now
        some.old.items some.new.items) }
{
    if !are_marked(marks, &rule.symbols) {
        return Ok(());
    }
    some.push(same(alloc, rule)?)?;
    Ok(())
}

// Adds the rule, if its words are tokens.
fn push_worded(
    alloc: Global,
    some: &mut Vec<Rule>,
    rule: &Rule,
    tokens: &[u32],
) -> Result<(), AllocError>
    ensures { OnOk result (AddsRule (λ r. HasTokens tokens.now r.symbols.items) rule.now
        some.old.items some.new.items) }
{
    if !has_tokens(tokens, &rule.symbols) {
        return Ok(());
    }
    some.push(same(alloc, rule)?)?;
    Ok(())
}

// The rules whose holes are marked.
fn usable_rules(alloc: Global, rules: &[Rule], marks: &[bool]) -> Result<Vec<Rule>, AllocError>
    ensures { IfOk result (λ v. KeepsRules (λ r. AreMarked marks.now r.symbols.items) rules.now
        (length rules.now) v.items) }
{
    let mut some = Vec::new(alloc);
    for rule in rules {
        push_usable(alloc, &mut some, rule, marks)?;
    }
    Ok(some)
}

// The rules whose words are tokens.
fn worded_rules(alloc: Global, rules: &[Rule], tokens: &[u32]) -> Result<Vec<Rule>, AllocError>
    ensures { IfOk result (λ v. KeepsRules (λ r. HasTokens tokens.now r.symbols.items) rules.now
        (length rules.now) v.items) }
{
    let mut some = Vec::new(alloc);
    for rule in rules {
        push_worded(alloc, &mut some, rule, tokens)?;
    }
    Ok(some)
}
