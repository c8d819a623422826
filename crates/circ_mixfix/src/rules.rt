//! Rules of the chart for the operators of a theory.
ghost use Rattle.std.specs.Prelude.{◌≡◌, ◌≤◌, ◌^◌, ◌+◌, length, IfOk, OnOk, map};
ghost use Rattle.std.specs.Option.{option_map};
ghost use Rattle.circ_theory.specs.Operators.{operator_of};
ghost use Rattle.circ_mixfix.specs.Symbols.{symbols_of, precedence_of};
ghost use Rattle.circ_mixfix.specs.SymbolLists.{symbol_of};
ghost use Rattle.circ_mixfix.specs.Coding.{GivesSymbol, GivesSymbols, GivesRule, HasRules};
ghost use Rattle.circ_mixfix.specs.Coding.{AddsRule, AddsRules, IsBelow, AreBelow};
ghost use Rattle.circ_mixfix.specs.Least.{StandsIn};
ghost use Rattle.circ_chart.specs.declared.TheConstants.{EVERY};

use crate::EVERY;
use crate::candidates::Candidates;
use crate::least::at_least;
use crate::spelling::{Symbol, precedence, symbols};
use crate::words::Words;
use circ_spelling::{Rule, Symbol as ChartSymbol};
use circ_theory::{OpDecl, Theory};
use std::alloc::{AllocError, Global};

// The chart's symbol, where a word has a number.
fn coded_symbol(words: &Words<'_>, symbol: &Symbol<'_>) -> Option<ChartSymbol>
    requires few { length words.now ≤ 2 ^ 32 }
    requires below { IsBelow (symbol_of symbol.now) }
    ensures { GivesSymbol words.now (symbol_of symbol.now) result }
{
    match symbol {
        Symbol::Word(text) => match words.number(text) {
            Some(number) => Some(ChartSymbol::Word(number as u32)),
            None => None,
        },
        Symbol::Hole { sort, below } => Some(ChartSymbol::Hole {
            sort: *sort,
            below: *below,
        }),
    }
}

// The chart's symbols, where each word has a number.
fn coded(
    alloc: Global,
    words: &Words<'_>,
    symbols: &[Symbol<'_>],
) -> Result<Option<Vec<ChartSymbol>>, AllocError>
    requires few { length words.now ≤ 2 ^ 32 }
    requires below { AreBelow (map symbol_of symbols.now) }
    ensures { IfOk result (λ o. GivesSymbols words.now (map symbol_of symbols.now)
        (option_map (λ v. v.items) o)) }
{
    let mut out = Vec::with_capacity(alloc, symbols.len())?;
    for symbol in symbols {
        match coded_symbol(words, symbol) {
            Some(symbol) => out.push(symbol)?,
            None => return Ok(None),
        }
    }
    Ok(Some(out))
}

// The chart's rule for an operator, where each of its words has a number.
fn rule(
    alloc: Global,
    words: &Words<'_>,
    number: u32,
    decl: &OpDecl,
) -> Result<Option<Rule>, AllocError>
    requires few { length words.now ≤ 2 ^ 32 }
    ensures { IfOk result (GivesRule words.now number (operator_of decl.now)) }
{
    let prec = precedence(decl);
    if prec >= EVERY {
        return Ok(None);
    }
    let symbols = symbols(alloc, decl)?;
    match coded(alloc, words, &symbols)? {
        Some(symbols) => Ok(Some(Rule {
            op: number,
            sort: decl.result,
            prec,
            symbols,
        })),
        None => Ok(None),
    }
}

// Adds the rule of an operator, if its symbols may be at most `most` tokens and each of its words
// has a number.
fn push_rule(
    alloc: Global,
    out: &mut Vec<Rule>,
    words: &Words<'_>,
    theory: &Theory,
    least: &[u32],
    most: u32,
    number: u32,
) -> Result<(), AllocError>
    requires few { length words.now ≤ 2 ^ 32 }
    ensures { OnOk result (AddsRule theory.now.signature words.now most least.now number
        out.old.items out.new.items) }
{
    theory.known();
    let Some(decl) = theory.op(number) else {
        return Ok(());
    };
    if at_least(least, decl) > most as u64 {
        return Ok(());
    }
    let Some(rule) = rule(alloc, words, number, decl)? else {
        return Ok(());
    };
    out.push(rule)?;
    Ok(())
}

// Adds the rules of operators, as far as their symbols may be at most `most` tokens and their words
// have numbers.
fn push_rules(
    alloc: Global,
    out: &mut Vec<Rule>,
    words: &Words<'_>,
    theory: &Theory,
    least: &[u32],
    most: u32,
    numbers: &[u32],
) -> Result<(), AllocError>
    requires few { length words.now ≤ 2 ^ 32 }
    ensures { OnOk result (AddsRules theory.now.signature words.now most least.now numbers.now
        out.old.items out.new.items) }
{
    for number in numbers {
        push_rule(alloc, out, words, theory, least, most, *number)?;
    }
    Ok(())
}

// The rules of those of the operators whose symbols may be at most `most` tokens and whose words
// have numbers.
pub fn rules(
    alloc: Global,
    words: &Words<'_>,
    theory: &Theory,
    candidates: &Candidates,
    most: u32,
) -> Result<Vec<Rule>, AllocError>
    requires few { length words.now ≤ 2 ^ 32 }
    ensures { IfOk result (λ v. HasRules theory.now.signature words.now most
        candidates.now.least.items (StandsIn candidates.now.ops.items) v.items) }
{
    let mut out = Vec::new(alloc);
    push_rules(
        alloc,
        &mut out,
        words,
        theory,
        &candidates.least,
        most,
        &candidates.ops,
    )?;
    Ok(out)
}
