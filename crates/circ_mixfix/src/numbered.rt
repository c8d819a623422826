//! The tokens of two spans as numbers, with the chart's grammar over them.
ghost use Rattle.std.specs.Prelude.{◌≡◌, ◌≤◌, ◌<◌, [], length, IfOk, OnOk};
ghost use Rattle.circ_spelling.specs.Words.{HaveWords};
ghost use Rattle.circ_chart.specs.declared.TheConstants.{MOST_TOKENS};
ghost use Rattle.circ_lexer.specs.TokenList.{tokens_in, IsWithin};
ghost use Rattle.circ_mixfix.specs.Coding.{AreNumbered};
ghost use Rattle.circ_mixfix.specs.Variables.{vars_in};
ghost use Rattle.circ_mixfix.specs.WordLists.{BeginAlike};

use crate::grammars::grammar;
use crate::tokens::numbers;
use crate::variables::Scope;
use crate::words::Words;
use circ_lexer::{Span, Tokens};
use circ_spelling::Grammar;
use std::alloc::{AllocError, Global};

// The numbers of the tokens of two spans, and the grammar that spells over these what the theory
// and the variables spell.
#[derive(Drop)]
pub struct Numbered {
    pub left: Vec<u32>,
    pub right: Vec<u32>,
    pub grammar: Grammar,
}

// The list of texts is still empty. The texts of the tokens are added, then names of variables.
pub fn number_tokens<'a>(
    alloc: Global,
    words: &mut Words<'a>,
    scope: &Scope<'_>,
    tokens: &Tokens<'a>,
    left: Span,
    right: Span,
) -> Result<Box<Numbered>, AllocError>
    requires empty { words.old ≡ [] }
    requires left { IsWithin tokens.now left }
    requires right { IsWithin tokens.now right }
    requires few_left { length (tokens_in tokens.now left) ≤ MOST_TOKENS }
    requires few_right { length (tokens_in tokens.now right) ≤ MOST_TOKENS }
    ensures numbered { IfOk result (λ b. AreNumbered scope.now.theory.now.signature
        (vars_in scope.now) scope.now.hole (tokens_in tokens.now left) (tokens_in tokens.now right)
        words.new b.value) }
    ensures words { IfOk result (λ b. HaveWords b.value.grammar) }
{
    add_first(words)?;
    let left = numbers(alloc, words, tokens, left)?;
    let right = numbers(alloc, words, tokens, right)?;
    let count = words.count() as u32;
    let most = greater_count(&left, &right);
    let grammar = grammar(alloc, words, scope, count, most)?;
    let both = Numbered {
        left,
        right,
        grammar,
    };
    Ok(Box::new(alloc, both)?)
}

// Adds the texts that each list of texts begins with: the parentheses, and the name of the hole.
fn add_first(words: &mut Words<'_>) -> Result<(), AllocError>
    requires { words.old ≡ [] }
    ensures begin { OnOk result (BeginAlike words.new) }
    ensures few { OnOk result (length words.new ≤ 3) }
{
    words.add(b"(")?;
    words.add(b")")?;
    words.add(b"")?;
    Ok(())
}

// How many tokens the longer list has.
fn greater_count(left: &[u32], right: &[u32]) -> u32
    ensures left { length left.now < 65536 → length left.now ≤ result }
    ensures right { length right.now < 65536 → length right.now ≤ result }
    ensures small { result < 65536 }
{
    left.len().max(right.len()).min(65535) as u32
}
