//! The chart's grammar for the tokens of some spans.
ghost use Rattle.std.specs.Prelude.{◌≡◌, ◌≤◌, ◌<◌, ◌+◌, ◌^◌, length, IfOk, OnOk};
ghost use Rattle.circ_spelling.specs.Words.{HaveWords};
ghost use Rattle.circ_mixfix.specs.Coding.{IsGrammarOf};
ghost use Rattle.circ_mixfix.specs.Variables.{vars_in};
ghost use Rattle.circ_mixfix.specs.WordLists.{BeginAlike, GrowsTo};

use crate::candidates::candidates_of;
use crate::rules::rules;
use crate::variables::{Scope, variables};
use crate::words::Words;
use circ_spelling::Grammar;
use std::alloc::{AllocError, Global};

// The grammar that spells, of at most `most` of the first texts, what the theory and the variables
// spell. Names of variables that are written are added to the texts.
pub fn grammar<'a>(
    alloc: Global,
    words: &mut Words<'a>,
    scope: &Scope<'_>,
    count: u32,
    most: u32,
) -> Result<Grammar, AllocError>
    requires begin { BeginAlike words.old }
    requires count { count ≡ length words.old }
    requires few { length words.old + count ≤ 2 ^ 32 }
    requires most { most < 65536 }
    ensures grammar { IfOk result (λ g. IsGrammarOf scope.now.theory.now.signature
        (vars_in scope.now) scope.now.hole words.new count most g) }
    ensures words { IfOk result HaveWords }
    ensures grows { OnOk result (GrowsTo words.old words.new count) }
{
    let variables = variables(alloc, words, scope, count)?;
    let candidates = candidates_of(alloc, words, scope.theory, &variables, most)?;
    let rules = rules(alloc, words, scope.theory, &candidates, most)?;
    words.known();
    scope.theory.known();
    Ok(Grammar { rules, variables })
}
