//! The operators that a list of tokens may use.
ghost use Rattle.std.specs.Prelude.{◌≡◌, ◌≤◌, ◌<◌, ℕ, [], Some, length, IfOk, OnOk, IsTrue};
ghost use Rattle.std.specs.List.{slice_get};
ghost use Rattle.circ_spelling.specs.declared.grammar.Variable.{Variable as GrammarVariable};
ghost use Rattle.circ_mixfix.specs.Least.{StandsIn, least_of, IsLeastBy, AreLeast};
ghost use Rattle.circ_mixfix.specs.Least.{AreCandidates, AddsReached, AreReached, AreSettled};

use crate::least::{at_least, least_of};
use crate::reach::{FEW, Reach, reach_of};
use crate::words::Words;
use circ_spelling::Variable;
use circ_theory::Theory;
use std::alloc::{AllocError, Global};

// How few tokens may spell a term of each sort, and the operators that so many tokens may use.
#[derive(Drop)]
pub struct Candidates {
    pub least: Vec<u32>,
    pub ops: Vec<u32>,
}

// Adds the operators of a word that are constants or whose first argument has one of the sorts.
fn add_sorts(
    out: &mut Vec<u32>,
    theory: &Theory,
    word: &[u8],
    sorts: &[u32],
) -> Result<(), AllocError>
    ensures { OnOk result (AddsReached theory.now.signature sorts.now word.now out.old.items
        out.new.items) }
{
    out.extend_from_slice(theory.ops_by_word_and_sort(word, None))?;
    for sort in sorts {
        out.extend_from_slice(theory.ops_by_word_and_sort(word, Some(*sort)))?;
    }
    Ok(())
}

// The same, or all operators of the word where they are few.
fn add_word(
    out: &mut Vec<u32>,
    theory: &Theory,
    word: &[u8],
    sorts: &[u32],
) -> Result<(), AllocError>
    ensures { OnOk result (AddsReached theory.now.signature sorts.now word.now out.old.items
        out.new.items) }
{
    let all = theory.ops_by_word(word);
    if all.len() <= FEW {
        out.extend_from_slice(all)?;
        return Ok(());
    }
    add_sorts(out, theory, word, sorts)
}

// Those whose first word is among the texts and whose first argument, if there is one, has one of
// the sorts. Perhaps others are there.
fn reached(
    alloc: Global,
    words: &Words<'_>,
    theory: &Theory,
    sorts: &[u32],
) -> Result<Vec<u32>, AllocError>
    ensures { IfOk result (λ v. AreReached theory.now.signature words.now sorts.now
        (length words.now) v.items) }
{
    let mut out = Vec::new(alloc);
    for number in 0..words.count() {
        if let Some(word) = words.text(number) {
            add_word(&mut out, theory, word, sorts)?;
        }
    }
    Ok(out)
}

// Whether the number of the operator's result sort holds.
fn is_least_by(least: &[u32], theory: &Theory, number: u32, most: u32) -> bool
    ensures { IsTrue result → IsLeastBy theory.now.signature most least.now number }
{
    theory.known();
    let Some(decl) = theory.op(number) else {
        return true;
    };
    let sum = at_least(least, decl);
    if sum > most as u64 {
        return true;
    }
    least_of(least, decl.result) as u64 <= sum
}

fn are_least_by(least: &[u32], theory: &Theory, numbers: &[u32], most: u32) -> bool
    ensures { IsTrue result → (f : ℕ) → StandsIn numbers.now f
        → IsLeastBy theory.now.signature most least.now f }
{
    for number in numbers {
        if !is_least_by(least, theory, *number, most) {
            return false;
        }
    }
    true
}

fn are_low(least: &[u32], variables: &[Variable]) -> bool
    ensures { IsTrue result → (n : ℕ) (v : GrammarVariable)
        → slice_get variables.now n ≡ Some v → least_of least.now v.sort ≤ 1 }
{
    for variable in variables {
        if least_of(least, variable.sort) > 1 {
            return false;
        }
    }
    true
}

// Whether the numbers hold.
fn is_settled(
    found: &Reach<'_>,
    theory: &Theory,
    variables: &[Variable],
    ops: &[u32],
    most: u32,
) -> bool
    ensures { IsTrue result → AreSettled theory.now.signature variables.now most ops.now
        found.now }
{
    if found.most() != most {
        return false;
    }
    let least = found.least();
    if least.len() != theory.sort_count() as usize {
        return false;
    }
    if !are_low(least, variables) {
        return false;
    }
    are_least_by(least, theory, ops, most)
}

fn all_sorts(alloc: Global, count: u32) -> Result<Vec<u32>, AllocError>
    ensures { IfOk result (λ v. (s : ℕ) → s < count → StandsIn v.items s) }
{
    let mut sorts = Vec::new(alloc);
    for sort in 0..count {
        sorts.push(sort)?;
    }
    Ok(sorts)
}

// Without numbers each operator may be used.
fn all_candidates(
    alloc: Global,
    words: &Words<'_>,
    theory: &Theory,
    most: u32,
) -> Result<Candidates, AllocError>
    ensures none { IfOk result (λ c. c.least.items ≡ []) }
    ensures all { IfOk result (λ c. AreCandidates theory.now.signature words.now most
        c.least.items c.ops.items) }
{
    let _ = most;
    theory.known();
    let sorts = all_sorts(alloc, theory.sort_count())?;
    let ops = reached(alloc, words, theory, sorts.as_slice())?;
    Ok(Candidates {
        least: Vec::new(alloc),
        ops,
    })
}

// How few tokens may spell a term of each sort, as far as terms of at most `most` tokens go, and
// the operators of which these may be. Perhaps others are there too.
pub fn candidates_of(
    alloc: Global,
    words: &Words<'_>,
    theory: &Theory,
    variables: &[Variable],
    most: u32,
) -> Result<Candidates, AllocError>
    requires { most < 65536 }
    ensures least { IfOk result (λ c. AreLeast theory.now.signature words.now variables.now most
        c.least.items) }
    ensures ops { IfOk result (λ c. AreCandidates theory.now.signature words.now most
        c.least.items c.ops.items) }
{
    theory.known();
    let mut found = reach_of(alloc, words, theory, variables, most)?;
    let ops = reached(alloc, words, theory, found.sorts())?;
    if !is_settled(&found, theory, variables, ops.as_slice(), most) {
        return all_candidates(alloc, words, theory, most);
    }
    Ok(Candidates {
        least: found.take_least(alloc),
        ops,
    })
}
