//! What the calls that add parts test, and how they keep the numbers of operators.
ghost use Rattle.std.specs.Prelude.{◌≡◌, ℕ, List, [], ◌∷◌, ◌++◌, ◌&&◌, if◌then◌else◌, nat_eq};
ghost use Rattle.std.specs.Prelude.{None, nat_lt, not, find, is_some, OnOk, OnErr};
ghost use Rattle.std.specs.Map.{lookup};
ghost use Rattle.std.specs.Cmp.Lexicographic.{pointwise};
ghost use Rattle.circ_term.specs.Tree.{operator_number};
ghost use Rattle.circ_form.specs.Form.{hole_count};
ghost use Rattle.circ_theory.specs.Operators.{operator_of, is_ill_sorted};
ghost use Rattle.circ_theory.specs.Adding.{count_fault};
ghost use Rattle.circ_theory.specs.Observing.{first_or_zero, long_fault};
ghost use Rattle.circ_theory.specs.Inside.{IsNoted, IsKeptSo};

use crate::fault::TheoryFault;
use crate::overloads::Overloads;
use crate::parts::OpDecl;
use circ_form::Piece;
use circ_term::Term;
use indexmap::IndexMap;
use std::alloc::{AllocError, Global};

// Adds an operator to those kept under a word. The first argument has this sort.
pub(crate) fn note_word(
    alloc: Global,
    by_word: &mut IndexMap<Vec<u8>, Overloads>,
    word: &[u8],
    sort: Option<u32>,
    number: u32,
) -> Result<(), AllocError>
    ensures noted { OnOk result (IsNoted by_word.old.entries by_word.new.entries word.now sort
        number) }
    ensures err { OnErr result (IsKeptSo by_word.old.entries by_word.new.entries) }
{
    if let Some(overloads) = by_word.get_mut(word) {
        return overloads.note(alloc, sort, number);
    }
    let copy = Vec::from_slice(alloc, word)?;
    begin_word(alloc, by_word, copy, sort, number)
}

// The same under a word that has no operator.
fn begin_word(
    alloc: Global,
    by_word: &mut IndexMap<Vec<u8>, Overloads>,
    word: Vec<u8>,
    sort: Option<u32>,
    number: u32,
) -> Result<(), AllocError>
    requires { lookup (λ k. pointwise nat_eq word.items k.items) by_word.old.entries ≡ None }
    ensures noted { OnOk result (IsNoted by_word.old.entries by_word.new.entries word.items sort
        number) }
    ensures err { OnErr result (IsKeptSo by_word.old.entries by_word.new.entries) }
{
    let overloads = Overloads::one(alloc, sort, number)?;
    drop(by_word.insert(word, overloads)?);
    Ok(())
}

pub(crate) fn first_or_zero(numbers: &[u32]) -> u32
    ensures { result ≡ first_or_zero numbers.now }
{
    match numbers {
        [] => 0,
        [first, ..] => *first,
    }
}

pub(crate) fn is_rule_with(exec: bool, left: &Term, bound: bool) -> bool
    ensures { result ≡ (exec && is_some (operator_number left.now) && bound) }
{
    exec && left.op_number().is_some() && bound
}

pub(crate) fn first_from(count: u32, sorts: &[u32]) -> Option<u32>
    ensures { result ≡ find (λ s. not (nat_lt s count)) sorts.now }
{
    sorts.iter().copied().find(|sort| !(*sort < count))
}

pub(crate) fn count_fault(count: u32, most: usize) -> Option<TheoryFault>
    ensures { result ≡ count_fault most count }
{
    if (count as usize) < most {
        None
    } else {
        Some(TheoryFault::Limit {
            count: count as u64 + 1,
        })
    }
}

pub(crate) fn long_fault(count: usize, most: usize) -> Option<TheoryFault>
    ensures { result ≡ long_fault most count }
{
    if count > most {
        Some(TheoryFault::Limit {
            count: count as u64,
        })
    } else {
        None
    }
}

fn holes(pieces: &[Piece]) -> usize
    ensures { result ≡ hole_count pieces.now }
{
    pieces
        .iter()
        .filter(|piece| match piece {
            Piece::Hole => true,
            Piece::Word(_) => false,
        })
        .count()
}

pub(crate) fn is_ill_sorted(decl: &OpDecl) -> bool
    ensures { result ≡ is_ill_sorted (operator_of decl.now) }
{
    let holes = holes(decl.form.pieces());
    if holes != 0 && holes != decl.args.len() {
        return true;
    }
    if !(decl.assoc || decl.comm || decl.idem) {
        return false;
    }
    !is_binary(decl.args.as_slice(), decl.result)
}

// Whether two argument sorts and the result sort are one.
fn is_binary(args: &[u32], sort: u32) -> bool
    ensures { result ≡ pointwise nat_eq args.now (sort ∷ sort ∷ []) }
{
    match args {
        [first, second] => *first == sort && *second == sort,
        _ => false,
    }
}
