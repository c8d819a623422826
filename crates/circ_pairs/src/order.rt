//! The numbering of variables.
ghost use Rattle.std.specs.Prelude.{◌≡◌, ◌↔◌, ◌≤◌, ◌^◌, length, map, IsTrue, IfOk};
ghost use Rattle.std.specs.Bool.{OnTrue};
ghost use Rattle.circ_term.specs.Tree.{trees_of};
ghost use Rattle.circ_pairs.specs.Goal.{goal};
ghost use Rattle.circ_pairs.specs.Pairs.{plain_pair};
ghost use Rattle.circ_pairs.specs.Variables.{IsInOrder, AreNumberedFrom, seen, seen_in};
ghost use Rattle.circ_pairs.specs.Variables.{seen_in_all, seen_in_pairs, sorts_of, numbered};
ghost use Rattle.circ_pairs.specs.Rule.{is_bound};

use crate::pairs::{Pair, Pairs};
use circ_term::{Kind, Term};
use std::alloc::{AllocError, Global};

/// Whether two terms and conditions are numbered in order: the variables have the numbers 0, 1 and
/// so on by their first occurrence, the left term first, the conditions last. Costs as much as the
/// terms have nodes.
pub fn in_order(alloc: Global, left: &Term, right: &Term, conds: &Pairs) -> Result<bool, AllocError>
    ensures { IfOk result (λ b. IsTrue b ↔ IsInOrder (goal conds.now left.now right.now)) }
{
    let mut sorts = Vec::new(alloc);
    if !visit_sides(left, right, &mut sorts)? {
        return Ok(false);
    }
    visit_pairs(conds.as_slice(), &mut sorts)
}

/// The variables of an equation that is numbered in order.
#[derive(Drop)]
pub struct EquationVariables {
    /// Their sorts.
    pub sorts: Vec<u32>,
    /// Whether each one of the right side and of the conditions is in the left side.
    pub bound: bool,
}

/// The variables of two terms and conditions that are numbered in order. Costs as much as the terms
/// have nodes.
pub fn equation_variables(
    alloc: Global,
    left: &Term,
    right: &Term,
    conds: &Pairs,
) -> Result<EquationVariables, AllocError>
    requires { IsInOrder (goal conds.now left.now right.now) }
    ensures sorts { IfOk result (λ v. v.sorts.items ≡
        sorts_of (goal conds.now left.now right.now)) }
    ensures few { IfOk result (λ v. length v.sorts.items ≤ 2 ^ 32) }
    ensures bound { IfOk result (λ v. v.bound ≡ is_bound
        (goal conds.now left.now right.now)) }
{
    let mut sorts = Vec::new(alloc);
    visit(left, &mut sorts)?;
    let count = sorts.len();
    visit(right, &mut sorts)?;
    visit_pairs(conds.as_slice(), &mut sorts)?;
    let bound = sorts.len() == count;
    Ok(EquationVariables { sorts, bound })
}

fn visit_pairs(pairs: &[Pair], sorts: &mut Vec<u32>) -> Result<bool, AllocError>
    ensures answer { IfOk result (λ b. IsTrue b ↔ AreNumberedFrom 0
        (seen_in_pairs (map plain_pair pairs.now) (numbered 0 sorts.old.items))) }
    ensures seen { IfOk result (λ b. OnTrue b (numbered 0 sorts.new.items ≡
        seen_in_pairs (map plain_pair pairs.now) (numbered 0 sorts.old.items))) }
    ensures few { length sorts.old.items ≤ 2 ^ 32 → length sorts.new.items ≤ 2 ^ 32 }
{
    for pair in pairs {
        if !visit_sides(&pair.left, &pair.right, sorts)? {
            return Ok(false);
        }
    }
    Ok(true)
}

fn visit_sides(left: &Term, right: &Term, sorts: &mut Vec<u32>) -> Result<bool, AllocError>
    ensures answer { IfOk result (λ b. IsTrue b ↔ AreNumberedFrom 0
        (seen_in right.now (seen_in left.now (numbered 0 sorts.old.items)))) }
    ensures seen { IfOk result (λ b. OnTrue b (numbered 0 sorts.new.items ≡
        seen_in right.now (seen_in left.now (numbered 0 sorts.old.items)))) }
    ensures few { length sorts.old.items ≤ 2 ^ 32 → length sorts.new.items ≤ 2 ^ 32 }
{
    if !visit(left, sorts)? {
        return Ok(false);
    }
    visit(right, sorts)
}

// Adds the sorts of the term's variables to those of the variables seen so far, which have the
// numbers from 0. Answers whether the numbering goes on in order.
#[cycle(visit)]
fn visit(term: &Term, sorts: &mut Vec<u32>) -> Result<bool, AllocError>
    ensures answer { IfOk result (λ b. IsTrue b ↔ AreNumberedFrom 0
        (seen_in term.now (numbered 0 sorts.old.items))) }
    ensures seen { IfOk result (λ b. OnTrue b (numbered 0 sorts.new.items ≡
        seen_in term.now (numbered 0 sorts.old.items))) }
    ensures few { length sorts.old.items ≤ 2 ^ 32 → length sorts.new.items ≤ 2 ^ 32 }
{
    match term.kind() {
        Kind::Variable { number, sort } => note(number, sort, sorts),
        Kind::Application { args, .. } => visit_all(args, sorts),
    }
}

#[cycle(visit)]
fn visit_all(terms: &[Term], sorts: &mut Vec<u32>) -> Result<bool, AllocError>
    ensures answer { IfOk result (λ b. IsTrue b ↔ AreNumberedFrom 0
        (seen_in_all (trees_of terms.now) (numbered 0 sorts.old.items))) }
    ensures seen { IfOk result (λ b. OnTrue b (numbered 0 sorts.new.items ≡
        seen_in_all (trees_of terms.now) (numbered 0 sorts.old.items))) }
    ensures few { length sorts.old.items ≤ 2 ^ 32 → length sorts.new.items ≤ 2 ^ 32 }
{
    for term in terms {
        if !visit(term, sorts)? {
            return Ok(false);
        }
    }
    Ok(true)
}

fn note(number: u32, sort: u32, sorts: &mut Vec<u32>) -> Result<bool, AllocError>
    ensures answer { IfOk result (λ b. IsTrue b ↔ AreNumberedFrom 0
        (seen (record { number = number; sort = sort }) (numbered 0 sorts.old.items))) }
    ensures seen { IfOk result (λ b. OnTrue b (numbered 0 sorts.new.items ≡
        seen (record { number = number; sort = sort }) (numbered 0 sorts.old.items))) }
    ensures few { length sorts.old.items ≤ 2 ^ 32 → length sorts.new.items ≤ 2 ^ 32 }
{
    let number = number as usize;
    if number < sorts.len() {
        return Ok(sorts[number] == sort);
    }
    if number > sorts.len() {
        return Ok(false);
    }
    sorts.push(sort)?;
    Ok(true)
}
