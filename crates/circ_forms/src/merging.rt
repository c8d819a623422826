//! Two canonical terms under one associative operator.
ghost use Rattle.std.specs.Prelude.{◌≡◌, ◌<◌, ◌&&◌, ℕ, true, false, length, IfOk, None, []};
ghost use Rattle.circ_term.specs.Tree.{trees_of};
ghost use Rattle.circ_term.specs.Order.{is_same};
ghost use Rattle.circ_term.specs.Growing.{Grows};
ghost use Rattle.circ_term.specs.Limits.{first_limits};
ghost use Rattle.circ_theory.specs.Theory.{twice};
ghost use Rattle.circ_theory.specs.Operators.{operator_of};
ghost use Rattle.circ_aci.specs.Content.{leaves};
ghost use Rattle.circ_aci.specs.Canonical.{canonical};
ghost use Rattle.circ_aci.specs.Operands.{operands};
ghost use Rattle.circ_merging.specs.Put.{merged};
ghost use Rattle.circ_nodes.specs.Named.{Interns, tree_at};
ghost use Rattle.circ_forms.specs.Named.{trees_at, AreThere};
ghost use Rattle.circ_forms.specs.Taking.{IsRow, Takes, behind, joined_at};

use crate::operands::{first_in, is_same, is_single, operands};
use crate::order::cmp;
use crate::placing::take_in_place;
use circ_nodes::{Nodes, Numbers};
use circ_term::TermFault;
use circ_theory::OpDecl;
use std::alloc::{AllocError, Global};

// The canonical form of the operator on two terms that are their own.
pub(crate) fn merge(
    alloc: Global,
    nodes: &mut Nodes,
    decl: &OpDecl,
    op: u32,
    first: u32,
    second: u32,
) -> Result<u32, TermFault>
    requires assoc { decl.now.assoc ≡ true }
    requires first { first < length nodes.old }
    requires second { second < length nodes.old }
    requires first_own { canonical (operator_of decl.now) op (tree_at nodes.old first)
        ≡ tree_at nodes.old first }
    requires second_own { canonical (operator_of decl.now) op (tree_at nodes.old second)
        ≡ tree_at nodes.old second }
    ensures grows { Grows nodes.old nodes.new }
    ensures interns { (k : ℕ) → Interns nodes.new result (canonical (operator_of decl.now) op
        (twice op k (tree_at nodes.old first) (tree_at nodes.old second))) }
{
    let mut parts = Vec::new(alloc);
    let last = take(nodes, decl, op, first, second, &mut parts)?;
    fold(alloc, nodes, op, decl.result, parts, last)
}

// The terms that both rows join, until one row ends, or to the place of a single term: what is left
// of the other comes last.
fn take(
    nodes: &Nodes,
    decl: &OpDecl,
    op: u32,
    first: u32,
    second: u32,
    parts: &mut Vec<u32>,
) -> Result<u32, AllocError>
    requires first { IsRow nodes.now (operator_of decl.now) op first }
    requires second { IsRow nodes.now (operator_of decl.now) op second }
    requires none { parts.old.items ≡ [] }
    ensures below { AreThere nodes.now parts.new.items }
    ensures takes { IfOk result (Takes nodes.now (operator_of decl.now) op
        (merged (operator_of decl.now) (leaves op (tree_at nodes.now first))
        (leaves op (tree_at nodes.now second))) parts.old.items parts.new.items) }
{
    if !decl.comm {
        return take_first(nodes, decl, op, first, second, parts);
    }
    if is_single(nodes, op, first) {
        return take_in_place(nodes, decl, op, first, second, parts);
    }
    if is_single(nodes, op, second) {
        return take_in_place(nodes, decl, op, second, first, parts);
    }
    take_in_order(nodes, decl, op, first, second, parts)
}

// The same where the order of terms decides.
#[cycle(take)]
fn take_in_order(
    nodes: &Nodes,
    decl: &OpDecl,
    op: u32,
    first: u32,
    second: u32,
    parts: &mut Vec<u32>,
) -> Result<u32, AllocError>
    requires comm { decl.now.comm ≡ true }
    requires first { IsRow nodes.now (operator_of decl.now) op first }
    requires second { IsRow nodes.now (operator_of decl.now) op second }
    requires below { AreThere nodes.now parts.old.items }
    ensures below { AreThere nodes.now parts.new.items }
    ensures takes { IfOk result (Takes nodes.now (operator_of decl.now) op
        (merged (operator_of decl.now) (leaves op (tree_at nodes.now first))
        (leaves op (tree_at nodes.now second))) parts.old.items parts.new.items) }
{
    let x = first_in(nodes, op, first);
    let y = first_in(nodes, op, second);
    if cmp(nodes, y, x).is_lt() {
        parts.push(y)?;
        return behind_second(nodes, decl, op, first, second, parts);
    }
    if is_repeated(nodes, decl, x, y) {
        return behind_first(nodes, decl, op, first, second, parts);
    }
    parts.push(x)?;
    behind_first(nodes, decl, op, first, second, parts)
}

// The same behind the first term of the first row.
#[cycle(take)]
fn behind_first(
    nodes: &Nodes,
    decl: &OpDecl,
    op: u32,
    first: u32,
    second: u32,
    parts: &mut Vec<u32>,
) -> Result<u32, AllocError>
    requires comm { decl.now.comm ≡ true }
    requires first { IsRow nodes.now (operator_of decl.now) op first }
    requires second { IsRow nodes.now (operator_of decl.now) op second }
    requires below { AreThere nodes.now parts.old.items }
    ensures below { AreThere nodes.now parts.new.items }
    ensures takes { IfOk result (Takes nodes.now (operator_of decl.now) op
        (merged (operator_of decl.now) (behind (leaves op (tree_at nodes.now first)))
        (leaves op (tree_at nodes.now second))) parts.old.items parts.new.items) }
{
    match operands(nodes, op, first) {
        Some((_, rest)) => take_in_order(nodes, decl, op, rest, second, parts),
        None => Ok(second),
    }
}

// The same behind the first term of the second row.
#[cycle(take)]
fn behind_second(
    nodes: &Nodes,
    decl: &OpDecl,
    op: u32,
    first: u32,
    second: u32,
    parts: &mut Vec<u32>,
) -> Result<u32, AllocError>
    requires comm { decl.now.comm ≡ true }
    requires first { IsRow nodes.now (operator_of decl.now) op first }
    requires second { IsRow nodes.now (operator_of decl.now) op second }
    requires below { AreThere nodes.now parts.old.items }
    ensures below { AreThere nodes.now parts.new.items }
    ensures takes { IfOk result (Takes nodes.now (operator_of decl.now) op
        (merged (operator_of decl.now) (leaves op (tree_at nodes.now first))
        (behind (leaves op (tree_at nodes.now second)))) parts.old.items parts.new.items) }
{
    match operands(nodes, op, second) {
        Some((_, rest)) => take_in_order(nodes, decl, op, first, rest, parts),
        None => Ok(first),
    }
}

// The terms that the first row joins, and the second row last.
fn take_first(
    nodes: &Nodes,
    decl: &OpDecl,
    op: u32,
    first: u32,
    second: u32,
    parts: &mut Vec<u32>,
) -> Result<u32, AllocError>
    requires comm { decl.now.comm ≡ false }
    requires first { IsRow nodes.now (operator_of decl.now) op first }
    requires second { IsRow nodes.now (operator_of decl.now) op second }
    requires below { AreThere nodes.now parts.old.items }
    ensures below { AreThere nodes.now parts.new.items }
    ensures takes { IfOk result (Takes nodes.now (operator_of decl.now) op
        (merged (operator_of decl.now) (leaves op (tree_at nodes.now first))
        (leaves op (tree_at nodes.now second))) parts.old.items parts.new.items) }
{
    match operands(nodes, op, first) {
        Some((x, rest)) => {
            parts.push(x)?;
            take_first(nodes, decl, op, rest, second, parts)
        }
        None => take_last(nodes, decl, op, first, second, parts),
    }
}

// The same where the operator joins nothing in the first term.
fn take_last(
    nodes: &Nodes,
    decl: &OpDecl,
    op: u32,
    first: u32,
    second: u32,
    parts: &mut Vec<u32>,
) -> Result<u32, AllocError>
    requires comm { decl.now.comm ≡ false }
    requires alone { operands op (tree_at nodes.now first) ≡ None }
    requires first { first < length nodes.now }
    requires second { IsRow nodes.now (operator_of decl.now) op second }
    requires below { AreThere nodes.now parts.old.items }
    ensures below { AreThere nodes.now parts.new.items }
    ensures takes { IfOk result (Takes nodes.now (operator_of decl.now) op
        (merged (operator_of decl.now) (leaves op (tree_at nodes.now first))
        (leaves op (tree_at nodes.now second))) parts.old.items parts.new.items) }
{
    let y = first_in(nodes, op, second);
    if is_repeated(nodes, decl, first, y) {
        return Ok(second);
    }
    parts.push(first)?;
    Ok(second)
}

// Whether the second term goes for both.
pub(crate) fn is_repeated(nodes: &Nodes, decl: &OpDecl, first: u32, second: u32) -> bool
    requires first { first < length nodes.now }
    requires second { second < length nodes.now }
    ensures { result
        ≡ (decl.now.idem && is_same (tree_at nodes.now second) (tree_at nodes.now first)) }
{
    decl.idem && is_same(nodes, second, first)
}

// The operator on all the parts, and then on the last, grouped to the right.
pub(crate) fn fold(
    alloc: Global,
    nodes: &mut Nodes,
    op: u32,
    sort: u32,
    parts: Vec<u32>,
    last: u32,
) -> Result<u32, TermFault>
    requires below { AreThere nodes.old parts.items }
    requires last { last < length nodes.old }
    ensures grows { Grows nodes.old nodes.new }
    ensures interns { Interns nodes.new result (joined_at nodes.old op sort parts.items last) }
{
    known(nodes, parts.as_slice());
    nodes.known_at(last);
    let mut parts = parts;
    let mut joined = last;
    while let Some(part) = parts.pop() {
        match on_two(alloc, nodes, op, sort, part, joined) {
            Ok(number) => joined = number,
            Err(fault) => return Err(fault),
        }
    }
    nodes.known_at(joined);
    Ok(joined)
}

// Does nothing. Its contract is the law that terms are within the limits.
fn known(nodes: &Nodes, numbers: &[u32])
    requires { AreThere nodes.now numbers.now }
    ensures { first_limits (trees_of (trees_at nodes.now numbers.now)) ≡ None }
{
    for number in numbers {
        nodes.known_at(*number);
    }
}

pub(crate) fn on_two(
    alloc: Global,
    nodes: &mut Nodes,
    op: u32,
    sort: u32,
    first: u32,
    second: u32,
) -> Result<u32, TermFault>
    requires first { first < length nodes.old }
    requires second { second < length nodes.old }
    ensures grows { Grows nodes.old nodes.new }
    ensures interns { Interns nodes.new result
        (twice op sort (tree_at nodes.old first) (tree_at nodes.old second)) }
{
    let mut args = Numbers::new(alloc);
    args.push(first)?;
    args.push(second)?;
    nodes.app(op, sort, args)
}
