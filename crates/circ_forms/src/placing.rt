//! One more term in a row, put at its place by a binary search.
ghost use Rattle.std.specs.Prelude.{◌≡◌, ◌<◌, true, length, drop, IfOk, None, []};
ghost use Rattle.circ_theory.specs.Signature.{Operator};
ghost use Rattle.circ_theory.specs.Operators.{operator_of};
ghost use Rattle.circ_aci.specs.Content.{leaves, sorted_terms};
ghost use Rattle.circ_aci.specs.Operands.{operands};
ghost use Rattle.circ_merging.specs.Put.{put_in};
ghost use Rattle.circ_nodes.specs.Named.{tree_at};
ghost use Rattle.circ_forms.specs.Named.{trees_at, AreThere};
ghost use Rattle.circ_forms.specs.Taking.{IsRow, Takes, place_in};

use crate::contents::push_leaves;
use crate::merging::is_repeated;
use crate::operands::operands;
use crate::order::cmp;
use circ_nodes::Nodes;
use circ_theory::OpDecl;
use std::alloc::AllocError;

// The terms that a row joins before the place of one more, and that one: the rest of the row comes
// last, as it is. Terms are not compared but to find the place.
pub(crate) fn take_in_place(
    nodes: &Nodes,
    decl: &OpDecl,
    op: u32,
    number: u32,
    row: u32,
    parts: &mut Vec<u32>,
) -> Result<u32, AllocError>
    requires comm { decl.now.comm ≡ true }
    requires there { number < length nodes.now }
    requires alone { operands op (tree_at nodes.now number) ≡ None }
    requires row { IsRow nodes.now (operator_of decl.now) op row }
    requires none { parts.old.items ≡ [] }
    ensures below { AreThere nodes.now parts.new.items }
    ensures takes { IfOk result (Takes nodes.now (operator_of decl.now) op
        (put_in (operator_of decl.now) (tree_at nodes.now number)
        (leaves op (tree_at nodes.now row))) parts.old.items parts.new.items) }
{
    push_leaves(nodes, op, row, parts)?;
    let place = place_in(nodes, number, parts.as_slice());
    if place == parts.len() {
        return Ok(number);
    }
    if is_repeated(nodes, decl, number, parts[place]) {
        parts.clear();
        return Ok(row);
    }
    parts.truncate(place);
    parts.push(number)?;
    Ok(rest_at(nodes, op, row, place))
}

// The place of the first of some terms that does not come before this one.
fn place_in(nodes: &Nodes, number: u32, numbers: &[u32]) -> usize
    requires sorted { sorted_terms (trees_at nodes.now numbers.now)
        ≡ trees_at nodes.now numbers.now }
    ensures { result ≡ place_in (tree_at nodes.now number) (trees_at nodes.now numbers.now) }
{
    numbers.partition_point(|other| cmp(nodes, *other, number).is_lt())
}

// What is left of a row behind its first terms, as many as that.
fn rest_at(nodes: &Nodes, op: u32, row: u32, place: usize) -> u32
    requires { row < length nodes.now }
    ensures { (o : Operator) → IsRow nodes.now o op row
        → place < length (leaves op (tree_at nodes.now row)) → IsRow nodes.now o op result
        × (leaves op (tree_at nodes.now result) ≡ drop place (leaves op (tree_at nodes.now row))) }
{
    if place == 0 {
        return row;
    }
    match operands(nodes, op, row) {
        Some((_, rest)) => rest_at(nodes, op, rest, place - 1),
        None => row,
    }
}
