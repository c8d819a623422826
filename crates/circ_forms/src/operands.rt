//! What an operator stands on at the top of an interned term.
ghost use Rattle.std.specs.Prelude.{◌≡◌, ◌↔◌, ◌<◌, length, IsTrue, None};
ghost use Rattle.circ_term.specs.Order.{is_same};
ghost use Rattle.circ_theory.specs.Operators.{operator_of};
ghost use Rattle.circ_aci.specs.Operands.{operands, marked_operands};
ghost use Rattle.circ_aci.specs.Row.{first_in, may_follow};
ghost use Rattle.circ_nodes.specs.Named.{tree_at};
ghost use Rattle.circ_forms.specs.Named.{AreOperands};

use crate::order::cmp;
use circ_nodes::{Nodes, Shape};
use circ_theory::OpDecl;

// The numbers of the operator's two arguments, where it is the term's operator.
pub(crate) fn operands(nodes: &Nodes, op: u32, number: u32) -> Option<(u32, u32)>
    requires { number < length nodes.now }
    ensures { AreOperands nodes.now (operands op (tree_at nodes.now number)) result }
{
    match nodes.shape(number) {
        Shape::Variable { .. } => None,
        Shape::Application { op: top, args, .. } => {
            if top != op {
                return None;
            }
            if args.len() != 2 {
                return None;
            }
            Some((args[0], args[1]))
        }
    }
}

// The same, where the operator has a mark.
pub(crate) fn marked_operands(
    nodes: &Nodes,
    decl: &OpDecl,
    op: u32,
    number: u32,
) -> Option<(u32, u32)>
    requires { number < length nodes.now }
    ensures { AreOperands nodes.now
        (marked_operands (operator_of decl.now) op (tree_at nodes.now number)) result }
{
    if decl.assoc || decl.comm || decl.idem {
        operands(nodes, op, number)
    } else {
        None
    }
}

// Whether the operator joins nothing in the term.
pub(crate) fn is_single(nodes: &Nodes, op: u32, number: u32) -> bool
    requires { number < length nodes.now }
    ensures { IsTrue result ↔ (operands op (tree_at nodes.now number) ≡ None) }
{
    match operands(nodes, op, number) {
        Some(_) => false,
        None => true,
    }
}

// The first term that the operator joins in a row.
pub(crate) fn first_in(nodes: &Nodes, op: u32, number: u32) -> u32
    requires { number < length nodes.now }
    ensures there { result < length nodes.now }
    ensures first { tree_at nodes.now result ≡ first_in op (tree_at nodes.now number) }
{
    match operands(nodes, op, number) {
        Some((first, _)) => first,
        None => number,
    }
}

// Whether both are the same term.
pub(crate) fn is_same(nodes: &Nodes, a: u32, b: u32) -> bool
    requires first { a < length nodes.now }
    requires second { b < length nodes.now }
    ensures { result ≡ is_same (tree_at nodes.now a) (tree_at nodes.now b) }
{
    nodes.known();
    a == b
}

// Whether the second term may stand behind the first in a content.
pub(crate) fn may_follow(nodes: &Nodes, decl: &OpDecl, first: u32, second: u32) -> bool
    requires first { first < length nodes.now }
    requires second { second < length nodes.now }
    ensures { result ≡ may_follow (operator_of decl.now) (tree_at nodes.now first)
        (tree_at nodes.now second) }
{
    if decl.comm && cmp(nodes, second, first).is_lt() {
        return false;
    }
    !(decl.idem && is_same(nodes, second, first))
}
