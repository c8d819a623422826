//! Rows of pieces and parts of cases, as nodes by number.
ghost use Rattle.std.specs.Prelude.{◌≡◌, ◌<◌, ◌∷◌, ℕ, [], length, OnOk};
ghost use Rattle.circ_written.specs.Nodes.{values_in, value_of, rope_with, rope_at, Rope};
ghost use Rattle.circ_written.specs.Nodes.{AreValues, AreNodesFrom, IsNodeAt, ends_in_row, TakesRow, TakesParts};

use crate::rows::Row;
use circ_term::Term;
use circ_theory::Way;
use std::alloc::AllocError;

// A row or parts of cases. Nodes name nodes by number, so that nothing is moved twice and nothing
// is dropped by recursion.
#[derive(Drop)]
pub(crate) enum Node {
    // A row of nothing.
    Empty,
    // A link behind a row.
    Link {
        first: usize,
        row: Row,
    },
    // A row behind another, in a way.
    Behind {
        first: usize,
        way: Way,
        next: usize,
    },
    // A row between two others, of which the second is turned.
    Between {
        left: usize,
        middle: usize,
        right: usize,
    },
    // No parts of cases.
    NoPart,
    // A row as the first part of cases.
    Part {
        first: usize,
        others: usize,
    },
    // A row of cases with their parts.
    Cases {
        term: Term,
        parts: usize,
    },
}

// Puts a node last, and its number.
pub(crate) fn put_node(
    nodes: &mut Vec<Node>,
    stack: &mut Vec<usize>,
    node: Node,
) -> Result<(), AllocError>
    requires whole { AreValues nodes.old.items stack.old.items }
    requires before { IsNodeAt (length nodes.old.items) node }
    ensures whole { AreValues nodes.new.items stack.new.items }
    ensures added { OnOk result (values_in nodes.new.items stack.new.items ≡
        value_of (rope_with (rope_at nodes.old.items) node) ∷
        values_in nodes.old.items stack.old.items) }
{
    let number = nodes.len();
    nodes.push(node)?;
    stack.push(number)?;
    Ok(())
}

// Whether what a node stands for is a row.
fn is_row(node: &Node) -> bool
    ensures { (h : ℕ → Rope) → result ≡ ends_in_row (value_of (rope_with h node.now) ∷ []) }
{
    match node {
        Node::Empty => true,
        Node::Link { .. } => true,
        Node::Behind { .. } => true,
        Node::Between { .. } => true,
        Node::NoPart => false,
        Node::Part { .. } => false,
        Node::Cases { .. } => true,
    }
}

// Whether the value of this number is a row.
pub(crate) fn kind_at(nodes: &[Node], number: usize) -> bool
    requires nodes { AreNodesFrom 0 nodes.now }
    requires within { number < length nodes.now }
    ensures { result ≡ ends_in_row (value_of (rope_at nodes.now number) ∷ []) }
{
    is_row(&nodes[number])
}

// Whether there is a value, and the last is a row.
pub(crate) fn last_is_row(nodes: &[Node], stack: &[usize]) -> bool
    requires { AreValues nodes.now stack.now }
    ensures { result ≡ ends_in_row (values_in nodes.now stack.now) }
{
    match stack.last() {
        Some(number) => kind_at(nodes, *number),
        None => false,
    }
}

// Takes the last number away, if it is that of a row.
pub(crate) fn take_row(nodes: &[Node], stack: &mut Vec<usize>) -> Option<usize>
    requires { AreValues nodes.now stack.old.items }
    ensures whole { AreValues nodes.now stack.new.items }
    ensures taken { TakesRow nodes.now stack.old.items stack.new.items result }
{
    match stack.pop() {
        Some(number) => {
            if is_row(&nodes[number]) {
                Some(number)
            } else {
                None
            }
        }
        None => None,
    }
}

// Takes the last number away, if it is that of parts.
pub(crate) fn take_parts(nodes: &[Node], stack: &mut Vec<usize>) -> Option<usize>
    requires { AreValues nodes.now stack.old.items }
    ensures whole { AreValues nodes.now stack.new.items }
    ensures taken { TakesParts nodes.now stack.old.items stack.new.items result }
{
    match stack.pop() {
        Some(number) => {
            if is_row(&nodes[number]) {
                None
            } else {
                Some(number)
            }
        }
        None => None,
    }
}
