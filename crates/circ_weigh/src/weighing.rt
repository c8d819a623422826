//! Terms weighed against each other, the largest sums first.
ghost use Rattle.std.specs.Prelude.{◌≡◌, ◌<◌, ◌↔◌, ◌+◌, IsTrue, IfOk, OnOk, length};
ghost use Rattle.std.specs.Bool.{OnTrue, OnFalse};
ghost use Rattle.std.specs.BinaryHeap.{heap_items, IsHeap};
ghost use Rattle.circ_term.specs.Tree.{Tree};
ghost use Rattle.circ_nodes.specs.Named.{tree_at};
ghost use Rattle.circ_weigh.specs.Weighing.{ones};
ghost use Rattle.circ_weigh.specs.Weighing.{Adds, TakesWhole};
ghost use Rattle.circ_aci.specs.Content.{leaves};
ghost use Rattle.circ_weigh.specs.Weighing.{part_cmp, IsPast, Agree, StepsOn, TellsTwo};
ghost use Rattle.std.specs.Prelude.{slice_index_or};

use crate::runs::balances_out;
use circ_nodes::{Nodes, Shape};
use std::alloc::{AllocError, Global};
use std::collections::BinaryHeap;

// A term, and how often it stands on the left and on the right. The larger terms are the greater.
#[derive(Clone, Copy, PartialEq, Eq, PartialOrd, Ord)]
pub(crate) struct Part {
    pub(crate) size: u64,
    pub(crate) number: u32,
    pub(crate) left: u64,
    pub(crate) right: u64,
}

// Whether each leaf stands as often in one term as in the other.
pub(crate) fn weigh(
    alloc: Global,
    nodes: &Nodes,
    op: u32,
    a: u32,
    b: u32,
) -> Result<bool, AllocError>
    requires a { a < length nodes.now }
    requires b { b < length nodes.now }
    ensures { IfOk result (λ r. IsTrue r ↔ ((t : Tree) →
        ones t (leaves op (tree_at nodes.now a)) ≡ ones t (leaves op (tree_at nodes.now b)))) }
{
    nodes.known();
    let mut sums = BinaryHeap::new(alloc);
    let mut leaves = Vec::new(alloc);
    note(nodes, op, &mut sums, &mut leaves, a, 1, 0)?;
    note(nodes, op, &mut sums, &mut leaves, b, 0, 1)?;
    while let Some(whole) = take(&mut sums)? {
        step(nodes, op, &mut sums, &mut leaves, whole)?;
    }
    balances_out(leaves)
}

// Goes on with the two arguments of a sum, where the weights differ.
fn step(
    nodes: &Nodes,
    op: u32,
    sums: &mut BinaryHeap<Part>,
    leaves: &mut Vec<Part>,
    whole: Part,
) -> Result<(), AllocError>
    requires there { whole.number < length nodes.now }
    ensures heap { IsHeap part_cmp (heap_items sums.old)
        → OnOk result (IsHeap part_cmp (heap_items sums.new)) }
    ensures on { OnOk result (StepsOn nodes.now op whole
        (heap_items sums.old) (heap_items sums.new) leaves.old.items leaves.new.items) }
{
    if whole.left == whole.right {
        return Ok(());
    }
    match operands(nodes, op, whole.number) {
        Some((first, second)) => {
            note(nodes, op, sums, leaves, first, whole.left, whole.right)?;
            note(nodes, op, sums, leaves, second, whole.left, whole.right)?;
        }
        None => leaves.push(whole)?,
    }
    Ok(())
}

// The two arguments of the operator, where it is the operator of the term of a number.
fn operands(nodes: &Nodes, op: u32, number: u32) -> Option<(u32, u32)>
    requires { number < length nodes.now }
    ensures { TellsTwo nodes.now op (tree_at nodes.now number) result }
{
    match nodes.shape(number) {
        Shape::Variable { .. } => None,
        Shape::Application { op: top, args, .. } => {
            if top != op {
                return None;
            }
            if args.len() != 2 {
                return None;
            }
            Some((args[0], args[1]))
        }
    }
}

// Notes a term among the sums or among the leaves.
fn note(
    nodes: &Nodes,
    op: u32,
    sums: &mut BinaryHeap<Part>,
    leaves: &mut Vec<Part>,
    number: u32,
    left: u64,
    right: u64,
) -> Result<(), AllocError>
    requires { number < length nodes.now }
    ensures heap { IsHeap part_cmp (heap_items sums.old)
        → OnOk result (IsHeap part_cmp (heap_items sums.new)) }
    ensures adds { OnOk result (Adds nodes.now op number left right
        (heap_items sums.old) (heap_items sums.new) leaves.old.items leaves.new.items) }
{
    let size = nodes.size(number);
    let part = Part {
        size,
        number,
        left,
        right,
    };
    match operands(nodes, op, number) {
        Some(_) => sums.push(part)?,
        None => leaves.push(part)?,
    }
    Ok(())
}

// The greatest part, with all of its number.
fn take(parts: &mut BinaryHeap<Part>) -> Result<Option<Part>, AllocError>
    requires heap { IsHeap part_cmp (heap_items parts.old) }
    requires agree { Agree (heap_items parts.old) }
    ensures heap { OnOk result (IsHeap part_cmp (heap_items parts.new)) }
    ensures takes { IfOk result (TakesWhole (heap_items parts.old) (heap_items parts.new)) }
{
    let Some(mut whole) = parts.pop() else {
        return Ok(None);
    };
    while is_next(parts, whole.number) {
        let Some(part) = parts.pop() else {
            return Ok(Some(whole));
        };
        whole.left = sum(whole.left, part.left)?;
        whole.right = sum(whole.right, part.right)?;
    }
    Ok(Some(whole))
}

fn is_next(parts: &BinaryHeap<Part>, number: u32) -> bool
    ensures yes { OnTrue result ((x : Part) → x ≡ slice_index_or (heap_items parts.now) 0 x
        → x.number ≡ number) }
    ensures no { OnFalse result (IsHeap part_cmp (heap_items parts.now)
        → IsPast number (heap_items parts.now)) }
{
    match parts.peek() {
        Some(part) => part.number == number,
        None => false,
    }
}

pub(crate) fn sum(a: u64, b: u64) -> Result<u64, AllocError>
    ensures { IfOk result (λ n. n ≡ a + b) }
{
    match a.checked_add(b) {
        Some(sum) => Ok(sum),
        None => Err(AllocError),
    }
}
