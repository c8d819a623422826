//! The order of terms, by number.
ghost use Rattle.std.specs.Prelude.{◌≡◌, ◌<◌, length, map};
ghost use Rattle.std.specs.List.{AllByRecursion};
ghost use Rattle.std.specs.Ordering.{ordering_then};
ghost use Rattle.circ_term.specs.Tree.{trees_of};
ghost use Rattle.circ_term.specs.Order.{tree_cmp, trees_cmp};
ghost use Rattle.circ_nodes.specs.Named.{HasShape, tree_at};

use circ_nodes::{Nodes, Shape};
use std::cmp::Ordering;

/// The order of the terms of two numbers. One number is one term, and of two lists of arguments the
/// first pair of different numbers decides, so that one path is walked, and nothing beside it but
/// the numbers of arguments.
#[cycle(cmp)]
pub fn cmp(nodes: &Nodes, a: u32, b: u32) -> Ordering
    ensures { result ≡ tree_cmp (tree_at nodes.now a) (tree_at nodes.now b) }
{
    if a == b {
        return Ordering::Equal;
    }
    match shape_at(nodes, a) {
        Shape::Variable { number, sort } => match shape_at(nodes, b) {
            Shape::Variable {
                number: other_number,
                sort: other_sort,
            } => number.cmp(&other_number).then(sort.cmp(&other_sort)),
            Shape::Application { .. } => Ordering::Less,
        },
        Shape::Application { op, sort, args } => match shape_at(nodes, b) {
            Shape::Variable { .. } => Ordering::Greater,
            Shape::Application {
                op: other_op,
                sort: other_sort,
                args: other_args,
            } => match op.cmp(&other_op) {
                Ordering::Equal => cmp_all(nodes, args, other_args, sort.cmp(&other_sort)),
                apart => apart,
            },
        },
    }
}

// The order of two lists of arguments, or the other one where the lists are the same. The call for
// the arguments that differ comes last, so that nothing is left to do on the way back.
#[cycle(cmp)]
fn cmp_all(nodes: &Nodes, a: &[u32], b: &[u32], otherwise: Ordering) -> Ordering
    requires first { AllByRecursion (λ n. n < length nodes.now) a.now }
    requires second { AllByRecursion (λ n. n < length nodes.now) b.now }
    ensures { result ≡ ordering_then (trees_cmp (trees_of (map (tree_at nodes.now) a.now))
        (trees_of (map (tree_at nodes.now) b.now))) otherwise }
{
    for i in 0..a.len().min(b.len()) {
        if a[i] != b[i] {
            nodes.known();
            return cmp(nodes, a[i], b[i]);
        }
    }
    a.len().cmp(&b.len()).then(otherwise)
}

// The term of a number, taken apart; a number that is not there is taken for the first variable.
fn shape_at(nodes: &Nodes, number: u32) -> Shape<'_>
    ensures { HasShape nodes.now result (tree_at nodes.now number) }
{
    if (number as usize) < nodes.len() {
        return nodes.shape(number);
    }
    Shape::Variable { number: 0, sort: 0 }
}
