//! Instances of derivatives in interned terms, without naming their parameters.
ghost use Rattle.std.specs.Prelude.{◌≡◌, ◌<◌, length, map};
ghost use Rattle.std.specs.List.{AllByRecursion};
ghost use Rattle.circ_term.specs.Tree.{App, trees_of};
ghost use Rattle.circ_nodes.specs.Named.{tree_at};
ghost use Rattle.circ_special.specs.Fitting.{fits, all_fit, is_variable};

use circ_nodes::{Nodes, Shape};

/// Whether the term of a number is the body of a derivative with the variable at the hole and any
/// terms of the parameters' sorts at the parameters. Costs at most as much as the body has nodes.
#[cycle(fits)]
pub(crate) fn fits(nodes: &Nodes, body: u32, term: u32, id: u32, sort: u32) -> bool
    requires body { body < length nodes.now }
    requires term { term < length nodes.now }
    ensures { result ≡ fits id sort (tree_at nodes.now body) (tree_at nodes.now term) }
{
    match nodes.shape(body) {
        Shape::Variable { number, sort: own } => {
            if nodes.sort(term) != own {
                return false;
            }
            if number != 0 {
                return true;
            }
            is_variable(nodes, term, id, sort)
        }
        Shape::Application {
            op,
            sort: own,
            args,
        } => fits_application(nodes, op, own, args, term, id, sort),
    }
}

// The same of the body that is an operator on these arguments.
#[cycle(fits)]
fn fits_application(
    nodes: &Nodes,
    op: u32,
    own: u32,
    args: &[u32],
    term: u32,
    id: u32,
    sort: u32,
) -> bool
    requires args { AllByRecursion (λ n. n < length nodes.now) args.now }
    requires term { term < length nodes.now }
    ensures { result ≡ fits id sort (App op own (trees_of (map (tree_at nodes.now) args.now)))
        (tree_at nodes.now term) }
{
    match nodes.shape(term) {
        Shape::Variable { .. } => false,
        Shape::Application {
            op: other_op,
            sort: other_sort,
            args: other_args,
        } => {
            if op != other_op {
                return false;
            }
            if own != other_sort {
                return false;
            }
            all_fit(nodes, args, other_args, id, sort)
        }
    }
}

#[cycle(fits)]
fn all_fit(nodes: &Nodes, bodies: &[u32], terms: &[u32], id: u32, sort: u32) -> bool
    requires bodies { AllByRecursion (λ n. n < length nodes.now) bodies.now }
    requires terms { AllByRecursion (λ n. n < length nodes.now) terms.now }
    ensures { result ≡ all_fit id sort (trees_of (map (tree_at nodes.now) bodies.now))
        (trees_of (map (tree_at nodes.now) terms.now)) }
{
    if bodies.len() != terms.len() {
        return false;
    }
    for i in 0..bodies.len() {
        if !fits(nodes, bodies[i], terms[i], id, sort) {
            return false;
        }
    }
    true
}

/// Whether the term of a number is this variable.
pub(crate) fn is_variable(nodes: &Nodes, term: u32, id: u32, sort: u32) -> bool
    requires { term < length nodes.now }
    ensures { result ≡ is_variable id sort (tree_at nodes.now term) }
{
    match nodes.shape(term) {
        Shape::Variable { number, sort: own } => number == id && own == sort,
        Shape::Application { .. } => false,
    }
}
