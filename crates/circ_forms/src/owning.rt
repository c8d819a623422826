//! Whether a term is its own canonical form.
ghost use Rattle.std.specs.Prelude.{◌≡◌, ◌↔◌, ◌<◌, length, IsTrue, Some};
ghost use Rattle.circ_term.specs.Tree.{Tree, args_of};
ghost use Rattle.circ_aci.specs.Operands.{marked_operands};
ghost use Rattle.circ_theory.specs.Operators.{operator_of};
ghost use Rattle.circ_aci.specs.Canonical.{canonical, canonical_under};
ghost use Rattle.circ_nodes.specs.Named.{tree_at};
ghost use Rattle.circ_forms.specs.Named.{AreOwn};
ghost use Rattle.circ_forms.specs.Ways.{MayJoin};

use crate::operands::{first_in, marked_operands, may_follow, operands};
use circ_nodes::Nodes;
use circ_theory::{OpDecl, Theory};

/// Whether the term of a number is its own canonical form under an operator. Costs a comparison of
/// each two neighbours that the operator joins, and no memory; terms that neighbours share are not
/// walked.
pub fn is_canonical(theory: &Theory, nodes: &Nodes, op: u32, number: u32) -> bool
    requires { number < length nodes.now }
    ensures { IsTrue result
        ↔ (canonical_under theory.now.signature op (tree_at nodes.now number)
        ≡ tree_at nodes.now number) }
{
    match theory.op(op) {
        Some(decl) => is_own(nodes, decl, op, number),
        None => true,
    }
}

/// The same for a term whose arguments are their own canonical forms, which costs one comparison.
pub fn is_canonical_above(theory: &Theory, nodes: &Nodes, op: u32, number: u32) -> bool
    requires { number < length nodes.now }
    ensures { AreOwn theory.now.signature op (args_of (tree_at nodes.now number))
        → IsTrue result
        ↔ (canonical_under theory.now.signature op (tree_at nodes.now number)
        ≡ tree_at nodes.now number) }
{
    match theory.op(op) {
        Some(decl) => is_own_above(nodes, decl, op, number),
        None => true,
    }
}

// The same under an operator that is given.
fn is_own_above(nodes: &Nodes, decl: &OpDecl, op: u32, number: u32) -> bool
    requires { number < length nodes.now }
    ensures { ((a b : Tree) → marked_operands (operator_of decl.now) op (tree_at nodes.now number)
        ≡ Some (a, b) → canonical (operator_of decl.now) op b ≡ b)
        → IsTrue result
        ↔ (canonical (operator_of decl.now) op (tree_at nodes.now number)
        ≡ tree_at nodes.now number) }
{
    match marked_operands(nodes, decl, op, number) {
        None => true,
        Some((first, second)) => {
            if nodes.sort(number) != decl.result {
                return false;
            }
            may_join_above(nodes, decl, op, first, second)
        }
    }
}

// The same of two terms, if the sort fits.
fn may_join_above(nodes: &Nodes, decl: &OpDecl, op: u32, first: u32, second: u32) -> bool
    requires first { first < length nodes.now }
    requires second { second < length nodes.now }
    ensures { canonical (operator_of decl.now) op (tree_at nodes.now second)
        ≡ tree_at nodes.now second → IsTrue result
        ↔ MayJoin (operator_of decl.now) op (tree_at nodes.now first)
        (tree_at nodes.now second) }
{
    if !decl.assoc {
        return may_follow(nodes, decl, first, second);
    }
    match operands(nodes, op, first) {
        Some(_) => false,
        None => {
            let next = first_in(nodes, op, second);
            may_follow(nodes, decl, first, next)
        }
    }
}

// The same under an operator that is given, whatever the arguments are.
#[cycle(is_own)]
pub(crate) fn is_own(nodes: &Nodes, decl: &OpDecl, op: u32, number: u32) -> bool
    requires { number < length nodes.now }
    ensures { IsTrue result
        ↔ (canonical (operator_of decl.now) op (tree_at nodes.now number)
        ≡ tree_at nodes.now number) }
{
    match marked_operands(nodes, decl, op, number) {
        None => true,
        Some((first, second)) => {
            if nodes.sort(number) != decl.result {
                return false;
            }
            may_join(nodes, decl, op, first, second)
        }
    }
}

// Whether the operator's application to two terms is its own canonical form, if the sort fits.
#[cycle(is_own)]
fn may_join(nodes: &Nodes, decl: &OpDecl, op: u32, first: u32, second: u32) -> bool
    requires first { first < length nodes.now }
    requires second { second < length nodes.now }
    ensures { IsTrue result
        ↔ MayJoin (operator_of decl.now) op (tree_at nodes.now first)
        (tree_at nodes.now second) }
{
    if !decl.assoc {
        return may_follow(nodes, decl, first, second);
    }
    match operands(nodes, op, first) {
        Some(_) => false,
        None => {
            let next = first_in(nodes, op, second);
            if !may_follow(nodes, decl, first, next) {
                return false;
            }
            is_own(nodes, decl, op, second)
        }
    }
}
