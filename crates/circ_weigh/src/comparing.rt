//! Terms of the same content, by number.
ghost use Rattle.std.specs.Prelude.{◌≡◌, ◌<◌, ◌↔◌, IsTrue, IfOk, length, not, ◌&&◌};
ghost use Rattle.circ_aci.specs.Content.{content_under};
ghost use Rattle.circ_nodes.specs.Built.{AreBuilt};
ghost use Rattle.circ_nodes.specs.Named.{tree_at};

use crate::weighing::weigh;
use circ_nodes::{Nodes, Terms};
use circ_theory::{OpDecl, Theory};
use std::alloc::{AllocError, Global};

/// Whether the terms of two numbers have the same content under an operator. Where it is
/// associative and commutative and not idempotent, each distinct sum is gone over once, and no term
/// is built.
pub fn same_content(
    alloc: Global,
    theory: &Theory,
    nodes: &Nodes,
    terms: &mut Terms,
    op: u32,
    a: u32,
    b: u32,
) -> Result<bool, AllocError>
    requires a { a < length nodes.now }
    requires b { b < length nodes.now }
    requires built { AreBuilt nodes.now terms.old }
    ensures built { AreBuilt nodes.now terms.new }
    ensures same { IfOk result (λ r. IsTrue r ↔
        (content_under theory.now.signature op (tree_at nodes.now a)
        ≡ content_under theory.now.signature op (tree_at nodes.now b))) }
{
    let Some(decl) = theory.op(op) else {
        return same_built(alloc, theory, nodes, terms, op, a, b);
    };
    if is_multiset(decl) {
        return weigh(alloc, nodes, op, a, b);
    }
    same_built(alloc, theory, nodes, terms, op, a, b)
}

fn is_multiset(decl: &OpDecl) -> bool
    ensures { result ≡ (decl.now.assoc && (decl.now.comm && not decl.now.idem)) }
{
    decl.assoc && (decl.comm && !decl.idem)
}

// The same, by the terms themselves.
fn same_built(
    alloc: Global,
    theory: &Theory,
    nodes: &Nodes,
    terms: &mut Terms,
    op: u32,
    a: u32,
    b: u32,
) -> Result<bool, AllocError>
    requires a { a < length nodes.now }
    requires b { b < length nodes.now }
    requires built { AreBuilt nodes.now terms.old }
    ensures built { AreBuilt nodes.now terms.new }
    ensures same { IfOk result (λ r. IsTrue r ↔
        (content_under theory.now.signature op (tree_at nodes.now a)
        ≡ content_under theory.now.signature op (tree_at nodes.now b))) }
{
    let first = terms.term(nodes, a)?;
    let second = terms.term(nodes, b)?;
    circ_aci::same_content(alloc, theory, op, &first, &second)
}
