//! The content of an associative operator on two terms, by number, joined again.
ghost use Rattle.std.specs.Prelude.{◌≡◌, ◌<◌, ◌++◌, ◌∷◌, [], ℕ, true, length, IfOk, OnOk, None};
ghost use Rattle.std.specs.List.{dedup};
ghost use Rattle.circ_term.specs.Order.{is_same};
ghost use Rattle.circ_term.specs.Growing.{Grows};
ghost use Rattle.circ_theory.specs.Theory.{twice};
ghost use Rattle.circ_theory.specs.Operators.{operator_of};
ghost use Rattle.circ_aci.specs.Content.{leaves, settled, sorted_terms};
ghost use Rattle.circ_aci.specs.Canonical.{canonical};
ghost use Rattle.circ_nodes.specs.Named.{Interns, tree_at};
ghost use Rattle.circ_forms.specs.Named.{trees_at, AreThere};

use crate::merging::fold;
use crate::operands::operands;
use crate::order::cmp;
use circ_nodes::Nodes;
use circ_term::TermFault;
use circ_theory::OpDecl;
use std::alloc::{AllocError, Global};

// The canonical form of the operator on any two terms.
pub(crate) fn rejoin(
    alloc: Global,
    nodes: &mut Nodes,
    decl: &OpDecl,
    op: u32,
    first: u32,
    second: u32,
) -> Result<u32, TermFault>
    requires assoc { decl.now.assoc ≡ true }
    requires first { first < length nodes.old }
    requires second { second < length nodes.old }
    ensures grows { Grows nodes.old nodes.new }
    ensures interns { (k : ℕ) → Interns nodes.new result (canonical (operator_of decl.now) op
        (twice op k (tree_at nodes.old first) (tree_at nodes.old second))) }
{
    let mut parts = content(alloc, nodes, decl, op, first, second)?;
    match parts.pop() {
        Some(last) => fold(alloc, nodes, op, decl.result, parts, last),
        None => Ok(first),
    }
}

// The terms that both join, settled.
fn content(
    alloc: Global,
    nodes: &Nodes,
    decl: &OpDecl,
    op: u32,
    first: u32,
    second: u32,
) -> Result<Vec<u32>, AllocError>
    requires first { first < length nodes.now }
    requires second { second < length nodes.now }
    ensures below { IfOk result (λ v. AreThere nodes.now v.items) }
    ensures content { IfOk result (λ v. trees_at nodes.now v.items
        ≡ settled (operator_of decl.now) (leaves op (tree_at nodes.now first)
        ++ leaves op (tree_at nodes.now second))) }
{
    let mut parts = Vec::new(alloc);
    push_leaves(nodes, op, first, &mut parts)?;
    push_leaves(nodes, op, second, &mut parts)?;
    settle(nodes, decl, &mut parts);
    Ok(parts)
}

// The terms that the operator joins in a term go last.
pub(crate) fn push_leaves(
    nodes: &Nodes,
    op: u32,
    number: u32,
    parts: &mut Vec<u32>,
) -> Result<(), AllocError>
    requires there { number < length nodes.now }
    requires below { AreThere nodes.now parts.old.items }
    ensures below { AreThere nodes.now parts.new.items }
    ensures leaves { OnOk result (trees_at nodes.now parts.new.items
        ≡ trees_at nodes.now parts.old.items ++ leaves op (tree_at nodes.now number)) }
{
    match operands(nodes, op, number) {
        Some((first, second)) => {
            push_leaves(nodes, op, first, parts)?;
            push_leaves(nodes, op, second, parts)
        }
        None => {
            parts.push(number)?;
            Ok(())
        }
    }
}

fn settle(nodes: &Nodes, decl: &OpDecl, parts: &mut Vec<u32>)
    requires below { AreThere nodes.now parts.old.items }
    ensures below { AreThere nodes.now parts.new.items }
    ensures settled { trees_at nodes.now parts.new.items
        ≡ settled (operator_of decl.now) (trees_at nodes.now parts.old.items) }
{
    if decl.comm {
        sort(nodes, parts);
    }
    if decl.idem {
        drop_repeated(nodes, parts);
    }
}

fn sort(nodes: &Nodes, parts: &mut Vec<u32>)
    requires below { AreThere nodes.now parts.old.items }
    ensures below { AreThere nodes.now parts.new.items }
    ensures sorted { trees_at nodes.now parts.new.items
        ≡ sorted_terms (trees_at nodes.now parts.old.items) }
{
    parts.sort_unstable_by(|a, b| cmp(nodes, *a, *b));
}

fn drop_repeated(nodes: &Nodes, parts: &mut Vec<u32>)
    requires below { AreThere nodes.now parts.old.items }
    ensures below { AreThere nodes.now parts.new.items }
    ensures dropped { trees_at nodes.now parts.new.items
        ≡ dedup is_same (trees_at nodes.now parts.old.items) }
{
    nodes.known();
    parts.dedup_by(|a, b| *a == *b);
}
