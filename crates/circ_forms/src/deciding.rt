//! How the canonical form of a term is made.
ghost use Rattle.std.specs.Prelude.{◌≡◌, ◌<◌, length, Some, false, ◌&&◌};
ghost use Rattle.circ_theory.specs.Operators.{operator_of};
ghost use Rattle.circ_aci.specs.Operands.{marked_operands};
ghost use Rattle.circ_term.specs.Order.{is_same, comes_before};
ghost use Rattle.circ_nodes.specs.Named.{tree_at};
ghost use Rattle.circ_forms.specs.Ways.{IsWay};

use crate::order::cmp;
use circ_nodes::Nodes;
use circ_theory::OpDecl;

// How the canonical form of a term is made.
#[derive(Clone, Copy)]
pub(crate) enum Way {
    // It is the term of this number.
    Same { number: u32 },
    // It is the operator on these two terms.
    Two { first: u32, second: u32 },
    // It is what these two terms join, each its own canonical form, merged.
    Merged { first: u32, second: u32 },
    // It is what these two terms join, settled.
    Joined { first: u32, second: u32 },
}

// The way where the operator is not associative, and both its arguments count.
pub(crate) fn decide_two(
    nodes: &Nodes,
    decl: &OpDecl,
    op: u32,
    number: u32,
    first: u32,
    second: u32,
) -> Way
    requires assoc { decl.now.assoc ≡ false }
    requires first { first < length nodes.now }
    requires second { second < length nodes.now }
    requires operands { marked_operands (operator_of decl.now) op (tree_at nodes.now number)
        ≡ Some (tree_at nodes.now first, tree_at nodes.now second) }
    requires apart { (decl.now.idem && is_same (tree_at nodes.now first)
        (tree_at nodes.now second)) ≡ false }
    ensures { IsWay nodes.now (operator_of decl.now) op (tree_at nodes.now number) result }
{
    if is_behind(nodes, decl, first, second) {
        return Way::Two {
            first: second,
            second: first,
        };
    }
    Way::Two { first, second }
}

// Whether the first term goes behind the second.
fn is_behind(nodes: &Nodes, decl: &OpDecl, first: u32, second: u32) -> bool
    requires first { first < length nodes.now }
    requires second { second < length nodes.now }
    ensures { result
        ≡ (decl.now.comm && comes_before (tree_at nodes.now second) (tree_at nodes.now first)) }
{
    decl.comm && cmp(nodes, second, first).is_lt()
}
