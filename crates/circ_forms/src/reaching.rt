//! The canonical form of a term, made without a memo.
ghost use Rattle.std.specs.Prelude.{◌≡◌, ◌<◌, length, Some, true};
ghost use Rattle.circ_term.specs.Growing.{Grows};
ghost use Rattle.circ_theory.specs.Operators.{operator_of};
ghost use Rattle.circ_aci.specs.Canonical.{canonical_under};
ghost use Rattle.circ_aci.specs.Operands.{marked_operands};
ghost use Rattle.circ_nodes.specs.Named.{Interns, tree_at};
ghost use Rattle.circ_forms.specs.Ways.{IsWay};

use crate::deciding::{Way, decide_two};
use crate::making::make;
use crate::merging::is_repeated;
use crate::operands::marked_operands;
use crate::owning::is_own;
use circ_nodes::Nodes;
use circ_term::TermFault;
use circ_theory::{OpDecl, Theory};
use std::alloc::Global;

/// The number of the canonical form of the term of a number under an operator. Where both arguments
/// are their own canonical forms, it costs one walk of both rows.
pub fn canonical_form(
    alloc: Global,
    theory: &Theory,
    nodes: &mut Nodes,
    op: u32,
    number: u32,
) -> Result<u32, TermFault>
    requires there { number < length nodes.old }
    ensures grows { Grows nodes.old nodes.new }
    ensures interns { Interns nodes.new result
        (canonical_under theory.now.signature op (tree_at nodes.old number)) }
{
    match theory.op(op) {
        Some(decl) => {
            let way = way(nodes, decl, op, number);
            make(alloc, nodes, decl, op, way)
        }
        None => {
            nodes.known_at(number);
            Ok(number)
        }
    }
}

// The way to the canonical form of the term of a number.
fn way(nodes: &Nodes, decl: &OpDecl, op: u32, number: u32) -> Way
    requires { number < length nodes.now }
    ensures { IsWay nodes.now (operator_of decl.now) op (tree_at nodes.now number) result }
{
    match marked_operands(nodes, decl, op, number) {
        None => Way::Same { number },
        Some((first, second)) => {
            if decl.assoc {
                return row_way(nodes, decl, op, number, first, second);
            }
            if is_repeated(nodes, decl, second, first) {
                return way(nodes, decl, op, first);
            }
            decide_two(nodes, decl, op, number, first, second)
        }
    }
}

// The same where the operator is associative.
fn row_way(nodes: &Nodes, decl: &OpDecl, op: u32, number: u32, first: u32, second: u32) -> Way
    requires assoc { decl.now.assoc ≡ true }
    requires first { first < length nodes.now }
    requires second { second < length nodes.now }
    requires operands { marked_operands (operator_of decl.now) op (tree_at nodes.now number)
        ≡ Some (tree_at nodes.now first, tree_at nodes.now second) }
    ensures { IsWay nodes.now (operator_of decl.now) op (tree_at nodes.now number) result }
{
    if !is_own(nodes, decl, op, first) {
        return Way::Joined { first, second };
    }
    if !is_own(nodes, decl, op, second) {
        return Way::Joined { first, second };
    }
    Way::Merged { first, second }
}
