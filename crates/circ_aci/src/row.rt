//! Terms that are their own canonical forms.
ghost use Rattle.std.specs.Prelude.{◌≡◌, ◌↔◌, IsTrue};
ghost use Rattle.circ_theory.specs.Operators.{operator_of};
ghost use Rattle.circ_aci.specs.Canonical.{canonical, canonical_under};
ghost use Rattle.circ_aci.specs.Row.{may_follow, first_in, is_row};

use crate::operands::{is_same, marked_operands, operands};
use circ_term::Term;
use circ_theory::{OpDecl, Theory};

/// Whether the term is its own canonical form under an operator. Costs a comparison of each two
/// neighbours that the operator joins, and no memory.
pub fn is_canonical(theory: &Theory, op: u32, term: &Term) -> bool
    ensures { IsTrue result
        ↔ (canonical_under theory.now.signature op term.now ≡ term.now) }
{
    match theory.op(op) {
        Some(decl) => stands(decl, op, term),
        None => true,
    }
}

/// The same under an operator that is given.
pub(crate) fn stands(decl: &OpDecl, op: u32, term: &Term) -> bool
    ensures { IsTrue result ↔ (canonical (operator_of decl.now) op term.now ≡ term.now) }
{
    let Some((first, second)) = marked_operands(decl, op, term) else {
        return true;
    };
    if decl.assoc {
        return is_row(decl, op, term);
    }
    if term.sort() != decl.result {
        return false;
    }
    may_follow(decl, first, second)
}

// Whether the applications at the top are grouped to the right, and what they join is settled.
fn is_row(decl: &OpDecl, op: u32, term: &Term) -> bool
    ensures { result ≡ is_row (operator_of decl.now) op term.now }
{
    let Some((first, second)) = operands(op, term) else {
        return true;
    };
    if term.sort() != decl.result {
        return false;
    }
    if operands(op, first).is_some() {
        return false;
    }
    if !may_follow(decl, first, first_in(op, second)) {
        return false;
    }
    is_row(decl, op, second)
}

fn first_in(op: u32, term: &Term) -> &Term
    ensures { result.now ≡ first_in op term.now }
{
    match operands(op, term) {
        Some((first, _)) => first,
        None => term,
    }
}

// Whether the second term may stand behind the first in a content.
fn may_follow(decl: &OpDecl, first: &Term, second: &Term) -> bool
    ensures { result ≡ may_follow (operator_of decl.now) first.now second.now }
{
    if decl.comm && second.cmp(first).is_lt() {
        return false;
    }
    !(decl.idem && is_same(second, first))
}
