//! Terms of the same content.
ghost use Rattle.std.specs.Prelude.{◌≡◌, ◌↔◌, IsTrue, IfOk};
ghost use Rattle.circ_theory.specs.Operators.{operator_of};
ghost use Rattle.circ_aci.specs.Content.{content, content_under};

use crate::contents::content_of;
use crate::row::stands;
use circ_term::{Term, cmp_all};
use circ_theory::{OpDecl, Theory};
use std::alloc::{AllocError, Global};

/// Whether two terms have the same content under an operator. No memory is taken where they are the
/// same, where both are canonical, or where their sizes tell them apart.
pub fn same_content(
    alloc: Global,
    theory: &Theory,
    op: u32,
    a: &Term,
    b: &Term,
) -> Result<bool, AllocError>
    ensures { IfOk result (λ r. IsTrue r ↔
        (content_under theory.now.signature op a.now
        ≡ content_under theory.now.signature op b.now)) }
{
    if a.same(b) {
        return Ok(true);
    }
    match theory.op(op) {
        Some(decl) => compare(alloc, decl, op, a, b),
        None => Ok(false),
    }
}

// Whether two different terms have the same content.
fn compare(alloc: Global, decl: &OpDecl, op: u32, a: &Term, b: &Term) -> Result<bool, AllocError>
    requires { a.now ≡ b.now → ⊥ }
    ensures { IfOk result (λ r. IsTrue r ↔
        (content (operator_of decl.now) op a.now ≡ content (operator_of decl.now) op b.now)) }
{
    if are_apart(decl, op, a, b) {
        return Ok(false);
    }
    let a = content_of(alloc, decl, op, a)?;
    let b = content_of(alloc, decl, op, b)?;
    Ok(are_same(a.as_slice(), b.as_slice()))
}

// Whether it shows at once that two different terms differ in content: without idem those of the
// same content have the same size, and two canonical ones have different contents.
fn are_apart(decl: &OpDecl, op: u32, a: &Term, b: &Term) -> bool
    requires { a.now ≡ b.now → ⊥ }
    ensures { IsTrue result
        → content (operator_of decl.now) op a.now ≡ content (operator_of decl.now) op b.now
        → ⊥ }
{
    if !decl.idem && a.size() != b.size() {
        return true;
    }
    stands(decl, op, a) && stands(decl, op, b)
}

fn are_same(a: &[Term], b: &[Term]) -> bool
    ensures { IsTrue result ↔ (a.now ≡ b.now) }
{
    if a.len() != b.len() {
        return false;
    }
    cmp_all(a, b).is_eq()
}
