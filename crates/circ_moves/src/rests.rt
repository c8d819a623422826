//! What two contents leave, and what a hypothesis makes of it.
ghost use Rattle.std.specs.Prelude.{◌≡◌, [], ◌++◌, ◌∷◌, true, IfOk, OnOk};
ghost use Rattle.std.specs.Option.{option_map};
ghost use Rattle.std.specs.List.{slice_get};
ghost use Rattle.circ_term.specs.Order.{is_same};
ghost use Rattle.circ_theory.specs.Signature.{Operator};
ghost use Rattle.circ_theory.specs.Operators.{operator_of};
ghost use Rattle.circ_aci.specs.Canonical.{join};
ghost use Rattle.circ_aci.specs.Content.{content_under};
ghost use Rattle.circ_content_join.specs.Apart.{set_aside};
ghost use Rattle.circ_content_join.specs.Joining.{joining_operator, regrouped};
ghost use Rattle.circ_content_join.specs.Moves.{Using, Regrouping};
ghost use Rattle.circ_join.specs.Uses.{plain_use};
ghost use Rattle.circ_moves.specs.Joining.{BuildsRests, IsWhole};
ghost use Rattle.circ_moves.specs.Parts.{plain_apart};
ghost use Rattle.circ_moves.specs.Plain.{plain_moves, moves_of};

use crate::apart::{Apart, set_apart};
use crate::moves::Move;
use crate::row::joined;
use circ_aci::content;
use circ_join::{HypothesisUse, has_place};
use circ_special::Gamma;
use circ_term::{Path, Term, TermFault};
use circ_theory::{OpDecl, Theory};
use std::alloc::{AllocError, Global};

/// The operator, where it is associative and commutative and both its places are in the set.
pub(crate) fn joining_operator<'a>(theory: &'a Theory, gamma: &Gamma, op: u32) -> Option<&'a OpDecl>
    ensures { option_map (λ d. operator_of d.now) result
        ≡ joining_operator theory.now.signature gamma.now op }
{
    match theory.op(op) {
        Some(decl) => {
            if decl.assoc && decl.comm && has_place(gamma, op, 0) && has_place(gamma, op, 1) {
                Some(decl)
            } else {
                None
            }
        }
        None => None,
    }
}

/// The contents of two terms under a commutative operator, set apart.
pub(crate) fn contents_apart(
    alloc: Global,
    theory: &Theory,
    op: u32,
    a: &Term,
    b: &Term,
) -> Result<Apart, AllocError>
    requires comm { (o : Operator) → slice_get theory.now.signature.ops op ≡ Some o
        → o.comm ≡ true }
    ensures { IfOk result (λ d. plain_apart d
        ≡ set_aside (content_under theory.now.signature op a.now)
        (content_under theory.now.signature op b.now)) }
{
    let left = content(alloc, theory, op, a)?;
    let right = content(alloc, theory, op, b)?;
    set_apart(alloc, left.as_slice(), right.as_slice())
}

/// The two rests, each joined, and what was set aside.
#[derive(Drop)]
pub(crate) struct Rests {
    pub(crate) left: Term,
    pub(crate) right: Term,
    pub(crate) both: Vec<Term>,
}

/// Joins the rests. The left one is built first.
pub(crate) fn rests_of(alloc: Global, op: u32, sort: u32, apart: Apart) -> Result<Rests, TermFault>
    ensures { BuildsRests op sort (plain_apart apart) result }
{
    let Apart { both, left, right } = apart;
    match joined(alloc, op, sort, left) {
        Err(fault) => Err(fault),
        Ok(left) => match joined(alloc, op, sort, right) {
            Err(fault) => Err(fault),
            Ok(right) => Ok(Rests { left, right, both }),
        },
    }
}

/// Appends the moves of a hypothesis that makes the left rest the right one: a becomes its rest and
/// what was set aside, the rest becomes that of b, and all becomes b.
pub(crate) fn push_over_rests(
    alloc: Global,
    op: u32,
    sort: u32,
    path: &[u16],
    a: &Term,
    b: &Term,
    rests: &Rests,
    hypothesis: HypothesisUse,
    moves: &mut Vec<Move>,
) -> Result<(), AllocError>
    ensures { OnOk result (plain_moves moves.new.items ≡ plain_moves moves.old.items
        ++ regrouped op path.now a.now (join op sort (rests.now.left ∷ rests.now.both.items))
        ++ Using (plain_use hypothesis)
        ∷ regrouped op path.now (join op sort (rests.now.right ∷ rests.now.both.items)) b.now) }
{
    match push_regrouped(alloc, op, sort, path, a, rests, moves) {
        Ok(()) => {}
        Err(fault) => {
            drop(hypothesis);
            return Err(fault);
        }
    }
    moves.push(Move::Using { hypothesis })?;
    push_regrouped_back(alloc, op, sort, path, rests, b, moves)
}

// Appends the move by which the term becomes its rest and what was set aside.
fn push_regrouped(
    alloc: Global,
    op: u32,
    sort: u32,
    path: &[u16],
    term: &Term,
    rests: &Rests,
    moves: &mut Vec<Move>,
) -> Result<(), AllocError>
    ensures { OnOk result (plain_moves moves.new.items ≡ plain_moves moves.old.items
        ++ regrouped op path.now term.now
        (join op sort (rests.now.left ∷ rests.now.both.items))) }
{
    let both = rests.both.as_slice();
    let first = regrouped(alloc, op, sort, path, term, &rests.left, both)?;
    push_some(moves, first)
}

// Appends the move by which the rest and what was set aside become the term.
fn push_regrouped_back(
    alloc: Global,
    op: u32,
    sort: u32,
    path: &[u16],
    rests: &Rests,
    term: &Term,
    moves: &mut Vec<Move>,
) -> Result<(), AllocError>
    ensures { OnOk result (plain_moves moves.new.items ≡ plain_moves moves.old.items
        ++ regrouped op path.now
        (join op sort (rests.now.right ∷ rests.now.both.items)) term.now) }
{
    let both = rests.both.as_slice();
    let last = regrouped_back(alloc, op, sort, path, &rests.right, both, term)?;
    push_some(moves, last)
}

fn push_some(moves: &mut Vec<Move>, one: Option<Move>) -> Result<(), AllocError>
    ensures { OnOk result (plain_moves moves.new.items
        ≡ plain_moves moves.old.items ++ moves_of one) }
{
    if let Some(one) = one {
        moves.push(one)?;
    }
    Ok(())
}

// The move by which the term becomes the rest and what was set aside, where that is another term.
fn regrouped(
    alloc: Global,
    op: u32,
    sort: u32,
    path: &[u16],
    term: &Term,
    rest: &Term,
    both: &[Term],
) -> Result<Option<Move>, AllocError>
    ensures { IfOk result (λ o. moves_of o
        ≡ regrouped op path.now term.now (join op sort (rest.now ∷ both.now))) }
{
    term.known();
    match whole_of(alloc, op, sort, entries_of(alloc, rest, both)?)? {
        Some(whole) => {
            if term.same(&whole) {
                return Ok(None);
            }
            regrouping(alloc, op, sort, path, vec![in alloc; whole]?)
        }
        None => regrouping(alloc, op, sort, path, entries_of(alloc, rest, both)?),
    }
}

// The move by which the rest and what was set aside become the term, where it is another one.
fn regrouped_back(
    alloc: Global,
    op: u32,
    sort: u32,
    path: &[u16],
    rest: &Term,
    both: &[Term],
    term: &Term,
) -> Result<Option<Move>, AllocError>
    ensures { IfOk result (λ o. moves_of o
        ≡ regrouped op path.now (join op sort (rest.now ∷ both.now)) term.now) }
{
    if is_whole(alloc, op, sort, entries_of(alloc, rest, both)?, term)? {
        return Ok(None);
    }
    regrouping(alloc, op, sort, path, vec![in alloc; term.share()?]?)
}

fn regrouping(
    alloc: Global,
    op: u32,
    sort: u32,
    path: &[u16],
    entries: Vec<Term>,
) -> Result<Option<Move>, AllocError>
    ensures { IfOk result (λ o. moves_of o
        ≡ Regrouping op path.now (join op sort entries.items) ∷ []) }
{
    let path = Path::from_slice(alloc, path)?;
    Ok(Some(Move::Regrouping {
        op,
        path,
        sort,
        entries,
    }))
}

// Whether the term is the entries joined.
fn is_whole(
    alloc: Global,
    op: u32,
    sort: u32,
    entries: Vec<Term>,
    term: &Term,
) -> Result<bool, AllocError>
    ensures { IfOk result (λ r. r ≡ is_same (join op sort entries.items) term.now) }
{
    term.known();
    match whole_of(alloc, op, sort, entries)? {
        Some(whole) => Ok(whole.same(term)),
        None => Ok(false),
    }
}

fn entries_of(alloc: Global, rest: &Term, both: &[Term]) -> Result<Vec<Term>, AllocError>
    ensures { IfOk result (λ v. v.items ≡ rest.now ∷ both.now) }
{
    let mut entries = Vec::with_capacity(alloc, both.len() + 1)?;
    rest.share_to(&mut entries)?;
    for term in both {
        term.share_to(&mut entries)?;
    }
    Ok(entries)
}

// The entries joined. None where they are too many for a term.
fn whole_of(
    alloc: Global,
    op: u32,
    sort: u32,
    entries: Vec<Term>,
) -> Result<Option<Term>, AllocError>
    ensures { IfOk result (IsWhole (join op sort entries.items)) }
{
    match joined(alloc, op, sort, entries) {
        Ok(whole) => Ok(Some(whole)),
        Err(TermFault::Memory) => Err(AllocError),
        Err(_) => Ok(None),
    }
}
