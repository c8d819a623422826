//! What two contents have in common, and the rest of each.
ghost use Rattle.std.specs.Prelude.{◌≡◌, ◌++◌, drop, IfOk, OnOk};
ghost use Rattle.circ_aci.proofs.Settled.{Rises};
ghost use Rattle.circ_content_join.specs.Apart.{set_aside, leaves_rests};
ghost use Rattle.circ_moves.specs.Parts.{plain_apart};

use circ_term::Term;
use std::alloc::{AllocError, Global};
use std::cmp::Ordering;

/// The entries that are set aside, and the rest of each content.
#[derive(Drop)]
pub(crate) struct Apart {
    pub(crate) both: Vec<Term>,
    pub(crate) left: Vec<Term>,
    pub(crate) right: Vec<Term>,
}

/// Sets the common entries of two sorted contents aside, in one walk of both.
pub(crate) fn set_apart(alloc: Global, xs: &[Term], ys: &[Term]) -> Result<Apart, AllocError>
    requires left { Rises xs.now }
    requires right { Rises ys.now }
    ensures { IfOk result (λ d. plain_apart d ≡ set_aside xs.now ys.now) }
{
    let mut both = Vec::new(alloc);
    let mut left = Vec::new(alloc);
    let mut right = Vec::new(alloc);
    let mut i = 0;
    let mut j = 0;
    while i < xs.len() && j < ys.len() {
        let x = &xs[i];
        let y = &ys[j];
        match x.cmp(y) {
            Ordering::Less => {
                x.share_to(&mut left)?;
                i += 1;
            }
            Ordering::Equal => {
                x.share_to(&mut both)?;
                i += 1;
                j += 1;
            }
            Ordering::Greater => {
                y.share_to(&mut right)?;
                j += 1;
            }
        }
    }
    share_from(xs, i, &mut left)?;
    share_from(ys, j, &mut right)?;
    Ok(Apart { both, left, right })
}

// Appends the terms from a place on.
fn share_from(terms: &[Term], from: usize, list: &mut Vec<Term>) -> Result<(), AllocError>
    ensures { OnOk result (list.new.items ≡ list.old.items ++ drop from terms.now) }
{
    for i in from..terms.len() {
        terms[i].share_to(list)?;
    }
    Ok(())
}

/// Whether something is set aside, both leave something, and one of them two entries or more.
pub(crate) fn leaves_rests(apart: &Apart) -> bool
    ensures { result ≡ leaves_rests (plain_apart apart.now) }
{
    !apart.both.is_empty()
        && !apart.left.is_empty()
        && !apart.right.is_empty()
        && (apart.left.len() > 1 || apart.right.len() > 1)
}
