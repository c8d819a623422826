//! Uses of goals, as tasks keep them, and the terms that stand in them.
ghost use Rattle.std.specs.Prelude.{◌≡◌, ◌++◌, IfOk, unwrap_or, option_copied, option_map};
ghost use Rattle.circ_term.specs.Limits.{Builds};
ghost use Rattle.circ_expansion.specs.Followed.{goal_in, no_goal};
ghost use Rattle.circ_expansion.specs.Expand.{base, whole_with, around, followed_at, link_setting};
ghost use Rattle.circ_expansion.specs.Expand.{no_followed};
ghost use Rattle.circ_tasks.specs.Settings.{setting_of};
ghost use Rattle.circ_uses.specs.Fronts.{front};
ghost use Rattle.circ_uses.specs.Uses.{layers_of};
ghost use Rattle.circ_tasks.specs.Tasks.{call_of, basis_of, target_of, background_in, links_at};
ghost use Rattle.circ_tasks.specs.declared.calls.Frame.{Frame as TheFrame};

use crate::leading::Side;
use circ_book::{Book, Followed};
use circ_proof::Link;
use circ_special::{Gamma, Place};
use circ_term::{Path, Term, TermFault};
use circ_theory::{Goal, Pair, Theory};
use circ_uses::{By, Certificates, Front, Held, Layer, base, put};
use std::alloc::{AllocError, Global};
use std::rc::Rc;

/// What is the same throughout.
#[derive(Clone, Copy)]
pub struct Frame<'a, 'b> {
    pub alloc: Global,
    pub theory: &'a Theory,
    pub table: &'a [Term],
    pub gamma: &'a Gamma,
    pub book: &'b Book<'a>,
    pub lists: &'a [Vec<Link>],
}

/// What becomes of a goal in a block: what the node of this number says, or nothing.
#[derive(Clone, Copy)]
pub struct Target {
    pub block: u32,
    pub node: Option<u32>,
}

/// A use of a goal. Of the assumptions the number is kept.
#[derive(Drop)]
pub struct Call {
    pub whole: Term,
    pub path: Rc<Vec<u16>>,
    pub entries: Front<Held>,
    pub along: Option<Front<Layer>>,
    pub goal: Target,
    pub by: Rc<By>,
    pub assumptions: u32,
}

/// What the links of a side are read against: the hypotheses at the end of a block, and the proof's
/// own assumptions, before which so many others stand.
#[derive(Drop)]
pub struct Basis {
    pub block: Option<u32>,
    pub raised: u32,
    pub assumptions: Vec<Pair>,
}

impl Call {
    /// The same use once more.
    pub fn share(&self) -> Result<Call, AllocError>
        ensures { IfOk result (λ d. (fr : TheFrame) → call_of fr d ≡ call_of fr self.now) }
    {
        Ok(Call {
            whole: self.whole.share()?,
            path: self.path.clone()?,
            entries: self.entries.share()?,
            along: share_layers(&self.along)?,
            goal: self.goal,
            by: self.by.clone()?,
            assumptions: self.assumptions,
        })
    }
}

fn share_layers(along: &Option<Front<Layer>>) -> Result<Option<Front<Layer>>, AllocError>
    ensures { IfOk result (λ o. option_map front o ≡ option_map front along.now) }
{
    match along {
        Some(layers) => Ok(Some(layers.share()?)),
        None => Ok(None),
    }
}

impl<'a> Frame<'a, '_> {
    /// What links are read against.
    pub fn side<'c>(&'c self, basis: &'c Basis) -> Side<'c, 'a>
        ensures table { result.table.now ≡ self.now.table.now }
        ensures setting { setting_of result ≡
            link_setting (background_in self.now) (basis_of self.now basis.now) }
    {
        Side {
            alloc: self.alloc,
            theory: self.theory,
            gamma: self.gamma,
            table: self.table,
            book: self.book,
            block: basis.block,
            assumptions: basis.assumptions.as_slice(),
        }
    }

    /// The links of the certificate of a place for the derivative of this number.
    pub fn certificate(&self, place: Place, derivative: u32) -> &'a [Link]
        ensures { links_at self.now result.now ≡
            (background_in self.now).certificate place derivative }
    {
        let certificates = Certificates {
            theory: self.theory,
            table: self.table,
            gamma: self.gamma,
            lists: self.lists,
        };
        certificates.links(place, derivative)
    }

    /// The path of the hole of the experiment.
    pub fn base(&self, call: &Call) -> Result<Vec<u16>, AllocError>
        ensures { IfOk result (λ v. v.items ≡ base (call_of self.now call.now)) }
    {
        base(
            self.alloc,
            self.theory,
            call.path.as_slice(),
            call.entries.as_slice(),
        )
    }

    /// A path below the hole of the experiment.
    pub fn below(&self, call: &Call, path: &[u16]) -> Result<Vec<u16>, AllocError>
        ensures { IfOk result (λ v. v.items ≡ base (call_of self.now call.now) ++ path.now) }
    {
        let mut whole = self.base(call)?;
        whole.extend_from_slice(path)?;
        Ok(whole)
    }

    /// The same, as rows have it.
    pub fn path_below(&self, call: &Call, path: &[u16]) -> Result<Path, AllocError>
        ensures { IfOk result (λ v. v.items ≡ base (call_of self.now call.now) ++ path.now) }
    {
        let whole = self.below(call, path)?;
        let path = Path::from_slice(self.alloc, whole.as_slice())?;
        Ok(path)
    }

    /// The whole term with this one at the hole.
    pub fn whole_with(&self, call: &Call, term: &Term) -> Result<Term, TermFault>
        ensures { Builds result (whole_with (call_of self.now call.now) term.now) }
    {
        let path = self.base(call)?;
        put(self.alloc, &call.whole, path.as_slice(), term)
    }

    /// The whole term with the instance of a term of the proof at the hole.
    pub fn around(&self, call: &Call, term: &Term) -> Result<Term, TermFault>
        ensures { Builds result (around (call_of self.now call.now) term.now) }
    {
        let path = self.base(call)?;
        circ_uses::around(self.alloc, &call.whole, path.as_slice(), &call.by, term)
    }

    /// The goal that becomes.
    pub fn goal(&self, target: Target) -> Option<&Goal>
        ensures { unwrap_or (option_copied result) no_goal ≡
            goal_in (target_of self.now target).history }
    {
        match target.node {
            Some(node) => self.book.goal(node),
            None => None,
        }
    }

    /// The hypothesis of this number.
    pub fn hypothesis(&self, basis: &Basis, number: u32) -> Target
        ensures { target_of self.now result ≡
            followed_at (basis_of self.now basis.now).hypotheses number }
    {
        let Some(block) = basis.block else {
            return nothing();
        };
        match self.book.hypothesis(block, number) {
            Some(Followed { block, node }) => Target {
                block,
                node: Some(node),
            },
            None => nothing(),
        }
    }
}

/// What becomes of a goal that does not exist.
pub fn nothing() -> Target
    ensures { (fr : TheFrame) → target_of fr result ≡ no_followed }
{
    Target {
        block: 0,
        node: None,
    }
}
