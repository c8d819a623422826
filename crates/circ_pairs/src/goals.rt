//! Equations and goals.
ghost use Rattle.std.specs.Prelude.{◌≡◌, IfOk};

use crate::pairs::Pairs;
use circ_term::Term;
use std::alloc::{AllocError, Global};

/// An equation of a theory: two terms of one sort, and the conditions under which they are equal.
#[derive(Drop)]
pub struct Equation {
    /// The left side.
    pub left: Term,
    /// The right side.
    pub right: Term,
    /// The conditions: at most 8 pairs of visible sorts.
    pub conds: Pairs,
    /// Whether it may be used as a rewrite rule. One that may not still counts in derivations.
    pub exec: bool,
}

/// What is to be proved: two terms of one sort, under conditions.
#[derive(Drop)]
pub struct Goal {
    /// The conditions: at most 8 pairs of visible sorts.
    pub conds: Pairs,
    /// The left side.
    pub left: Term,
    /// The right side.
    pub right: Term,
}

impl Goal {
    /// The same goal, whose terms are shared.
    pub fn share(&self, alloc: Global) -> Result<Goal, AllocError>
        ensures { IfOk result (λ goal. goal ≡ self.now) }
    {
        let conds = self.conds.share(alloc)?;
        let left = self.left.share()?;
        let right = self.right.share()?;
        Ok(Goal { conds, left, right })
    }
}
