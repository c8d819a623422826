//! Rules, traces and normal forms.
ghost use Rattle.std.specs.Prelude.{◌≡◌, IfOk};

use circ_term::{Path, Term};
use circ_theory::Pairs;
use std::alloc::{AllocError, Global};

/// Where a rule comes from.
#[derive(Clone, Copy, PartialEq, Eq, Debug)]
pub enum RuleName {
    /// An equation of the theory.
    Equation { number: u32 },
    /// A goal of an earlier block, counted over all of them.
    Lemma { number: u32 },
}

/// A rule: an instance of its left side is replaced by that of its right side, where those of its
/// conditions hold.
#[derive(Drop)]
pub struct Rule {
    /// Where the rule comes from.
    pub name: RuleName,
    /// What is looked for.
    pub left: Term,
    /// What replaces it.
    pub right: Term,
    /// What has to hold.
    pub conds: Pairs,
}

impl Rule {
    /// The same rule once more. Its terms are shared.
    pub fn share(&self, alloc: Global) -> Result<Rule, AllocError>
        ensures { IfOk result (λ r. r ≡ self.now) }
    {
        let left = self.left.share()?;
        let right = self.right.share()?;
        let conds = self.conds.share(alloc)?;
        Ok(Rule {
            name: self.name,
            left,
            right,
            conds,
        })
    }
}

/// The same rules once more. Their terms are shared.
pub fn share_rules(alloc: Global, rules: &[Rule]) -> Result<Vec<Rule>, AllocError>
    ensures { IfOk result (λ v. v.items ≡ rules.now) }
{
    let mut copy = Vec::with_capacity(alloc, rules.len())?;
    for rule in rules {
        copy.push(rule.share(alloc)?)?;
    }
    Ok(copy)
}

/// One replacement that was made, at a path in the whole term.
#[cycle(trace)]
#[derive(Drop)]
pub enum Trace {
    /// By a rule. The terms are those that the variables of its sides and its conditions were
    /// given, in the order of the variables' numbers and then their sorts.
    Rewrite {
        name: RuleName,
        path: Path,
        terms: Vec<Term>,
        /// Why each of its conditions holds.
        conds: Vec<Pass>,
    },
    /// By an assumption, as it stands.
    Assumed {
        number: u32,
        path: Path,
    },
    /// By the canonical form under an operator, which is this term.
    Content {
        op: u32,
        path: Path,
        term: Term,
    },
}

/// Why a condition holds: the replacements that lead its two sides to one term.
#[cycle(trace)]
#[derive(Drop)]
pub struct Pass {
    /// The replacements on the left side.
    pub left: Vec<Trace>,
    /// The replacements on the right side.
    pub right: Vec<Trace>,
}

/// A normal form, with the replacements that led to it, in order.
#[derive(Drop)]
pub struct Normal {
    /// The normal form.
    pub term: Term,
    /// The replacements.
    pub traces: Vec<Trace>,
}
