//! A goal of an earlier block as a rule.
ghost use Rattle.std.specs.Prelude.{◌≡◌, IfOk};
ghost use Rattle.circ_plain_search.specs.BlockRules.{lemma_rule};

use circ_rewrite::{Rule, RuleName};
use circ_theory::Goal;
use std::alloc::{AllocError, Global};

// The goal as a rule of this number.
pub(crate) fn lemma_rule(alloc: Global, number: u32, goal: &Goal) -> Result<Rule, AllocError>
    ensures { IfOk result (λ r. r ≡ lemma_rule number goal.now) }
{
    let left = goal.left.share()?;
    let right = goal.right.share()?;
    let conds = goal.conds.share(alloc)?;
    Ok(Rule {
        name: RuleName::Lemma { number },
        left,
        right,
        conds,
    })
}
