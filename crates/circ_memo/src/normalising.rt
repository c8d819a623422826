//! One normal form, with nothing kept before or after.
ghost use Rattle.std.specs.Prelude.{◌≤◌, ◌<◌, ◌^◌, length, map};
ghost use Rattle.std.specs.List.{AllByRecursion};
ghost use Rattle.circ_theory.specs.Pairs.{plain_pair};
ghost use Rattle.circ_rewrite.specs.Due.{IsRewriteRule, AreUnconditional};
ghost use Rattle.circ_rewrite.specs.Norm.{norm};
ghost use Rattle.circ_rewrite.specs.Plain.{Answers};

use crate::memo::Memo;
use circ_rewrite::{Normal, RewriteFault, Rule, share_rules};
use circ_term::Term;
use circ_theory::{Pair, Theory};
use std::alloc::Global;

/// The normal form of a term under a theory's marked operators, with assumptions and rules without
/// conditions. The assumptions are tried first, the outermost of them before the others, and the
/// rules last.
///
/// The budget falls by one for each replacement. After a limit is passed it holds what was left,
/// and where memory ran out no more than before.
pub fn normalise(
    alloc: Global,
    theory: &Theory,
    rules: &[Rule],
    assumptions: &[Pair],
    term: &Term,
    budget: &mut u64,
) -> Result<Normal, RewriteFault>
    requires rules { AllByRecursion IsRewriteRule rules.now }
    requires unconditional { AreUnconditional rules.now }
    requires few_rules { length rules.now < 2 ^ 32 }
    requires few_assumptions { length assumptions.now < 2 ^ 32 }
    ensures exact { Answers result budget.new (norm theory.now.signature rules.now
        (map plain_pair assumptions.now) budget.old term.now) }
    ensures less { budget.new ≤ budget.old }
{
    let mut memo = Memo::new(alloc, theory, share_rules(alloc, rules)?)?;
    let normal = normal_under(&mut memo, assumptions, term, budget);
    drop(memo);
    normal
}

// The same by a memo of these rules.
fn normal_under(
    memo: &mut Memo<'_>,
    assumptions: &[Pair],
    term: &Term,
    budget: &mut u64,
) -> Result<Normal, RewriteFault>
    requires { length assumptions.now < 2 ^ 32 }
    ensures exact { Answers result budget.new (norm memo.old.theory.signature memo.old.rules
        (map plain_pair assumptions.now) budget.old term.now) }
    ensures less { budget.new ≤ budget.old }
{
    memo.assume(assumptions)?;
    memo.normal(term, budget)
}
