//! One normal form, with nothing known before or after.
ghost use Rattle.std.specs.Prelude.{◌≤◌, ◌<◌, ◌^◌, length, map};
ghost use Rattle.std.specs.List.{AllByRecursion};
ghost use Rattle.circ_theory.specs.Pairs.{plain_pair};
ghost use Rattle.circ_rewrite.specs.Due.{IsRewriteRule};
ghost use Rattle.circ_rewrite.specs.Plain.{Answers};
ghost use Rattle.circ_conditional_norm.specs.Norm.{conditional_norm};

use crate::reducer::Reducer;
use circ_rewrite::{Normal, RewriteFault, Rule, share_rules};
use circ_term::Term;
use circ_theory::{Pair, Theory};
use std::alloc::Global;

/// The normal form of a term under a theory's marked operators, with rules that may have conditions
/// and with assumptions, where so many tries stand around the term. The assumptions are tried
/// first, the outermost of them before the others, and the rules last.
///
/// The budget falls by one for each replacement and for each try. After a limit is passed it holds
/// what was left, and where memory ran out no more than before.
pub fn normalise(
    alloc: Global,
    theory: &Theory,
    rules: &[Rule],
    assumptions: &[Pair],
    term: &Term,
    tries: u32,
    budget: &mut u64,
) -> Result<Normal, RewriteFault>
    requires rules { AllByRecursion IsRewriteRule rules.now }
    requires few_rules { length rules.now < 2 ^ 32 }
    requires few_assumptions { length assumptions.now < 2 ^ 32 }
    requires tries { tries ≤ 8 }
    ensures exact { Answers result budget.new (conditional_norm tries theory.now.signature
        rules.now (map plain_pair assumptions.now) budget.old term.now) }
    ensures less { budget.new ≤ budget.old }
{
    let mut reducer = Reducer::new(alloc, theory, share_rules(alloc, rules)?)?;
    let normal = normal_under(&mut reducer, assumptions, term, tries, budget);
    drop(reducer);
    normal
}

// The same by a reducer of these rules.
fn normal_under(
    reducer: &mut Reducer<'_>,
    assumptions: &[Pair],
    term: &Term,
    tries: u32,
    budget: &mut u64,
) -> Result<Normal, RewriteFault>
    requires few { length assumptions.now < 2 ^ 32 }
    requires tries { tries ≤ 8 }
    ensures exact { Answers result budget.new (conditional_norm tries
        reducer.old.theory.signature reducer.old.rules (map plain_pair assumptions.now)
        budget.old term.now) }
    ensures less { budget.new ≤ budget.old }
{
    reducer.assume(assumptions)?;
    reducer.normal(term, tries, budget)
}
