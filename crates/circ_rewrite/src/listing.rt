//! The rules of a theory: those of its equations that are rewrite rules.
ghost use Rattle.std.specs.Prelude.{◌≡◌, ◌<◌, ◌^◌, length, IfOk};
ghost use Rattle.std.specs.List.{slice_get, AllByRecursion};
ghost use Rattle.circ_rewrite.specs.Due.{IsRewriteRule};
ghost use Rattle.circ_rewrite.specs.TheoryRules.{theory_rules, rule_at};

use crate::parts::{Rule, RuleName};
use circ_theory::Theory;
use std::alloc::{AllocError, Global};

/// The rules of a theory, in their order, named by their numbers.
pub fn theory_rules(alloc: Global, theory: &Theory) -> Result<Vec<Rule>, AllocError>
    ensures rules { IfOk result (λ v. v.items ≡ theory_rules theory.now) }
    ensures rewrite { IfOk result (λ v. AllByRecursion IsRewriteRule v.items) }
    ensures few { IfOk result (λ v. length v.items < 2 ^ 32) }
{
    theory.known();
    listed(alloc, theory)
}

fn listed(alloc: Global, theory: &Theory) -> Result<Vec<Rule>, AllocError>
    ensures { IfOk result (λ v. v.items ≡ theory_rules theory.now) }
{
    let mut rules = Vec::new(alloc);
    for number in 0..theory.equation_count() {
        match rule(alloc, theory, number)? {
            Some(rule) => rules.push(rule)?,
            None => {}
        }
    }
    Ok(rules)
}

/// The equation of a number as a rule, if it is one.
fn rule(alloc: Global, theory: &Theory, number: u32) -> Result<Option<Rule>, AllocError>
    ensures { IfOk result (λ o. o ≡ rule_at number (slice_get theory.now.equations number)) }
{
    if !theory.is_rule(number) {
        return Ok(None);
    }
    match theory.equation(number) {
        None => Ok(None),
        Some(equation) => Ok(Some(Rule {
            name: RuleName::Equation { number },
            left: equation.left.share()?,
            right: equation.right.share()?,
            conds: equation.conds.share(alloc)?,
        })),
    }
}
