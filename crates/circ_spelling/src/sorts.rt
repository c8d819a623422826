//! The sorts of a grammar's terms.
ghost use Rattle.std.specs.Prelude.{◌≡◌, ◌⊎◌, ℕ, length, IfOk, OnOk, IsTrue};
ghost use Rattle.circ_spelling.specs.Sorts.{IsSeen, AreSeen, HasSort, StaySorts, RuleSorts};
ghost use Rattle.circ_spelling.specs.Sorts.{VariableSorts, AreSorts};

use crate::grammar::{Grammar, Rule, Variable};
use crate::marks::width;
use std::alloc::{AllocError, Global};

/// The sorts of rules and variables. Those from some number on may stand there several times.
pub fn sorts_of(alloc: Global, grammar: &Grammar) -> Result<Vec<u32>, AllocError>
    ensures { IfOk result (λ v. AreSorts grammar.now v.items) }
{
    let mut seen = vec![in alloc; false; width(&grammar.rules)]?;
    let mut sorts = Vec::new(alloc);
    rule_sorts(&mut sorts, &mut seen, &grammar.rules)?;
    variable_sorts(&mut sorts, &mut seen, &grammar.variables)?;
    Ok(sorts)
}

fn is_seen(seen: &[bool], sort: u32) -> bool
    ensures { IsTrue result → IsSeen seen.now sort }
{
    match seen.get(sort as usize) {
        Some(mark) => *mark,
        None => false,
    }
}

fn see(seen: &mut Vec<bool>, sort: u32)
    ensures { (s : ℕ) → IsSeen seen.new.items s → IsSeen seen.old.items s ⊎ (s ≡ sort) }
{
    let place = sort as usize;
    if place < seen.len() {
        seen[place] = true;
    }
}

// Adds a sort that was not seen.
fn push_sort(sorts: &mut Vec<u32>, seen: &mut Vec<bool>, sort: u32) -> Result<(), AllocError>
    requires { AreSeen seen.old.items sorts.old.items }
    ensures seen { OnOk result (AreSeen seen.new.items sorts.new.items) }
    ensures here { OnOk result (HasSort sorts.new.items sort) }
    ensures stay { OnOk result (StaySorts sorts.old.items sorts.new.items) }
{
    if is_seen(seen.as_slice(), sort) {
        return Ok(());
    }
    sorts.push(sort)?;
    see(seen, sort);
    Ok(())
}

fn rule_sorts(sorts: &mut Vec<u32>, seen: &mut Vec<bool>, rules: &[Rule]) -> Result<(), AllocError>
    requires { AreSeen seen.old.items sorts.old.items }
    ensures seen { OnOk result (AreSeen seen.new.items sorts.new.items) }
    ensures rules { OnOk result (RuleSorts rules.now (length rules.now) sorts.new.items) }
{
    for rule in rules {
        push_sort(sorts, seen, rule.sort)?;
    }
    Ok(())
}

fn variable_sorts(
    sorts: &mut Vec<u32>,
    seen: &mut Vec<bool>,
    variables: &[Variable],
) -> Result<(), AllocError>
    requires { AreSeen seen.old.items sorts.old.items }
    ensures variables { OnOk result (VariableSorts variables.now (length variables.now)
        sorts.new.items) }
    ensures stay { OnOk result (StaySorts sorts.old.items sorts.new.items) }
{
    for variable in variables {
        push_sort(sorts, seen, variable.sort)?;
    }
    Ok(())
}
