//! Variables are given terms.
ghost use Rattle.std.specs.Prelude.{◌≡◌, ◌<◌, ◌∷◌, [], List, length, map, true, IfOk};
ghost use Rattle.std.specs.Prelude.{slice_index_or};
ghost use Rattle.std.specs.List.{AllByRecursion};
ghost use Rattle.circ_term.specs.Tree.{Tree, Var};
ghost use Rattle.circ_theory.specs.Variables.{Variable};
ghost use Rattle.circ_theory.specs.Rewriting.{named};
ghost use Rattle.circ_nodes.specs.Named.{IsNamed, AreNamed, tree_at};
ghost use Rattle.circ_shared.specs.Patterns.{variable_trees};
ghost use Rattle.circ_shared.specs.Binding.{Binds};

use crate::instances::Made;
use circ_nodes::{Nodes, Numbers};
use std::alloc::{AllocError, Global};

// Gives the variables the terms, one for each, that go by their numbers in a table. False where
// the counts or the sorts differ.
pub(crate) fn bind(
    alloc: Global,
    nodes: &Nodes,
    made: &mut Made,
    variables: &[u32],
    table: &[u32],
    terms: &[u32],
) -> Result<bool, AllocError>
    requires table { AllByRecursion (λ n. n < length nodes.now) table.now }
    requires in_table { AllByRecursion (λ n. n < length table.now) terms.now }
    requires there { AllByRecursion (λ n. n < length nodes.now) variables.now }
    requires empty { made.old.entries ≡ [] }
    ensures { (vs : List Variable) → AreNamed nodes.now variables.now (variable_trees vs)
        → IfOk result (Binds nodes.now vs
        (map (named (map (tree_at nodes.now) table.now)) terms.now) made.new.entries) }
{
    let terms = named_by(alloc, table, terms)?;
    give(nodes, made, variables, terms.as_slice())
}

// The numbers that stand in a table at these numbers.
fn named_by(alloc: Global, table: &[u32], numbers: &[u32]) -> Result<Numbers, AllocError>
    requires { AllByRecursion (λ n. n < length table.now) numbers.now }
    ensures { IfOk result (λ v. v.items ≡ map (λ n. slice_index_or table.now n 0) numbers.now) }
{
    let mut named = Numbers::new(alloc);
    for number in numbers {
        named.push(table[*number as usize])?;
    }
    Ok(named)
}

/// Gives the variables the terms, one for each, all by number: then `made` has the instances of
/// these variables. False where the counts or the sorts differ. They are gone through from the last
/// one back.
pub fn give(
    nodes: &Nodes,
    made: &mut Made,
    variables: &[u32],
    terms: &[u32],
) -> Result<bool, AllocError>
    requires variables { AllByRecursion (λ n. n < length nodes.now) variables.now }
    requires terms { AllByRecursion (λ n. n < length nodes.now) terms.now }
    requires empty { made.old.entries ≡ [] }
    ensures { (vs : List Variable) → AreNamed nodes.now variables.now (variable_trees vs)
        → IfOk result (Binds nodes.now vs (map (tree_at nodes.now) terms.now)
        made.new.entries) }
{
    if variables.len() != terms.len() {
        return Ok(false);
    }
    for done in 0..variables.len() {
        let place = variables.len() - 1 - done;
        if !bind_one(nodes, made, variables[place], terms[place])? {
            return Ok(false);
        }
    }
    Ok(true)
}

// Gives one more variable a term, before the others.
fn bind_one(nodes: &Nodes, made: &mut Made, variable: u32, to: u32) -> Result<bool, AllocError>
    requires variable { variable < length nodes.now }
    requires to { to < length nodes.now }
    ensures { (v : Variable) (vs : List Variable) (ts : List Tree)
        → IsNamed nodes.now variable (Var v.number v.sort)
        → Binds nodes.now vs ts made.old.entries true
        → IfOk result (Binds nodes.now (v ∷ vs) (tree_at nodes.now to ∷ ts) made.new.entries) }
{
    nodes.known();
    nodes.known_at(to);
    if nodes.sort(to) != nodes.sort(variable) {
        return Ok(false);
    }
    made.insert(variable, to)?;
    Ok(true)
}
