//! The variables of interned terms.
ghost use Rattle.std.specs.Prelude.{◌≡◌, ◌<◌, List, [], length, map, IfOk, OnOk};
ghost use Rattle.std.specs.List.{AllByRecursion};
ghost use Rattle.circ_term.specs.Tree.{trees_of};
ghost use Rattle.circ_term.specs.Growing.{Grows};
ghost use Rattle.circ_theory.specs.Theory.{goal};
ghost use Rattle.circ_theory.specs.Variables.{Variable as TheVariable, seen_in, seen_in_all};
ghost use Rattle.circ_theory.specs.Variables.{sorted, variables_of};
ghost use Rattle.circ_nodes.specs.Named.{AreNamed, tree_at};
ghost use Rattle.circ_shared.specs.Patterns.{variable_trees, pairs_at};
ghost use Rattle.circ_shared.specs.Patterns.{IsThere, AreThere, IsPattern};
ghost use Rattle.circ_shared.specs.Gathering.{variable_of, Gathers};

use crate::instances::Made;
use crate::patterns::{Pattern, Sides};
use circ_nodes::{Nodes, Shape};
use std::alloc::{AllocError, Global};
use std::collections::BTreeSet;

#[derive(Clone, Copy, PartialEq, Eq, PartialOrd, Ord)]
pub(crate) struct Variable {
    pub(crate) number: u32,
    pub(crate) sort: u32,
}

/// Two terms under conditions, by number, with their variables. By its code each distinct node that
/// has a variable below it is gone over once.
pub fn pattern(
    alloc: Global,
    nodes: &mut Nodes,
    conds: Vec<Sides>,
    sides: Sides,
) -> Result<Pattern, AllocError>
    requires conditions { AreThere nodes.old conds.items }
    requires sides { IsThere nodes.old sides }
    ensures grows { Grows nodes.old nodes.new }
    ensures pattern { IfOk result (IsPattern nodes.new) }
    ensures conditions { IfOk result (λ p. p.conds.items ≡ conds.items) }
    ensures sides { IfOk result (λ p. p.sides ≡ sides) }
{
    let variables = variables_of(alloc, nodes, conds.as_slice(), sides)?;
    let variables = numbers_of(alloc, nodes, &variables)?;
    Ok(Pattern {
        conds,
        sides,
        variables,
    })
}

// The variables of the two sides and of the conditions, in order.
fn variables_of(
    alloc: Global,
    nodes: &Nodes,
    conds: &[Sides],
    sides: Sides,
) -> Result<BTreeSet<Variable>, AllocError>
    requires conditions { AreThere nodes.now conds.now }
    requires sides { IsThere nodes.now sides }
    ensures { IfOk result (λ s. map variable_of s.keys ≡ sorted (variables_of (goal
        (pairs_at nodes.now conds.now) (tree_at nodes.now sides.left)
        (tree_at nodes.now sides.right)))) }
{
    let mut variables = BTreeSet::new(alloc);
    let mut seen = Made::new(alloc);
    let gathered = gather_goal(nodes, conds, sides, &mut seen, &mut variables);
    drop(seen);
    match gathered {
        Ok(()) => Ok(variables),
        Err(fault) => {
            drop(variables);
            Err(fault)
        }
    }
}

// The same into a set that has none.
fn gather_goal(
    nodes: &Nodes,
    conds: &[Sides],
    sides: Sides,
    seen: &mut Made,
    variables: &mut BTreeSet<Variable>,
) -> Result<(), AllocError>
    requires conditions { AreThere nodes.now conds.now }
    requires sides { IsThere nodes.now sides }
    requires seen { seen.old.entries ≡ [] }
    requires none { variables.old.keys ≡ [] }
    ensures { OnOk result (map variable_of variables.new.keys ≡ sorted (variables_of (goal
        (pairs_at nodes.now conds.now) (tree_at nodes.now sides.left)
        (tree_at nodes.now sides.right)))) }
{
    gather(nodes, sides.left, seen, variables)?;
    gather(nodes, sides.right, seen, variables)?;
    for pair in conds {
        gather(nodes, pair.left, seen, variables)?;
        gather(nodes, pair.right, seen, variables)?;
    }
    Ok(())
}

// Adds the variables of the term of a number. What was gone over before is passed by.
#[cycle(gather)]
fn gather(
    nodes: &Nodes,
    number: u32,
    seen: &mut Made,
    variables: &mut BTreeSet<Variable>,
) -> Result<(), AllocError>
    requires { number < length nodes.now }
    ensures { (vs : List TheVariable) → Gathers nodes.now vs seen.old.entries variables.old.keys
        → OnOk result (Gathers nodes.now (seen_in (tree_at nodes.now number) vs)
        seen.new.entries variables.new.keys) }
{
    if nodes.is_ground(number) {
        return Ok(());
    }
    if seen.get(&number).is_some() {
        return Ok(());
    }
    match nodes.shape(number) {
        Shape::Variable { number, sort } => {
            variables.insert(Variable { number, sort })?;
            Ok(())
        }
        Shape::Application { args, .. } => {
            gather_all(nodes, args, seen, variables)?;
            seen.insert(number, number)?;
            Ok(())
        }
    }
}

#[cycle(gather)]
fn gather_all(
    nodes: &Nodes,
    numbers: &[u32],
    seen: &mut Made,
    variables: &mut BTreeSet<Variable>,
) -> Result<(), AllocError>
    requires { AllByRecursion (λ n. n < length nodes.now) numbers.now }
    ensures { (vs : List TheVariable) → Gathers nodes.now vs seen.old.entries variables.old.keys
        → OnOk result (Gathers nodes.now
        (seen_in_all (trees_of (map (tree_at nodes.now) numbers.now)) vs)
        seen.new.entries variables.new.keys) }
{
    for number in numbers {
        gather(nodes, *number, seen, variables)?;
    }
    Ok(())
}

// The numbers of these variables.
fn numbers_of(
    alloc: Global,
    nodes: &mut Nodes,
    variables: &BTreeSet<Variable>,
) -> Result<Vec<u32>, AllocError>
    ensures grows { Grows nodes.old nodes.new }
    ensures named { IfOk result (λ v. AreNamed nodes.new v.items
        (variable_trees (map variable_of variables.now.keys))) }
{
    let mut numbers = Vec::with_capacity(alloc, variables.len())?;
    for variable in variables.iter() {
        numbers.push(nodes.variable(variable.number, variable.sort)?)?;
    }
    Ok(numbers)
}
