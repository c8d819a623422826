//! Instances of interned terms.
ghost use Rattle.std.specs.Prelude.{◌≡◌, ◌<◌, ◌≤◌, length, map, OnOk};
ghost use Rattle.std.specs.List.{AllByRecursion};
ghost use Rattle.circ_term.specs.Tree.{Tree, Trees, App, trees_of};
ghost use Rattle.circ_term.specs.Substitution.{Substitution, instance, instances};
ghost use Rattle.circ_term.specs.Growing.{Grows};
ghost use Rattle.circ_nodes.specs.Named.{IsNamed, AreNamed, Interns, tree_at};
ghost use Rattle.circ_shared.specs.Interned.{InternsAll};
ghost use Rattle.circ_shared.specs.Memo.{IsMade};

use circ_nodes::{Nodes, Numbers, Shape};
use circ_term::{MOST_ARGS, TermFault};
use indexmap::IndexMap;
use std::alloc::Global;

/// The numbers of instances, by the numbers of the terms that they are instances of.
pub type Made = IndexMap<u32, u32>;

/// The number of the instance of the term of a number, under a substitution of which `made` tells
/// the instances of variables, and of whatever else was made. By its code each distinct node that
/// has a variable below it is gone over once.
#[cycle(instance)]
pub fn instance(
    alloc: Global,
    nodes: &mut Nodes,
    made: &mut Made,
    pattern: u32,
) -> Result<u32, TermFault>
    requires there { pattern < length nodes.old }
    requires made { (σ : Substitution) × IsMade σ nodes.old made.old.entries }
    ensures grows { Grows nodes.old nodes.new }
    ensures interns { (σ : Substitution) → IsMade σ nodes.old made.old.entries
        → Interns nodes.new result (instance σ (tree_at nodes.old pattern)) }
    ensures made { (σ : Substitution) → IsMade σ nodes.old made.old.entries
        → OnOk result (IsMade σ nodes.new made.new.entries) }
{
    nodes.known();
    if nodes.is_ground(pattern) {
        nodes.known_at(pattern);
        return Ok(pattern);
    }
    if let Some(number) = made.get(&pattern) {
        return Ok(*number);
    }
    match nodes.shape(pattern) {
        Shape::Variable { .. } => Ok(pattern),
        Shape::Application { op, sort, args } => {
            let args = Numbers::from_slice(alloc, args)?;
            match instances(alloc, nodes, made, args.as_slice()) {
                Err(fault) => Err(fault),
                Ok(numbers) => enter(nodes, made, pattern, op, sort, numbers),
            }
        }
    }
}

#[cycle(instance)]
fn instances(
    alloc: Global,
    nodes: &mut Nodes,
    made: &mut Made,
    patterns: &[u32],
) -> Result<Numbers, TermFault>
    requires there { AllByRecursion (λ n. n < length nodes.old) patterns.now }
    requires made { (σ : Substitution) × IsMade σ nodes.old made.old.entries }
    ensures grows { Grows nodes.old nodes.new }
    ensures interns { (σ : Substitution) → IsMade σ nodes.old made.old.entries
        → InternsAll (λ v. v.items) nodes.new result
        (instances σ (trees_of (map (tree_at nodes.old) patterns.now))) }
    ensures made { (σ : Substitution) → IsMade σ nodes.old made.old.entries
        → OnOk result (IsMade σ nodes.new made.new.entries) }
{
    let mut numbers = Numbers::new(alloc);
    for pattern in patterns {
        match instance(alloc, nodes, made, *pattern) {
            Err(fault) => return Err(fault),
            Ok(number) => numbers.push(number)?,
        }
    }
    Ok(numbers)
}

// The operator on these numbers, which is noted as the instance of the term of a number.
fn enter(
    nodes: &mut Nodes,
    made: &mut Made,
    pattern: u32,
    op: u32,
    sort: u32,
    numbers: Numbers,
) -> Result<u32, TermFault>
    requires few { length numbers.items ≤ MOST_ARGS }
    requires there { AllByRecursion (λ n. n < length nodes.old) numbers.items }
    ensures grows { Grows nodes.old nodes.new }
    ensures interns { (ts : Trees) → AreNamed nodes.old numbers.items ts
        → Interns nodes.new result (App op sort ts) }
    ensures made { (σ : Substitution) (t : Tree) (ts : Trees) → AreNamed nodes.old numbers.items ts
        → IsNamed nodes.old pattern t → instance σ t ≡ App op sort ts
        → IsMade σ nodes.old made.old.entries
        → OnOk result (IsMade σ nodes.new made.new.entries) }
{
    match nodes.app(op, sort, numbers) {
        Err(fault) => Err(fault),
        Ok(number) => {
            made.insert(pattern, number)?;
            Ok(number)
        }
    }
}
