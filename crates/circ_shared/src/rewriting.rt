//! A subterm in place of another.
ghost use Rattle.std.specs.Prelude.{◌<◌, length, IfOk};
ghost use Rattle.std.specs.Option.{IfSome};
ghost use Rattle.circ_term.specs.Growing.{Grows};
ghost use Rattle.circ_term.specs.Substitution.{Substitution, instance};
ghost use Rattle.circ_nodes.specs.Named.{tree_at};
ghost use Rattle.circ_replay.specs.Rewriting.{GivesInstance, GivesReplaced, GivesExchange};
ghost use Rattle.circ_replay.specs.Rewriting.{GivesPairs};
ghost use Rattle.circ_shared.specs.Interned.{OfTerm};
ghost use Rattle.circ_shared.specs.Memo.{IsMade};
ghost use Rattle.circ_shared.specs.Patterns.{pairs_at, AreThere};
ghost use Rattle.circ_shared.specs.Usage.{OfPairs};

use crate::instances::{Made, instance};
use crate::patterns::{Sides, Turned};
use crate::placing::replace;
use circ_nodes::Nodes;
use circ_term::TermFault;
use std::alloc::{AllocError, Global};

// One side of a pair, under the substitution, is replaced by the other.
pub(crate) fn rewrite(
    alloc: Global,
    nodes: &mut Nodes,
    made: &mut Made,
    sides: Turned,
    path: &[u16],
    term: u32,
) -> Result<Option<u32>, AllocError>
    requires from { sides.from < length nodes.old }
    requires to { sides.to < length nodes.old }
    requires term { term < length nodes.old }
    requires made { (σ : Substitution) × IsMade σ nodes.old made.old.entries }
    ensures grows { Grows nodes.old nodes.new }
    ensures exact { (σ : Substitution) → IsMade σ nodes.old made.old.entries
        → IfOk result (OfTerm nodes.new (GivesExchange (tree_at nodes.old term) path.now
        (instance σ (tree_at nodes.old sides.from)) (instance σ (tree_at nodes.old sides.to)))) }
    ensures made { (σ : Substitution) → IsMade σ nodes.old made.old.entries
        → IfOk result (λ o. IfSome o (λ n. IsMade σ nodes.new made.new.entries)) }
{
    nodes.known_at(term);
    let Some(from) = instance_within(alloc, nodes, made, sides.from)? else {
        return Ok(None);
    };
    let Some(to) = instance_within(alloc, nodes, made, sides.to)? else {
        return Ok(None);
    };
    exchange(nodes, Turned { from, to }, path, term)
}

// The pairs under the substitution. None where a term passes a limit.
pub(crate) fn pair_instances(
    alloc: Global,
    nodes: &mut Nodes,
    made: &mut Made,
    pairs: &[Sides],
) -> Result<Option<Vec<Sides>>, AllocError>
    requires there { AreThere nodes.old pairs.now }
    requires made { (σ : Substitution) × IsMade σ nodes.old made.old.entries }
    ensures grows { Grows nodes.old nodes.new }
    ensures exact { (σ : Substitution) → IsMade σ nodes.old made.old.entries
        → IfOk result (OfPairs (λ v. v.items) nodes.new
        (GivesPairs σ (pairs_at nodes.old pairs.now))) }
{
    let mut instances = Vec::new(alloc);
    for pair in pairs {
        let Some(left) = instance_within(alloc, nodes, made, pair.left)? else {
            return Ok(None);
        };
        let Some(right) = instance_within(alloc, nodes, made, pair.right)? else {
            return Ok(None);
        };
        instances.push(Sides { left, right })?;
    }
    Ok(Some(instances))
}

// The number of an instance. None where it passes a limit.
fn instance_within(
    alloc: Global,
    nodes: &mut Nodes,
    made: &mut Made,
    pattern: u32,
) -> Result<Option<u32>, AllocError>
    requires there { pattern < length nodes.old }
    requires made { (σ : Substitution) × IsMade σ nodes.old made.old.entries }
    ensures grows { Grows nodes.old nodes.new }
    ensures gives { (σ : Substitution) → IsMade σ nodes.old made.old.entries
        → IfOk result (OfTerm nodes.new (GivesInstance σ (tree_at nodes.old pattern))) }
    ensures made { (σ : Substitution) → IsMade σ nodes.old made.old.entries
        → IfOk result (λ o. IfSome o (λ n. IsMade σ nodes.new made.new.entries)) }
{
    match instance(alloc, nodes, made, pattern) {
        Ok(number) => Ok(Some(number)),
        Err(TermFault::TooBig { .. }) => Ok(None),
        Err(TermFault::TooDeep { .. }) => Ok(None),
        Err(TermFault::Memory) => Err(AllocError),
    }
}

// One term is replaced by another at the path. Whether it stands there is one comparison.
pub(crate) fn exchange(
    nodes: &mut Nodes,
    sides: Turned,
    path: &[u16],
    term: u32,
) -> Result<Option<u32>, AllocError>
    requires from { sides.from < length nodes.old }
    requires to { sides.to < length nodes.old }
    requires term { term < length nodes.old }
    ensures grows { Grows nodes.old nodes.new }
    ensures exact { IfOk result (OfTerm nodes.new (GivesExchange (tree_at nodes.old term) path.now
        (tree_at nodes.old sides.from) (tree_at nodes.old sides.to))) }
{
    nodes.known();
    let Some(old) = nodes.at(term, path) else {
        return Ok(None);
    };
    if old != sides.from {
        return Ok(None);
    }
    replaced_at(nodes, term, path, sides.to)
}

// The number of the term with another subterm at the path. None where the path leaves the term, or
// it passes a limit then.
pub(crate) fn replaced_at(
    nodes: &mut Nodes,
    term: u32,
    path: &[u16],
    new: u32,
) -> Result<Option<u32>, AllocError>
    requires term { term < length nodes.old }
    requires new { new < length nodes.old }
    ensures grows { Grows nodes.old nodes.new }
    ensures exact { IfOk result (OfTerm nodes.new
        (GivesReplaced (tree_at nodes.old term) path.now (tree_at nodes.old new))) }
{
    match replace(nodes, term, path, new) {
        Ok(Some(made)) => Ok(Some(made)),
        Ok(None) => Ok(None),
        Err(TermFault::TooBig { .. }) => Ok(None),
        Err(TermFault::TooDeep { .. }) => Ok(None),
        Err(TermFault::Memory) => Err(AllocError),
    }
}
