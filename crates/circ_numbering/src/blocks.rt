//! Finished blocks, and the proof that they make.
ghost use Rattle.std.specs.Prelude.{◌≡◌, [], flat_map, map, IfOk};
ghost use Rattle.circ_theory.specs.Pairs.{plain_pair};
ghost use Rattle.circ_proof.specs.PlainProof.{plain_names, plain_block};
ghost use Rattle.circ_proof.specs.PlainProof.{plain_certificates, plain_proof};
ghost use Rattle.circ_plain_search.specs.Numbering.{side_terms, pair_name};
ghost use Rattle.circ_plain_search.specs.Numbering.{goal_terms, goal_name, links_terms};
ghost use Rattle.circ_plain_search.specs.Numbering.{block_terms, numbered_block, numbered_links};
ghost use Rattle.circ_plain_search.specs.Numbering.{proof_with};
ghost use Rattle.circ_numbering.specs.Asking.{Asks, GivesProof};
ghost use Rattle.circ_numbering.specs.Plain.{plain_term_block, plain_term_blocks};
ghost use Rattle.circ_numbering.specs.Plain.{plain_term_certificates};

use crate::asking::{links, number};
use crate::fault::NumberFault;
use crate::whys::steps;
use circ_proof::{Block, GoalNames, Link, Proof, Step};
use circ_replay::TableBuilder;
use circ_rewrite::share_goals;
use circ_special::Gamma;
use circ_term::Term;
use circ_theory::{Goal, Pair};
use std::alloc::{AllocError, Global};

/// A block of which all goals are done.
#[derive(Drop)]
pub struct TermBlock {
    /// The goals.
    pub goals: Vec<Goal>,
    /// The steps. The last is `Done`.
    pub steps: Vec<Step<Term>>,
}

/// The proof of these blocks, with this special set and its certificates. Its table has the terms
/// in the order of the lines: the blocks in order, in each the goals and then the steps; then the
/// certificates.
pub fn numbered(
    alloc: Global,
    gamma: Gamma,
    certificates: &[Vec<Link<Term>>],
    blocks: &[TermBlock],
) -> Result<Proof, NumberFault>
    ensures { GivesProof plain_proof (proof_with gamma
        (plain_term_certificates certificates.now) (plain_term_blocks blocks.now)) result }
{
    let mut table = TableBuilder::new(alloc);
    numbered_by(alloc, &mut table, gamma, certificates, blocks)
}

// The same, by a table that is still empty.
fn numbered_by(
    alloc: Global,
    table: &mut TableBuilder,
    gamma: Gamma,
    certificates: &[Vec<Link<Term>>],
    blocks: &[TermBlock],
) -> Result<Proof, NumberFault>
    requires { table.old ≡ [] }
    ensures { GivesProof plain_proof (proof_with gamma
        (plain_term_certificates certificates.now) (plain_term_blocks blocks.now)) result }
{
    let blocks = match named_blocks(alloc, table, blocks) {
        Ok(blocks) => blocks,
        Err(fault) => return Err(fault),
    };
    let certificates = match named_certificates(alloc, table, certificates) {
        Ok(certificates) => certificates,
        Err(fault) => return Err(fault),
    };
    Ok(Proof {
        version: 1,
        table: shared(alloc, table.terms())?,
        gamma,
        certificates,
        blocks,
    })
}

fn shared(alloc: Global, terms: &[Term]) -> Result<Vec<Term>, AllocError>
    ensures { IfOk result (λ v. v.items ≡ terms.now) }
{
    let mut all = Vec::with_capacity(alloc, terms.len())?;
    for term in terms {
        all.push(term.share()?)?;
    }
    Ok(all)
}

fn named_blocks(
    alloc: Global,
    table: &mut TableBuilder,
    recorded: &[TermBlock],
) -> Result<Vec<Block>, NumberFault>
    ensures { Asks table.old table.new (flat_map block_terms (plain_term_blocks recorded.now))
        (λ t v. map plain_block v.items
        ≡ map (numbered_block t) (plain_term_blocks recorded.now)) result }
{
    let mut blocks = Vec::with_capacity(alloc, recorded.len())?;
    for one in recorded {
        match named_block(alloc, table, one) {
            Ok(block) => blocks.push(block)?,
            Err(fault) => return Err(fault),
        }
    }
    Ok(blocks)
}

fn named_block(
    alloc: Global,
    table: &mut TableBuilder,
    recorded: &TermBlock,
) -> Result<Block, NumberFault>
    ensures { Asks table.old table.new (block_terms (plain_term_block recorded.now))
        (λ t x. plain_block x ≡ numbered_block t (plain_term_block recorded.now)) result }
{
    let goals = share_goals(alloc, recorded.goals.as_slice())?;
    let names = match names(alloc, table, recorded.goals.as_slice()) {
        Ok(names) => names,
        Err(fault) => return Err(fault),
    };
    match steps(alloc, table, recorded.steps.as_slice()) {
        Ok(steps) => Ok(Block {
            goals,
            names,
            steps,
        }),
        Err(fault) => Err(fault),
    }
}

// The numbers of the terms of goals.
fn names(
    alloc: Global,
    table: &mut TableBuilder,
    goals: &[Goal],
) -> Result<Vec<GoalNames>, NumberFault>
    ensures { Asks table.old table.new (flat_map goal_terms goals.now)
        (λ t v. map plain_names v.items ≡ map (goal_name t) goals.now) result }
{
    let mut names = Vec::with_capacity(alloc, goals.len())?;
    for goal in goals {
        match name(alloc, table, goal) {
            Ok(name) => names.push(name)?,
            Err(fault) => return Err(fault),
        }
    }
    Ok(names)
}

fn name(alloc: Global, table: &mut TableBuilder, goal: &Goal) -> Result<GoalNames, NumberFault>
    ensures { Asks table.old table.new (goal_terms goal.now)
        (λ t x. plain_names x ≡ goal_name t goal.now) result }
{
    let left = match number(table, &goal.left) {
        Ok(left) => left,
        Err(fault) => return Err(fault),
    };
    let right = match number(table, &goal.right) {
        Ok(right) => right,
        Err(fault) => return Err(fault),
    };
    match pairs(alloc, table, goal.conds.as_slice()) {
        Ok(conds) => Ok(GoalNames { conds, left, right }),
        Err(fault) => Err(fault),
    }
}

// The numbers of both sides of pairs.
fn pairs(
    alloc: Global,
    table: &mut TableBuilder,
    recorded: &[Pair],
) -> Result<Vec<(u32, u32)>, NumberFault>
    ensures { Asks table.old table.new (flat_map side_terms (map plain_pair recorded.now))
        (λ t v. v.items ≡ map (pair_name t) (map plain_pair recorded.now)) result }
{
    let mut pairs = Vec::with_capacity(alloc, recorded.len())?;
    for one in recorded {
        match pair(table, one) {
            Ok(pair) => pairs.push(pair)?,
            Err(fault) => return Err(fault),
        }
    }
    Ok(pairs)
}

fn pair(table: &mut TableBuilder, recorded: &Pair) -> Result<(u32, u32), NumberFault>
    ensures { Asks table.old table.new (side_terms (plain_pair recorded.now))
        (λ t x. x ≡ pair_name t (plain_pair recorded.now)) result }
{
    let left = match number(table, &recorded.left) {
        Ok(left) => left,
        Err(fault) => return Err(fault),
    };
    match number(table, &recorded.right) {
        Ok(right) => Ok((left, right)),
        Err(fault) => Err(fault),
    }
}

fn named_certificates(
    alloc: Global,
    table: &mut TableBuilder,
    recorded: &[Vec<Link<Term>>],
) -> Result<Vec<Vec<Link>>, NumberFault>
    ensures { Asks table.old table.new
        (flat_map links_terms (plain_term_certificates recorded.now))
        (λ t v. plain_certificates v.items
        ≡ map (numbered_links t) (plain_term_certificates recorded.now)) result }
{
    let mut certificates = Vec::with_capacity(alloc, recorded.len())?;
    for one in recorded {
        match links(alloc, table, one.as_slice()) {
            Ok(links) => certificates.push(links)?,
            Err(fault) => return Err(fault),
        }
    }
    Ok(certificates)
}
