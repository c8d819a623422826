//! Proofs as text is written.
ghost use Rattle.std.specs.Prelude.{◌≡◌, ◌++◌, ℕ, map, IfOk, OnOk};
ghost use Rattle.std.specs.List.{AllByRecursion};
ghost use Rattle.circ_proof.specs.Plain.{plain_link, plain_links, plain_chain, plain_chains};
ghost use Rattle.circ_proof.specs.Plain.{plain_why, plain_whys};
ghost use Rattle.circ_proof.specs.PlainProof.{plain_proof, plain_block, plain_step, plain_steps};
ghost use Rattle.circ_proof.specs.PlainProof.{plain_names, plain_certificates};
ghost use Rattle.circ_proof.specs.Proof.{IsWhyFor, AreWhysFor, IsStepFor};
ghost use Rattle.circ_grammar.specs.Grammar.{lines_of, place_lines, given_lines, goal_lines};
ghost use Rattle.circ_grammar.specs.Grammar.{left_lines, link_conds, conds_lines};
ghost use Rattle.circ_grammar.specs.Grammar.{right_lines, chain_lines, why_lines, whys_lines};
ghost use Rattle.circ_grammar.specs.Grammar.{certificate_lines, block_lines};
ghost use Rattle.circ_proof_text.specs.ProofText.{place_numbers, block_numbers, proof_text};
ghost use Rattle.circ_file.specs.Writing.{Writes, lines_of_step};
ghost use Rattle.circ_file.specs.Encoding.{HasSteps, IsProof};

use crate::numbering::put_table;
use crate::writing::{put_lent_line, put_line, put_made_line};
use circ_line::{LentLine, Line};
use circ_proof::{Block, Chain, GoalNames, Link, Proof, Step, Why};
use circ_special::{Gamma, Place};
use std::alloc::{AllocError, Global};

/// The text of a proof. Costs a few look-ups for each term of its table and its arguments.
pub fn encode(alloc: Global, proof: &Proof) -> Result<Vec<u8>, AllocError>
    requires { IsProof (plain_proof proof.now) }
    ensures { IfOk result (λ text. text.items ≡ proof_text (plain_proof proof.now)) }
{
    let mut out = Vec::new(alloc);
    put_proof(alloc, proof, &mut out)?;
    Ok(out)
}

fn put_proof(alloc: Global, proof: &Proof, out: &mut Vec<u8>) -> Result<(), AllocError>
    requires { IsProof (plain_proof proof.now) }
    ensures { OnOk result (out.new.items ≡
        out.old.items ++ proof_text (plain_proof proof.now)) }
{
    let version = proof.version;
    put_made_line(Line::Head { version }, out)?;
    put_table(alloc, proof.table.as_slice(), out)?;
    put_places(proof.gamma.places(), out)?;
    put_certificates(proof.certificates.as_slice(), out)?;
    put_blocks(proof.blocks.as_slice(), out)?;
    put_line(&Line::End, out)
}

fn put_places(places: &[Place], out: &mut Vec<u8>) -> Result<(), AllocError>
    ensures { OnOk result (Writes out.old.items out.new.items
        (lines_of place_lines (map place_numbers places.now))) }
{
    for place in places {
        let arg = place.arg as u32;
        put_made_line(Line::Place { op: place.op, arg }, out)?;
    }
    Ok(())
}

fn put_certificates(certificates: &[Vec<Link>], out: &mut Vec<u8>) -> Result<(), AllocError>
    ensures { OnOk result (Writes out.old.items out.new.items
        (lines_of certificate_lines (plain_certificates certificates.now))) }
{
    for links in certificates {
        put_line(&Line::Certificate, out)?;
        put_left_links(links.as_slice(), out)?;
    }
    Ok(())
}

fn put_blocks(blocks: &[Block], out: &mut Vec<u8>) -> Result<(), AllocError>
    requires { (count : ℕ) ×
        AllByRecursion (HasSteps count) (map plain_block blocks.now) }
    ensures { OnOk result (Writes out.old.items out.new.items
        (lines_of block_lines (map block_numbers (map plain_block blocks.now)))) }
{
    for block in blocks {
        put_block(block, out)?;
    }
    Ok(())
}

fn put_block(block: &Block, out: &mut Vec<u8>) -> Result<(), AllocError>
    requires { (count : ℕ) × HasSteps count (plain_block block.now) }
    ensures { OnOk result (Writes out.old.items out.new.items
        (block_lines (block_numbers (plain_block block.now)))) }
{
    put_line(&Line::Block, out)?;
    put_goals(block.names.as_slice(), out)?;
    put_steps(block.steps.as_slice(), out)
}

// Goals, by the numbers of their sides and of those of their conditions.
fn put_goals(names: &[GoalNames], out: &mut Vec<u8>) -> Result<(), AllocError>
    ensures { OnOk result (Writes out.old.items out.new.items
        (lines_of goal_lines (map plain_names names.now))) }
{
    for goal in names {
        put_goal(goal, out)?;
    }
    Ok(())
}

fn put_goal(goal: &GoalNames, out: &mut Vec<u8>) -> Result<(), AllocError>
    ensures { OnOk result (Writes out.old.items out.new.items (goal_lines (plain_names goal.now))) }
{
    let (left, right) = (goal.left, goal.right);
    put_made_line(Line::Goal { left, right }, out)?;
    put_givens(goal.conds.as_slice(), out)
}

fn put_givens(conds: &[(u32, u32)], out: &mut Vec<u8>) -> Result<(), AllocError>
    ensures { OnOk result (Writes out.old.items out.new.items (lines_of given_lines conds.now)) }
{
    for (left, right) in conds {
        let (left, right) = (*left, *right);
        put_made_line(Line::Given { left, right }, out)?;
    }
    Ok(())
}

fn put_steps(steps: &[Step], out: &mut Vec<u8>) -> Result<(), AllocError>
    requires { (count : ℕ) × AllByRecursion (IsStepFor count) (plain_steps steps.now) }
    ensures { OnOk result (Writes out.old.items out.new.items
        (lines_of lines_of_step (plain_steps steps.now))) }
{
    for step in steps {
        put_step(step, out)?;
    }
    Ok(())
}

fn put_step(step: &Step, out: &mut Vec<u8>) -> Result<(), AllocError>
    requires { (count : ℕ) × IsStepFor count (plain_step step.now) }
    ensures { OnOk result (Writes out.old.items out.new.items
        (lines_of_step (plain_step step.now))) }
{
    match step {
        Step::Simplify { chain } => {
            put_line(&Line::Simplify, out)?;
            put_chain(chain, out)
        }
        Step::Reduce { why } => {
            put_line(&Line::Reduce, out)?;
            put_why(why, out)
        }
        Step::Derive => put_line(&Line::Derive, out),
        Step::Cases { term } => put_made_line(Line::Cases { term: *term }, out),
        Step::Done => put_line(&Line::Done, out),
    }
}

// A reason, with those inside it.
#[cycle(why)]
fn put_why(why: &Why, out: &mut Vec<u8>) -> Result<(), AllocError>
    requires { (count : ℕ) × (splits : ℕ) × IsWhyFor count splits (plain_why why.now) }
    ensures { OnOk result (Writes out.old.items out.new.items
        (why_lines (plain_why why.now))) }
{
    match why {
        Why::Same { chain } => {
            put_chain(chain, out)?;
            put_line(&Line::Same, out)
        }
        Why::Split { chain, term, whys } => {
            let (term, count) = (*term, whys.len() as u32);
            put_chain(chain, out)?;
            put_made_line(Line::Split { term, count }, out)?;
            put_whys(whys.as_slice(), out)
        }
    }
}

#[cycle(why)]
fn put_whys(whys: &[Why], out: &mut Vec<u8>) -> Result<(), AllocError>
    requires { (count : ℕ) × (splits : ℕ) × AreWhysFor count splits (plain_whys whys.now) }
    ensures { OnOk result (Writes out.old.items out.new.items
        (whys_lines (plain_whys whys.now))) }
{
    for why in whys {
        put_why(why, out)?;
    }
    Ok(())
}

// The links on both sides, each with the chains of its conditions.
#[cycle(link)]
fn put_chain(chain: &Chain, out: &mut Vec<u8>) -> Result<(), AllocError>
    ensures { OnOk result (Writes out.old.items out.new.items
        (chain_lines (plain_chain chain.now))) }
{
    put_left_links(chain.left.as_slice(), out)?;
    put_right_links(chain.right.as_slice(), out)
}

#[cycle(link)]
fn put_left_links(links: &[Link], out: &mut Vec<u8>) -> Result<(), AllocError>
    ensures { OnOk result (Writes out.old.items out.new.items
        (lines_of left_lines (plain_links links.now))) }
{
    for link in links {
        put_lent_line(LentLine::Left { link }, out)?;
        put_conds(link, out)?;
    }
    Ok(())
}

#[cycle(link)]
fn put_right_links(links: &[Link], out: &mut Vec<u8>) -> Result<(), AllocError>
    ensures { OnOk result (Writes out.old.items out.new.items
        (lines_of right_lines (plain_links links.now))) }
{
    for link in links {
        put_lent_line(LentLine::Right { link }, out)?;
        put_conds(link, out)?;
    }
    Ok(())
}

// The chains of a link's conditions.
#[cycle(link)]
fn put_conds(link: &Link, out: &mut Vec<u8>) -> Result<(), AllocError>
    ensures { OnOk result (Writes out.old.items out.new.items (link_conds (plain_link link.now))) }
{
    match link {
        Link::Equation { conds, .. } => put_chains(conds.as_slice(), out),
        Link::Hypothesis { conds, .. } => put_chains(conds.as_slice(), out),
        Link::Assumption { .. } => Ok(()),
        Link::Content { .. } => Ok(()),
    }
}

#[cycle(link)]
fn put_chains(chains: &[Chain], out: &mut Vec<u8>) -> Result<(), AllocError>
    ensures { OnOk result (Writes out.old.items out.new.items
        (conds_lines (plain_chains chains.now))) }
{
    for chain in chains {
        put_line(&Line::If, out)?;
        put_chain(chain, out)?;
        put_line(&Line::Same, out)?;
    }
    Ok(())
}
