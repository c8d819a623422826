//! The lines of a table that links, steps and goals name.
ghost use Rattle.std.specs.Prelude.{◌≡◌, ◌++◌, map, OnOk};
ghost use Rattle.circ_proof.specs.Plain.{plain_link, plain_links, plain_chain, plain_chains};
ghost use Rattle.circ_proof.specs.Plain.{plain_why, plain_whys};
ghost use Rattle.circ_proof.specs.PlainProof.{plain_step, plain_names};
ghost use Rattle.circ_proof.specs.Link.{terms_of, chains_terms};
ghost use Rattle.circ_entering.specs.Naming.{links_terms, chain_terms, why_terms, whys_terms};
ghost use Rattle.circ_entering.specs.Naming.{step_terms, name_terms, names_terms};

use circ_proof::{Chain, GoalNames, Link, Step, Why};
use std::alloc::AllocError;

/// The lines that a step names are put behind those that are there.
pub(crate) fn add_step(lines: &mut Vec<u32>, step: &Step) -> Result<(), AllocError>
    ensures { OnOk result (lines.new.items ≡
        lines.old.items ++ step_terms (plain_step step.now)) }
{
    match step {
        Step::Simplify { chain } => add_chain(lines, chain),
        Step::Reduce { why } => add_why(lines, why),
        Step::Derive => Ok(()),
        Step::Cases { term } => {
            lines.push(*term)?;
            Ok(())
        }
        Step::Done => Ok(()),
    }
}

#[cycle(add_why)]
fn add_why(lines: &mut Vec<u32>, why: &Why) -> Result<(), AllocError>
    ensures { OnOk result (lines.new.items ≡ lines.old.items ++ why_terms (plain_why why.now)) }
{
    match why {
        Why::Same { chain } => add_chain(lines, chain),
        Why::Split { chain, term, whys } => {
            add_chain(lines, chain)?;
            lines.push(*term)?;
            add_whys(lines, whys.as_slice())
        }
    }
}

#[cycle(add_why)]
fn add_whys(lines: &mut Vec<u32>, whys: &[Why]) -> Result<(), AllocError>
    ensures { OnOk result (lines.new.items ≡
        lines.old.items ++ whys_terms (plain_whys whys.now)) }
{
    for why in whys {
        add_why(lines, why)?;
    }
    Ok(())
}

#[cycle(add_link)]
fn add_chain(lines: &mut Vec<u32>, chain: &Chain) -> Result<(), AllocError>
    ensures { OnOk result (lines.new.items ≡
        lines.old.items ++ chain_terms (plain_chain chain.now)) }
{
    add_links(lines, chain.left.as_slice())?;
    add_links(lines, chain.right.as_slice())
}

/// Those that links name, likewise.
#[cycle(add_link)]
pub(crate) fn add_links(lines: &mut Vec<u32>, links: &[Link]) -> Result<(), AllocError>
    ensures { OnOk result (lines.new.items ≡
        lines.old.items ++ links_terms (plain_links links.now)) }
{
    for link in links {
        add_link(lines, link)?;
    }
    Ok(())
}

#[cycle(add_link)]
fn add_link(lines: &mut Vec<u32>, link: &Link) -> Result<(), AllocError>
    ensures { OnOk result (lines.new.items ≡ lines.old.items ++ terms_of (plain_link link.now)) }
{
    match link {
        Link::Equation { terms, conds, .. } => {
            lines.extend_from_slice(terms.as_slice())?;
            add_chains(lines, conds.as_slice())
        }
        Link::Hypothesis { terms, conds, .. } => {
            lines.extend_from_slice(terms.as_slice())?;
            add_chains(lines, conds.as_slice())
        }
        Link::Assumption { .. } => Ok(()),
        Link::Content { term, .. } => {
            lines.push(*term)?;
            Ok(())
        }
    }
}

// The chains of a link's conditions.
#[cycle(add_link)]
fn add_chains(lines: &mut Vec<u32>, chains: &[Chain]) -> Result<(), AllocError>
    ensures { OnOk result (lines.new.items ≡
        lines.old.items ++ chains_terms (plain_chains chains.now)) }
{
    for chain in chains {
        add_chain(lines, chain)?;
    }
    Ok(())
}

/// Those that goals name, likewise.
pub(crate) fn add_names(lines: &mut Vec<u32>, names: &[GoalNames]) -> Result<(), AllocError>
    ensures { OnOk result (lines.new.items ≡
        lines.old.items ++ names_terms (map plain_names names.now)) }
{
    for name in names {
        add_name(lines, name)?;
    }
    Ok(())
}

fn add_name(lines: &mut Vec<u32>, name: &GoalNames) -> Result<(), AllocError>
    ensures { OnOk result (lines.new.items ≡
        lines.old.items ++ name_terms (plain_names name.now)) }
{
    lines.push(name.left)?;
    lines.push(name.right)?;
    for cond in &name.conds {
        lines.push(cond.0)?;
        lines.push(cond.1)?;
    }
    Ok(())
}
