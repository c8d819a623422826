//! Traces as links of a proof.
ghost use Rattle.std.specs.Prelude.{◌≡◌, map, IfOk};
ghost use Rattle.circ_proof.specs.Plain.{plain_link, plain_links, plain_chains};
ghost use Rattle.circ_rewrite.specs.Plain.{plain_trace, plain_traces, plain_passes};
ghost use Rattle.circ_rewrite.specs.Links.{link_of, rule_link, chains_by};

use crate::parts::{Pass, RuleName, Trace};
use circ_proof::{Chain, Link, Way};
use circ_term::{Path, Term};
use std::alloc::{AllocError, Global};

/// The links that record the same replacements, in order.
#[cycle(link)]
pub fn links_of(alloc: Global, traces: Vec<Trace>) -> Result<Vec<Link<Term>>, AllocError>
    ensures { IfOk result (λ v. plain_links v.items ≡ map link_of (plain_traces traces.items)) }
{
    let mut links = Vec::with_capacity(alloc, traces.len())?;
    for trace in traces {
        links.push(link(alloc, trace)?)?;
    }
    Ok(links)
}

#[cycle(link)]
fn link(alloc: Global, trace: Trace) -> Result<Link<Term>, AllocError>
    ensures { IfOk result (λ l. plain_link l ≡ link_of (plain_trace trace)) }
{
    match trace {
        Trace::Rewrite {
            name,
            path,
            terms,
            conds,
        } => {
            let conds = chains(alloc, conds)?;
            Ok(rule_link(name, path, terms, conds))
        }
        Trace::Assumed { number, path } => Ok(Link::Assumption {
            number,
            way: Way::Forth,
            path,
        }),
        Trace::Content { op, path, term } => Ok(Link::Content { op, path, term }),
    }
}

// For each condition the links on its two sides.
#[cycle(link)]
fn chains(alloc: Global, passes: Vec<Pass>) -> Result<Vec<Chain<Term>>, AllocError>
    ensures { IfOk result (λ v. plain_chains v.items ≡ chains_by (plain_passes passes.items)) }
{
    let mut chains = Vec::with_capacity(alloc, passes.len())?;
    for pass in passes {
        let Pass { left, right } = pass;
        let left = links_of(alloc, left)?;
        let right = links_of(alloc, right)?;
        chains.push(Chain { left, right })?;
    }
    Ok(chains)
}

fn rule_link(name: RuleName, path: Path, terms: Vec<Term>, conds: Vec<Chain<Term>>) -> Link<Term>
    ensures { plain_link result ≡ rule_link name path.items terms.items (plain_chains conds.items) }
{
    match name {
        RuleName::Equation { number } => Link::Equation {
            number,
            way: Way::Forth,
            path,
            terms,
            conds,
        },
        RuleName::Lemma { number } => Link::Hypothesis {
            number,
            way: Way::Forth,
            path,
            terms,
            conds,
        },
    }
}
