//! Whether a step uses a hidden hypothesis at a path that is not empty, at any depth of conditions.
ghost use Rattle.std.specs.Prelude.{◌≡◌};
ghost use Rattle.std.specs.List.{list_any};
ghost use Rattle.circ_conditional_search.specs.Search.{is_hidden_use, link_is_deep};
ghost use Rattle.circ_conditional_search.specs.Search.{chains_are_deep, chain_is_deep};
ghost use Rattle.circ_conditional_search.specs.Search.{why_is_deep, whys_are_deep, step_is_deep};
ghost use Rattle.circ_proof.specs.Plain.{plain_link, plain_links, plain_chain, plain_chains};
ghost use Rattle.circ_proof.specs.Plain.{plain_why, plain_whys};
ghost use Rattle.circ_proof.specs.PlainProof.{plain_step};

use circ_proof::{Chain, Link, Step, Why};
use circ_term::{Path, Term};
use circ_theory::{Goal, Theory};

/// Whether a step uses a hidden hypothesis at a path that is not empty, also for a condition. Takes
/// no memory.
pub fn step_is_deep(theory: &Theory, hyps: &[Goal], step: &Step<Term>) -> bool
    ensures { result ≡ step_is_deep theory.now hyps.now (plain_step step.now) }
{
    match step {
        Step::Simplify { chain } => chain_is_deep(theory, hyps, chain),
        Step::Reduce { why } => why_is_deep(theory, hyps, why),
        Step::Derive => false,
        Step::Cases { .. } => false,
        Step::Done => false,
    }
}

#[cycle(why_is_deep)]
fn why_is_deep(theory: &Theory, hyps: &[Goal], why: &Why<Term>) -> bool
    ensures { result ≡ why_is_deep theory.now hyps.now (plain_why why.now) }
{
    match why {
        Why::Same { chain } => chain_is_deep(theory, hyps, chain),
        Why::Split { chain, whys, .. } => {
            if chain_is_deep(theory, hyps, chain) {
                return true;
            }
            whys_are_deep(theory, hyps, whys.as_slice())
        }
    }
}

#[cycle(why_is_deep)]
fn whys_are_deep(theory: &Theory, hyps: &[Goal], whys: &[Why<Term>]) -> bool
    ensures { result ≡ whys_are_deep theory.now hyps.now (plain_whys whys.now) }
{
    for why in whys {
        if why_is_deep(theory, hyps, why) {
            return true;
        }
    }
    false
}

#[cycle(link_is_deep)]
fn chain_is_deep(theory: &Theory, hyps: &[Goal], chain: &Chain<Term>) -> bool
    ensures { result ≡ chain_is_deep theory.now hyps.now (plain_chain chain.now) }
{
    if links_are_deep(theory, hyps, chain.left.as_slice()) {
        return true;
    }
    links_are_deep(theory, hyps, chain.right.as_slice())
}

#[cycle(link_is_deep)]
fn links_are_deep(theory: &Theory, hyps: &[Goal], links: &[Link<Term>]) -> bool
    ensures { result ≡ list_any (link_is_deep theory.now hyps.now) (plain_links links.now) }
{
    for link in links {
        if link_is_deep(theory, hyps, link) {
            return true;
        }
    }
    false
}

#[cycle(link_is_deep)]
fn link_is_deep(theory: &Theory, hyps: &[Goal], link: &Link<Term>) -> bool
    ensures { result ≡ link_is_deep theory.now hyps.now (plain_link link.now) }
{
    match link {
        Link::Equation { conds, .. } => chains_are_deep(theory, hyps, conds.as_slice()),
        Link::Hypothesis {
            number,
            path,
            conds,
            ..
        } => {
            if is_hidden_use(theory, hyps, *number, path) {
                return true;
            }
            chains_are_deep(theory, hyps, conds.as_slice())
        }
        Link::Assumption { .. } => false,
        Link::Content { .. } => false,
    }
}

#[cycle(link_is_deep)]
fn chains_are_deep(theory: &Theory, hyps: &[Goal], chains: &[Chain<Term>]) -> bool
    ensures { result ≡ chains_are_deep theory.now hyps.now (plain_chains chains.now) }
{
    for chain in chains {
        if chain_is_deep(theory, hyps, chain) {
            return true;
        }
    }
    false
}

// Whether a hidden hypothesis is used, at a path that is not empty.
fn is_hidden_use(theory: &Theory, hyps: &[Goal], number: u32, path: &Path) -> bool
    ensures { result ≡ is_hidden_use theory.now hyps.now number path.now.items }
{
    if path.is_empty() {
        return false;
    }
    match hyps.get(number as usize) {
        Some(hyp) => theory.is_hidden(hyp.left.sort()),
        None => false,
    }
}
