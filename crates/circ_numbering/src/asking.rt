//! Terms and links, with their numbers in a table.
ghost use Rattle.std.specs.Prelude.{◌≡◌, ◌∷◌, ◌++◌, [], map, IfOk, IfErr};
ghost use Rattle.circ_proof.specs.Plain.{plain_link, plain_links, plain_chain, plain_chains};
ghost use Rattle.circ_proof.specs.Plain.{Equation_link, Hypothesis_link};
ghost use Rattle.circ_proof.specs.Plain.{Assumption_link, Content_link};
ghost use Rattle.circ_proof.specs.Plain.{map_link, map_chain, map_chains};
ghost use Rattle.circ_proof.specs.Link.{terms_of, chains_terms};
ghost use Rattle.circ_proof.specs.Table.{number_in};
ghost use Rattle.circ_plain_search.specs.Numbering.{links_terms, chain_terms, numbered_links};
ghost use Rattle.circ_numbering.specs.Asking.{Asks, MakesLink};
ghost use Rattle.circ_numbering.specs.declared.fault.NumberFault.TheVariants.{Memory};

use crate::fault::NumberFault;
use circ_proof::{Chain, Link, Way};
use circ_replay::TableBuilder;
use circ_term::{Path, Term};
use std::alloc::Global;

/// The number of a term.
pub(crate) fn number(table: &mut TableBuilder, term: &Term) -> Result<u32, NumberFault>
    ensures { Asks table.old table.new (term.now ∷ [])
        (λ t n. n ≡ number_in t term.now) result }
{
    match table.number(term) {
        Ok(Some(number)) => Ok(number),
        Ok(None) => Err(NumberFault::LongTable),
        Err(_) => Err(NumberFault::Memory),
    }
}

/// The numbers of terms.
pub(crate) fn numbers(
    alloc: Global,
    table: &mut TableBuilder,
    terms: &[Term],
) -> Result<Vec<u32>, NumberFault>
    ensures { Asks table.old table.new terms.now
        (λ t v. v.items ≡ map (number_in t) terms.now) result }
{
    let mut numbers = Vec::with_capacity(alloc, terms.len())?;
    for term in terms {
        match number(table, term) {
            Ok(number) => numbers.push(number)?,
            Err(fault) => return Err(fault),
        }
    }
    Ok(numbers)
}

/// Links with numbers.
#[cycle(link)]
pub(crate) fn links(
    alloc: Global,
    table: &mut TableBuilder,
    recorded: &[Link<Term>],
) -> Result<Vec<Link>, NumberFault>
    ensures { Asks table.old table.new (links_terms (plain_links recorded.now))
        (λ t v. plain_links v.items
        ≡ numbered_links t (plain_links recorded.now)) result }
{
    let mut links = Vec::with_capacity(alloc, recorded.len())?;
    for one in recorded {
        match link(alloc, table, one) {
            Ok(link) => links.push(link)?,
            Err(fault) => return Err(fault),
        }
    }
    Ok(links)
}

#[cycle(link)]
fn link(alloc: Global, table: &mut TableBuilder, recorded: &Link<Term>) -> Result<Link, NumberFault>
    ensures { Asks table.old table.new (terms_of (plain_link recorded.now))
        (λ t x. plain_link x ≡ map_link (number_in t) (plain_link recorded.now)) result }
{
    match recorded {
        Link::Equation {
            number,
            way,
            path,
            terms,
            conds,
        } => {
            let parts = numbered_parts(alloc, table, path, terms.as_slice(), conds.as_slice());
            equation_link(*number, *way, parts)
        }
        Link::Hypothesis {
            number,
            way,
            path,
            terms,
            conds,
        } => {
            let parts = numbered_parts(alloc, table, path, terms.as_slice(), conds.as_slice());
            hypothesis_link(*number, *way, parts)
        }
        Link::Assumption { number, way, path } => assumption_link(alloc, *number, *way, path),
        Link::Content { op, path, term } => content_link(alloc, table, *op, path, term),
    }
}

// What a link by an equation or a hypothesis is given: where it is used, its terms, and the chains
// of its conditions.
#[derive(Drop)]
struct Parts {
    path: Path,
    terms: Vec<u32>,
    conds: Vec<Chain>,
}

fn equation_link(
    number: u32,
    way: Way,
    parts: Result<Parts, NumberFault>,
) -> Result<Link, NumberFault>
    ensures { MakesLink (Equation_link number way) parts result }
{
    match parts {
        Ok(parts) => Ok(Link::Equation {
            number,
            way,
            path: parts.path,
            terms: parts.terms,
            conds: parts.conds,
        }),
        Err(fault) => Err(fault),
    }
}

fn hypothesis_link(
    number: u32,
    way: Way,
    parts: Result<Parts, NumberFault>,
) -> Result<Link, NumberFault>
    ensures { MakesLink (Hypothesis_link number way) parts result }
{
    match parts {
        Ok(parts) => Ok(Link::Hypothesis {
            number,
            way,
            path: parts.path,
            terms: parts.terms,
            conds: parts.conds,
        }),
        Err(fault) => Err(fault),
    }
}

fn assumption_link(alloc: Global, number: u32, way: Way, path: &Path) -> Result<Link, NumberFault>
    ensures link { IfOk result (λ x. plain_link x ≡ Assumption_link number way path.now.items) }
    ensures err { IfErr result (λ e. e ≡ Memory) }
{
    let path = copied(alloc, path)?;
    Ok(Link::Assumption { number, way, path })
}

fn content_link(
    alloc: Global,
    table: &mut TableBuilder,
    op: u32,
    path: &Path,
    term: &Term,
) -> Result<Link, NumberFault>
    ensures { Asks table.old table.new (term.now ∷ [])
        (λ t x. plain_link x ≡ Content_link op path.now.items (number_in t term.now)) result }
{
    let path = copied(alloc, path)?;
    match number(table, term) {
        Ok(term) => Ok(Link::Content { op, path, term }),
        Err(fault) => Err(fault),
    }
}

#[cycle(link)]
fn numbered_parts(
    alloc: Global,
    table: &mut TableBuilder,
    path: &Path,
    terms: &[Term],
    conds: &[Chain<Term>],
) -> Result<Parts, NumberFault>
    ensures { Asks table.old table.new (terms.now ++ chains_terms (plain_chains conds.now))
        (λ t g. (g.path.items ≡ path.now.items)
        × (g.terms.items ≡ map (number_in t) terms.now)
        × (plain_chains g.conds.items
        ≡ map_chains (number_in t) (plain_chains conds.now))) result }
{
    let terms = match numbers(alloc, table, terms) {
        Ok(terms) => terms,
        Err(fault) => return Err(fault),
    };
    match chains(alloc, table, conds) {
        Ok(conds) => make_parts(alloc, path, terms, conds),
        Err(fault) => Err(fault),
    }
}

fn make_parts(
    alloc: Global,
    path: &Path,
    terms: Vec<u32>,
    conds: Vec<Chain>,
) -> Result<Parts, NumberFault>
    ensures path { IfOk result (λ p. p.path.items ≡ path.now.items) }
    ensures terms { IfOk result (λ p. p.terms.items ≡ terms.items) }
    ensures conds { IfOk result (λ p. p.conds.items ≡ conds.items) }
    ensures err { IfErr result (λ e. e ≡ Memory) }
{
    let path = copied(alloc, path)?;
    Ok(Parts { path, terms, conds })
}

// The chains of conditions with numbers.
#[cycle(link)]
fn chains(
    alloc: Global,
    table: &mut TableBuilder,
    recorded: &[Chain<Term>],
) -> Result<Vec<Chain>, NumberFault>
    ensures { Asks table.old table.new (chains_terms (plain_chains recorded.now))
        (λ t v. plain_chains v.items
        ≡ map_chains (number_in t) (plain_chains recorded.now)) result }
{
    let mut chains = Vec::with_capacity(alloc, recorded.len())?;
    for one in recorded {
        match chain(alloc, table, one) {
            Ok(chain) => chains.push(chain)?,
            Err(fault) => return Err(fault),
        }
    }
    Ok(chains)
}

/// A chain with numbers.
#[cycle(link)]
pub(crate) fn chain(
    alloc: Global,
    table: &mut TableBuilder,
    recorded: &Chain<Term>,
) -> Result<Chain, NumberFault>
    ensures { Asks table.old table.new (chain_terms (plain_chain recorded.now))
        (λ t x. plain_chain x
        ≡ map_chain (number_in t) (plain_chain recorded.now)) result }
{
    let left = match links(alloc, table, recorded.left.as_slice()) {
        Ok(left) => left,
        Err(fault) => return Err(fault),
    };
    match links(alloc, table, recorded.right.as_slice()) {
        Ok(right) => Ok(Chain { left, right }),
        Err(fault) => Err(fault),
    }
}

fn copied(alloc: Global, path: &Path) -> Result<Path, NumberFault>
    ensures items { IfOk result (λ p. p.items ≡ path.now.items) }
    ensures err { IfErr result (λ e. e ≡ Memory) }
{
    Ok(Path::from_slice(alloc, path.as_slice())?)
}
