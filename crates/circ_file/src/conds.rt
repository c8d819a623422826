//! Conditions of links: the chain of one goes to the last link of what is outside it.
ghost use Rattle.std.specs.Prelude.{◌≡◌, IfOk, is_some};
ghost use Rattle.std.specs.Option.{option_map};
ghost use Rattle.circ_proof.specs.Plain.{plain_link, plain_links, plain_chain};
ghost use Rattle.circ_grammar.specs.Machine.{add_chain, in_last, in_chain, empty};
ghost use Rattle.circ_file.specs.Conds.{GivesLast, GivesChain};

use circ_proof::{Chain, Link};
use std::alloc::AllocError;

/// The last link of the chain gets the chain of one condition more.
pub(crate) fn give_chain(chain: &mut Chain, cond: Chain) -> Result<bool, AllocError>
    ensures { IfOk result (λ given. GivesChain given (plain_chain chain.old)
        (plain_chain cond) (plain_chain chain.new)) }
{
    if chain.right.is_empty() {
        let given = give_last(&mut chain.left, cond)?;
        return Ok(given);
    }
    let given = give_last(&mut chain.right, cond)?;
    Ok(given)
}

/// The same of the last of some links.
pub(crate) fn give_last(links: &mut Vec<Link>, cond: Chain) -> Result<bool, AllocError>
    ensures { IfOk result (λ given. GivesLast given (plain_links links.old.items)
        (plain_chain cond) (plain_links links.new.items)) }
{
    let Some(link) = links.pop() else {
        return Ok(false);
    };
    let Some(link) = with_chain(link, cond)? else {
        return Ok(false);
    };
    links.push(link)?;
    Ok(true)
}

// The link with the chain of one condition more, where links of its kind have conditions.
fn with_chain(link: Link, cond: Chain) -> Result<Option<Link>, AllocError>
    ensures { IfOk result (λ o. option_map plain_link o ≡
        add_chain (plain_link link) (plain_chain cond)) }
{
    match link {
        Link::Equation {
            number,
            way,
            path,
            terms,
            mut conds,
        } => {
            conds.push(cond)?;
            Ok(Some(Link::Equation {
                number,
                way,
                path,
                terms,
                conds,
            }))
        }
        Link::Hypothesis {
            number,
            way,
            path,
            terms,
            mut conds,
        } => {
            conds.push(cond)?;
            Ok(Some(Link::Hypothesis {
                number,
                way,
                path,
                terms,
                conds,
            }))
        }
        _ => Ok(None),
    }
}

/// Whether the last link of the chain can have a condition more.
pub(crate) fn takes(chain: &Chain) -> bool
    ensures { result ≡ is_some (in_chain (plain_chain chain.now) empty) }
{
    if chain.right.is_empty() {
        return takes_last(chain.left.as_slice());
    }
    takes_last(chain.right.as_slice())
}

/// The same of the last of some links.
pub(crate) fn takes_last(links: &[Link]) -> bool
    ensures { result ≡ is_some (in_last (plain_links links.now) empty) }
{
    match links.last() {
        Some(link) => has_conds(link),
        None => false,
    }
}

// Whether links of this kind have conditions.
fn has_conds(link: &Link) -> bool
    ensures { result ≡ is_some (add_chain (plain_link link.now) empty) }
{
    match link {
        Link::Equation { .. } => true,
        Link::Hypothesis { .. } => true,
        Link::Assumption { .. } => false,
        Link::Content { .. } => false,
    }
}
