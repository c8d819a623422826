//! What Join up to content does to a term.
ghost use Rattle.std.specs.Prelude.{◌≡◌, map, IfOk};
ghost use Rattle.circ_proof.specs.Plain.{plain_link, plain_links};
ghost use Rattle.circ_join.specs.Stopping.{Puts};
ghost use Rattle.circ_content_join.specs.Moves.{make_all, move_link};
ghost use Rattle.circ_moves.specs.Making.{put_here, made};
ghost use Rattle.circ_moves.specs.Plain.{plain_move, plain_moves};

use crate::row::joined;
use circ_join::{HypothesisUse, Stop, put_at, use_link};
use circ_proof::Link;
use circ_term::{Path, Term, share_all};
use std::alloc::{AllocError, Global};

/// What Join up to content does to a term.
#[derive(Drop)]
pub enum Move {
    /// A hypothesis is used.
    Using {
        hypothesis: HypothesisUse,
    },
    /// The subterm at the path becomes the operator on these entries, grouped to the right, or the
    /// entry where there is one alone. Both have the same content under the operator. The entries
    /// may be too many for a term, which is found when the move is made.
    Regrouping {
        op: u32,
        path: Path,
        sort: u32,
        entries: Vec<Term>,
    },
}

/// The links that record moves, in order. Moves that [`make_all`] makes have links. Where it stops
/// since the entries of one are too many for a term, there is no link either, and the answer is the
/// error.
pub fn move_links(alloc: Global, moves: Vec<Move>) -> Result<Vec<Link<Term>>, AllocError>
    ensures { IfOk result (λ v. plain_links v.items ≡ map move_link (plain_moves moves.items)) }
{
    let mut links = Vec::with_capacity(alloc, moves.len())?;
    for one in moves {
        links.push(move_link(alloc, one)?)?;
    }
    Ok(links)
}

fn move_link(alloc: Global, one: Move) -> Result<Link<Term>, AllocError>
    ensures { IfOk result (λ l. plain_link l ≡ move_link (plain_move one)) }
{
    match one {
        Move::Using { hypothesis } => Ok(use_link(hypothesis)),
        Move::Regrouping {
            op,
            path,
            sort,
            entries,
        } => {
            match joined(alloc, op, sort, entries) {
                Ok(term) => Ok(Link::Content { op, path, term }),
                Err(_) => Err(AllocError),
            }
        }
    }
}

/// The term with the moves made, one after another. They are not counted.
pub fn make_all(alloc: Global, term: &Term, moves: &[Move]) -> Result<Term, Stop>
    ensures { Puts (make_all term.now (plain_moves moves.now)) result }
{
    let mut whole = term.share()?;
    for one in moves {
        match make(alloc, &whole, one) {
            Ok(made) => whole = made,
            Err(stop) => return Err(stop),
        }
    }
    Ok(whole)
}

fn make(alloc: Global, whole: &Term, one: &Move) -> Result<Term, Stop>
    ensures { Puts (made whole.now (plain_move one.now)) result }
{
    match one {
        Move::Using { hypothesis } => {
            put(alloc, whole, hypothesis.path.as_slice(), &hypothesis.new)
        }
        Move::Regrouping {
            op,
            path,
            sort,
            entries,
        } => {
            let entries = share_all(alloc, entries.as_slice())?;
            match joined(alloc, *op, *sort, entries) {
                Ok(term) => put(alloc, whole, path.as_slice(), &term),
                Err(fault) => Err(Stop::of_term(fault)),
            }
        }
    }
}

// The term with the new subterm at the path.
fn put(alloc: Global, whole: &Term, path: &[u16], new: &Term) -> Result<Term, Stop>
    ensures { Puts (put_here whole.now path.now new.now) result }
{
    new.known();
    match put_at(alloc, whole, path, new) {
        Ok(made) => Ok(made),
        Err(fault) => Err(Stop::of_term(fault)),
    }
}
