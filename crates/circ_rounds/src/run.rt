//! Where an attempt stands.
ghost use Rattle.std.specs.Prelude.{◌≡◌, ◌&&◌, ℕ, [], ◌∷◌, Some, None, IfOk, OnOk};
ghost use Rattle.circ_term.specs.Order.{is_same};
ghost use Rattle.circ_attempt.specs.Attempt.{has_stood, join_or, Rounds, Stood};
ghost use Rattle.circ_moves.specs.Plain.{plain_moves};
ghost use Rattle.circ_plain_search.specs.Search.{chained, no_links, sides_with};
ghost use Rattle.circ_proof.specs.Plain.{plain_chain};
ghost use Rattle.circ_rounds.specs.Running.{GoesBy, sides_of, stood_of};

use crate::sides::Sides;
use circ_join::{Stop, append};
use circ_moves::{Move, make_all, move_links};
use circ_proof::Chain;
use circ_term::Term;
use std::alloc::{AllocError, Global};

/// Where an attempt stands: both sides, the links that led to them, and the pairs of sides that
/// have stood.
#[derive(Drop)]
pub(crate) struct Run {
    pub left: Term,
    pub right: Term,
    pub chain: Chain<Term>,
    pub stood: Vec<(Term, Term)>,
}

/// How an attempt goes on.
#[derive(Clone, Copy)]
pub(crate) enum Next {
    /// With the next round.
    Open,
    /// Not at all: the chain makes the sides equal.
    Closed,
    /// Not at all: it has come to nothing.
    Ended,
}

impl Run {
    /// The start of an attempt. The pair that it begins with has stood.
    pub(crate) fn new(alloc: Global, left: &Term, right: &Term) -> Result<Run, AllocError>
        ensures stood { IfOk result (λ r. stood_of r ≡ (left.now, right.now) ∷ []) }
        ensures sides { IfOk result (λ r. sides_of r
            ≡ sides_with left.now right.now no_links 0) }
    {
        let mut stood = Vec::new(alloc);
        stood.push((left.share()?, right.share()?))?;
        Ok(Run {
            left: left.share()?,
            right: right.share()?,
            chain: Chain {
                left: Vec::new(alloc),
                right: Vec::new(alloc),
            },
            stood,
        })
    }

    /// Goes to these sides. The links to them are put behind those of the chain.
    pub(crate) fn go_to(&mut self, sides: Sides) -> Result<(), AllocError>
        ensures sides { OnOk result (sides_of self.new ≡ sides_with sides.left sides.right
            (chained (plain_chain self.old.chain) (plain_chain sides.chain)) 0) }
        ensures stood { OnOk result (stood_of self.new ≡ stood_of self.old) }
    {
        let Sides { left, right, chain } = sides;
        self.left = left;
        self.right = right;
        append(&mut self.chain, chain)
    }

    /// The sides do not join. Where they have not stood before, there is the next round.
    pub(crate) fn go_on(&mut self) -> Result<Next, AllocError>
        ensures { (again : Rounds) (k : ℕ) → IfOk result (GoesBy again
            (join_or (stood_of self.old) (sides_of self.old) again None k) self.new k) }
    {
        if has_stood(self.stood.as_slice(), &self.left, &self.right) {
            return Ok(Next::Ended);
        }
        self.stood.push((self.left.share()?, self.right.share()?))?;
        Ok(Next::Open)
    }

    /// The sides join by these moves. The links of the moves go to the left of the chain, unless a
    /// term on the way passes a limit.
    pub(crate) fn close(&mut self, alloc: Global, moves: Vec<Move>) -> Result<Next, AllocError>
        ensures { (ps : Stood) (again : Rounds) (k : ℕ) → IfOk result (GoesBy again
            (join_or ps (sides_of self.old) again (Some (plain_moves moves.items)) k)
            self.new k) }
    {
        match make_all(alloc, &self.left, moves.as_slice()) {
            Err(Stop::Memory) => return Err(AllocError),
            Err(_) => return Ok(Next::Ended),
            Ok(_) => {}
        }
        let mut links = move_links(alloc, moves)?;
        self.chain.left.append(&mut links)?;
        Ok(Next::Closed)
    }
}

// Whether a pair of sides is among those that have stood.
fn has_stood(stood: &[(Term, Term)], left: &Term, right: &Term) -> bool
    ensures { result ≡ has_stood left.now right.now stood.now }
{
    stood.iter().any(|pair| are_same(left, right, pair))
}

// Whether two sides are those of a pair.
fn are_same(left: &Term, right: &Term, pair: &(Term, Term)) -> bool
    ensures { result ≡ (is_same left.now pair.now.0 && is_same right.now pair.now.1) }
{
    left.same(&pair.0) && right.same(&pair.1)
}
