//! Goals whose sides join up to content.
ghost use Rattle.std.specs.Prelude.{[], drop, Some};
ghost use Rattle.circ_attempt.specs.Attempt.{Stood};
ghost use Rattle.circ_attempt.specs.Search.{join_turn_rewriting};
ghost use Rattle.circ_conditional_search.specs.Coming.{IsSmallTrying};
ghost use Rattle.circ_moves.specs.Plain.{plain_moves};
ghost use Rattle.circ_turn.specs.Standing.{standing, manner_of};
ghost use Rattle.circ_attempt.specs.Search.{going};
ghost use Rattle.circ_rewriting_turn.specs.Going.{TurnsTo};

use crate::steps::reduced_by;
use circ_moves::{Move, make_all, move_links};
use circ_proof::Chain;
use circ_theory::Goal;
use circ_turn::{End, Search, State};

// Where the sides join, the goal is reduced. Join's links go to the left of the chain.
pub(crate) fn move_turn(
    search: &Search<'_>,
    state: &mut State<'_>,
    goal: &Goal,
    moves: Vec<Move>,
) -> Result<(), End>
    requires small { IsSmallTrying (standing state.old) }
    ensures { (ps : Stood) → TurnsTo (join_turn_rewriting search.now.theory.now search.now.gamma.now
        (manner_of search.now) ps goal.now (drop 1 state.old.queue.items)
        (Some (plain_moves moves.items)) (standing state.old)) (going (standing state.new) [])
        result }
{
    match make_all(search.alloc, &goal.left, moves.as_slice()) {
        Err(stop) => return Err(search.end(state, stop)),
        Ok(_) => {}
    }
    let chain = Chain {
        left: move_links(search.alloc, moves)?,
        right: Vec::new(search.alloc),
    };
    reduced_by(search, state, chain)
}
