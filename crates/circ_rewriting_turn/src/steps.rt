//! Steps of a turn with hypotheses as rules.
ghost use Rattle.std.specs.Prelude.{◌≡◌, ◌<◌, ◌≤◌, length, drop};
ghost use Rattle.circ_plain_search.specs.Search.{chained};
ghost use Rattle.circ_conditional_search.specs.Search.{goal_reduced};
ghost use Rattle.circ_proof.specs.Plain.{plain_chain, Same_why};
ghost use Rattle.circ_turn.specs.Ending.{GoesTo};
ghost use Rattle.circ_turn.specs.Standing.{standing, plain_limits};

use circ_join::append;
use circ_proof::{Chain, Why};
use circ_term::Term;
use circ_turn::{End, Search, State};

// The goal in hand is reduced by its chain and these links behind it.
pub(crate) fn reduced_by(
    search: &Search<'_>,
    state: &mut State<'_>,
    more: Chain<Term>,
) -> Result<(), End>
    requires taken { state.old.taken ≤ 100000 }
    ensures { GoesTo (goal_reduced search.now.theory.now (plain_limits search.now.limits)
        (standing state.old) (drop 1 state.old.queue.items)
        (Same_why (chained (standing state.old).chain (plain_chain more))))
        (standing state.new) result }
{
    let mut chain = state.take_chain(search.alloc);
    append(&mut chain, more)?;
    search.goal_reduced(state, Why::Same { chain })
}
