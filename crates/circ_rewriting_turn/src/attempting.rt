//! Attempts at a goal that lemma passes leave as it is.
ghost use Rattle.std.specs.Prelude.{◌≡◌, ◌<◌, ◌&&◌, not, length, drop};
ghost use Rattle.std.specs.Option.{option_map};
ghost use Rattle.circ_attempt.specs.Search.{attempt_turn, attempted_turn, is_attempted, of_script};
ghost use Rattle.circ_attempt.specs.Attempt.{attempt};
ghost use Rattle.circ_conditional_search.specs.Coming.{IsReadyTrying, IsSmallTrying};
ghost use Rattle.circ_block.specs.Rules.{IsRulesOf};
ghost use Rattle.circ_join.specs.Trying.{Works};
ghost use Rattle.circ_proof.specs.Plain.{plain_chain};
ghost use Rattle.circ_turn.specs.Ending.{GoesTo, reducing};
ghost use Rattle.circ_turn.specs.Standing.{standing, manner_of, with_budget};
ghost use Rattle.circ_rewriting_turn.specs.PassRules.{ArePassRules};

use crate::pass_rules::PassRules;
use crate::steps::reduced_by;
use circ_block::BlockRules;
use circ_join::Stop;
use circ_proof::Chain;
use circ_rewrite::RewriteFault;
use circ_rounds::Attempting;
use circ_term::Term;
use circ_theory::Goal;
use circ_tries::Reducer;
use circ_turn::{End, Search, State};

// A goal that lemma passes leave as it is: an attempt is made where it is hidden and the block has
// a rule of its own.
pub(crate) fn attempt_turn(
    search: &Search<'_>,
    rules: &mut BlockRules<'_>,
    passes: &PassRules,
    state: &mut State<'_>,
    goal: &Goal,
) -> Result<(), End>
    requires rules { IsRulesOf search.now.theory.now state.old.hyps.earlier rules.old }
    requires conds { rules.old.goals.conds ≡ goal.now.conds }
    requires passes { ArePassRules search.now.theory.now state.old.hyps.earlier state.old.hyps.all
        (of_script search.now.theory.now (standing state.old)) passes.now }
    requires some { 0 < length state.old.queue.items }
    requires small { IsSmallTrying (standing state.old) }
    requires ready { IsReadyTrying search.now.theory.now goal.now }
    ensures exact { GoesTo (attempt_turn search.now.theory.now search.now.gamma.now
        (manner_of search.now) (standing state.old) goal.now (drop 1 state.old.queue.items))
        (standing state.new) result }
    ensures rules { IsRulesOf search.now.theory.now state.old.hyps.earlier rules.new }
{
    if !search.theory.is_hidden(goal.left.sort()) || passes.own.is_empty() {
        return search.open_turn(rules, state, goal);
    }
    let mut budget = state.budget;
    let reducer = &mut rules.goals.reducer;
    match attempt(search, reducer, passes, state, goal, &mut budget) {
        Err(fault) => Err(search.end(state, Stop::of_rewrite(fault))),
        Ok(chain) => {
            state.budget = budget;
            attempted_turn(search, rules, state, goal, chain)
        }
    }
}

/// The attempt at the goal in hand: the chain that makes its sides equal, or none.
pub fn attempt(
    search: &Search<'_>,
    reducer: &mut Reducer<'_>,
    passes: &PassRules,
    state: &State<'_>,
    goal: &Goal,
    budget: &mut u64,
) -> Result<Option<Chain<Term>>, RewriteFault>
    requires reducer { reducer.old
        ≡ reducing search.now.theory.now state.now.hyps.earlier goal.now.conds }
    requires passes { ArePassRules search.now.theory.now state.now.hyps.earlier state.now.hyps.all
        (of_script search.now.theory.now (standing state.now)) passes.now }
    ensures exact { Works (option_map plain_chain) budget.new (attempt search.now.theory.now
        search.now.gamma.now state.now.hyps.earlier state.now.hyps.all
        (of_script search.now.theory.now (standing state.now)) goal.now.conds goal.now.left
        goal.now.right budget.old) result }
    ensures same { reducer.new ≡ reducer.old }
{
    let attempting = Attempting {
        alloc: search.alloc,
        theory: search.theory,
        gamma: search.gamma,
        hyps: &state.hyps,
        lemmas: &passes.lemmas,
        own: &passes.own,
    };
    attempting.attempt(reducer, &goal.left, &goal.right, budget)
}

// The goal is reduced by the attempt's chain, or goes on without one.
fn attempted_turn(
    search: &Search<'_>,
    rules: &mut BlockRules<'_>,
    state: &mut State<'_>,
    goal: &Goal,
    chain: Option<Chain<Term>>,
) -> Result<(), End>
    requires rules { IsRulesOf search.now.theory.now state.old.hyps.earlier rules.old }
    requires small { IsSmallTrying (standing state.old) }
    requires ready { IsReadyTrying search.now.theory.now goal.now }
    ensures exact { GoesTo (attempted_turn search.now.theory.now (manner_of search.now)
        (standing state.old) goal.now (drop 1 state.old.queue.items)
        (option_map plain_chain chain)) (standing state.new) result }
    ensures rules { IsRulesOf search.now.theory.now state.old.hyps.earlier rules.new }
{
    match chain {
        Some(chain) => reduced_by(search, state, chain),
        None => search.open_turn(rules, state, goal),
    }
}
