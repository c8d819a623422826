//! The turns of a search, each with its lines.
ghost use Rattle.std.specs.Prelude.{◌≡◌, ◌∷◌, ◌++◌, [], List, Ok, IfOk, OnOk};
ghost use Rattle.std.specs.Bool.{OnTrue};
ghost use Rattle.circ_theory.specs.Theory.{goal};
ghost use Rattle.circ_theory.specs.Goal.{Goal as TheGoal};
ghost use Rattle.circ_plain_search.specs.BlockRules.{block_rules};
ghost use Rattle.circ_plain_search.specs.Search.{Sides};
ghost use Rattle.circ_conditional_search.specs.Coming.{IsReadyTrying, IsSmallTrying};
ghost use Rattle.circ_conditional_search.specs.Search.{normal_sides_trying};
ghost use Rattle.circ_attempt.specs.Following.{HasDerived};
ghost use Rattle.circ_attempt.specs.Search.{Going, going, turn_rewriting};
ghost use Rattle.circ_block.specs.Rules.{IsRulesOf};
ghost use Rattle.circ_turn.specs.Standing.{standing, manner_of, conduct_with, IsStart};
ghost use Rattle.circ_turn.specs.Ending.{RunEnds};
ghost use Rattle.circ_rewriting_turn.specs.Going.{TurnsToOrDone};
ghost use Rattle.circ_trace.specs.Account.{account};
ghost use Rattle.circ_trace.specs.Descents.{after_turn, given_row};
ghost use Rattle.circ_trace.specs.TurnText.{turn_text};
ghost use Rattle.circ_trace.specs.Telling.{IsTold, RulesAreRead};

use crate::descent::Descent;
use crate::descents::{follow, given};
use crate::turn_ahead::TurnAhead;
use crate::turn_lines::put_turn;
use circ_attempt::laws::{
    derives_are_hypotheses, normal_goals_are_ready, standings_are_small, turns_end,
};
use circ_block::BlockRules;
use circ_rewriting_turn::{PassRules, Passed, turn};
use circ_turn::{End, Search, State};
use std::alloc::AllocError;
use std::collections::VecDeque;

/// Goes on until every goal is done, and appends the lines of each turn.
pub(crate) fn run_turns<'a>(
    search: &Search<'a>,
    state: &mut State<'_>,
    out: &mut Vec<u8>,
) -> Result<(), End>
    requires start { IsStart search.now.theory.now (manner_of search.now).limits
        (standing state.old) }
    ensures { RunEnds (IsTold search.now.theory.now search.now.gamma.now
        (conduct_with search.now.limits) (standing state.old) out.old.items out.new.items)
        (standing state.new) result }
{
    let mut waiting = given(search.alloc, state.goals.as_slice())?;
    let done = first_turns(search, state, &mut waiting, out);
    drop(waiting);
    done
}

// The same with the goals of the first block, which are given.
fn first_turns<'a>(
    search: &Search<'a>,
    state: &mut State<'_>,
    waiting: &mut VecDeque<Descent>,
    out: &mut Vec<u8>,
) -> Result<(), End>
    requires start { IsStart search.now.theory.now (manner_of search.now).limits
        (standing state.old) }
    requires waiting { waiting.old.items ≡ given_row state.old.goals.items }
    ensures { RunEnds (IsTold search.now.theory.now search.now.gamma.now
        (conduct_with search.now.limits) (standing state.old) out.old.items out.new.items)
        (standing state.new) result }
{
    let mut rules = BlockRules::new(search.alloc, search.theory)?;
    let mut passes = PassRules::new(search.alloc, state.goals.len());
    let mut passed = Passed::new(search.alloc);
    let done = turns(
        search,
        &mut rules,
        &mut passes,
        &mut passed,
        state,
        waiting,
        out,
    );
    drop(rules);
    drop(passes);
    drop(passed);
    done
}

// One turn after another, with the rules of the first block. Its goals are given.
fn turns<'a>(
    search: &Search<'a>,
    rules: &mut BlockRules<'a>,
    passes: &mut PassRules,
    passed: &mut Passed,
    state: &mut State<'_>,
    waiting: &mut VecDeque<Descent>,
    out: &mut Vec<u8>,
) -> Result<(), End>
    requires start { IsStart search.now.theory.now (manner_of search.now).limits
        (standing state.old) }
    requires rules { IsRulesOf search.now.theory.now [] rules.old }
    requires passes { RulesAreRead search.now (standing state.old) passes.old }
    requires passed { passed.old ≡ [] }
    requires waiting { waiting.old.items ≡ given_row state.old.goals.items }
    ensures { RunEnds (IsTold search.now.theory.now search.now.gamma.now
        (conduct_with search.now.limits) (standing state.old) out.old.items out.new.items)
        (standing state.new) result }
{
    search.theory.known();
    standings_are_small();
    normal_goals_are_ready();
    derives_are_hypotheses();
    turns_end();
    loop {
        tell(search, rules, passes, passed, state, waiting, out)?;
        match next_turn(search, rules, passes, passed, state) {
            Ok(true) => {}
            Ok(false) => return Ok(()),
            Err(end) => return Err(end),
        }
    }
}

// Appends the lines of the turn that comes next.
fn tell(
    search: &Search<'_>,
    rules: &mut BlockRules<'_>,
    passes: &PassRules,
    passed: &Passed,
    state: &State<'_>,
    waiting: &mut VecDeque<Descent>,
    out: &mut Vec<u8>,
) -> Result<(), AllocError>
    requires rules { IsRulesOf search.now.theory.now state.now.hyps.earlier rules.old }
    requires passes { RulesAreRead search.now (standing state.now) passes.now }
    requires small { IsSmallTrying (standing state.now) }
    ensures lines { OnOk result (out.new.items ≡ out.old.items ++ turn_text
        search.now.theory.now waiting.old.items (standing state.now)
        (account search.now.theory.now search.now.gamma.now (conduct_with search.now.limits)
        (going (standing state.now) passed.now))) }
    ensures waiting { OnOk result (waiting.new.items ≡ after_turn search.now.theory.now
        waiting.old.items (standing state.now) (account search.now.theory.now
        search.now.gamma.now (conduct_with search.now.limits)
        (going (standing state.now) passed.now))) }
    ensures rules { IsRulesOf search.now.theory.now state.now.hyps.earlier rules.new }
{
    let ahead = TurnAhead {
        search,
        passes,
        passed,
        state,
    };
    let account = ahead.account(rules)?;
    put_turn(search.alloc, search.theory, waiting, state, &account, out)?;
    follow(search.alloc, search.theory, waiting, state, &account)
}

// One turn, with hypotheses as rules or without. False where every goal is done.
fn next_turn<'a>(
    search: &Search<'a>,
    rules: &mut BlockRules<'a>,
    passes: &mut PassRules,
    passed: &mut Passed,
    state: &mut State<'_>,
) -> Result<bool, End>
    requires rules { IsRulesOf search.now.theory.now state.old.hyps.earlier rules.old }
    requires passes { RulesAreRead search.now (standing state.old) passes.old }
    requires derived { HasDerived search.now.theory.now (standing state.old) }
    requires small { IsSmallTrying (standing state.old) }
    requires ready { (g : TheGoal) (rest : List TheGoal) (n : Sides)
        → state.old.queue.items ≡ g ∷ rest
        → normal_sides_trying search.now.theory.now
        (block_rules search.now.theory.now state.old.hyps.earlier) g.conds
        g.left g.right state.old.budget ≡ Ok n
        → IsReadyTrying search.now.theory.now (goal g.conds n.left n.right) }
    requires next { (y : Going) → turn_rewriting search.now.theory.now search.now.gamma.now
        (conduct_with search.now.limits) (going (standing state.old) passed.old) ≡ Ok y
        → IsSmallTrying y.standing }
    ensures exact { TurnsToOrDone (turn_rewriting search.now.theory.now search.now.gamma.now
        (conduct_with search.now.limits) (going (standing state.old) passed.old))
        (going (standing state.new) passed.new) result }
    ensures rules { IfOk result (λ b. OnTrue b
        (IsRulesOf search.now.theory.now state.new.hyps.earlier rules.new)) }
    ensures passes { IfOk result (λ b. OnTrue b
        (RulesAreRead search.now (standing state.new) passes.new)) }
{
    if search.limits.rewrite {
        turn(search, rules, passes, passed, state)
    } else {
        passed.clear();
        search.turn(rules, state)
    }
}
