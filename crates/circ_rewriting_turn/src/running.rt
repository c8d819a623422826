//! The run of a search with hypotheses as rules.
ghost use Rattle.std.specs.Prelude.{◌≡◌, ◌<◌, ◌∷◌, [], List, length, Ok, IfOk, OnOk};
ghost use Rattle.std.specs.Bool.{OnTrue};
ghost use Rattle.circ_theory.specs.Goal.{Goal as TheGoal};
ghost use Rattle.circ_theory.specs.Theory.{goal};
ghost use Rattle.circ_plain_search.specs.BlockRules.{block_rules};
ghost use Rattle.circ_plain_search.specs.Search.{Sides as TheSides};
ghost use Rattle.circ_conditional_search.specs.Coming.{IsReadyTrying, IsSmallTrying};
ghost use Rattle.circ_conditional_search.specs.Search.{normal_sides_trying};
ghost use Rattle.circ_attempt.specs.Following.{HasDerived};
ghost use Rattle.circ_attempt.specs.Search.{Going, going, turn_rewriting, FinishesRewriting};
ghost use Rattle.circ_block.specs.Rules.{IsRulesOf};
ghost use Rattle.circ_turn.specs.Standing.{standing, manner_of, conduct_with, IsStart};
ghost use Rattle.circ_turn.specs.Ending.{RunEnds};
ghost use Rattle.circ_rewriting_turn.specs.Going.{rewriting_by, TurnsTo, TurnsToOrDone};
ghost use Rattle.circ_rewriting_turn.specs.PassRules.{ReadAt};

use crate::pass_rules::PassRules;
use crate::passed::Passed;
use crate::turning::goal_turn;
use circ_attempt::laws::{
    derives_are_hypotheses, normal_goals_are_ready, standings_are_small, turns_end,
    what_comes_finishes, without_the_flag,
};
use circ_block::BlockRules;
use circ_turn::{End, Search, State};

/// Goes on until every goal is done: then the finished blocks prove them. Hypotheses are rules where
/// the limits say so, and else the search is that of circ_turn.
pub fn run(search: &Search<'_>, state: &mut State<'_>) -> Result<(), End>
    requires start { IsStart search.now.theory.now (manner_of search.now).limits
        (standing state.old) }
    ensures { RunEnds (FinishesRewriting search.now.theory.now search.now.gamma.now
        (conduct_with search.now.limits) (going (standing state.old) [])) (standing state.new)
        result }
{
    without_the_flag();
    if search.limits.rewrite {
        run_rewriting(search, state)
    } else {
        search.run(state)
    }
}

// The same where hypotheses are rules.
fn run_rewriting(search: &Search<'_>, state: &mut State<'_>) -> Result<(), End>
    requires start { IsStart search.now.theory.now (manner_of search.now).limits
        (standing state.old) }
    ensures { RunEnds (FinishesRewriting search.now.theory.now search.now.gamma.now
        (rewriting_by search.now) (going (standing state.old) [])) (standing state.new) result }
{
    let mut rules = BlockRules::new(search.alloc, search.theory)?;
    let mut passes = PassRules::new(search.alloc, state.goals.len());
    let mut passed = Passed::new(search.alloc);
    let done = turns(search, &mut rules, &mut passes, &mut passed, state);
    drop(rules);
    drop(passes);
    done
}

// One turn after another, from the first.
fn turns<'a>(
    search: &Search<'a>,
    rules: &mut BlockRules<'a>,
    passes: &mut PassRules,
    passed: &mut Passed,
    state: &mut State<'_>,
) -> Result<(), End>
    requires start { IsStart search.now.theory.now (manner_of search.now).limits
        (standing state.old) }
    requires rules { IsRulesOf search.now.theory.now [] rules.old }
    requires passes { ReadAt search.now.theory.now (standing state.old) passes.old }
    requires passed { passed.old ≡ [] }
    ensures { RunEnds (FinishesRewriting search.now.theory.now search.now.gamma.now
        (rewriting_by search.now) (going (standing state.old) [])) (standing state.new) result }
{
    search.theory.known();
    standings_are_small();
    normal_goals_are_ready();
    derives_are_hypotheses();
    what_comes_finishes();
    turns_end();
    loop {
        match turn(search, rules, passes, passed, state) {
            Ok(true) => {}
            Ok(false) => return Ok(()),
            Err(end) => return Err(end),
        }
    }
}

/// One turn: the first goal of the queue is looked at, or, where there is none, the block is
/// finished. False where every goal is done.
pub fn turn<'a>(
    search: &Search<'a>,
    rules: &mut BlockRules<'a>,
    passes: &mut PassRules,
    passed: &mut Passed,
    state: &mut State<'_>,
) -> Result<bool, End>
    requires rules { IsRulesOf search.now.theory.now state.old.hyps.earlier rules.old }
    requires passes { ReadAt search.now.theory.now (standing state.old) passes.old }
    requires derived { HasDerived search.now.theory.now (standing state.old) }
    requires small { IsSmallTrying (standing state.old) }
    requires ready { (g : TheGoal) (rest : List TheGoal) (n : TheSides)
        → state.old.queue.items ≡ g ∷ rest
        → normal_sides_trying search.now.theory.now
        (block_rules search.now.theory.now state.old.hyps.earlier) g.conds
        g.left g.right state.old.budget ≡ Ok n
        → IsReadyTrying search.now.theory.now (goal g.conds n.left n.right) }
    requires next { (y : Going) → turn_rewriting search.now.theory.now search.now.gamma.now
        (rewriting_by search.now) (going (standing state.old) passed.old) ≡ Ok y
        → IsSmallTrying y.standing }
    ensures exact { TurnsToOrDone (turn_rewriting search.now.theory.now search.now.gamma.now
        (rewriting_by search.now) (going (standing state.old) passed.old))
        (going (standing state.new) passed.new) result }
    ensures rules { IfOk result (λ b. OnTrue b
        (IsRulesOf search.now.theory.now state.new.hyps.earlier rules.new)) }
    ensures passes { IfOk result (λ b. OnTrue b
        (ReadAt search.now.theory.now (standing state.new) passes.new)) }
{
    match state.queue.front() {
        None => block_turn(search, rules, passes, passed, state),
        Some(_) => match front_turn(search, rules, passes, passed, state) {
            Err(end) => Err(end),
            Ok(()) => Ok(true),
        },
    }
}

// A turn on the first goal of the queue. What it adds to the block is read.
fn front_turn(
    search: &Search<'_>,
    rules: &mut BlockRules<'_>,
    passes: &mut PassRules,
    passed: &mut Passed,
    state: &mut State<'_>,
) -> Result<(), End>
    requires rules { IsRulesOf search.now.theory.now state.old.hyps.earlier rules.old }
    requires passes { ReadAt search.now.theory.now (standing state.old) passes.old }
    requires derived { HasDerived search.now.theory.now (standing state.old) }
    requires some { 0 < length state.old.queue.items }
    requires small { IsSmallTrying (standing state.old) }
    requires ready { (g : TheGoal) (rest : List TheGoal) (n : TheSides)
        → state.old.queue.items ≡ g ∷ rest
        → normal_sides_trying search.now.theory.now
        (block_rules search.now.theory.now state.old.hyps.earlier) g.conds
        g.left g.right state.old.budget ≡ Ok n
        → IsReadyTrying search.now.theory.now (goal g.conds n.left n.right) }
    requires next { (y : Going) → turn_rewriting search.now.theory.now search.now.gamma.now
        (rewriting_by search.now) (going (standing state.old) passed.old) ≡ Ok y
        → IsSmallTrying y.standing }
    ensures exact { TurnsTo (turn_rewriting search.now.theory.now search.now.gamma.now
        (rewriting_by search.now) (going (standing state.old) passed.old))
        (going (standing state.new) passed.new) result }
    ensures rules { OnOk result (IsRulesOf search.now.theory.now state.new.hyps.earlier
        rules.new) }
    ensures passes { OnOk result (ReadAt search.now.theory.now (standing state.new) passes.new) }
{
    let (steps, hyps) = (state.steps.len(), state.hyps.goals().len());
    match goal_turn(search, rules, passes, passed, state) {
        Err(end) => return Err(end),
        Ok(()) => {}
    }
    let (all_steps, all_hyps) = (state.steps.as_slice(), state.hyps.goals());
    passes.read_steps(search.theory, all_steps, steps, all_hyps, hyps)?;
    Ok(())
}

// The block is finished, and the next begins. False where there is none.
fn block_turn<'a>(
    search: &Search<'a>,
    rules: &mut BlockRules<'a>,
    passes: &mut PassRules,
    passed: &mut Passed,
    state: &mut State<'_>,
) -> Result<bool, End>
    requires none { state.old.queue.items ≡ [] }
    requires rules { IsRulesOf search.now.theory.now state.old.hyps.earlier rules.old }
    requires passes { ReadAt search.now.theory.now (standing state.old) passes.old }
    requires next { (y : Going) → turn_rewriting search.now.theory.now search.now.gamma.now
        (rewriting_by search.now) (going (standing state.old) passed.old) ≡ Ok y
        → IsSmallTrying y.standing }
    ensures exact { TurnsToOrDone (turn_rewriting search.now.theory.now search.now.gamma.now
        (rewriting_by search.now) (going (standing state.old) passed.old))
        (going (standing state.new) passed.new) result }
    ensures rules { IfOk result (λ b. OnTrue b
        (IsRulesOf search.now.theory.now state.new.hyps.earlier rules.new)) }
    ensures passes { IfOk result (λ b. OnTrue b
        (ReadAt search.now.theory.now (standing state.new) passes.new)) }
{
    match search.done_turn(state) {
        Err(end) => Err(end),
        Ok(false) => Ok(false),
        Ok(true) => {
            passed.clear();
            rules.next_block(search.alloc, search.theory, state.hyps.earlier())?;
            passes.next_block(search.alloc, search.theory, state)?;
            Ok(true)
        }
    }
}
