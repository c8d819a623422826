//! A turn on a goal with hypotheses as rules.
ghost use Rattle.std.specs.Prelude.{◌≡◌, ◌<◌, ◌∷◌, List, Ok, drop, length};
ghost use Rattle.std.specs.Option.{option_map};
ghost use Rattle.circ_theory.specs.Theory.{goal};
ghost use Rattle.circ_theory.specs.Goal.{Goal as TheGoal};
ghost use Rattle.circ_plain_search.specs.BlockRules.{block_rules};
ghost use Rattle.circ_plain_search.specs.Search.{sides_with, Sides as TheSides};
ghost use Rattle.circ_conditional_search.specs.Coming.{IsReadyTrying, IsSmallTrying};
ghost use Rattle.circ_conditional_search.specs.Search.{normal_sides_trying, with_sides_of};
ghost use Rattle.circ_conditional_search.specs.Search.{condition_normaliser};
ghost use Rattle.circ_attempt.specs.Search.{going, of_script, goal_turn_rewriting};
ghost use Rattle.circ_attempt.specs.Search.{sides_turn_rewriting, join_turn_rewriting};
ghost use Rattle.circ_attempt.specs.Search.{pass_turn_rewriting, after_pass_turn};
ghost use Rattle.circ_attempt.specs.Passes.{both_swept};
ghost use Rattle.circ_attempt.specs.Rules.{first_rule_use, lemmas_of};
ghost use Rattle.circ_block.specs.Rules.{IsRulesOf};
ghost use Rattle.circ_join.specs.Sides.{plain_swept_sides};
ghost use Rattle.circ_join.specs.Trying.{Works};
ghost use Rattle.circ_moves.specs.Plain.{plain_moves};
ghost use Rattle.circ_proof.specs.Plain.{plain_chain};
ghost use Rattle.circ_turn.specs.Standing.{standing, manner_of};
ghost use Rattle.circ_turn.specs.Ending.{reducing};
ghost use Rattle.circ_rewriting_turn.specs.Going.{TurnsTo};
ghost use Rattle.circ_rewriting_turn.specs.PassRules.{ArePassRules};

use crate::attempting::attempt_turn;
use crate::joining::move_turn;
use crate::pass_rules::PassRules;
use crate::passed::Passed;
use circ_block::BlockRules;
use circ_join::{Stop, SweptSides};
use circ_moves::{ContentJoining, Move};
use circ_own_rules::{HypothesisRules, RulePassing};
use circ_proof::Chain;
use circ_rewrite::RewriteFault;
use circ_term::Term;
use circ_theory::Goal;
use circ_tries::Reducer;
use circ_turn::{End, Search, State};

// One goal: both sides are normalised under its conditions, and then it is looked at.
pub(crate) fn goal_turn(
    search: &Search<'_>,
    rules: &mut BlockRules<'_>,
    passes: &PassRules,
    passed: &mut Passed,
    state: &mut State<'_>,
) -> Result<(), End>
    requires rules { IsRulesOf search.now.theory.now state.old.hyps.earlier rules.old }
    requires passes { ArePassRules search.now.theory.now state.old.hyps.earlier state.old.hyps.all
        (of_script search.now.theory.now (standing state.old)) passes.now }
    requires small { IsSmallTrying (standing state.old) }
    requires ready { (g : TheGoal) (rest : List TheGoal) (n : TheSides)
        → state.old.queue.items ≡ g ∷ rest
        → normal_sides_trying search.now.theory.now
        (block_rules search.now.theory.now state.old.hyps.earlier) g.conds
        g.left g.right state.old.budget ≡ Ok n
        → IsReadyTrying search.now.theory.now (goal g.conds n.left n.right) }
    ensures exact { (g : TheGoal) (rest : List TheGoal) → state.old.queue.items ≡ g ∷ rest
        → TurnsTo (goal_turn_rewriting search.now.theory.now search.now.gamma.now
        (manner_of search.now) (standing state.old) passed.old g rest)
        (going (standing state.new) passed.new) result }
    ensures rules { IsRulesOf search.now.theory.now state.old.hyps.earlier rules.new }
{
    let Some(hand) = state.queue.front() else {
        return Ok(());
    };
    let mut budget = state.budget;
    match search.normal_goal(rules, hand, &mut budget) {
        Err(stop) => Err(search.end(state, stop)),
        Ok((goal, chain)) => {
            normal_turn(search, rules, passes, passed, state, (goal, chain), budget)
        }
    }
}

// The goal in hand is this one now, in normal form, to whose sides these links have led.
fn normal_turn(
    search: &Search<'_>,
    rules: &mut BlockRules<'_>,
    passes: &PassRules,
    passed: &mut Passed,
    state: &mut State<'_>,
    normal: (Goal, Chain<Term>),
    budget: u64,
) -> Result<(), End>
    requires rules { IsRulesOf search.now.theory.now state.old.hyps.earlier rules.old }
    requires conds { rules.old.goals.conds ≡ normal.0.conds }
    requires passes { ArePassRules search.now.theory.now state.old.hyps.earlier state.old.hyps.all
        (of_script search.now.theory.now (standing state.old)) passes.now }
    requires some { 0 < length state.old.queue.items }
    requires small { IsSmallTrying (standing state.old) }
    requires ready { IsReadyTrying search.now.theory.now normal.0 }
    ensures exact { TurnsTo (sides_turn_rewriting search.now.theory.now search.now.gamma.now
        (manner_of search.now)
        (with_sides_of (standing state.old) normal.0 (drop 1 state.old.queue.items)
        (sides_with normal.0.left normal.0.right (plain_chain normal.1) budget))
        passed.old normal.0 (drop 1 state.old.queue.items))
        (going (standing state.new) passed.new) result }
    ensures rules { IsRulesOf search.now.theory.now state.old.hyps.earlier rules.new }
{
    let (goal, chain) = normal;
    state.set_hand(search.alloc, &goal, chain, budget)?;
    sides_turn(search, rules, passes, passed, state, &goal)
}

// A goal whose sides are in normal form.
fn sides_turn(
    search: &Search<'_>,
    rules: &mut BlockRules<'_>,
    passes: &PassRules,
    passed: &mut Passed,
    state: &mut State<'_>,
    goal: &Goal,
) -> Result<(), End>
    requires rules { IsRulesOf search.now.theory.now state.old.hyps.earlier rules.old }
    requires conds { rules.old.goals.conds ≡ goal.now.conds }
    requires passes { ArePassRules search.now.theory.now state.old.hyps.earlier state.old.hyps.all
        (of_script search.now.theory.now (standing state.old)) passes.now }
    requires some { 0 < length state.old.queue.items }
    requires small { IsSmallTrying (standing state.old) }
    requires ready { IsReadyTrying search.now.theory.now goal.now }
    ensures exact { TurnsTo (sides_turn_rewriting search.now.theory.now search.now.gamma.now
        (manner_of search.now) (standing state.old) passed.old goal.now
        (drop 1 state.old.queue.items)) (going (standing state.new) passed.new) result }
    ensures rules { IsRulesOf search.now.theory.now state.old.hyps.earlier rules.new }
{
    let joining = ContentJoining {
        alloc: search.alloc,
        theory: search.theory,
        gamma: search.gamma,
        hyps: &state.hyps,
    };
    let mut budget = state.budget;
    let reducer = &mut rules.goals.reducer;
    match joining.join(reducer, &goal.left, &goal.right, &mut budget) {
        Err(fault) => Err(search.end(state, Stop::of_rewrite(fault))),
        Ok(joined) => {
            state.budget = budget;
            joined_turn(search, rules, passes, passed, state, goal, joined)
        }
    }
}

// A goal of which it is known whether its sides join.
fn joined_turn(
    search: &Search<'_>,
    rules: &mut BlockRules<'_>,
    passes: &PassRules,
    passed: &mut Passed,
    state: &mut State<'_>,
    goal: &Goal,
    joined: Option<Vec<Move>>,
) -> Result<(), End>
    requires rules { IsRulesOf search.now.theory.now state.old.hyps.earlier rules.old }
    requires conds { rules.old.goals.conds ≡ goal.now.conds }
    requires passes { ArePassRules search.now.theory.now state.old.hyps.earlier state.old.hyps.all
        (of_script search.now.theory.now (standing state.old)) passes.now }
    requires some { 0 < length state.old.queue.items }
    requires small { IsSmallTrying (standing state.old) }
    requires ready { IsReadyTrying search.now.theory.now goal.now }
    ensures exact { TurnsTo (join_turn_rewriting search.now.theory.now search.now.gamma.now
        (manner_of search.now) passed.old goal.now (drop 1 state.old.queue.items)
        (option_map (λ v. plain_moves v.items) joined) (standing state.old))
        (going (standing state.new) passed.new) result }
    ensures rules { IsRulesOf search.now.theory.now state.old.hyps.earlier rules.new }
{
    match joined {
        Some(moves) => {
            passed.clear();
            move_turn(search, state, goal, moves)
        }
        None => pass_turn(search, rules, passes, passed, state, goal),
    }
}

// A lemma pass, unless one was made to this pair since the goal was taken.
fn pass_turn(
    search: &Search<'_>,
    rules: &mut BlockRules<'_>,
    passes: &PassRules,
    passed: &mut Passed,
    state: &mut State<'_>,
    goal: &Goal,
) -> Result<(), End>
    requires rules { IsRulesOf search.now.theory.now state.old.hyps.earlier rules.old }
    requires conds { rules.old.goals.conds ≡ goal.now.conds }
    requires passes { ArePassRules search.now.theory.now state.old.hyps.earlier state.old.hyps.all
        (of_script search.now.theory.now (standing state.old)) passes.now }
    requires some { 0 < length state.old.queue.items }
    requires small { IsSmallTrying (standing state.old) }
    requires ready { IsReadyTrying search.now.theory.now goal.now }
    ensures exact { TurnsTo (pass_turn_rewriting search.now.theory.now search.now.gamma.now
        (manner_of search.now) (standing state.old) passed.old goal.now
        (drop 1 state.old.queue.items)) (going (standing state.new) passed.new) result }
    ensures rules { IsRulesOf search.now.theory.now state.old.hyps.earlier rules.new }
{
    if passed.has(&goal.left, &goal.right) {
        passed.clear();
        return attempt_turn(search, rules, passes, state, goal);
    }
    let mut budget = state.budget;
    let reducer = &mut rules.goals.reducer;
    match lemma_pass(search, reducer, passes, goal, &mut budget) {
        Err(fault) => Err(search.end(state, Stop::of_rewrite(fault))),
        Ok(sides) => {
            state.budget = budget;
            swept_turn(search, rules, passes, passed, state, goal, sides)
        }
    }
}

/// A lemma pass over both sides of a goal.
pub fn lemma_pass(
    search: &Search<'_>,
    reducer: &mut Reducer<'_>,
    passes: &PassRules,
    goal: &Goal,
    budget: &mut u64,
) -> Result<SweptSides, RewriteFault>
    ensures exact { (E : List TheGoal)
        → reducer.old ≡ reducing search.now.theory.now E goal.now.conds
        → passes.now.lemmas ≡ lemmas_of search.now.theory.now 0 E
        → Works plain_swept_sides budget.new (both_swept (first_rule_use
        (condition_normaliser search.now.theory.now E goal.now.conds)
        (lemmas_of search.now.theory.now 0 E)) search.now.gamma.now goal.now.left goal.now.right
        budget.old) result }
    ensures same { reducer.new ≡ reducer.old }
{
    let none = HypothesisRules::new(search.alloc);
    let passing = RulePassing {
        alloc: search.alloc,
        gamma: search.gamma,
        lemmas: &passes.lemmas,
        own: &none,
    };
    passing.pass_both(reducer, &goal.left, &goal.right, budget)
}

// The goal goes on from what the pass has made of its sides, where it made anything.
fn swept_turn(
    search: &Search<'_>,
    rules: &mut BlockRules<'_>,
    passes: &PassRules,
    passed: &mut Passed,
    state: &mut State<'_>,
    goal: &Goal,
    sides: SweptSides,
) -> Result<(), End>
    requires rules { IsRulesOf search.now.theory.now state.old.hyps.earlier rules.old }
    requires conds { rules.old.goals.conds ≡ goal.now.conds }
    requires passes { ArePassRules search.now.theory.now state.old.hyps.earlier state.old.hyps.all
        (of_script search.now.theory.now (standing state.old)) passes.now }
    requires some { 0 < length state.old.queue.items }
    requires small { IsSmallTrying (standing state.old) }
    requires ready { IsReadyTrying search.now.theory.now goal.now }
    ensures exact { TurnsTo (after_pass_turn search.now.theory.now search.now.gamma.now
        (manner_of search.now) passed.old goal.now (drop 1 state.old.queue.items)
        (plain_swept_sides sides) (standing state.old)) (going (standing state.new) passed.new)
        result }
    ensures rules { IsRulesOf search.now.theory.now state.old.hyps.earlier rules.new }
{
    if !sides.has_uses() {
        drop(sides);
        passed.clear();
        return attempt_turn(search, rules, passes, state, goal);
    }
    passed.push(&goal.left, &goal.right)?;
    search.go_on(state, goal, sides)?;
    Ok(())
}
