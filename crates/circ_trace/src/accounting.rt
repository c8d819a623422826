//! The account of the turn that comes next.
ghost use Rattle.std.specs.Prelude.{◌≡◌, ◌≢◌, ◌<◌, ◌^◌, ◌++◌, List, length, Some, None};
ghost use Rattle.std.specs.Prelude.{false, IfOk, OnOk};
ghost use Rattle.std.specs.Option.{option_map};
ghost use Rattle.circ_theory.specs.Goal.{Goal as TheGoal};
ghost use Rattle.circ_rewrite.specs.declared.fault.RewriteFault.TheVariants.{Memory as NoMemory};
ghost use Rattle.circ_block.specs.Rules.{IsRulesOf};
ghost use Rattle.circ_join.specs.Uses.{plain_uses};
ghost use Rattle.circ_join.specs.declared.stop.Stop.TheVariants.{Memory};
ghost use Rattle.circ_plain_search.specs.BlockRules.{block_rules, hidden_lemmas};
ghost use Rattle.circ_conditional_search.specs.Coming.{IsSmallTrying};
ghost use Rattle.circ_conditional_search.specs.Search.{normal_sides_trying};
ghost use Rattle.circ_attempt.specs.Search.{going};
ghost use Rattle.circ_turn.specs.Ending.{reducing};
ghost use Rattle.circ_turn.specs.Standing.{standing, conduct_with};
ghost use Rattle.circ_trace.specs.Account.{account, account_of, account_on, deed_on};
ghost use Rattle.circ_trace.specs.Account.{deed_trying, join_deed_trying, with_cases};
ghost use Rattle.circ_trace.specs.Account.{account_with, plain_account, plain_account_if};
ghost use Rattle.circ_trace.specs.Deed.{Ends, Opens, passes_or, plain_deed};
ghost use Rattle.circ_trace.specs.Telling.{RulesAreRead};
ghost use Rattle.circ_trace.specs.Used.{numbers_of};

use crate::account::{Account, Deed};
use crate::turn_ahead::TurnAhead;
use crate::used::push_numbers;
use circ_block::BlockRules;
use circ_join::{HypothesisUse, Joining, Lemmas, Passing, Stop};
use circ_rewrite::RewriteFault;
use circ_split::{Sides, case_term, normal_sides};
use circ_theory::Goal;
use circ_tries::Reducer;
use circ_turn::Search;
use std::alloc::{AllocError, Global};

impl TurnAhead<'_, '_, '_> {
    /// What the turn comes upon and does. None where no goal is left, or normalising ends the
    /// search.
    pub(crate) fn account(&self, rules: &mut BlockRules<'_>) -> Result<Option<Account>, AllocError>
        requires rules { IsRulesOf self.now.search.now.theory.now self.now.state.now.hyps.earlier
            rules.old }
        requires passes { RulesAreRead self.now.search.now (standing self.now.state.now)
            self.now.passes.now }
        requires small { IsSmallTrying (standing self.now.state.now) }
        ensures exact { IfOk result (λ o. plain_account_if o ≡ account
            self.now.search.now.theory.now self.now.search.now.gamma.now
            (conduct_with self.now.search.now.limits)
            (going (standing self.now.state.now) self.now.passed.now)) }
        ensures rules { IsRulesOf self.now.search.now.theory.now self.now.state.now.hyps.earlier
            rules.new }
    {
        match self.state.queue.front() {
            None => Ok(None),
            Some(goal) => self.goal_account(rules, goal),
        }
    }

    // The same where this goal is in hand.
    fn goal_account(
        &self,
        rules: &mut BlockRules<'_>,
        goal: &Goal,
    ) -> Result<Option<Account>, AllocError>
        requires rules { IsRulesOf self.now.search.now.theory.now self.now.state.now.hyps.earlier
            rules.old }
        requires passes { RulesAreRead self.now.search.now (standing self.now.state.now)
            self.now.passes.now }
        requires few { length goal.now.conds < 2 ^ 32 }
        ensures exact { IfOk result (λ o. plain_account_if o ≡ account_of
            self.now.search.now.theory.now self.now.search.now.gamma.now
            (conduct_with self.now.search.now.limits)
            (going (standing self.now.state.now) self.now.passed.now) goal.now.conds
            (normal_sides_trying self.now.search.now.theory.now
            (block_rules self.now.search.now.theory.now self.now.state.now.hyps.earlier)
            goal.now.conds goal.now.left goal.now.right self.now.state.now.budget)) }
        ensures rules { IsRulesOf self.now.search.now.theory.now self.now.state.now.hyps.earlier
            rules.new }
    {
        let alloc = self.search.alloc;
        rules.assume(alloc, goal.conds.as_slice())?;
        let mut budget = self.state.budget;
        let reducer = &mut rules.goals.reducer;
        match normal_sides(alloc, reducer, &goal.left, &goal.right, &mut budget) {
            Err(stop) => {
                let none = none_unless_memory(&stop);
                drop(stop);
                none
            }
            Ok(sides) => {
                let goal = with_sides(alloc, goal, sides)?;
                self.normal_account(rules, goal, budget)
            }
        }
    }

    // The same where the goal's sides are in normal form. The rules have its conditions.
    fn normal_account(
        &self,
        rules: &mut BlockRules<'_>,
        goal: Goal,
        budget: u64,
    ) -> Result<Option<Account>, AllocError>
        requires rules { IsRulesOf self.now.search.now.theory.now self.now.state.now.hyps.earlier
            rules.old }
        requires passes { RulesAreRead self.now.search.now (standing self.now.state.now)
            self.now.passes.now }
        requires conds { rules.old.goals.conds ≡ goal.conds }
        ensures exact { IfOk result (λ o. plain_account_if o ≡ Some (account_on
            self.now.search.now.theory.now self.now.search.now.gamma.now
            (conduct_with self.now.search.now.limits)
            (going (standing self.now.state.now) self.now.passed.now) goal budget)) }
        ensures rules { IsRulesOf self.now.search.now.theory.now self.now.state.now.hyps.earlier
            rules.new }
    {
        match self.deed_with_cases(rules, &goal, budget) {
            Err(fault) => {
                drop(goal);
                Err(fault)
            }
            Ok(deed) => Ok(Some(account_with(goal, deed))),
        }
    }

    // What is done with the goal, with the term on which it is split.
    fn deed_with_cases(
        &self,
        rules: &mut BlockRules<'_>,
        goal: &Goal,
        budget: u64,
    ) -> Result<Deed, AllocError>
        requires rules { IsRulesOf self.now.search.now.theory.now self.now.state.now.hyps.earlier
            rules.old }
        requires passes { RulesAreRead self.now.search.now (standing self.now.state.now)
            self.now.passes.now }
        requires conds { rules.old.goals.conds ≡ goal.now.conds }
        ensures exact { IfOk result (λ d. plain_deed d ≡ with_cases
            self.now.search.now.theory.now self.now.search.now.limits.split goal.now
            (deed_on self.now.search.now.theory.now self.now.search.now.gamma.now
            self.now.search.now.limits.rewrite
            (going (standing self.now.state.now) self.now.passed.now) goal.now budget)) }
        ensures rules { IsRulesOf self.now.search.now.theory.now self.now.state.now.hyps.earlier
            rules.new }
    {
        let deed = self.deed(rules, goal, budget)?;
        with_cases(self.search, goal, deed)
    }

    // What is done with a goal whose sides are in normal form.
    fn deed(&self, rules: &mut BlockRules<'_>, goal: &Goal, budget: u64) -> Result<Deed, AllocError>
        requires rules { IsRulesOf self.now.search.now.theory.now self.now.state.now.hyps.earlier
            rules.old }
        requires passes { RulesAreRead self.now.search.now (standing self.now.state.now)
            self.now.passes.now }
        requires conds { rules.old.goals.conds ≡ goal.now.conds }
        ensures exact { IfOk result (λ d. plain_deed d ≡ deed_on self.now.search.now.theory.now
            self.now.search.now.gamma.now self.now.search.now.limits.rewrite
            (going (standing self.now.state.now) self.now.passed.now) goal.now budget) }
        ensures rules { IsRulesOf self.now.search.now.theory.now self.now.state.now.hyps.earlier
            rules.new }
    {
        if self.search.limits.rewrite {
            self.deed_rewriting(rules, goal, budget)
        } else {
            self.deed_trying(rules, goal, budget)
        }
    }

    // The same where no hypothesis is a rule.
    fn deed_trying(
        &self,
        rules: &mut BlockRules<'_>,
        goal: &Goal,
        budget: u64,
    ) -> Result<Deed, AllocError>
        requires rules { IsRulesOf self.now.search.now.theory.now self.now.state.now.hyps.earlier
            rules.old }
        requires conds { rules.old.goals.conds ≡ goal.now.conds }
        ensures exact { IfOk result (λ d. plain_deed d ≡ deed_trying
            self.now.search.now.theory.now self.now.search.now.gamma.now
            (standing self.now.state.now) goal.now budget) }
        ensures rules { IsRulesOf self.now.search.now.theory.now self.now.state.now.hyps.earlier
            rules.new }
    {
        let joining = Joining {
            alloc: self.search.alloc,
            gamma: self.search.gamma,
            hyps: &self.state.hyps,
        };
        let mut budget = budget;
        let reducer = &mut rules.goals.reducer;
        match joining.join(reducer, &goal.left, &goal.right, &mut budget) {
            Err(fault) => ends_unless_memory(&fault, false),
            Ok(joined) => joined_deed(self.search, reducer, &rules.lemmas, goal, joined, budget),
        }
    }
}

// What a turn comes upon in a goal and does.
fn account_with(goal: Goal, deed: Deed) -> Account
    ensures { plain_account result ≡ account_with goal.left goal.right (plain_deed deed) }
{
    Account {
        left: goal.left,
        right: goal.right,
        deed,
    }
}

// The goal with these sides.
fn with_sides(alloc: Global, goal: &Goal, sides: Sides) -> Result<Goal, AllocError>
    ensures conds { IfOk result (λ g. g.conds ≡ goal.now.conds) }
    ensures left { IfOk result (λ g. g.left ≡ sides.left) }
    ensures right { IfOk result (λ g. g.right ≡ sides.right) }
{
    let conds = goal.conds.share(alloc)?;
    Ok(Goal {
        conds,
        left: sides.left,
        right: sides.right,
    })
}

// A hidden goal that is open is split on a term, where hidden goals are split.
fn with_cases(search: &Search<'_>, goal: &Goal, deed: Deed) -> Result<Deed, AllocError>
    ensures { IfOk result (λ d. plain_deed d ≡ with_cases search.now.theory.now
        search.now.limits.split goal.now (plain_deed deed)) }
{
    match deed {
        Deed::Joins { hypotheses } => Ok(Deed::Joins { hypotheses }),
        Deed::Passes { hypotheses } => Ok(Deed::Passes { hypotheses }),
        Deed::Closes { hypotheses } => Ok(Deed::Closes { hypotheses }),
        Deed::Cases { attempted, term } => Ok(Deed::Cases { attempted, term }),
        Deed::Opens { attempted } => opened(search, goal, attempted),
        Deed::Ends { attempted } => Ok(Deed::Ends { attempted }),
    }
}

// The same of a goal that is open.
fn opened(search: &Search<'_>, goal: &Goal, attempted: bool) -> Result<Deed, AllocError>
    ensures { IfOk result (λ d. plain_deed d ≡ with_cases search.now.theory.now
        search.now.limits.split goal.now (Opens attempted)) }
{
    if !search.theory.is_hidden(goal.left.sort()) {
        return Ok(Deed::Opens { attempted });
    }
    match case_term(search.theory, search.limits.split, goal) {
        None => Ok(Deed::Opens { attempted }),
        Some(term) => {
            let term = term.share()?;
            Ok(Deed::Cases { attempted, term })
        }
    }
}

// There is no account where normalising ends the search.
fn none_unless_memory(stop: &Stop) -> Result<Option<Account>, AllocError>
    ensures none { IfOk result (λ o. plain_account_if o ≡ None) }
    ensures stopped { OnOk result (stop.now ≢ Memory) }
{
    match stop {
        Stop::Memory => Err(AllocError),
        _ => Ok(None),
    }
}

/// The search ends unless memory ran out. It is told whether this was in an attempt.
pub(crate) fn ends_unless_memory(fault: &RewriteFault, attempted: bool) -> Result<Deed, AllocError>
    ensures ends { IfOk result (λ d. plain_deed d ≡ Ends attempted) }
    ensures stopped { OnOk result (fault.now ≢ NoMemory) }
{
    match fault {
        RewriteFault::Memory => Err(AllocError),
        _ => Ok(Deed::Ends { attempted }),
    }
}

// What is done where it is known whether the sides join.
fn joined_deed(
    search: &Search<'_>,
    reducer: &mut Reducer<'_>,
    lemmas: &Lemmas,
    goal: &Goal,
    joined: Option<Vec<HypothesisUse>>,
    budget: u64,
) -> Result<Deed, AllocError>
    ensures exact { (E : List TheGoal)
        → reducer.old ≡ reducing search.now.theory.now E goal.now.conds
        → lemmas.now ≡ hidden_lemmas search.now.theory.now 0 E
        → IfOk result (λ d. plain_deed d ≡ join_deed_trying search.now.theory.now
        search.now.gamma.now E goal.now (option_map (λ v. plain_uses v.items) joined) budget) }
    ensures same { reducer.new ≡ reducer.old }
{
    match joined {
        None => pass_deed(search, reducer, lemmas, goal, budget),
        Some(uses) => {
            let mut hypotheses = Vec::new(search.alloc);
            push_numbers(&mut hypotheses, uses.as_slice())?;
            Ok(Deed::Joins { hypotheses })
        }
    }
}

// What is done where they do not.
fn pass_deed(
    search: &Search<'_>,
    reducer: &mut Reducer<'_>,
    lemmas: &Lemmas,
    goal: &Goal,
    budget: u64,
) -> Result<Deed, AllocError>
    ensures exact { (E : List TheGoal)
        → reducer.old ≡ reducing search.now.theory.now E goal.now.conds
        → lemmas.now ≡ hidden_lemmas search.now.theory.now 0 E
        → IfOk result (λ d. plain_deed d ≡ join_deed_trying search.now.theory.now
        search.now.gamma.now E goal.now None budget) }
    ensures same { reducer.new ≡ reducer.old }
{
    let passing = Passing {
        alloc: search.alloc,
        gamma: search.gamma,
        lemmas,
    };
    let mut budget = budget;
    match passing.pass(reducer, &goal.left, &mut budget) {
        Err(fault) => ends_unless_memory(&fault, false),
        Ok(left) => match passing.pass(reducer, &goal.right, &mut budget) {
            Err(fault) => ends_unless_memory(&fault, false),
            Ok(right) => swept_deed(search.alloc, left.uses.as_slice(), right.uses.as_slice()),
        },
    }
}

// By what the lemma pass has used on the left side and on the right.
fn swept_deed(
    alloc: Global,
    left: &[HypothesisUse],
    right: &[HypothesisUse],
) -> Result<Deed, AllocError>
    ensures { IfOk result (λ d. plain_deed d ≡ passes_or (numbers_of (plain_uses left.now)
        ++ numbers_of (plain_uses right.now)) (Opens false)) }
{
    let mut hypotheses = Vec::new(alloc);
    push_numbers(&mut hypotheses, left)?;
    push_numbers(&mut hypotheses, right)?;
    if hypotheses.is_empty() {
        return Ok(Deed::Opens { attempted: false });
    }
    Ok(Deed::Passes { hypotheses })
}
