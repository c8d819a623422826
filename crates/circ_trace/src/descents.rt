//! Where the goals that wait come from.
ghost use Rattle.std.specs.Prelude.{◌≡◌, ◌≤◌, ◌++◌, length, map, IfOk, OnOk};
ghost use Rattle.circ_plain_search.specs.Search.{constants_of};
ghost use Rattle.circ_turn.specs.Standing.{standing};
ghost use Rattle.circ_trace.specs.Account.{plain_account, plain_account_if};
ghost use Rattle.circ_trace.specs.Descents.{after_turn, after_account, case_row, derived_row};
ghost use Rattle.circ_trace.specs.Descents.{first_descent, first_row, given_row, with_derived};

use crate::account::{Account, Deed};
use crate::descent::Descent;
use circ_theory::{Goal, Theory};
use circ_turn::State;
use std::alloc::{AllocError, Global};
use std::collections::VecDeque;

/// Where the goal in hand comes from, by where those that wait come from.
pub(crate) fn first_descent(waiting: &VecDeque<Descent>) -> Descent
    ensures { result ≡ first_descent waiting.now.items }
{
    match waiting.front() {
        Some(descent) => *descent,
        None => Descent::Given,
    }
}

/// All of these goals are given.
pub(crate) fn given(alloc: Global, goals: &[Goal]) -> Result<VecDeque<Descent>, AllocError>
    ensures { IfOk result (λ q. q.items ≡ given_row goals.now) }
{
    let mut row = VecDeque::new(alloc);
    for _goal in goals {
        row.push_back(Descent::Given)?;
    }
    Ok(row)
}

/// After the turn that this account is of. Where no goal was left, the next block begins.
pub(crate) fn follow(
    alloc: Global,
    theory: &Theory,
    waiting: &mut VecDeque<Descent>,
    state: &State<'_>,
    account: &Option<Account>,
) -> Result<(), AllocError>
    requires { state.now.taken ≤ 100000 }
    ensures { OnOk result (waiting.new.items ≡ after_turn theory.now waiting.old.items
        (standing state.now) (plain_account_if account.now)) }
{
    match account {
        None => {
            *waiting = next_given(alloc, state.later)?;
            Ok(())
        }
        Some(account) => follow_account(theory, waiting, state.taken + 1, account),
    }
}

// The goals of the first of these blocks are given.
fn next_given(alloc: Global, later: &[Vec<Goal>]) -> Result<VecDeque<Descent>, AllocError>
    ensures { IfOk result (λ q. q.items ≡ first_row (map (λ b. b.items) later.now)) }
{
    match later.split_first() {
        None => Ok(VecDeque::new(alloc)),
        Some((goals, _)) => given(alloc, goals.as_slice()),
    }
}

// After the turn of this goal, by what was done with it.
fn follow_account(
    theory: &Theory,
    waiting: &mut VecDeque<Descent>,
    goal: u64,
    account: &Account,
) -> Result<(), AllocError>
    ensures { OnOk result (waiting.new.items ≡ after_account theory.now waiting.old.items goal
        (plain_account account.now)) }
{
    match &account.deed {
        Deed::Passes { .. } => Ok(()),
        Deed::Ends { .. } => Ok(()),
        Deed::Joins { .. } => {
            waiting.pop_front();
            Ok(())
        }
        Deed::Closes { .. } => {
            waiting.pop_front();
            Ok(())
        }
        Deed::Cases { term, .. } => {
            waiting.pop_front();
            put_cases(theory, waiting, goal, term.sort())
        }
        Deed::Opens { .. } => {
            waiting.pop_front();
            push_derived(theory, waiting, goal, account.left.sort())
        }
    }
}

// The cases of a goal come before the others.
fn put_cases(
    theory: &Theory,
    waiting: &mut VecDeque<Descent>,
    goal: u64,
    sort: u32,
) -> Result<(), AllocError>
    ensures { OnOk result (waiting.new.items
        ≡ case_row goal (length (constants_of theory.now sort)) waiting.old.items) }
{
    let mut number = case_count(theory, sort);
    while number > 0 {
        waiting.push_front(Descent::Case { goal, number })?;
        number -= 1;
    }
    Ok(())
}

// How many constants the sort's case list has.
fn case_count(theory: &Theory, sort: u32) -> u64
    ensures { result ≡ length (constants_of theory.now sort) }
{
    match theory.cases(sort) {
        Some(constants) => constants.len() as u64,
        None => 0,
    }
}

// What is derived of a goal, where it is hidden, comes behind the others.
fn push_derived(
    theory: &Theory,
    waiting: &mut VecDeque<Descent>,
    goal: u64,
    sort: u32,
) -> Result<(), AllocError>
    ensures { OnOk result (waiting.new.items
        ≡ with_derived theory.now goal sort waiting.old.items) }
{
    if theory.is_hidden(sort) {
        return push_derivatives(theory, waiting, goal, sort);
    }
    Ok(())
}

// One for each derivative whose hole has the sort.
fn push_derivatives(
    theory: &Theory,
    waiting: &mut VecDeque<Descent>,
    goal: u64,
    sort: u32,
) -> Result<(), AllocError>
    ensures { OnOk result (waiting.new.items ≡ waiting.old.items
        ++ derived_row goal sort 0 theory.now.derivatives) }
{
    for derivative in 0..theory.derivative_count() {
        if theory.takes(derivative, sort) {
            waiting.push_back(Descent::Derived { goal, derivative })?;
        }
    }
    Ok(())
}
