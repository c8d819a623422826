//! The lines of a turn.
ghost use Rattle.std.specs.Prelude.{◌≡◌, ◌≤◌, ◌++◌, length, OnOk};
ghost use Rattle.circ_turn.specs.Standing.{standing};
ghost use Rattle.circ_trace.specs.Account.{plain_account, plain_account_if};
ghost use Rattle.circ_trace.specs.TurnText.{block_text, descent_text, heading, goal_line};
ghost use Rattle.circ_trace.specs.TurnText.{derived_line, opening_line, attempt_line, deed_line};
ghost use Rattle.circ_trace.specs.TurnText.{account_text};
ghost use Rattle.circ_trace.specs.TurnText.{done_text, turn_text};
ghost use Rattle.circ_conditional_search.specs.Coming.{IsSmallTrying};

use crate::account::{Account, Deed};
use crate::descent::Descent;
use crate::descents::first_descent;
use crate::lines::{
    put_cases, put_derivative, put_goal, put_hypotheses, put_side, put_split, put_uses,
};
use circ_status::push_numbered;
use circ_theory::{Goal, Theory};
use circ_turn::State;
use std::alloc::{AllocError, Global};
use std::collections::VecDeque;

/// Appends the lines of the turn that comes next, of which this is the account. The goals that wait
/// come from there.
pub(crate) fn put_turn(
    alloc: Global,
    theory: &Theory,
    waiting: &VecDeque<Descent>,
    state: &State<'_>,
    account: &Option<Account>,
    out: &mut Vec<u8>,
) -> Result<(), AllocError>
    requires { IsSmallTrying (standing state.now) }
    ensures { OnOk result (out.new.items ≡ out.old.items ++ turn_text theory.now waiting.now.items
        (standing state.now) (plain_account_if account.now)) }
{
    match state.queue.front() {
        None => put_done(alloc, theory, state, out),
        Some(goal) => put_goal_turn(alloc, theory, waiting, state, goal, account, out),
    }
}

// The lines of a turn on this goal.
fn put_goal_turn(
    alloc: Global,
    theory: &Theory,
    waiting: &VecDeque<Descent>,
    state: &State<'_>,
    goal: &Goal,
    account: &Option<Account>,
    out: &mut Vec<u8>,
) -> Result<(), AllocError>
    requires { IsSmallTrying (standing state.now) }
    ensures { OnOk result (out.new.items ≡ out.old.items ++ (heading theory.now waiting.now.items
        (standing state.now) ++ goal_line theory.now.signature goal.now
        ++ account_text theory.now (standing state.now) (plain_account_if account.now))) }
{
    put_heading(alloc, theory, waiting, state, out)?;
    put_taken(alloc, theory, goal, out)?;
    put_account(alloc, theory, state, account, out)
}

// Which goal it is, and how it came about.
fn put_heading(
    alloc: Global,
    theory: &Theory,
    waiting: &VecDeque<Descent>,
    state: &State<'_>,
    out: &mut Vec<u8>,
) -> Result<(), AllocError>
    requires finished { length state.now.finished.items ≤ 100000 }
    requires taken { state.now.taken ≤ 100000 }
    ensures { OnOk result (out.new.items ≡ out.old.items
        ++ heading theory.now waiting.now.items (standing state.now)) }
{
    put_block(state, out)?;
    push_numbered(out, b", goal ", state.taken + 1)?;
    put_descent(alloc, theory, first_descent(waiting), out)?;
    out.extend_from_slice(b"\n")
}

fn put_block(state: &State<'_>, out: &mut Vec<u8>) -> Result<(), AllocError>
    requires finished { length state.now.finished.items ≤ 100000 }
    ensures { OnOk result (out.new.items ≡ out.old.items ++ block_text (standing state.now)) }
{
    push_numbered(out, b"block ", state.finished.len() as u64 + 1)
}

fn put_descent(
    alloc: Global,
    theory: &Theory,
    descent: Descent,
    out: &mut Vec<u8>,
) -> Result<(), AllocError>
    ensures { OnOk result (out.new.items ≡ out.old.items ++ descent_text theory.now descent) }
{
    match descent {
        Descent::Given => Ok(()),
        Descent::Derived { goal, derivative } => {
            out.extend_from_slice(b" = ")?;
            put_derivative(alloc, theory, derivative, out)?;
            push_numbered(out, b" of goal ", goal)
        }
        Descent::Case { goal, number } => {
            push_numbered(out, b" = case ", number)?;
            push_numbered(out, b" of goal ", goal)
        }
    }
}

// The goal as it stands.
fn put_taken(
    alloc: Global,
    theory: &Theory,
    goal: &Goal,
    out: &mut Vec<u8>,
) -> Result<(), AllocError>
    ensures { OnOk result (out.new.items ≡ out.old.items
        ++ goal_line theory.now.signature goal.now) }
{
    out.extend_from_slice(b"goal: ")?;
    put_goal(alloc, theory, goal, out)?;
    out.extend_from_slice(b"\n")
}

// Its sides in normal form, and what is done with them.
fn put_account(
    alloc: Global,
    theory: &Theory,
    state: &State<'_>,
    account: &Option<Account>,
    out: &mut Vec<u8>,
) -> Result<(), AllocError>
    requires hyps { length state.now.hyps.all ≤ 100000 }
    ensures { OnOk result (out.new.items ≡ out.old.items ++ account_text theory.now
        (standing state.now) (plain_account_if account.now)) }
{
    let Some(account) = account else {
        return Ok(());
    };
    put_side(alloc, theory, b"left: ", &account.left, out)?;
    put_side(alloc, theory, b"right: ", &account.right, out)?;
    put_deed(alloc, theory, state, account, out)
}

fn put_deed(
    alloc: Global,
    theory: &Theory,
    state: &State<'_>,
    account: &Account,
    out: &mut Vec<u8>,
) -> Result<(), AllocError>
    requires hyps { length state.now.hyps.all ≤ 100000 }
    ensures { OnOk result (out.new.items ≡ out.old.items ++ deed_line theory.now
        (standing state.now) account.now.left account.now.right
        (plain_account account.now).deed) }
{
    match &account.deed {
        Deed::Joins { hypotheses } => put_uses(b"equal", b"joins by ", hypotheses.as_slice(), out),
        Deed::Passes { hypotheses } => {
            put_uses(b"lemma pass", b"lemma pass by ", hypotheses.as_slice(), out)
        }
        Deed::Closes { hypotheses } => {
            put_uses(b"closes", b"closes by ", hypotheses.as_slice(), out)
        }
        Deed::Cases { attempted, term } => {
            put_attempt(*attempted, out)?;
            put_cases(alloc, theory, term, out)
        }
        Deed::Opens { attempted } => {
            put_attempt(*attempted, out)?;
            put_opening(alloc, theory, state, account, out)
        }
        Deed::Ends { attempted } => put_attempt(*attempted, out),
    }
}

// An attempt was made that closed nothing.
fn put_attempt(attempted: bool, out: &mut Vec<u8>) -> Result<(), AllocError>
    ensures { OnOk result (out.new.items ≡ out.old.items ++ attempt_line attempted) }
{
    if attempted {
        return out.extend_from_slice(b"attempt ends\n");
    }
    Ok(())
}

// A hidden goal is derived, and a visible one is split.
fn put_opening(
    alloc: Global,
    theory: &Theory,
    state: &State<'_>,
    account: &Account,
    out: &mut Vec<u8>,
) -> Result<(), AllocError>
    requires hyps { length state.now.hyps.all ≤ 100000 }
    ensures { OnOk result (out.new.items ≡ out.old.items ++ opening_line theory.now
        (standing state.now) account.now.left account.now.right) }
{
    if theory.is_hidden(account.left.sort()) {
        return put_derived(state, out);
    }
    put_split(alloc, theory, &account.left, &account.right, out)
}

// The goal becomes the next hypothesis.
fn put_derived(state: &State<'_>, out: &mut Vec<u8>) -> Result<(), AllocError>
    requires hyps { length state.now.hyps.all ≤ 100000 }
    ensures { OnOk result (out.new.items ≡ out.old.items ++ derived_line (standing state.now)) }
{
    push_numbered(
        out,
        b"derive: hypothesis ",
        state.hyps.goals().len() as u64 + 1,
    )?;
    out.extend_from_slice(b"\n")
}

// The block is done. Where another comes its goals are hypotheses there.
fn put_done(
    alloc: Global,
    theory: &Theory,
    state: &State<'_>,
    out: &mut Vec<u8>,
) -> Result<(), AllocError>
    requires finished { length state.now.finished.items ≤ 100000 }
    ensures { OnOk result (out.new.items ≡ out.old.items
        ++ done_text theory.now.signature (standing state.now)) }
{
    put_block(state, out)?;
    out.extend_from_slice(b", done\n")?;
    match state.later.split_first() {
        None => Ok(()),
        Some(_) => {
            let before = state.hyps.earlier().len() as u64;
            put_hypotheses(alloc, theory, before, state.goals.as_slice(), out)
        }
    }
}
