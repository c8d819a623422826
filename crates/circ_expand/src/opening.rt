//! The use with which the work begins, and all of the work.
ghost use Rattle.std.specs.Prelude.{◌≡◌, ◌≤◌, ◌∷◌, ◌++◌, ℕ, [], length, IfOk};
ghost use Rattle.circ_theory.specs.Experiment.{on};
ghost use Rattle.circ_theory.specs.Limits.{argument_limit};
ghost use Rattle.circ_theory.specs.Theory.{Theory as TheTheory};
ghost use Rattle.circ_entry.specs.Entries.{bare_entries, numbered_of, numbered_entries};
ghost use Rattle.circ_entry.specs.Plain.{plain_entry, plain_entries};
ghost use Rattle.circ_expansion.specs.Followed.{goal_in};
ghost use Rattle.circ_expansion.specs.Machine.{Begin_use};
ghost use Rattle.circ_written.specs.Rows.{unit_limit};
ghost use Rattle.circ_uses.specs.Uses.{held_by, entries_of};
ghost use Rattle.circ_written.specs.Values.{values_of};
ghost use Rattle.circ_tasks.specs.Tasks.{call_of, target_of, followed_of, opening_of, jobs_of};
ghost use Rattle.circ_tasks.specs.Tasks.{worked_in, WritesOut, AreFew, EndsIn};

use crate::running::run;
use circ_entry::Entry;
use circ_tasks::{Call, Frame, Halt, Target, Task, Work, nothing};
use circ_term::{Term, TermFault};
use circ_uses::{By, Front, Held, Valuation, experiment, parameters};
use circ_written::{Row, Values};
use std::alloc::{AllocError, Global};
use std::rc::Rc;

// The derivation for a goal and an experiment, as rows.
pub(crate) fn write_out(
    frame: &Frame<'_, '_>,
    goal: u32,
    entries: &[Entry],
) -> Result<Vec<Row>, Halt>
    requires { AreFew entries.now }
    ensures { WritesOut (worked_in frame.now goal
        (numbered_entries frame.now.theory.now (plain_entries entries.now)) unit_limit) result }
{
    let target = followed(frame, goal);
    let held = held_all(frame.alloc, entries)?;
    let whole = match ends_of(frame, target, held.as_slice()) {
        Ok(whole) => whole,
        Err(fault) => return Err(Halt::Past(fault)),
    };
    let call = opening(frame, target, &whole, held)?;
    let mut work = begun(frame, call)?;
    match run(frame, &mut work) {
        Ok(()) => (),
        Err(halt) => return Err(halt),
    }
    let Some(rows) = work.values.rows(frame.alloc)? else {
        return Err(Halt::Stopped);
    };
    Ok(rows)
}

// The experiment on the left side of the goal, where that on the right side is within the
// limits too.
fn ends_of(frame: &Frame<'_, '_>, target: Target, entries: &[Rc<Held>]) -> Result<Term, TermFault>
    ensures { EndsIn (bare_entries (entries_of frame.now.theory.now entries.now))
        (goal_in (target_of frame.now target).history).left
        (goal_in (target_of frame.now target).history).right result }
{
    match frame.goal(target) {
        Some(goal) => ends_on(frame, &goal.left, &goal.right, entries),
        None => {
            let nothing = Term::var(0, 0);
            ends_on(frame, &nothing, &nothing, entries)
        }
    }
}

// The experiment on the first term, where that on the other is within the limits too.
fn ends_on(
    frame: &Frame<'_, '_>,
    left: &Term,
    right: &Term,
    entries: &[Rc<Held>],
) -> Result<Term, TermFault>
    ensures { EndsIn (bare_entries (entries_of frame.now.theory.now entries.now)) left.now
        right.now result }
{
    let whole = match experiment(frame.alloc, frame.theory, entries, left) {
        Ok(whole) => whole,
        Err(fault) => return Err(fault),
    };
    let end = match experiment(frame.alloc, frame.theory, entries, right) {
        Ok(end) => end,
        Err(fault) => return Err(fault),
    };
    whole.known();
    end.known();
    Ok(whole)
}

// One task, and no values.
fn begun<'a>(frame: &Frame<'a, '_>, call: Rc<Call>) -> Result<Work<'a>, AllocError>
    ensures tasks { IfOk result (λ w. jobs_of frame.now w ≡
        Begin_use (call_of frame.now call.value) ∷ []) }
    ensures values { IfOk result (λ w. values_of w.values ≡ []) }
    ensures units { IfOk result (λ w. w.left ≡ unit_limit) }
{
    let mut tasks = Vec::new(frame.alloc);
    tasks.push(Task::BeginUse(call))?;
    Ok(Work {
        tasks,
        values: Values::new(frame.alloc),
        left: 100_000,
    })
}

// What becomes of the goal of this number.
fn followed(frame: &Frame<'_, '_>, goal: u32) -> Target
    ensures { target_of frame.now result ≡ followed_of frame.now goal }
{
    match frame.book.goals.get(goal as usize) {
        Some(followed) => Target {
            block: followed.block,
            node: Some(followed.node),
        },
        None => nothing(),
    }
}

// The use of the goal with the whole experiment.
fn opening(
    frame: &Frame<'_, '_>,
    goal: Target,
    whole: &Term,
    entries: Vec<Rc<Held>>,
) -> Result<Rc<Call>, AllocError>
    ensures { (n : ℕ) → target_of frame.now goal ≡ followed_of frame.now n →
        whole.now ≡ on (bare_entries (entries_of frame.now.theory.now entries.items))
        (goal_in (followed_of frame.now n).history).left → IfOk result (λ c.
        call_of frame.now c.value ≡ opening_of frame.now n
        (entries_of frame.now.theory.now entries.items)) }
{
    let by = By::of(frame.alloc, Valuation::new(frame.alloc))?;
    let call = Call {
        whole: whole.share()?,
        path: Rc::new(frame.alloc, Vec::new(frame.alloc))?,
        entries: Front::of(frame.alloc, entries)?,
        along: None,
        goal,
        by: Rc::new(frame.alloc, by)?,
        assumptions: 0,
    };
    Ok(Rc::new(frame.alloc, call)?)
}

// The entries with terms for their parameters, the first one last.
fn held_all(alloc: Global, entries: &[Entry]) -> Result<Vec<Rc<Held>>, AllocError>
    requires { AreFew entries.now }
    ensures { IfOk result (λ v. (th : TheTheory) → entries_of th v.items ≡
        numbered_entries th (plain_entries entries.now)) }
{
    let mut all = Vec::with_capacity(alloc, entries.len())?;
    for entry in entries {
        all.push(held(alloc, entry)?)?;
    }
    all.reverse();
    Ok(all)
}

fn held(alloc: Global, entry: &Entry) -> Result<Rc<Held>, AllocError>
    requires { length entry.now.params.items ≤ argument_limit }
    ensures { IfOk result (λ h. (th : TheTheory) → held_by th h.value ≡
        numbered_of th (plain_entry entry.now)) }
{
    let values = parameters(alloc, entry.params.as_slice())?;
    let held = Held {
        number: entry.derivative,
        params: Rc::new(alloc, values)?,
    };
    Ok(Rc::new(alloc, held)?)
}
