//! Tasks are worked off.
ghost use Rattle.std.specs.Prelude.{◌≡◌, ◌<◌, ◌≤◌, ◌⊎◌, [], IfErr, OnOk};
ghost use Rattle.circ_expansion.specs.Expand.{Yields};
ghost use Rattle.circ_expansion.specs.Machine.{Begin_use, Empty_row, Put_behind, Put_between, Add_part};
ghost use Rattle.circ_expansion.specs.Machine.{End_split};
ghost use Rattle.circ_written.specs.Values.{values_of};
ghost use Rattle.circ_tasks.specs.Tasks.{Steps, StepsAlike, Halts, call_of, stepped, simpler_use};
ghost use Rattle.circ_tasks.specs.Tasks.{next_stepped, left_of};
ghost use Rattle.circ_tasks.specs.declared.calls.Frame.{Frame as TheFrame};

use crate::goal_steps::{enter_simpler, use_step};
use circ_link_steps::{begin_split, links_step, reason_step, reasons_step};
use circ_place_steps::{changes_step, first_step};
use circ_tasks::{Call, Frame, Halt, Simpler, Task, Work};
use circ_term::Term;
use circ_theory::Way;
use std::rc::Rc;

// One task is done, or other tasks are put in its place.
fn step<'a>(frame: &Frame<'a, '_>, work: &mut Work<'a>, task: Task<'a>) -> Result<(), Halt>
    ensures { StepsAlike frame.now (next_stepped frame.now task.entry work.old) work.new result }
{
    match task {
        Task::Links(links) => links_step(frame, work, links),
        Task::GiveReason(reason) => reason_step(frame, work, reason),
        Task::GiveReasons(reasons) => reasons_step(frame, work, reasons),
        Task::BeginUse(call) => begin_use(work, call),
        Task::EnterUse(call) => use_step(frame, work, call),
        Task::BeginSimpler(simpler) => begin_simpler(work, simpler),
        Task::EnterSimpler(simpler) => enter_simpler(frame, work, simpler),
        Task::FirstChange { changes, by } => first_step(frame, work, changes, &by),
        Task::NextChange { changes, here } => changes_step(frame, work, changes, here),
        Task::EmptyRow => add_empty(work),
        Task::PutBehind(way) => put_behind(work, way),
        Task::PutBetween => put_between(work),
        Task::AddPart => add_part(work),
        Task::Split(reasons) => begin_split(frame, work, reasons),
        Task::EndSplit(term) => end_split(work, term),
    }
}

// Tasks are done until a unit is begun, or none is left.
fn until_counted<'a>(frame: &Frame<'a, '_>, work: &mut Work<'a>) -> Result<(), Halt>
    ensures same { OnOk result (left_of frame.now work.old ≡ left_of frame.now work.new) }
    ensures less { OnOk result ((work.new.left < work.old.left) ⊎
        (work.new.left ≤ work.old.left) × (work.new.tasks.items ≡ [])) }
    ensures halts { IfErr result (Halts (left_of frame.now work.old)) }
{
    let units = work.left;
    while let Some(task) = work.tasks.pop() {
        match step(frame, work, task) {
            Ok(()) => (),
            Err(halt) => return Err(halt),
        }
        if work.left < units {
            return Ok(());
        }
    }
    Ok(())
}

// All tasks are done.
pub(crate) fn run<'a>(frame: &Frame<'a, '_>, work: &mut Work<'a>) -> Result<(), Halt>
    ensures done { OnOk result (left_of frame.now work.old ≡
        Yields (values_of work.new.values) work.new.left) }
    ensures halts { IfErr result (Halts (left_of frame.now work.old)) }
{
    while !work.tasks.is_empty() {
        match until_counted(frame, work) {
            Ok(()) => (),
            Err(halt) => return Err(halt),
        }
    }
    Ok(())
}

// A unit is begun, and the use is next.
fn begin_use(work: &mut Work<'_>, call: Rc<Call>) -> Result<(), Halt>
    ensures { (fr : TheFrame) → Steps fr (stepped fr (Begin_use (call_of fr call.value)) work.old) work.new result }
{
    if work.left == 0 {
        return Err(Halt::Long);
    }
    work.left -= 1;
    work.tasks.push(Task::EnterUse(call))?;
    Ok(())
}

// The same of the goal that another is simplified to.
fn begin_simpler(work: &mut Work<'_>, simpler: Simpler) -> Result<(), Halt>
    ensures { (fr : TheFrame) → Steps fr (stepped fr (Begin_use (simpler_use fr simpler)) work.old) work.new result }
{
    if work.left == 0 {
        return Err(Halt::Long);
    }
    work.left -= 1;
    work.tasks.push(Task::EnterSimpler(simpler))?;
    Ok(())
}

fn add_empty(work: &mut Work<'_>) -> Result<(), Halt>
    ensures { (fr : TheFrame) → Steps fr (stepped fr Empty_row work.old) work.new result }
{
    work.values.add_empty()?;
    Ok(())
}

fn put_behind(work: &mut Work<'_>, way: Way) -> Result<(), Halt>
    ensures { (fr : TheFrame) → Steps fr (stepped fr (Put_behind way) work.old) work.new result }
{
    if work.values.put_behind(way)? {
        return Ok(());
    }
    Err(Halt::Stopped)
}

fn put_between(work: &mut Work<'_>) -> Result<(), Halt>
    ensures { (fr : TheFrame) → Steps fr (stepped fr Put_between work.old) work.new result }
{
    if work.values.put_between()? {
        return Ok(());
    }
    Err(Halt::Stopped)
}

fn add_part(work: &mut Work<'_>) -> Result<(), Halt>
    ensures { (fr : TheFrame) → Steps fr (stepped fr Add_part work.old) work.new result }
{
    if work.values.add_part()? {
        return Ok(());
    }
    Err(Halt::Stopped)
}

fn end_split(work: &mut Work<'_>, term: Term) -> Result<(), Halt>
    ensures { (fr : TheFrame) → Steps fr (stepped fr (End_split term) work.old) work.new result }
{
    if work.values.end_split(term)? {
        return Ok(());
    }
    Err(Halt::Stopped)
}
