//! The steps of the occurrences in the last term of a certificate.
ghost use Rattle.std.specs.Prelude.{◌≡◌, ◌+◌, ◌∷◌, ◌++◌, [], List, IfOk, OnOk, unwrap_or};
ghost use Rattle.circ_term.specs.Tree.{Tree, at};
ghost use Rattle.circ_term.specs.Substitution.{instance};
ghost use Rattle.circ_expansion.specs.Pieces.{Pieces};
ghost use Rattle.circ_expansion.specs.Expand.{By_entry, entry_in, guard_case, places_on, Visible_case};
ghost use Rattle.circ_expansion.specs.Machine.{Value, In_row, Enter_use, Put_behind};
ghost use Rattle.circ_uses.specs.Guards.{plain_guard};
ghost use Rattle.circ_uses.specs.Uses.{held_by, layers_of, entries_of};
ghost use Rattle.circ_uses.specs.Valuations.{by_of};
ghost use Rattle.circ_written.specs.Values.{values_of};
ghost use Rattle.circ_theory.specs.declared.way.Way.TheVariants.{Forth};
ghost use Rattle.circ_tasks.specs.Tasks.{Steps, stepped, call_of, jobs_of};
ghost use Rattle.circ_tasks.specs.Tasks.{changes_job, layers_in, change_stepped, FindsCase, IsAlong};
ghost use Rattle.circ_tasks.specs.declared.calls.Frame.{Frame as TheFrame};

use circ_tasks::{Call, Changes, Frame, Halt, Task, Work};
use circ_term::Term;
use circ_theory::Way;
use circ_uses::{By, Front, Guard, Held, Layer, Occurrence, add_places, first, matching, put};
use std::alloc::{AllocError, Global};
use std::rc::Rc;

/// The next occurrence in this term. They end where the last row ends.
pub fn changes_step<'a>(
    frame: &Frame<'a, '_>,
    work: &mut Work<'a>,
    changes: Changes,
    here: Term,
) -> Result<(), Halt>
    ensures { Steps frame.now (stepped frame.now (changes_job frame.now changes here) work.old)
        work.new result }
{
    next_change(frame, work, &changes, here)
}

fn next_change<'a>(
    frame: &Frame<'a, '_>,
    work: &mut Work<'a>,
    changes: &Changes,
    here: Term,
) -> Result<(), Halt>
    ensures { Steps frame.now (stepped frame.now (changes_job frame.now changes.now here) work.old)
        work.new result }
{
    if !work.values.ends_in_row() {
        return Err(Halt::Stopped);
    }
    let Some(path) = changes.paths.get(changes.done) else {
        return Ok(());
    };
    change(frame, work, changes, path.as_slice(), here)
}

/// The first occurrence, in an instance that is made only where there is one.
pub fn first_step<'a>(
    frame: &Frame<'a, '_>,
    work: &mut Work<'a>,
    changes: Changes,
    by: &By,
) -> Result<(), Halt>
    ensures { Steps frame.now (stepped frame.now (changes_job frame.now changes
        (instance (by_of by.now) changes.last)) work.old) work.new result }
{
    first_change(frame, work, &changes, by)
}

fn first_change<'a>(
    frame: &Frame<'a, '_>,
    work: &mut Work<'a>,
    changes: &Changes,
    by: &By,
) -> Result<(), Halt>
    ensures { Steps frame.now (stepped frame.now (changes_job frame.now changes.now
        (instance (by_of by.now) changes.now.last)) work.old) work.new result }
{
    if !work.values.ends_in_row() {
        return Err(Halt::Stopped);
    }
    let Some(path) = changes.paths.get(changes.done) else {
        return Ok(());
    };
    match by.apply(frame.alloc, &changes.last) {
        Ok(here) => change(frame, work, changes, path.as_slice(), here),
        Err(fault) => Err(Halt::Past(fault)),
    }
}

// The occurrence at this path is changed, by a use of its own.
fn change<'a>(
    frame: &Frame<'a, '_>,
    work: &mut Work<'a>,
    changes: &Changes,
    path: &[u16],
    here: Term,
) -> Result<(), Halt>
    ensures { (v : Pieces) (us : List Value) → values_of work.old.values ≡ In_row v ∷ us →
        Steps frame.now (change_stepped frame.now changes.now path.now here v us work.old)
        work.new result }
{
    here.known();
    let call = &changes.call;
    let whole = match frame.whole_with(call, &here) {
        Ok(whole) => whole,
        Err(fault) => return Err(Halt::Past(fault)),
    };
    if work.left == 0 {
        return Err(Halt::Long);
    }
    work.left -= 1;
    let next = match put(frame.alloc, &here, path, &changes.new) {
        Ok(next) => next,
        Err(fault) => return Err(Halt::Past(fault)),
    };
    match frame.whole_with(call, &next) {
        Ok(_) => {}
        Err(fault) => return Err(Halt::Past(fault)),
    }
    let guard = guard(frame, &changes.last, path)?;
    let Some(call) = occurrence_call(frame, changes, whole, path, &here, guard)? else {
        return Err(Halt::Stopped);
    };
    push_change(frame, work, changes, next, call)?;
    Ok(())
}

// The use for an occurrence is next, and then the occurrences after it, in this term.
fn push_change<'a>(
    frame: &Frame<'a, '_>,
    work: &mut Work<'a>,
    changes: &Changes,
    here: Term,
    call: Rc<Call>,
) -> Result<(), AllocError>
    ensures tasks { OnOk result (jobs_of frame.now work.new ≡
        Enter_use (call_of frame.now call.value) ∷ Put_behind Forth ∷
        changes_job frame.now (record changes.now { done = changes.now.done + 1 }) here ∷
        jobs_of frame.now work.old) }
    ensures values { work.new.values ≡ work.old.values }
    ensures left { work.new.left ≡ work.old.left }
{
    let changes = changes.after()?;
    work.tasks.push(Task::NextChange { changes, here })?;
    work.tasks.push(Task::PutBehind(Way::Forth))?;
    work.tasks.push(Task::EnterUse(call))?;
    Ok(())
}

// By which case the occurrence at a path is guarded.
fn guard(frame: &Frame<'_, '_>, last: &Term, path: &[u16]) -> Result<Guard, AllocError>
    ensures { IfOk result (λ g. plain_guard path.now g ≡ guard_case frame.now.theory.now
        frame.now.gamma.now last.now path.now) }
{
    let occurrence = Occurrence {
        alloc: frame.alloc,
        theory: frame.theory,
        gamma: frame.gamma,
        term: last,
        path,
    };
    occurrence.guard()
}

// The use for the occurrence at the path.
fn occurrence_call(
    frame: &Frame<'_, '_>,
    changes: &Changes,
    whole: Term,
    path: &[u16],
    here: &Term,
    guard: Guard,
) -> Result<Option<Rc<Call>>, AllocError>
    ensures { IfOk result (FindsCase frame.now changes.now whole path.now here.now
        (plain_guard path.now guard)) }
{
    match guard {
        Guard::Visible { number, above } => {
            let above = first(path, above);
            visible_call(frame, changes, whole, here, number, above)
        }
        Guard::Place => {
            let layers = changes.layers.to_vec(frame.alloc)?;
            let along = with_places(frame, here, path, layers)?;
            with_layers(frame.alloc, &changes.call, whole, along)
        }
        Guard::Hidden { number, above } => {
            let above = first(path, above);
            let mut layers = changes.layers.to_vec(frame.alloc)?;
            add_entry_at(frame, number, here, above, &mut layers)?;
            let along = with_places(frame, here, above, layers)?;
            with_layers(frame.alloc, &changes.call, whole, along)
        }
        Guard::Nothing => Ok(None),
    }
}

// The use at an instance of a visible derivative, of whose entry alone the experiment is.
fn visible_call(
    frame: &Frame<'_, '_>,
    changes: &Changes,
    whole: Term,
    here: &Term,
    number: u32,
    above: &[u16],
) -> Result<Option<Rc<Call>>, AllocError>
    ensures { IfOk result (FindsCase frame.now changes.now whole above.now here.now
        (Visible_case number above.now)) }
{
    let list = entry_at(frame, number, here, above)?;
    let entries = Front::of(frame.alloc, list)?;
    let below = frame.below(&changes.call, above)?;
    let path = Rc::new(frame.alloc, below)?;
    let layers = changes.layers.share()?;
    let mut next = changes.call.share()?;
    next.whole = whole;
    next.path = path;
    next.entries = entries;
    next.along = Some(layers);
    Ok(Some(Rc::new(frame.alloc, next)?))
}

// The places on a path go before layers.
fn with_places(
    frame: &Frame<'_, '_>,
    here: &Term,
    path: &[u16],
    mut layers: Vec<Rc<Layer>>,
) -> Result<Front<Layer>, AllocError>
    ensures { IfOk result (λ f. layers_in frame.now f ≡ places_on here.now path.now ++
        layers_of frame.now.theory.now layers.items) }
{
    add_places(frame.alloc, here, path, &mut layers)?;
    Ok(Front::of(frame.alloc, layers)?)
}

// The entry of the derivative of this number whose instance stands at the path, alone.
fn entry_at(
    frame: &Frame<'_, '_>,
    number: u32,
    here: &Term,
    path: &[u16],
) -> Result<Vec<Rc<Held>>, AllocError>
    ensures { IfOk result (λ v. entries_of frame.now.theory.now v.items ≡ entry_in
        frame.now.theory.now number (unwrap_or (at here.now path.now) here.now) ∷ []) }
{
    let mut entries = Vec::new(frame.alloc);
    entries.push(entry_in(frame, number, here, path)?)?;
    Ok(entries)
}

// That entry goes before layers.
fn add_entry_at(
    frame: &Frame<'_, '_>,
    number: u32,
    here: &Term,
    path: &[u16],
    layers: &mut Vec<Rc<Layer>>,
) -> Result<(), AllocError>
    ensures { OnOk result (layers_of frame.now.theory.now layers.new.items ≡
        By_entry (entry_in frame.now.theory.now number
        (unwrap_or (at here.now path.now) here.now)) ∷
        layers_of frame.now.theory.now layers.old.items) }
{
    let held = entry_in(frame, number, here, path)?;
    let entry = Rc::new(frame.alloc, Layer::Entry { held })?;
    layers.push(entry)?;
    Ok(())
}

// The entry of the derivative of this number whose instance stands at the path.
fn entry_in(
    frame: &Frame<'_, '_>,
    number: u32,
    here: &Term,
    path: &[u16],
) -> Result<Rc<Held>, AllocError>
    ensures { IfOk result (λ h. held_by frame.now.theory.now h.value ≡ entry_in
        frame.now.theory.now number (unwrap_or (at here.now path.now) here.now)) }
{
    let term = here.at(path).unwrap_or(here);
    let nothing = Term::var(0, 0);
    let body = frame.theory.derivative(number).unwrap_or(&nothing);
    let values = matching(frame.alloc, body, term)?;
    let params = Rc::new(frame.alloc, values)?;
    Ok(Rc::new(frame.alloc, Held { number, params })?)
}

// The same use in another whole term along other layers.
fn with_layers(
    alloc: Global,
    call: &Call,
    whole: Term,
    along: Front<Layer>,
) -> Result<Option<Rc<Call>>, AllocError>
    ensures { IfOk result (IsAlong call.now whole along) }
{
    let mut next = call.share()?;
    next.whole = whole;
    next.along = Some(along);
    Ok(Some(Rc::new(alloc, next)?))
}
