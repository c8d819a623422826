//! The steps of uses: what becomes of a goal, and uses along layers.
ghost use Rattle.std.specs.Prelude.{◌≡◌, ◌==◌, ◌<◌, ◌≤◌, ◌∷◌, List, map, take, length, nat_lt};
ghost use Rattle.std.specs.Prelude.{if◌then◌else◌, IfOk, OnOk, Some, None};
ghost use Rattle.std.proofs.Common.{Global};
ghost use Rattle.std.specs.declared.rc.Rc.{Rc};
ghost use Rattle.circ_uses.specs.declared.uses.Layer.{Layer};
ghost use Rattle.std.specs.List.{slice_get};
ghost use Rattle.std.specs.Option.{IfSome, option_map_or};
ghost use Rattle.circ_theory.specs.Fresh.{fresh_in};
ghost use Rattle.circ_proof.specs.Plain.{plain_chain};
ghost use Rattle.circ_proof.specs.Link.{resolved_chain};
ghost use Rattle.circ_entry.specs.Entries.{derivative_at};
ghost use Rattle.circ_expansion.specs.Followed.{Open, Simplified, Reduced_by, Derived};
ghost use Rattle.circ_book.specs.Histories.{histories_of, history_at};
ghost use Rattle.circ_expansion.specs.Pieces.{no_piece};
ghost use Rattle.circ_expansion.specs.Expand.{basis_in, child, extended, simplified_call, By_entry};
ghost use Rattle.circ_expansion.specs.Machine.{all_uses, along_step, In_row};
ghost use Rattle.circ_expansion.specs.Machine.{Begin_use, Enter_use, Put_between};
ghost use Rattle.circ_uses.specs.Valuations.{by_of, valued_by};
ghost use Rattle.circ_uses.specs.Fronts.{front, IsCut};
ghost use Rattle.circ_uses.specs.Uses.{held_by, layers_of};
ghost use Rattle.circ_tasks.specs.Tasks.{call_of, basis_of, target_of, background_in, jobs_of};
ghost use Rattle.circ_written.specs.Values.{values_of};
ghost use Rattle.circ_tasks.specs.Tasks.{Steps, stepped, why_at, simpler_use, node_history};
ghost use Rattle.circ_tasks.specs.Tasks.{begun_sides};
ghost use Rattle.circ_tasks.specs.Tasks.{earlier_history, goal_stepped, holes_before};

use circ_book::{Node, What};
use circ_link_steps::begin_sides;
use circ_place_steps::place_step;
use circ_proof::{Chain, Why};
use circ_tasks::{Basis, Call, Frame, Halt, Reason, Simpler, Target, Task, Work};
use circ_term::Term;
use circ_theory::{Goal, above, above_pairs};
use circ_uses::{By, Cut, Front, Held, Layer, Over};
use std::alloc::AllocError;
use std::rc::Rc;

// A use is begun by what its goal becomes, or by its first layer.
pub(crate) fn use_step<'a>(
    frame: &Frame<'a, '_>,
    work: &mut Work<'a>,
    call: Rc<Call>,
) -> Result<(), Halt>
    ensures { Steps frame.now (stepped frame.now (Enter_use (call_of frame.now call.value))
        work.old) work.new result }
{
    let held: &Call = &call;
    held.whole.known();
    let Some(layers) = &held.along else {
        return goal_step(frame, work, call);
    };
    let cut = layers.cut()?;
    along_step(frame, work, call, cut)
}

// What becomes of the goal is written.
fn goal_step<'a>(frame: &Frame<'a, '_>, work: &mut Work<'a>, call: Rc<Call>) -> Result<(), Halt>
    ensures { Steps frame.now (goal_stepped frame.now call.value
        (target_of frame.now call.value.goal).history work.old) work.new result }
{
    let target = call.goal;
    match target.node {
        Some(number) => number_step(frame, work, call, number),
        None => Err(Halt::Stopped),
    }
}

// The same by the number of its node.
fn number_step<'a>(
    frame: &Frame<'a, '_>,
    work: &mut Work<'a>,
    call: Rc<Call>,
    number: u32,
) -> Result<(), Halt>
    ensures { Steps frame.now (goal_stepped frame.now call.value
        (history_at frame.now.table.now frame.now.book.now.nodes.items number) work.old)
        work.new result }
{
    let nodes = frame.book.nodes.as_slice();
    match nodes.get(number as usize) {
        Some(node) => node_step(frame, work, call, number, node),
        None => Err(Halt::Stopped),
    }
}

fn node_step<'a>(
    frame: &Frame<'a, '_>,
    work: &mut Work<'a>,
    call: Rc<Call>,
    number: u32,
    node: &Node<'a>,
) -> Result<(), Halt>
    requires { number < length frame.now.book.now.nodes.items }
    ensures { Steps frame.now (goal_stepped frame.now call.value
        (node_history frame.now number node.now) work.old) work.new result }
{
    match &node.what {
        What::Simplified { chain, next } => {
            simplified_step(
                frame,
                work,
                call,
                &node.goal,
                *chain,
                earlier(number, *next),
            )
        }
        What::Reduced { why } => reduced_step(frame, work, call, &node.goal, *why),
        What::Derived { children } => {
            derived_step(frame, work, &call, &node.goal, children.as_slice(), number)
        }
    }
}

// No assumption of the proof stands yet.
fn full_basis(frame: &Frame<'_, '_>, call: &Call) -> Result<Rc<Basis>, AllocError>
    ensures { IfOk result (λ b. basis_of frame.now b.value ≡ basis_in
        (all_uses (background_in frame.now)) (background_in frame.now)
        (call_of frame.now call.now)) }
{
    let basis = Basis {
        block: Some(call.goal.block),
        raised: call.assumptions,
        assumptions: Vec::new(frame.alloc),
    };
    Ok(Rc::new(frame.alloc, basis)?)
}

// The use of the goal to which this one is simplified stands between the links of both sides.
fn simplified_step<'a>(
    frame: &Frame<'a, '_>,
    work: &mut Work<'a>,
    call: Rc<Call>,
    goal: &Goal,
    chain: &'a Chain,
    next: Option<u32>,
) -> Result<(), Halt>
    ensures { Steps frame.now (goal_stepped frame.now call.value (Simplified goal.now
        (resolved_chain frame.now.table.now (plain_chain chain.now))
        (option_map_or (history_at frame.now.table.now frame.now.book.now.nodes.items)
        next Open)) work.old) work.new result }
{
    let held: &Call = &call;
    let basis = full_basis(frame, held)?;
    let own: &Basis = &basis;
    let left = match (&*frame)
        .side(own)
        .led_all(chain.left.as_slice(), &goal.left)
    {
        Ok(left) => left,
        Err(fault) => return Err(Halt::Past(fault)),
    };
    push_simpler(frame, work, &call, left, next)?;
    begin_goal(frame, work, call, basis, chain, goal)?;
    Ok(())
}

// The use of the goal of this node with this left side is next, and stands between two rows.
fn push_simpler<'a>(
    frame: &Frame<'a, '_>,
    work: &mut Work<'a>,
    call: &Rc<Call>,
    left: Term,
    next: Option<u32>,
) -> Result<(), AllocError>
    ensures tasks { OnOk result (jobs_of frame.now work.new ≡ Begin_use (simplified_call
        (all_uses (background_in frame.now)) (background_in frame.now)
        (call_of frame.now call.now.value) left
        (option_map_or (history_at frame.now.table.now frame.now.book.now.nodes.items)
        next Open)) ∷ Put_between ∷ jobs_of frame.now work.old) }
    ensures values { work.new.values ≡ work.old.values }
    ensures left { work.new.left ≡ work.old.left }
{
    work.tasks.push(Task::PutBetween)?;
    let call = call.clone()?;
    work.tasks
        .push(Task::BeginSimpler(Simpler { call, left, next }))?;
    Ok(())
}

// The links on both sides of a goal are next.
fn begin_goal<'a>(
    frame: &Frame<'a, '_>,
    work: &mut Work<'a>,
    call: Rc<Call>,
    basis: Rc<Basis>,
    chain: &'a Chain,
    goal: &Goal,
) -> Result<(), AllocError>
    ensures tasks { OnOk result (jobs_of frame.now work.new ≡
        begun_sides frame.now call.value basis.value chain.now goal.now.left goal.now.right
        (jobs_of frame.now work.old)) }
    ensures values { OnOk result (values_of work.new.values ≡
        In_row no_piece ∷ values_of work.old.values) }
    ensures left { work.new.left ≡ work.old.left }
{
    let left = goal.left.share()?;
    let right = goal.right.share()?;
    begin_sides(frame, work, call, basis, chain, left, right)?;
    Ok(())
}

fn reduced_step<'a>(
    frame: &Frame<'a, '_>,
    work: &mut Work<'a>,
    call: Rc<Call>,
    goal: &Goal,
    why: &'a Why,
) -> Result<(), Halt>
    ensures { Steps frame.now (goal_stepped frame.now call.value
        (Reduced_by goal.now (why_at frame.now why.now)) work.old) work.new result }
{
    let held: &Call = &call;
    let basis = full_basis(frame, held)?;
    let left = goal.left.share()?;
    let right = goal.right.share()?;
    work.tasks.push(Task::GiveReason(Reason {
        call,
        basis,
        why,
        left,
        right,
    }))?;
    Ok(())
}

// The use of the child for the first entry, with the rest of the experiment.
fn derived_step<'a>(
    frame: &Frame<'a, '_>,
    work: &mut Work<'a>,
    call: &Call,
    goal: &Goal,
    children: &[u32],
    number: u32,
) -> Result<(), Halt>
    requires { number < length frame.now.book.now.nodes.items }
    ensures { Steps frame.now (goal_stepped frame.now call.now (Derived goal.now
        (histories_of (map (earlier_history frame.now number) children.now))) work.old)
        work.new result }
{
    let Some(entry) = call.entries.cut()? else {
        return Err(Halt::Stopped);
    };
    let last: &Held = &entry.last;
    let by: &By = &call.by;
    let child = child(frame, children, goal.left.sort(), last.number, number);
    let by = extended(frame, by, goal, last)?;
    let mut next = call.share()?;
    next.goal = Target {
        block: call.goal.block,
        node: child,
    };
    next.by = by;
    next.entries = entry.rest;
    next.along = None;
    let next = Rc::new(frame.alloc, next)?;
    work.tasks.push(Task::BeginUse(next))?;
    Ok(())
}

// The node for the derivative of this number, if it is one of the theory's.
fn child(
    frame: &Frame<'_, '_>,
    children: &[u32],
    sort: u32,
    derivative: u32,
    number: u32,
) -> Option<u32>
    requires { number < length frame.now.book.now.nodes.items }
    ensures { option_map_or (history_at frame.now.table.now frame.now.book.now.nodes.items)
        result Open ≡ child frame.now.theory.now.derivatives sort
        (histories_of (map (earlier_history frame.now number) children.now)) derivative }
{
    if derivative >= frame.theory.derivative_count() {
        return None;
    }
    let place = before(frame, sort, derivative);
    match children.get(place) {
        Some(child) => earlier(number, *child),
        None => None,
    }
}

// How many derivatives before this one have a hole of the sort.
fn before(frame: &Frame<'_, '_>, sort: u32, derivative: u32) -> usize
    requires { derivative ≤ length frame.now.theory.now.derivatives }
    ensures { result ≡ holes_before sort (take derivative frame.now.theory.now.derivatives) }
{
    let mut count = 0;
    for number in 0..derivative {
        count += holes(frame, number, sort);
    }
    count
}

// One, if the derivative of this number has a hole of the sort.
fn holes(frame: &Frame<'_, '_>, number: u32, sort: u32) -> usize
    ensures holes { IfSome (slice_get frame.now.theory.now.derivatives number) (λ d.
        result ≡ (if d.hole == sort then 1 else 0)) }
    ensures few { result ≤ 1 }
{
    if frame.theory.takes(number, sort) {
        return 1;
    }
    0
}

// The substitution with the parameters of an entry, as the goal's children name them.
fn extended(frame: &Frame<'_, '_>, by: &By, goal: &Goal, entry: &Held) -> Result<Rc<By>, AllocError>
    ensures { IfOk result (λ b. by_of b.value ≡ extended
        (derivative_at frame.now.theory.now entry.now.number) (fresh_in goal.now) (by_of by.now)
        (valued_by entry.now.params.value)) }
{
    let over = Over {
        body: body_of(frame, entry.number)?,
        first: fresh(goal),
        params: entry.params.clone()?,
    };
    let next = by.with(frame.alloc, over)?;
    Ok(Rc::new(frame.alloc, next)?)
}

// The body of a derivative, or a variable where there is no such derivative.
fn body_of(frame: &Frame<'_, '_>, derivative: u32) -> Result<Term, AllocError>
    ensures { IfOk result (λ t. t ≡ (derivative_at frame.now.theory.now derivative).body) }
{
    let Some(body) = frame.theory.derivative(derivative) else {
        return Ok(Term::var(0, 0));
    };
    let copy = body.share()?;
    Ok(copy)
}

// A use along layers: of the goal itself, with an entry before the experiment, or at a place.
fn along_step<'a>(
    frame: &Frame<'a, '_>,
    work: &mut Work<'a>,
    call: Rc<Call>,
    cut: Option<Cut<Layer>>,
) -> Result<(), Halt>
    ensures { (xs : List (Rc Layer Global)) → IsCut xs cut → Steps frame.now (along_step
        (all_uses (background_in frame.now)) (background_in frame.now)
        (call_of frame.now call.value) (layers_of frame.now.theory.now xs)
        (jobs_of frame.now work.old) (values_of work.old.values) work.old.left) work.new result }
{
    let old: &Call = &call;
    let Some(cut) = cut else {
        let mut next = old.share()?;
        next.along = None;
        let next = Rc::new(frame.alloc, next)?;
        work.tasks.push(Task::BeginUse(next))?;
        return Ok(());
    };
    let last: &Layer = &cut.last;
    match last {
        Layer::Entry { held } => entry_step(frame, work, old, held, &cut.rest),
        Layer::Place { term, arg } => place_step(frame, work, call, term, *arg, &cut.rest),
    }
}

// The same use with an entry before the experiment.
fn entry_step<'a>(
    frame: &Frame<'a, '_>,
    work: &mut Work<'a>,
    call: &Call,
    held: &Rc<Held>,
    rest: &Front<Layer>,
) -> Result<(), Halt>
    ensures { Steps frame.now (along_step (all_uses (background_in frame.now))
        (background_in frame.now) (call_of frame.now call.now)
        (By_entry (held_by frame.now.theory.now held.now.value) ∷
        layers_of frame.now.theory.now (front rest.now)) (jobs_of frame.now work.old)
        (values_of work.old.values) work.old.left) work.new result }
{
    let entries = call.entries.with(frame.alloc, held.clone()?)?;
    let layers = rest.share()?;
    let mut next = call.share()?;
    next.entries = entries;
    next.along = Some(layers);
    let next = Rc::new(frame.alloc, next)?;
    work.tasks.push(Task::BeginUse(next))?;
    Ok(())
}

// A use whose whole term has the left side that the goal is simplified to in it.
pub(crate) fn enter_simpler<'a>(
    frame: &Frame<'a, '_>,
    work: &mut Work<'a>,
    simpler: Simpler,
) -> Result<(), Halt>
    ensures { Steps frame.now (stepped frame.now (Enter_use (simpler_use frame.now simpler))
        work.old) work.new result }
{
    let call: &Call = &simpler.call;
    let whole = match frame.around(call, &simpler.left) {
        Ok(whole) => whole,
        Err(fault) => return Err(Halt::Past(fault)),
    };
    let mut next = call.share()?;
    next.whole = whole;
    next.along = None;
    next.goal = Target {
        block: call.goal.block,
        node: simpler.next,
    };
    let next = Rc::new(frame.alloc, next)?;
    use_step(frame, work, next)
}

// The node, if it is before this one. Nodes name those before them.
fn earlier(number: u32, node: u32) -> Option<u32>
    ensures { result ≡ (if nat_lt node number then Some node else None) }
{
    if node < number {
        return Some(node);
    }
    None
}

// One above the greatest variable number of a goal.
fn fresh(goal: &Goal) -> u64
    ensures { result ≡ fresh_in goal.now }
{
    let sides = above(&goal.left).max(above(&goal.right));
    sides.max(above_pairs(goal.conds.as_slice()))
}
