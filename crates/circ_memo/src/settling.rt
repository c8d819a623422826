//! Normalising interned terms, each by itself: its arguments from the left, then the term.
ghost use Rattle.std.specs.Prelude.{◌≡◌, ◌<◌, ◌^◌, ◌+◌, length};
ghost use Rattle.std.specs.Prelude.{IfOk, OnOk};
ghost use Rattle.circ_term.specs.Tree.{Tree};
ghost use Rattle.circ_nodes.specs.Named.{IsNamed};
ghost use Rattle.circ_due.specs.Chosen.{due_by};
ghost use Rattle.circ_memo.specs.Settling.{IsInside, IsPassing, Settles, Turns, FindsWay, Passes};
ghost use Rattle.circ_memo.specs.Settling.{HasPassed, IsTurnKept};
ghost use Rattle.circ_memo.specs.Keeping.{IsNumberKept, IsWayKept};
ghost use Rattle.circ_memo.specs.Working.{IsStore, HasWorked};

use crate::advancing::advance;
use crate::keeping::{keep_settled, keep_steps};
use crate::parts::{Bounds, Entry, Passing, Step, Stop, Turn, Way};
use crate::store::Store;
use circ_due::Means;
use circ_rewrite::RewriteFault;

// What is to be kept of a term, by replacements that make no term past the bounds. A term that comes
// again would come again until the budget is used up: that is seen by Brent's method, which compares
// each new term with one that came before, the latest whose count was a power of two.
#[cycle(settle)]
pub(crate) fn settle(
    means: &Means<'_>,
    store: &mut Store,
    number: u32,
    bounds: Bounds,
    budget: &mut u64,
) -> Result<Entry, Stop>
    requires store { IsStore means.now store.old }
    requires inside { IsInside store.old.nodes bounds number }
    requires fits { budget.old < 2 ^ 64 }
    ensures worked { HasWorked means.now store.old store.new budget.old budget.new }
    ensures settles { (t : Tree) → IsNamed store.old.nodes number t
        → Settles (due_by means.now) store.new.nodes bounds budget.old budget.new t result }
    ensures there { IfOk result (λ e. IsNumberKept store.new.entries number e.count) }
{
    let mut steps = Vec::new(store.alloc);
    let mut here = number;
    let mut mark = 0;
    loop {
        match turn(means, store, here, bounds, budget) {
            Err(stop) => {
                drop(steps);
                return Err(stop);
            }
            Ok(Turn::Settled(last)) => return Ok(keep_steps(store, steps, last)?),
            Ok(Turn::Stepped(step)) => {
                steps.push(step)?;
                here = step.next;
            }
        }
        if steps[mark].here == here {
            drop(steps);
            *budget = 0;
            return Err(Stop::Fault(RewriteFault::Spent));
        }
        mark = next_mark(mark, steps.len());
    }
}

// The step with whose term new ones are compared, when so many were made.
fn next_mark(mark: usize, made: usize) -> usize
    requires { mark < made }
    ensures { result < made }
{
    if made.is_power_of_two() {
        made - 1
    } else {
        mark
    }
}

// The normal form of a term, where it is kept, or one replacement at the root.
#[cycle(settle)]
fn turn(
    means: &Means<'_>,
    store: &mut Store,
    here: u32,
    bounds: Bounds,
    budget: &mut u64,
) -> Result<Turn, Stop>
    requires store { IsStore means.now store.old }
    requires inside { IsInside store.old.nodes bounds here }
    requires fits { budget.old < 2 ^ 64 }
    ensures worked { HasWorked means.now store.old store.new budget.old budget.new }
    ensures turns { (t : Tree) → IsNamed store.old.nodes here t
        → Turns (due_by means.now) store.new.nodes bounds budget.old budget.new t result }
    ensures kept { IfOk result (IsTurnKept store.new.nodes store.new.entries here) }
{
    if let Some(entry) = store.fitting(here, bounds, *budget) {
        *budget -= entry.count;
        return Ok(Turn::Settled(entry));
    }
    let way = match settle_args(means, store, here, bounds, budget) {
        Ok(way) => way,
        Err(stop) => return Err(stop),
    };
    match advance(means, &mut store.nodes, way.ready, bounds, budget) {
        Err(stop) => Err(stop),
        Ok(None) => Ok(Turn::Settled(keep_settled(store, here, way)?)),
        Ok(Some(next)) => Ok(Turn::Stepped(Step { here, way, next })),
    }
}

// The way of a term to normal arguments.
#[cycle(settle)]
fn settle_args(
    means: &Means<'_>,
    store: &mut Store,
    here: u32,
    bounds: Bounds,
    budget: &mut u64,
) -> Result<Way, Stop>
    requires store { IsStore means.now store.old }
    requires inside { IsInside store.old.nodes bounds here }
    requires fits { budget.old < 2 ^ 64 }
    ensures worked { HasWorked means.now store.old store.new budget.old budget.new }
    ensures finds { (t : Tree) → IsNamed store.old.nodes here t
        → FindsWay (due_by means.now) store.new.nodes bounds budget.old budget.new t result }
    ensures kept { (t : Tree) → IsNamed store.old.nodes here t → IfOk result
        (λ w. IsWayKept store.new.nodes store.new.entries here t w.ready w.count) }
{
    let Some(mut passing) = Passing::begin(store.alloc, &store.nodes, here)? else {
        return Ok(Way {
            ready: here,
            count: 0,
            big: 0,
            deep: 0,
        });
    };
    let len = passing.args.len();
    for place in 0..len {
        match settle_arg(means, store, &mut passing, place, bounds, budget) {
            Ok(()) => {}
            Err(stop) => {
                drop(passing);
                return Err(stop);
            }
        }
    }
    passing.finish(&mut store.nodes, here)
}

// Normalises the argument at a place, when those before it are normal.
#[cycle(settle)]
fn settle_arg(
    means: &Means<'_>,
    store: &mut Store,
    passing: &mut Passing,
    place: usize,
    bounds: Bounds,
    budget: &mut u64,
) -> Result<(), Stop>
    requires store { IsStore means.now store.old }
    requires passing { (t : Tree)
        × IsPassing (due_by means.now) store.old.nodes bounds t place passing.old }
    requires place { place < length passing.old.args.items }
    requires count { budget.old + passing.old.count < 2 ^ 64 }
    ensures worked { HasWorked means.now store.old store.new budget.old budget.new }
    ensures passes { (t : Tree)
        → IsPassing (due_by means.now) store.old.nodes bounds t place passing.old
        → Passes (due_by means.now) store.new.nodes bounds (budget.old + passing.old.count)
        budget.new t (place + 1) passing.new result }
    ensures kept { (t : Tree)
        → HasPassed store.old.nodes store.old.entries t place passing.old
        → OnOk result
        (HasPassed store.new.nodes store.new.entries t (place + 1) passing.new) }
    ensures len { length passing.new.args.items ≡ length passing.old.args.items }
{
    let arg = passing.arg(place);
    if store.is_still(arg) {
        return Ok(());
    }
    store.nodes.known_at(arg);
    let own = store.nodes.size(arg);
    let room = passing.room(bounds, own);
    match settle(means, store, arg, room, budget) {
        Ok(entry) => {
            passing.pass(&store.nodes, place, own, entry);
            Ok(())
        }
        Err(Stop::Outgrows(new)) => {
            Err(passing.outgrow(store.alloc, &mut store.nodes, place, new))
        }
        Err(Stop::Fault(fault)) => Err(Stop::Fault(fault)),
    }
}
