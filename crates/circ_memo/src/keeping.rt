//! What is kept of the terms on the way to a normal form.
ghost use Rattle.std.specs.Prelude.{◌≡◌, ◌<◌, ◌^◌, ◌+◌, ℕ, length};
ghost use Rattle.std.specs.Prelude.{Option, IfOk};
ghost use Rattle.std.specs.List.{AllByRecursion};
ghost use Rattle.circ_term.specs.Tree.{Tree};
ghost use Rattle.circ_rewrite.specs.Replacement.{Replacement};
ghost use Rattle.circ_nodes.specs.Named.{IsNamed};
ghost use Rattle.circ_memo.specs.Keeping.{AreKept, IsForm, IsInBounds};
ghost use Rattle.circ_memo.specs.Keeping.{IsNumberKept, IsWayKept, Stays};
ghost use Rattle.circ_memo.specs.Settling.{IsWay, IsPassed, ArePassed, IsToKeep};
ghost use Rattle.circ_memo.specs.Settling.{IsStepIn, IsLinked, AreLinked, passed_count};

use crate::parts::{Bounds, Entry, Step, Way};
use crate::store::Store;
use std::alloc::AllocError;

// Keeps that nothing is due at the end of a term's way.
pub(crate) fn keep_settled(store: &mut Store, here: u32, way: Way) -> Result<Entry, AllocError>
    requires here { here < length store.old.nodes }
    requires ready { way.ready < length store.old.nodes }
    ensures nodes { store.new.nodes ≡ store.old.nodes }
    ensures kept { (due : Tree → Option Replacement) (b : Bounds) (t u : Tree)
        → AreKept due store.old.nodes store.old.entries
        → IsNamed store.old.nodes here t → IsWay due store.old.nodes b t way u
        → due u ≡ None
        → IsWayKept store.old.nodes store.old.entries here t way.ready way.count
        → AreKept due store.new.nodes store.new.entries
        × Stays store.old.entries store.new.entries }
    ensures there { IfOk result (λ e. IsNumberKept store.new.entries here e.count) }
    ensures form { (due : Tree → Option Replacement) (b : Bounds) (t u : Tree)
        → IsWay due store.old.nodes b t way u → due u ≡ None
        → IfOk result (IsToKeep due store.new.nodes b t) }
    ensures count { IfOk result (λ e. e.count ≡ way.count) }
{
    let ready = way.ready;
    let still = Entry {
        value: ready,
        count: 0,
        big: 0,
        deep: 0,
        ready,
        next: None,
    };
    let entry = Entry {
        count: way.count,
        big: way.big,
        deep: way.deep,
        ..still
    };
    store.keep(ready, still)?;
    store.keep(here, entry)?;
    Ok(entry)
}

// Keeps what follows for the terms on the way, the last of which has this entry. The answer is the
// entry of the first.
pub(crate) fn keep_steps(
    store: &mut Store,
    steps: Vec<Step>,
    last: Entry,
) -> Result<Entry, AllocError>
    requires there { AllByRecursion (IsStepIn store.old.nodes) steps.items }
    requires count { passed_count steps.items + last.count < 2 ^ 64 }
    ensures nodes { store.new.nodes ≡ store.old.nodes }
    ensures kept { (due : Tree → Option Replacement) (b : Bounds) (t u : Tree) (n m : ℕ)
        → AreKept due store.old.nodes store.old.entries
        → ArePassed due store.old.nodes b t steps.items u
        → IsForm due store.old.nodes u last → IsInBounds b last
        → AreLinked store.old.nodes store.old.entries n steps.items m
        → IsNumberKept store.old.entries m last.count
        → AreKept due store.new.nodes store.new.entries
        × Stays store.old.entries store.new.entries }
    ensures there { (due : Tree → Option Replacement) (b : Bounds) (t u : Tree) (n m : ℕ)
        → AreKept due store.old.nodes store.old.entries
        → ArePassed due store.old.nodes b t steps.items u
        → IsForm due store.old.nodes u last → IsInBounds b last
        → AreLinked store.old.nodes store.old.entries n steps.items m
        → IsNumberKept store.old.entries m last.count
        → IfOk result (λ e. IsNumberKept store.new.entries n e.count) }
    ensures form { (due : Tree → Option Replacement) (b : Bounds) (t u : Tree)
        → ArePassed due store.old.nodes b t steps.items u
        → IsForm due store.old.nodes u last → IsInBounds b last
        → IfOk result (IsToKeep due store.new.nodes b t) }
    ensures count { IfOk result (λ e. e.count ≡ passed_count steps.items + last.count) }
{
    let mut steps = steps;
    let mut last = last;
    while let Some(step) = steps.pop() {
        last = keep_step(store, step, last)?;
    }
    Ok(last)
}

// Keeps what follows for the terms of one step, from what is kept of the term that it leads to.
fn keep_step(store: &mut Store, step: Step, last: Entry) -> Result<Entry, AllocError>
    requires there { IsStepIn store.old.nodes step }
    requires count { step.way.count + 1 + last.count < 2 ^ 64 }
    ensures nodes { store.new.nodes ≡ store.old.nodes }
    ensures kept { (due : Tree → Option Replacement) (b : Bounds) (t u : Tree)
        → AreKept due store.old.nodes store.old.entries
        → IsPassed due store.old.nodes b t step u
        → IsForm due store.old.nodes u last
        → IsLinked store.old.nodes store.old.entries step.here step
        → IsNumberKept store.old.entries step.next last.count
        → AreKept due store.new.nodes store.new.entries
        × Stays store.old.entries store.new.entries }
    ensures there { IfOk result (λ e. IsNumberKept store.new.entries step.here e.count) }
    ensures form { (due : Tree → Option Replacement) (b : Bounds) (t u : Tree)
        → IsPassed due store.old.nodes b t step u
        → IsForm due store.old.nodes u last → IsInBounds b last
        → IfOk result (IsToKeep due store.new.nodes b t) }
    ensures count { IfOk result (λ e. e.count ≡ step.way.count + 1 + last.count) }
{
    store.nodes.known_at(step.next);
    let after = Entry {
        value: last.value,
        count: 1 + last.count,
        big: last.big.max(store.nodes.size(step.next)),
        deep: last.deep.max(store.nodes.depth(step.next)),
        ready: step.way.ready,
        next: Some(step.next),
    };
    let whole = Entry {
        count: step.way.count + after.count,
        big: step.way.big.max(after.big),
        deep: step.way.deep.max(after.deep),
        ..after
    };
    store.keep(step.way.ready, after)?;
    store.keep(step.here, whole)?;
    Ok(whole)
}
