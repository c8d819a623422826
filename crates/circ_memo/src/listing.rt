//! Listing the replacements that lead to a normal form that is kept.
ghost use Rattle.std.specs.Prelude.{◌≡◌, ◌<◌, ◌++◌, ◌∷◌, [], ℕ, length};
ghost use Rattle.std.specs.Prelude.{Option, IfOk, IfSome, OnOk, Some};
ghost use Rattle.circ_term.specs.Tree.{Tree};
ghost use Rattle.circ_rewrite.specs.Plain.{plain_traces};
ghost use Rattle.circ_rewrite.specs.Replacement.{Replacement, placed, traced};
ghost use Rattle.circ_nodes.specs.Built.{AreBuilt};
ghost use Rattle.circ_nodes.specs.Named.{IsNamed};
ghost use Rattle.circ_due.specs.Chosen.{IsReady, due_by};
ghost use Rattle.circ_memo.specs.Keeping.{IsNumberKept, HasKeptArgs};
ghost use Rattle.circ_memo.specs.Listing.{ListsAll, ListsArgs, ListsStep, count_at};
ghost use Rattle.circ_memo.specs.Working.{IsStore};

use crate::store::Store;
use circ_due::Means;
use circ_nodes::{Nodes, Shape, Terms};
use circ_rewrite::Trace;
use circ_term::Path;
use std::alloc::AllocError;

// Lists the replacements that lead from a term of which something is kept to its normal form. The
// term stands at the path.
#[cycle(list)]
pub(crate) fn list(
    means: &Means<'_>,
    store: &Store,
    number: u32,
    terms: &mut Terms,
    path: &mut Path,
    traces: &mut Vec<Trace>,
) -> Result<(), AllocError>
    requires store { IsStore means.now store.now }
    requires kept { (c : ℕ) × IsNumberKept store.now.entries number c }
    requires built { AreBuilt store.now.nodes terms.old }
    ensures built { AreBuilt store.now.nodes terms.new }
    ensures path { OnOk result (path.new.items ≡ path.old.items) }
    ensures lists { (t : Tree) → IsNamed store.now.nodes number t → OnOk result
        (ListsAll (due_by means.now) path.old.items t
        (plain_traces traces.old.items) (plain_traces traces.new.items)) }
{
    let mut here = number;
    loop {
        store.nodes.known_at(here);
        match list_step(means, store, here, terms, path, traces)? {
            None => return Ok(()),
            Some(next) => here = next,
        }
    }
}

// Lists those in the arguments of a term, and the one at its root then. The answer is the term that
// this makes.
#[cycle(list)]
fn list_step(
    means: &Means<'_>,
    store: &Store,
    here: u32,
    terms: &mut Terms,
    path: &mut Path,
    traces: &mut Vec<Trace>,
) -> Result<Option<u32>, AllocError>
    requires store { IsStore means.now store.now }
    requires kept { (c : ℕ) × IsNumberKept store.now.entries here c }
    requires built { AreBuilt store.now.nodes terms.old }
    ensures built { AreBuilt store.now.nodes terms.new }
    ensures path { OnOk result (path.new.items ≡ path.old.items) }
    ensures lists { (t : Tree) → IsNamed store.now.nodes here t → IfOk result
        (ListsStep (due_by means.now) store.now.nodes path.old.items t
        (plain_traces traces.old.items) (plain_traces traces.new.items)) }
    ensures next { IfOk result (λ o. IfSome o (λ m. (c : ℕ)
        × IsNumberKept store.now.entries m c
        × (c < count_at store.now.entries here))) }
{
    let Some(entry) = store.entry(here) else {
        unreachable!();
    };
    if entry.count == 0 {
        return Ok(None);
    }
    if entry.ready != here {
        list_args(means, store, here, terms, path, traces)?;
    }
    let Some(next) = entry.next else {
        return Ok(None);
    };
    list_root(
        means,
        &store.nodes,
        entry.ready,
        next,
        terms,
        path.as_slice(),
        traces,
    )?;
    Ok(Some(next))
}

// Lists those in the arguments of a term, from the left.
#[cycle(list)]
fn list_args(
    means: &Means<'_>,
    store: &Store,
    here: u32,
    terms: &mut Terms,
    path: &mut Path,
    traces: &mut Vec<Trace>,
) -> Result<(), AllocError>
    requires store { IsStore means.now store.now }
    requires kept { (t : Tree) × IsNamed store.now.nodes here t
        × HasKeptArgs store.now.nodes store.now.entries t
        (count_at store.now.entries here) }
    requires built { AreBuilt store.now.nodes terms.old }
    ensures built { AreBuilt store.now.nodes terms.new }
    ensures path { OnOk result (path.new.items ≡ path.old.items) }
    ensures lists { (t : Tree) → IsNamed store.now.nodes here t → OnOk result
        (ListsArgs (due_by means.now) path.old.items t
        (plain_traces traces.old.items) (plain_traces traces.new.items)) }
{
    store.nodes.known();
    let Shape::Application { args, .. } = store.nodes.shape(here) else {
        return Ok(());
    };
    for place in 0..args.len() {
        list_arg(means, store, args[place], place as u16, terms, path, traces)?;
    }
    Ok(())
}

// Lists those in the argument at a place.
#[cycle(list)]
fn list_arg(
    means: &Means<'_>,
    store: &Store,
    arg: u32,
    place: u16,
    terms: &mut Terms,
    path: &mut Path,
    traces: &mut Vec<Trace>,
) -> Result<(), AllocError>
    requires store { IsStore means.now store.now }
    requires kept { (c : ℕ) × IsNumberKept store.now.entries arg c }
    requires built { AreBuilt store.now.nodes terms.old }
    ensures built { AreBuilt store.now.nodes terms.new }
    ensures path { OnOk result (path.new.items ≡ path.old.items) }
    ensures lists { (t : Tree) → IsNamed store.now.nodes arg t → OnOk result
        (ListsAll (due_by means.now) (path.old.items ++ place ∷ []) t
        (plain_traces traces.old.items) (plain_traces traces.new.items)) }
{
    if store.is_still(arg) {
        return Ok(());
    }
    let depth = path.len();
    path.push(place)?;
    list(means, store, arg, terms, path, traces)?;
    path.truncate(depth);
    Ok(())
}

// Lists the replacement at the root of a term with normal arguments, which makes the next one.
fn list_root(
    means: &Means<'_>,
    nodes: &Nodes,
    ready: u32,
    next: u32,
    terms: &mut Terms,
    path: &[u16],
    traces: &mut Vec<Trace>,
) -> Result<(), AllocError>
    requires ready { IsReady nodes.now means.now }
    requires there { next < length nodes.now }
    requires due { (u : Tree) × (r : Replacement) × IsNamed nodes.now ready u
        × (due_by means.now u ≡ Some r) × IsNamed nodes.now next r.new }
    requires built { AreBuilt nodes.now terms.old }
    ensures built { AreBuilt nodes.now terms.new }
    ensures listed { (u : Tree) (r : Replacement) → IsNamed nodes.now ready u
        → due_by means.now u ≡ Some r → IsNamed nodes.now next r.new
        → OnOk result (plain_traces traces.new.items
        ≡ plain_traces traces.old.items ++ traced (placed path.now r) ∷ []) }
{
    let Some(choice) = means.choose(nodes, ready)? else {
        unreachable!();
    };
    let trace = means.trace(nodes, terms, &choice, path, next);
    drop(choice);
    traces.push(trace?)?;
    Ok(())
}
