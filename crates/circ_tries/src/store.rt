//! Interned terms, and which of them are known to be normal.
ghost use Rattle.std.specs.Prelude.{◌≡◌, ◌<◌, ◌≤◌, [], List, Option, None, length, OnOk, OnErr};
ghost use Rattle.std.specs.Prelude.{IsTrue};
ghost use Rattle.std.specs.List.{list_all};
ghost use Rattle.circ_term.specs.Tree.{Tree};
ghost use Rattle.circ_rewrite.specs.Replacement.{Replacement};
ghost use Rattle.circ_nodes.specs.Built.{AreBuilt};
ghost use Rattle.circ_nodes.specs.Named.{IsNamed};
ghost use Rattle.circ_tries.specs.Store.{still_at, HasSameStill, HasStillArgs, PutsStill, AreStill};

use circ_nodes::{Nodes, Shape, Terms};
use std::alloc::{AllocError, Global};

// Interned terms, and by number whether no rule, conditions or not, and nothing else applies
// anywhere in the term; and the terms that were built.
#[derive(Drop)]
pub(crate) struct Store {
    pub(crate) alloc: Global,
    pub(crate) nodes: Nodes,
    pub(crate) still: Vec<bool>,
    pub(crate) terms: Terms,
}

impl Store {
    pub(crate) fn new(alloc: Global) -> Store
        ensures still { result.still.items ≡ [] }
        ensures terms { (nodes : List Tree) → AreBuilt nodes result.terms }
    {
        Store {
            alloc,
            nodes: Nodes::new(alloc),
            still: Vec::new(alloc),
            terms: Terms::new(alloc),
        }
    }

    // Whether a term is known to be normal wherever it stands.
    pub(crate) fn is_still(&self, number: u32) -> bool
        ensures { result ≡ still_at self.now.still.items number }
    {
        is_still_at(self.still.as_slice(), number as usize)
    }

    // Whether all arguments of a term are.
    pub(crate) fn has_still_args(&self, number: u32) -> bool
        requires { number < length self.now.nodes }
        ensures { IsTrue result → HasStillArgs self.now.nodes self.now.still.items number }
    {
        match self.nodes.shape(number) {
            Shape::Variable { .. } => true,
            Shape::Application { args, .. } => are_still(self, args),
        }
    }

    // Knows a term to be normal. If it runs out of memory all is as before.
    pub(crate) fn mark(&mut self, number: u32) -> Result<(), AllocError>
        requires { number < length self.old.nodes }
        ensures nodes { self.new.nodes ≡ self.old.nodes }
        ensures terms { self.new.terms ≡ self.old.terms }
        ensures marked { OnOk result (PutsStill number self.old.still.items self.new.still.items) }
        ensures err { OnErr result (HasSameStill self.old.still.items self.new.still.items) }
    {
        make_room(&mut self.still, self.nodes.len())?;
        self.still[number as usize] = true;
        Ok(())
    }
}

// Knows a term in which nothing is due at the root to be normal where all its arguments are known
// to be.
pub(crate) fn keep_still(store: &mut Store, number: u32, is_still: bool) -> Result<(), AllocError>
    requires { number < length store.old.nodes }
    ensures nodes { store.new.nodes ≡ store.old.nodes }
    ensures terms { store.new.terms ≡ store.old.terms }
    ensures right { (due : Tree → Option Replacement) (t : Tree)
        → AreStill due store.old.nodes store.old.still.items
        → IsNamed store.old.nodes number t → (IsTrue is_still → due t ≡ None)
        → AreStill due store.new.nodes store.new.still.items }
{
    if is_still {
        if store.has_still_args(number) {
            return store.mark(number);
        }
    }
    Ok(())
}

fn are_still(store: &Store, numbers: &[u32]) -> bool
    ensures { result ≡ list_all (still_at store.now.still.items) numbers.now }
{
    numbers.iter().all(|number| store.is_still(*number))
}

fn is_still_at(still: &[bool], place: usize) -> bool
    ensures { result ≡ still_at still.now place }
{
    if place < still.len() {
        still[place]
    } else {
        false
    }
}

// Makes room for what is known of so many terms.
fn make_room(still: &mut Vec<bool>, len: usize) -> Result<(), AllocError>
    ensures same { HasSameStill still.old.items still.new.items }
    ensures room { OnOk result (len ≤ length still.new.items) }
{
    for _ in still.len()..len {
        still.push(false)?;
    }
    Ok(())
}
