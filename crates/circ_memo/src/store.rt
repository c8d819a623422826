//! Interned terms, and what is kept of them.
ghost use Rattle.std.specs.Prelude.{◌≡◌, ◌<◌, [], length};
ghost use Rattle.std.specs.Prelude.{IfSome, OnOk, OnErr, IsTrue, Some};
ghost use Rattle.circ_memo.specs.declared.parts.Entry.{Entry as TheEntry};
ghost use Rattle.circ_memo.specs.Keeping.{kept_at, Puts, HasSame, Fits};

use crate::packed::Entries;
use crate::parts::{Bounds, Entry};
use circ_nodes::Nodes;
use std::alloc::{AllocError, Global};

// Interned terms, and what is kept of them by number.
#[derive(Drop)]
pub(crate) struct Store {
    pub(crate) alloc: Global,
    pub(crate) nodes: Nodes,
    pub(crate) entries: Entries,
}

impl Store {
    pub(crate) fn new(alloc: Global) -> Store
        ensures { result.entries ≡ [] }
    {
        Store {
            alloc,
            nodes: Nodes::new(alloc),
            entries: Entries::new(alloc),
        }
    }

    // What is kept of a term.
    pub(crate) fn entry(&self, number: u32) -> Option<Entry>
        ensures { result ≡ kept_at self.now.entries number }
    {
        self.entries.at(number as usize)
    }

    // Whether a term is known to be normal.
    pub(crate) fn is_still(&self, number: u32) -> bool
        ensures { IsTrue result → (e : TheEntry)
            × (kept_at self.now.entries number ≡ Some e) × (e.count ≡ 0) }
    {
        match self.entry(number) {
            Some(entry) => entry.count == 0,
            None => false,
        }
    }

    // What is kept of a term, where the budget and the bounds allow its use.
    pub(crate) fn fitting(&self, number: u32, bounds: Bounds, budget: u64) -> Option<Entry>
        ensures { IfSome result (λ e. (kept_at self.now.entries number ≡ Some e)
            × Fits bounds budget e) }
    {
        match self.entry(number) {
            Some(entry) => {
                if entry.count <= budget && entry.big <= bounds.big && entry.deep <= bounds.deep {
                    Some(entry)
                } else {
                    None
                }
            }
            None => None,
        }
    }

    // Keeps this of a term. If it runs out of memory all is as before.
    pub(crate) fn keep(&mut self, number: u32, entry: Entry) -> Result<(), AllocError>
        requires { number < length self.old.nodes }
        ensures nodes { self.new.nodes ≡ self.old.nodes }
        ensures kept { OnOk result
            (Puts number entry self.old.entries self.new.entries) }
        ensures err { OnErr result (HasSame self.old.entries self.new.entries) }
    {
        self.entries.put(number as usize, entry, self.nodes.len())
    }
}
