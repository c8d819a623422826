//! Entries of experiments.
ghost use Rattle.std.specs.Prelude.{◌≡◌, IfOk};
ghost use Rattle.circ_entry.specs.Plain.{plain_entry, plain_entries};

use circ_term::{Term, share_all};
use std::alloc::{AllocError, Global};

/// An entry of an experiment.
#[derive(Drop)]
pub struct Entry {
    /// The number of the derivative.
    pub derivative: u32,
    /// The terms of its parameters 1, 2 and so on.
    pub params: Vec<Term>,
}

impl Entry {
    /// The same entry once more. Its terms are shared.
    pub fn share(&self, alloc: Global) -> Result<Entry, AllocError>
        ensures { IfOk result (λ entry. plain_entry entry ≡ plain_entry self.now) }
    {
        Ok(Entry {
            derivative: self.derivative,
            params: share_all(alloc, self.params.as_slice())?,
        })
    }
}

/// The same entries once more. Their terms are shared.
pub fn share_entries(alloc: Global, entries: &[Entry]) -> Result<Vec<Entry>, AllocError>
    ensures { IfOk result (λ copy. plain_entries copy.items ≡ plain_entries entries.now) }
{
    let mut copy = Vec::with_capacity(alloc, entries.len())?;
    for entry in entries {
        copy.push(entry.share(alloc)?)?;
    }
    Ok(copy)
}
