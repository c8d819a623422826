//! The first word of a list that repeats one before it.
ghost use Rattle.std.specs.Prelude.{◌≡◌, [], IfOk, map};
ghost use Rattle.circ_auto.specs.Parts.{repeat_after};

use indexmap::IndexSet;
use std::alloc::{AllocError, Global};

/// The place of the word that is repeated, by one pass over the words.
pub(crate) fn first_repeat(alloc: Global, words: &[&[u8]]) -> Result<Option<usize>, AllocError>
    ensures { IfOk result (λ o. o ≡ repeat_after [] (map (λ w. w.now) words.now)) }
{
    let mut before: IndexSet<&[u8]> = IndexSet::new(alloc);
    for word in words {
        if let Some(place) = before.get_index_of(*word) {
            return Ok(Some(place));
        }
        before.insert(*word)?;
    }
    Ok(None)
}
