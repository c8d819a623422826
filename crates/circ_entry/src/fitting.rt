//! Whether entries fit a sort.
ghost use Rattle.std.specs.Prelude.{◌≡◌, None};
ghost use Rattle.circ_entry.specs.Entries.{FitsWritten, HaveParameters, first_misfit};
ghost use Rattle.circ_entry.specs.Plain.{plain_entries};

use crate::entries::Entry;
use circ_theory::Theory;

/// The first entry, counted from 1, whose derivative does not exist or has no hole of the sort that
/// is reached, which is `sort` at first. The number of entries plus 1 where the last sort is
/// hidden.
pub fn misfit(theory: &Theory, sort: u32, entries: &[Entry]) -> Option<usize>
    ensures exact { result ≡ first_misfit theory.now 1 sort (plain_entries entries.now) }
    ensures fits { HaveParameters theory.now (plain_entries entries.now) → result ≡ None →
        FitsWritten theory.now (plain_entries entries.now) sort }
{
    let mut here = sort;
    for (place, entry) in entries.iter().enumerate() {
        if !theory.takes(entry.derivative, here) {
            return Some(place + 1);
        }
        if let Some(body) = theory.derivative(entry.derivative) {
            here = body.sort();
        }
    }
    if theory.is_hidden(here) {
        return Some(entries.len() + 1);
    }
    None
}
