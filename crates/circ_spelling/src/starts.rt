//! Where terms of each sort may end.
ghost use Rattle.std.specs.Prelude.{◌≡◌, ◌≤◌, ℕ, Some, false};
ghost use Rattle.circ_spelling.specs.Ends.{Has, ends_of, ends_at, every_place};

use crate::ends::{Ends, all_ends, has};

/// For each sort, where its terms that begin at one place may end. Beyond the list, everywhere.
#[derive(Drop)]
pub struct Starts {
    pub ends: Vec<Ends>,
}

fn ends_of(row: &Starts, sort: usize) -> Ends
    ensures { result ≡ ends_of (Some row.now) sort }
{
    match row.ends.get(sort) {
        Some(ends) => *ends,
        None => all_ends(),
    }
}

/// Where the terms of a sort that begin at a place may end.
pub fn ends_at(starts: &[Starts], sort: usize, from: usize) -> Ends
    ensures { result ≡ ends_at starts.now sort from }
{
    match starts.get(from) {
        Some(row) => ends_of(row, sort),
        None => all_ends(),
    }
}

/// For how many sorts ends are listed at a place.
pub fn width_at(starts: &[Starts], from: usize) -> usize
    ensures { (s : ℕ) → result ≤ s → ends_at starts.now s from ≡ every_place }
{
    match starts.get(from) {
        Some(row) => row.ends.len(),
        None => 0,
    }
}

/// Whether a range may spell a term of the sort.
pub fn may_spell(starts: &[Starts], sort: usize, from: usize, to: usize) -> bool
    ensures { result ≡ false → Has (ends_at starts.now sort from) to → ⊥ }
{
    has(ends_at(starts, sort, from), to)
}
