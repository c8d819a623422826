//! Sets of places of a token list.
ghost use Rattle.std.specs.Prelude.{◌≡◌, ◌↔◌, IsTrue};
ghost use Rattle.circ_spelling.specs.Ends.{Has, Keeps, every_place};

/// A set of places, a bit for each. Those from 256 on are in every set.
#[derive(Clone, Copy)]
pub struct Ends {
    pub low: u128,
    pub high: u128,
}

pub fn no_ends() -> Ends {
    Ends { low: 0, high: 0 }
}

pub fn all_ends() -> Ends
    ensures { result ≡ every_place }
{
    Ends {
        low: u128::MAX,
        high: u128::MAX,
    }
}

pub fn has(ends: Ends, place: usize) -> bool
    ensures { IsTrue result ↔ Has ends place }
{
    if place < 128 {
        return (ends.low >> place) & 1 == 1;
    }
    if place < 256 {
        return (ends.high >> (place - 128)) & 1 == 1;
    }
    true
}

/// The set with one place more.
pub fn with(ends: Ends, place: usize) -> Ends
    ensures here { Has result place }
    ensures stay { Keeps ends result }
{
    if place < 128 {
        return Ends {
            low: ends.low | (1 << place),
            high: ends.high,
        };
    }
    if place < 256 {
        return Ends {
            low: ends.low,
            high: ends.high | (1 << (place - 128)),
        };
    }
    ends
}

/// What is in one of the sets.
pub fn joined(some: Ends, others: Ends) -> Ends
    ensures some { Keeps some result }
    ensures others { Keeps others result }
{
    Ends {
        low: some.low | others.low,
        high: some.high | others.high,
    }
}

/// Whether the second set has all of the first.
pub fn are_within(some: Ends, others: Ends) -> bool
    ensures { IsTrue result → Keeps some others }
{
    if some.low | others.low != others.low {
        return false;
    }
    some.high | others.high == others.high
}
