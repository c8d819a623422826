//! Why bytes are no automaton.
use std::alloc::{AllocError, AllocFailed};
use thiserror::Error;

/// Why a statement of an automaton's text is refused. The causes of one statement are tested in the
/// order of the variants.
#[derive(Debug, Drop, Clone, Copy, PartialEq, Eq)]
pub enum AutoCause {
    /// The byte at this place, counted from 0, is 128 or more.
    NotAscii { place: u64 },
    /// The byte at this place is below 32 and no blank, or 127.
    Control { place: u64 },
    /// The words have not the form of the statement that is due.
    Shape,
    /// A letter is there already, at this place among the letters, counted from 0.
    Twice { number: u32 },
    /// There are this many letters, or states, which is past the limit.
    Limit { count: u64 },
}

/// Why bytes are not read as an automaton.
#[derive(Debug, Drop, Clone, Copy, PartialEq, Eq, Error)]
#[error("the bytes are no automaton")]
pub enum AutoFault {
    /// The first cause, with the number of its statement.
    Statement { number: u64, cause: AutoCause },
    /// Memory ran out.
    Memory,
}

impl From<AllocError> for AutoFault {
    ghost use Rattle.std.specs.Prelude.{◌≡◌};
    ghost use Rattle.circ_auto.specs.declared.fault.AutoFault.TheVariants.{Memory};

    ghost from_gives = { λ _ e. e ≡ Memory };

    fn from(_: AllocError) -> AutoFault {
        AutoFault::Memory
    }
}

impl<T: Drop> From<AllocFailed<T>> for AutoFault {
    ghost use Rattle.std.specs.Prelude.{◌≡◌};
    ghost use Rattle.circ_auto.specs.declared.fault.AutoFault.TheVariants.{Memory};

    ghost from_gives = { λ _ e. e ≡ Memory };

    fn from(_: AllocFailed<T>) -> AutoFault {
        AutoFault::Memory
    }
}
