//! Why bytes are no proof.
use std::alloc::{AllocError, AllocFailed};
use thiserror::Error;

/// Why no proof was read: the first line at fault, counted from 1, or memory ran out. A line that
/// is bad and passes a limit too is bad.
#[derive(Debug, Drop, Clone, Copy, PartialEq, Eq, Error)]
#[error("no proof was read")]
pub enum FileFault {
    /// The line is not in its form or in its place, or it fails a check.
    Line { number: u64 },
    /// The line passes a limit.
    Limit { number: u64 },
    /// Memory ran out.
    Memory,
}

impl From<AllocError> for FileFault {
    ghost use Rattle.std.specs.Prelude.{◌≡◌};
    ghost use Rattle.circ_file.specs.declared.fault.FileFault.TheVariants.{Memory};

    ghost from_gives = { λ _ e. e ≡ Memory };

    fn from(_: AllocError) -> FileFault {
        FileFault::Memory
    }
}

impl<T: Drop> From<AllocFailed<T>> for FileFault {
    ghost use Rattle.std.specs.Prelude.{◌≡◌};
    ghost use Rattle.circ_file.specs.declared.fault.FileFault.TheVariants.{Memory};

    ghost from_gives = { λ _ e. e ≡ Memory };

    fn from(_: AllocFailed<T>) -> FileFault {
        FileFault::Memory
    }
}
