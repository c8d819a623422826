//! Why there is no proof with numbers.
use std::alloc::{AllocError, AllocFailed};

/// Why terms have no numbers.
#[derive(Drop, Clone, Copy, PartialEq, Eq)]
pub enum NumberFault {
    /// The table would have more terms than a table may have.
    LongTable,
    /// Memory ran out.
    Memory,
}

impl From<AllocError> for NumberFault {
    ghost use Rattle.std.specs.Prelude.{◌≡◌};
    ghost use Rattle.circ_numbering.specs.declared.fault.NumberFault.TheVariants.{Memory};

    ghost from_gives = { λ _ e. e ≡ Memory };

    fn from(_: AllocError) -> NumberFault {
        NumberFault::Memory
    }
}

impl<T: Drop> From<AllocFailed<T>> for NumberFault {
    ghost use Rattle.std.specs.Prelude.{◌≡◌};
    ghost use Rattle.circ_numbering.specs.declared.fault.NumberFault.TheVariants.{Memory};

    ghost from_gives = { λ _ e. e ≡ Memory };

    fn from(_: AllocFailed<T>) -> NumberFault {
        NumberFault::Memory
    }
}
