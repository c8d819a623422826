//! Why bytes are not cut into tokens.
use std::alloc::{AllocError, AllocFailed};
use thiserror::Error;

/// Why there are no tokens. The first bad byte outside comments decides, and its place is the
/// number of bytes before it.
#[derive(Debug, Drop, Clone, Copy, PartialEq, Eq, Error)]
#[error("the bytes are not cut into tokens")]
pub enum LexFault {
    /// The byte is 128 or more.
    NotAscii { place: u64 },
    /// The byte is below 32 and no blank, or 127.
    Control { place: u64 },
    /// Memory ran out.
    Memory,
}

impl From<AllocError> for LexFault {
    ghost use Rattle.std.specs.Prelude.{◌≡◌};
    ghost use Rattle.circ_lexer.specs.declared.fault.LexFault.TheVariants.{Memory};

    ghost from_gives = { λ _ e. e ≡ Memory };

    fn from(_: AllocError) -> LexFault {
        LexFault::Memory
    }
}

impl<T: Drop> From<AllocFailed<T>> for LexFault {
    ghost use Rattle.std.specs.Prelude.{◌≡◌};
    ghost use Rattle.circ_lexer.specs.declared.fault.LexFault.TheVariants.{Memory};

    ghost from_gives = { λ _ e. e ≡ Memory };

    fn from(_: AllocFailed<T>) -> LexFault {
        LexFault::Memory
    }
}
