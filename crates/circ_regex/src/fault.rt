//! Why bytes are no expression.
use std::alloc::{AllocError, AllocFailed};
use thiserror::Error;

/// Why bytes are not read as an expression.
#[derive(Debug, Drop, Clone, Copy, PartialEq, Eq, Error)]
#[error("the bytes are no expression")]
pub enum RegexFault {
    /// There are this many bytes, more than 1,000.
    Limit { count: u64 },
    /// They spell no expression.
    Shape,
    /// Memory ran out.
    Memory,
}

impl From<AllocError> for RegexFault {
    ghost use Rattle.std.specs.Prelude.{◌≡◌};
    ghost use Rattle.circ_regex.specs.declared.fault.RegexFault.TheVariants.{Memory};

    ghost from_gives = { λ _ e. e ≡ Memory };

    fn from(_: AllocError) -> RegexFault {
        RegexFault::Memory
    }
}

impl<T: Drop> From<AllocFailed<T>> for RegexFault {
    ghost use Rattle.std.specs.Prelude.{◌≡◌};
    ghost use Rattle.circ_regex.specs.declared.fault.RegexFault.TheVariants.{Memory};

    ghost from_gives = { λ _ e. e ≡ Memory };

    fn from(_: AllocFailed<T>) -> RegexFault {
        RegexFault::Memory
    }
}
