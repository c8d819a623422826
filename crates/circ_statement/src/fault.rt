//! Why tokens are no statement.
use std::alloc::{AllocError, AllocFailed};
use thiserror::Error;

/// Why there is no statement, in the order in which the causes are tested.
#[derive(Debug, Drop, Clone, Copy, PartialEq, Eq, Error)]
#[error("the tokens are no statement")]
pub enum StatementFault {
    /// This form of statement is left out, by the token of this number.
    LeftOut { word: usize },
    /// The tokens have not the form of a statement.
    Shape,
    /// Memory ran out.
    Memory,
}

impl From<AllocError> for StatementFault {
    ghost use Rattle.std.specs.Prelude.{◌≡◌};
    ghost use Rattle.circ_statement.specs.declared.fault.StatementFault.TheVariants.{Memory};

    ghost from_gives = { λ _ e. e ≡ Memory };

    fn from(_: AllocError) -> StatementFault {
        StatementFault::Memory
    }
}

impl<T: Drop> From<AllocFailed<T>> for StatementFault {
    ghost use Rattle.std.specs.Prelude.{◌≡◌};
    ghost use Rattle.circ_statement.specs.declared.fault.StatementFault.TheVariants.{Memory};

    ghost from_gives = { λ _ e. e ≡ Memory };

    fn from(_: AllocFailed<T>) -> StatementFault {
        StatementFault::Memory
    }
}
