//! Why a term is not built.
use std::alloc::{AllocError, AllocFailed};
use std::fmt;
use thiserror::Error;

/// Why no term was built. A limit is reported at the first application that passes one, arguments
/// first, from the left; where one application passes both limits, its number of nodes is reported.
#[derive(Drop, Clone, Copy, PartialEq, Eq, Error)]
pub enum TermFault {
    /// An application would have this many nodes, counted as a tree.
    TooBig { nodes: u64 },
    /// An application would have this depth.
    TooDeep { depth: u64 },
    /// Memory ran out.
    Memory,
}

impl fmt::Display for TermFault {
    fn fmt<W: fmt::Write>(&self, f: &mut fmt::Formatter<W>) -> fmt::Result {
        f.write_str("the term is not built")
    }
}

impl fmt::Debug for TermFault {
    fn fmt<W: fmt::Write>(&self, f: &mut fmt::Formatter<W>) -> fmt::Result {
        f.write_str("the term is not built")
    }
}

impl From<AllocError> for TermFault {
    ghost use Rattle.std.specs.Prelude.{◌≡◌};
    ghost use Rattle.circ_term.specs.declared.fault.TermFault.TheVariants.{Memory};

    ghost from_gives = { λ _ e. e ≡ Memory };

    fn from(_: AllocError) -> TermFault {
        TermFault::Memory
    }
}

impl<T: Drop> From<AllocFailed<T>> for TermFault {
    ghost use Rattle.std.specs.Prelude.{◌≡◌};
    ghost use Rattle.circ_term.specs.declared.fault.TermFault.TheVariants.{Memory};

    ghost from_gives = { λ _ e. e ≡ Memory };

    fn from(_: AllocFailed<T>) -> TermFault {
        TermFault::Memory
    }
}
