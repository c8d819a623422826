//! Why no derivation is written out.
use std::alloc::{AllocError, AllocFailed};
use std::fmt;
use thiserror::Error;

/// Why no derivation is written out: what comes first in the order of work decides.
#[derive(Drop, Clone, Copy, PartialEq, Eq, Error)]
pub enum ExpandFault {
    /// This unit, counted from 1, is one more than there are.
    Long { units: u64 },
    /// A term has this many nodes, counted as a tree.
    TooBig { nodes: u64 },
    /// A term has this depth.
    TooDeep { depth: u64 },
    /// Memory ran out.
    Memory,
}

impl fmt::Display for ExpandFault {
    fn fmt<W: fmt::Write>(&self, f: &mut fmt::Formatter<W>) -> fmt::Result {
        f.write_str("the derivation is not written out")
    }
}

impl fmt::Debug for ExpandFault {
    fn fmt<W: fmt::Write>(&self, f: &mut fmt::Formatter<W>) -> fmt::Result {
        f.write_str("the derivation is not written out")
    }
}

impl From<AllocError> for ExpandFault {
    ghost use Rattle.std.specs.Prelude.{◌≡◌};
    ghost use Rattle.circ_expand.specs.declared.fault.ExpandFault.TheVariants.{Memory};

    ghost from_gives = { λ _ e. e ≡ Memory };

    fn from(_: AllocError) -> ExpandFault {
        ExpandFault::Memory
    }
}

impl<T: Drop> From<AllocFailed<T>> for ExpandFault {
    ghost use Rattle.std.specs.Prelude.{◌≡◌};
    ghost use Rattle.circ_expand.specs.declared.fault.ExpandFault.TheVariants.{Memory};

    ghost from_gives = { λ _ e. e ≡ Memory };

    fn from(_: AllocFailed<T>) -> ExpandFault {
        ExpandFault::Memory
    }
}
