//! Why there is no normal form.
use std::alloc::{AllocError, AllocFailed};
use std::fmt;
use thiserror::Error;

/// Why a term was not normalised.
#[derive(Drop, Clone, Copy, PartialEq, Eq, Error)]
pub enum RewriteFault {
    /// A replacement was due, and no budget was left.
    Spent,
    /// A replacement would have made an application of this many nodes, counted as a tree.
    TooBig { nodes: u64 },
    /// A replacement would have made an application of this depth.
    TooDeep { depth: u64 },
    /// Memory ran out.
    Memory,
}

impl fmt::Display for RewriteFault {
    fn fmt<W: fmt::Write>(&self, f: &mut fmt::Formatter<W>) -> fmt::Result {
        f.write_str("the term has no normal form within the limits")
    }
}

impl fmt::Debug for RewriteFault {
    fn fmt<W: fmt::Write>(&self, f: &mut fmt::Formatter<W>) -> fmt::Result {
        f.write_str("the term has no normal form within the limits")
    }
}

impl From<AllocError> for RewriteFault {
    ghost use Rattle.std.specs.Prelude.{◌≡◌};
    ghost use Rattle.circ_rewrite.specs.declared.fault.RewriteFault.TheVariants.{Memory};

    ghost from_gives = { λ _ e. e ≡ Memory };

    fn from(_: AllocError) -> RewriteFault {
        RewriteFault::Memory
    }
}

impl<T: Drop> From<AllocFailed<T>> for RewriteFault {
    ghost use Rattle.std.specs.Prelude.{◌≡◌};
    ghost use Rattle.circ_rewrite.specs.declared.fault.RewriteFault.TheVariants.{Memory};

    ghost from_gives = { λ _ e. e ≡ Memory };

    fn from(_: AllocFailed<T>) -> RewriteFault {
        RewriteFault::Memory
    }
}
