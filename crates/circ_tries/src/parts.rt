//! What the work is given, and what comes of it.
ghost use Rattle.std.specs.Prelude.{◌≡◌, []};

use circ_due::Choice;
use circ_rewrite::{Pass, RewriteFault, Trace};
use circ_term::Path;
use std::alloc::{AllocError, AllocFailed, Global};

/// The most tries inside one another.
pub const MOST_TRIES: u32 = 8;

// The greatest size and depth that a term may have.
#[derive(Clone, Copy)]
pub(crate) struct Room {
    pub(crate) big: u64,
    pub(crate) deep: u64,
}

// Where a term stands in the whole, and the replacements so far.
#[derive(Drop)]
pub(crate) struct Course {
    pub(crate) path: Path,
    pub(crate) traces: Vec<Trace>,
}

impl Course {
    pub(crate) fn new(alloc: Global) -> Course
        ensures path { result.path.items ≡ [] }
        ensures traces { result.traces.items ≡ [] }
    {
        Course {
            path: Path::new(alloc),
            traces: Vec::new(alloc),
        }
    }
}

// A replacement that is due, with the passes of its conditions.
#[derive(Drop)]
pub(crate) struct Found {
    pub(crate) choice: Choice,
    pub(crate) conds: Vec<Pass>,
}

// What comes of one turn at a term: its normal form, or a replacement at its root.
#[derive(Clone, Copy)]
pub(crate) enum Turn {
    Settled(u32),
    Stepped(u32),
}

// Why a term has no normal form within bounds. `Outgrows` is the first term past them.
#[derive(Drop)]
pub(crate) enum Stop {
    Fault(RewriteFault),
    Outgrows(u32),
}

impl From<AllocError> for Stop {
    ghost use Rattle.std.specs.Prelude.{◌≡◌};
    ghost use Rattle.circ_tries.specs.declared.parts.Stop.TheVariants.{Fault};
    ghost use Rattle.circ_rewrite.specs.declared.fault.RewriteFault.TheVariants.{Memory};

    ghost from_gives = { λ _ e. e ≡ Fault Memory };

    fn from(_: AllocError) -> Stop {
        Stop::Fault(RewriteFault::Memory)
    }
}

impl<T: Drop> From<AllocFailed<T>> for Stop {
    ghost use Rattle.std.specs.Prelude.{◌≡◌};
    ghost use Rattle.circ_tries.specs.declared.parts.Stop.TheVariants.{Fault};
    ghost use Rattle.circ_rewrite.specs.declared.fault.RewriteFault.TheVariants.{Memory};

    ghost from_gives = { λ _ e. e ≡ Fault Memory };

    fn from(_: AllocFailed<T>) -> Stop {
        Stop::Fault(RewriteFault::Memory)
    }
}

impl From<RewriteFault> for Stop {
    ghost use Rattle.std.specs.Prelude.{◌≡◌};
    ghost use Rattle.circ_tries.specs.declared.parts.Stop.TheVariants.{Fault};

    ghost from_gives = { λ f e. e ≡ Fault f };

    fn from(fault: RewriteFault) -> Stop {
        Stop::Fault(fault)
    }
}
