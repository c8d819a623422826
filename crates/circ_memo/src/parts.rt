//! What is kept of terms, and what stops the work.
use circ_nodes::Numbers;
use circ_rewrite::RewriteFault;
use std::alloc::{AllocError, AllocFailed};

// The greatest size and depth that a term may have.
#[derive(Clone, Copy)]
pub(crate) struct Bounds {
    pub(crate) big: u64,
    pub(crate) deep: u64,
}

// What is kept of a term: its normal form, how many replacements lead to it, and bounds on the
// terms that they make. `ready` is the term with normal arguments, and `next` is what replaces that
// at the root.
#[derive(Clone, Copy)]
pub(crate) struct Entry {
    pub(crate) value: u32,
    pub(crate) count: u64,
    pub(crate) big: u64,
    pub(crate) deep: u64,
    pub(crate) ready: u32,
    pub(crate) next: Option<u32>,
}

// The way of a term to normal arguments: how many replacements, and bounds on the terms that they
// make.
#[derive(Clone, Copy)]
pub(crate) struct Way {
    pub(crate) ready: u32,
    pub(crate) count: u64,
    pub(crate) big: u64,
    pub(crate) deep: u64,
}

// A replacement at the root of a term, when its arguments are normal.
#[derive(Clone, Copy)]
pub(crate) struct Step {
    pub(crate) here: u32,
    pub(crate) way: Way,
    pub(crate) next: u32,
}

// What comes of one turn at a term: its normal form, or a replacement at its root.
#[derive(Clone, Copy)]
pub(crate) enum Turn {
    Settled(Entry),
    Stepped(Step),
}

// An application whose arguments are normalised from the left: those that stand now, its size with
// them, its depth at first, and the way so far.
#[derive(Drop)]
pub(crate) struct Passing {
    pub(crate) op: u32,
    pub(crate) sort: u32,
    pub(crate) args: Numbers,
    pub(crate) size: u64,
    pub(crate) depth: u64,
    pub(crate) count: u64,
    pub(crate) big: u64,
    pub(crate) deep: u64,
}

// Why a term has no normal form within bounds. `Outgrows` is the first term past them.
#[derive(Drop)]
pub(crate) enum Stop {
    Fault(RewriteFault),
    Outgrows(u32),
}

impl From<AllocError> for Stop {
    ghost use Rattle.std.specs.Prelude.{◌≡◌};
    ghost use Rattle.circ_memo.specs.declared.parts.Stop.TheVariants.{Fault};
    ghost use Rattle.circ_rewrite.specs.declared.fault.RewriteFault.TheVariants.{Memory};

    ghost from_gives = { λ _ e. e ≡ Fault Memory };

    fn from(_: AllocError) -> Stop {
        Stop::Fault(RewriteFault::Memory)
    }
}

impl<T: Drop> From<AllocFailed<T>> for Stop {
    ghost use Rattle.std.specs.Prelude.{◌≡◌};
    ghost use Rattle.circ_memo.specs.declared.parts.Stop.TheVariants.{Fault};
    ghost use Rattle.circ_rewrite.specs.declared.fault.RewriteFault.TheVariants.{Memory};

    ghost from_gives = { λ _ e. e ≡ Fault Memory };

    fn from(_: AllocFailed<T>) -> Stop {
        Stop::Fault(RewriteFault::Memory)
    }
}
