//! How a search ends where not every goal is done.
use circ_join::Stop;
use circ_term::Term;
use circ_theory::Pair;
use std::alloc::{AllocError, AllocFailed};

/// How a search ends where not every goal is done.
#[derive(Drop)]
pub enum End {
    /// A goal of a block cannot be split further.
    Stuck {
        block: u32,
        goal: u64,
        left: Term,
        right: Term,
        assumptions: Vec<Pair>,
    },
    /// A budget is spent, after so many rewrite steps, Derive steps and steps.
    Spent {
        rewrites: u64,
        derives: u64,
        steps: u64,
    },
    /// A term would have this many nodes.
    TooBig {
        nodes: u64,
    },
    /// A term would have this depth.
    TooDeep {
        depth: u64,
    },
    /// Memory ran out.
    Memory,
}

impl From<AllocError> for End {
    ghost use Rattle.std.specs.Prelude.{◌≡◌};
    ghost use Rattle.circ_turn.specs.declared.end.End.TheVariants.{Memory};

    ghost from_gives = { λ _ e. e ≡ Memory };

    fn from(_: AllocError) -> End {
        End::Memory
    }
}

impl<T: Drop> From<AllocFailed<T>> for End {
    ghost use Rattle.std.specs.Prelude.{◌≡◌};
    ghost use Rattle.circ_turn.specs.declared.end.End.TheVariants.{Memory};

    ghost from_gives = { λ _ e. e ≡ Memory };

    fn from(_: AllocFailed<T>) -> End {
        End::Memory
    }
}
