//! Why a part of a search stops it.
ghost use Rattle.std.specs.Prelude.{◌≡◌};
ghost use Rattle.circ_join.specs.Stopping.{term_stop, rewrite_stop};

use circ_rewrite::RewriteFault;
use circ_term::{Term, TermFault};
use circ_theory::Pair;
use std::alloc::{AllocError, AllocFailed};

/// Why a part of a search stops it.
#[derive(Drop)]
pub enum Stop {
    /// A rewrite step is due, and none is left.
    Spent,
    /// A term would have this many nodes.
    TooBig {
        nodes: u64,
    },
    /// A term would have this depth.
    TooDeep {
        depth: u64,
    },
    /// A case cannot be split further.
    Stuck {
        left: Term,
        right: Term,
        assumptions: Vec<Pair>,
    },
    /// Memory ran out.
    Memory,
}

impl From<AllocError> for Stop {
    ghost use Rattle.std.specs.Prelude.{◌≡◌};
    ghost use Rattle.circ_join.specs.declared.stop.Stop.TheVariants.{Memory};

    ghost from_gives = { λ _ e. e ≡ Memory };

    fn from(_: AllocError) -> Stop {
        Stop::Memory
    }
}

impl<T: Drop> From<AllocFailed<T>> for Stop {
    ghost use Rattle.std.specs.Prelude.{◌≡◌};
    ghost use Rattle.circ_join.specs.declared.stop.Stop.TheVariants.{Memory};

    ghost from_gives = { λ _ e. e ≡ Memory };

    fn from(_: AllocFailed<T>) -> Stop {
        Stop::Memory
    }
}

impl Stop {
    /// Why the search stops where a term is not built.
    pub fn of_term(fault: TermFault) -> Stop
        ensures { result ≡ term_stop fault }
    {
        match fault {
            TermFault::TooBig { nodes } => Stop::TooBig { nodes },
            TermFault::TooDeep { depth } => Stop::TooDeep { depth },
            TermFault::Memory => Stop::Memory,
        }
    }

    /// Why the search stops where a term has no normal form.
    pub fn of_rewrite(fault: RewriteFault) -> Stop
        ensures { result ≡ rewrite_stop fault }
    {
        match fault {
            RewriteFault::Spent => Stop::Spent,
            RewriteFault::TooBig { nodes } => Stop::TooBig { nodes },
            RewriteFault::TooDeep { depth } => Stop::TooDeep { depth },
            RewriteFault::Memory => Stop::Memory,
        }
    }
}
