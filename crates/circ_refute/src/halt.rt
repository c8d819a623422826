//! Why a refutation halts.
ghost use Rattle.std.specs.Prelude.{◌≡◌};
ghost use Rattle.circ_refute.specs.Plain.{term_halt, rewrite_halt};

use crate::refuted::Refuted;
use circ_rewrite::RewriteFault;
use circ_term::TermFault;
use std::alloc::{AllocError, AllocFailed};

// Why a refutation halts.
#[derive(Drop)]
pub(crate) enum Halt {
    // This is found.
    Found(Refuted),
    // Memory ran out.
    Memory,
}

impl From<AllocError> for Halt {
    ghost use Rattle.std.specs.Prelude.{◌≡◌};
    ghost use Rattle.circ_refute.specs.declared.halt.Halt.TheVariants.{Memory};

    ghost from_gives = { λ _ e. e ≡ Memory };

    fn from(_: AllocError) -> Halt {
        Halt::Memory
    }
}

impl<T: Drop> From<AllocFailed<T>> for Halt {
    ghost use Rattle.std.specs.Prelude.{◌≡◌};
    ghost use Rattle.circ_refute.specs.declared.halt.Halt.TheVariants.{Memory};

    ghost from_gives = { λ _ e. e ≡ Memory };

    fn from(_: AllocFailed<T>) -> Halt {
        Halt::Memory
    }
}

impl Halt {
    // Where a term is not built.
    pub(crate) fn of_term(fault: TermFault) -> Halt
        ensures { result ≡ term_halt fault }
    {
        match fault {
            TermFault::TooBig { nodes } => Halt::Found(Refuted::TooBig { nodes }),
            TermFault::TooDeep { depth } => Halt::Found(Refuted::TooDeep { depth }),
            TermFault::Memory => Halt::Memory,
        }
    }

    // Where a term has no normal form.
    pub(crate) fn of_rewrite(fault: RewriteFault) -> Halt
        ensures { result ≡ rewrite_halt fault }
    {
        match fault {
            RewriteFault::Spent => Halt::Found(Refuted::Spent),
            RewriteFault::TooBig { nodes } => Halt::Found(Refuted::TooBig { nodes }),
            RewriteFault::TooDeep { depth } => Halt::Found(Refuted::TooDeep { depth }),
            RewriteFault::Memory => Halt::Memory,
        }
    }
}
