//! Why the derivatives of a goal are not made.
use circ_term::TermFault;
use std::alloc::{AllocError, AllocFailed};

/// Why the derivatives of a goal are not made: what stands first in their way, the derivatives in
/// the theory's order, and of each the numbers of its parameters, then its left side.
#[derive(Drop, Clone, Copy)]
pub enum DeriveFault {
    /// The numbers of variables do not suffice for the parameters.
    Numbers,
    /// A side passes a limit, or memory ran out.
    Term(TermFault),
}

impl From<AllocError> for DeriveFault {
    ghost use Rattle.std.specs.Prelude.{◌≡◌};
    ghost use Rattle.circ_term.specs.declared.fault.TermFault.TheVariants.{Memory};
    ghost use Rattle.circ_rules.specs.declared.fault.DeriveFault.TheVariants.{Term};

    ghost from_gives = { λ _ e. e ≡ Term Memory };

    fn from(_: AllocError) -> DeriveFault {
        DeriveFault::Term(TermFault::Memory)
    }
}

impl<T: Drop> From<AllocFailed<T>> for DeriveFault {
    ghost use Rattle.std.specs.Prelude.{◌≡◌};
    ghost use Rattle.circ_term.specs.declared.fault.TermFault.TheVariants.{Memory};
    ghost use Rattle.circ_rules.specs.declared.fault.DeriveFault.TheVariants.{Term};

    ghost from_gives = { λ _ e. e ≡ Term Memory };

    fn from(_: AllocFailed<T>) -> DeriveFault {
        DeriveFault::Term(TermFault::Memory)
    }
}
