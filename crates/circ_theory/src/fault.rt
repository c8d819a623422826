//! Why a part is not added to a theory.
use std::alloc::{AllocError, AllocFailed};
use std::fmt;
use thiserror::Error;

/// Why a part was not added. A call tests in the order of the variants, and the first that holds is
/// the answer. Numbers of parts are counted from 0.
#[derive(Drop, Clone, Copy, PartialEq, Eq, Error)]
pub enum TheoryFault {
    /// The part is there already, under this number.
    Twice { number: u32 },
    /// There is no sort of this number.
    UnknownSort { number: u32 },
    /// The operator of this number, or that would get it, does not fit its sorts.
    IllSorted { operator: u32 },
    /// A parameter occurs twice.
    NotLinear { variable: u32 },
    /// The hole occurs this many times, and not once.
    HoleCount { count: u32 },
    /// A case list is empty.
    NoConstant,
    /// The sort is hidden, where a visible one is needed.
    NotVisible { sort: u32 },
    /// The sort has a case list, so it cannot become hidden.
    NowHidden { sort: u32 },
    /// A limit is passed: by the arguments, parameters or constants that the part has, or by the
    /// parts of its kind with it.
    Limit { count: u64 },
    /// Memory ran out.
    Memory,
}

impl TheoryFault {
    fn text(&self) -> &'static str {
        match self {
            TheoryFault::Twice { .. } => "it is there already",
            TheoryFault::UnknownSort { .. } => "there is no such sort",
            TheoryFault::IllSorted { .. } => "an operator does not fit its sorts",
            TheoryFault::NotLinear { .. } => "a parameter occurs twice",
            TheoryFault::HoleCount { .. } => "the hole does not occur once",
            TheoryFault::NoConstant => "there is no constant",
            TheoryFault::NotVisible { .. } => "the sort is not visible",
            TheoryFault::NowHidden { .. } => "the sort would become hidden",
            TheoryFault::Limit { .. } => "a limit is passed",
            TheoryFault::Memory => "out of memory",
        }
    }
}

impl fmt::Display for TheoryFault {
    fn fmt<W: fmt::Write>(&self, f: &mut fmt::Formatter<W>) -> fmt::Result {
        f.write_str(self.text())
    }
}

impl fmt::Debug for TheoryFault {
    fn fmt<W: fmt::Write>(&self, f: &mut fmt::Formatter<W>) -> fmt::Result {
        f.write_str(self.text())
    }
}

impl From<AllocError> for TheoryFault {
    ghost use Rattle.std.specs.Prelude.{◌≡◌};
    ghost use Rattle.circ_theory.specs.declared.fault.TheoryFault.TheVariants.{Memory};

    ghost from_gives = { λ _ e. e ≡ Memory };

    fn from(_: AllocError) -> TheoryFault {
        TheoryFault::Memory
    }
}

impl<T: Drop> From<AllocFailed<T>> for TheoryFault {
    ghost use Rattle.std.specs.Prelude.{◌≡◌};
    ghost use Rattle.circ_theory.specs.declared.fault.TheoryFault.TheVariants.{Memory};

    ghost from_gives = { λ _ e. e ≡ Memory };

    fn from(_: AllocFailed<T>) -> TheoryFault {
        TheoryFault::Memory
    }
}
