//! Why a text is refused.
ghost use Rattle.std.specs.Prelude.{◌≡◌};
ghost use Rattle.circ_read.specs.declared.cause.Fault.TheVariants.{Because};
ghost use Rattle.circ_read.specs.Steps.{fault_of, byte_fault, done};

use circ_form::Text;
use circ_lexer::LexFault;
use circ_theory::TheoryFault;
use std::alloc::{AllocError, AllocFailed};

/// Why a statement, an item or a line of a text is refused. The causes of one statement are tested
/// in the order of the variants. Numbers of parts are counted from 0.
#[derive(Drop)]
pub enum Cause {
    /// The byte at this place, counted from 0, is 128 or more.
    NotAscii { place: u64 },
    /// The byte at this place is below 32 and no blank, or 127.
    Control { place: u64 },
    /// The statement is of a kind that is left out, or has an attribute that is.
    LeftOut { word: Text },
    /// The tokens have no form of a statement.
    Shape,
    /// The library has no theory of this name.
    UnknownTheory,
    /// No sort has the name.
    UnknownSort,
    /// A term has this many tokens.
    TooLong { count: u64 },
    /// The tokens have no reading.
    NoParse,
    /// The tokens have several readings, of which these are two.
    Ambiguous { first: Text, second: Text },
    /// The part is there already, under this number.
    Twice { number: u32 },
    /// The operator of this number, or that would get it, does not fit its sorts.
    IllSorted { operator: u32 },
    /// A parameter occurs twice.
    NotLinear { variable: u32 },
    /// The hole occurs this many times.
    HoleCount { count: u32 },
    /// A case list is empty.
    NoConstant,
    /// The sort of a case list is hidden.
    NotVisible { sort: u32 },
    /// A sort with a case list would become hidden.
    NowHidden { sort: u32 },
    /// A limit is passed.
    Limit { count: u64 },
    /// A script asks for nothing.
    NoGoal,
    /// The goals of a script are not closed.
    Unclosed,
    /// A line of a proof file has not its form.
    Line,
    /// A line of a proof file passes a limit.
    LineLimit,
}

/// Why a text is not read.
#[derive(Drop)]
pub enum ReadFault {
    /// The first cause, with the number of its statement.
    Statement { number: u64, cause: Cause },
    /// Memory ran out.
    Memory,
}

/// Why a step of a reader ends, without the number of its statement.
#[derive(Drop)]
pub enum Fault {
    /// The first cause.
    Because { cause: Cause },
    /// Memory ran out.
    Memory,
}

impl From<AllocError> for Fault {
    ghost use Rattle.std.specs.Prelude.{◌≡◌};
    ghost use Rattle.circ_read.specs.declared.cause.Fault.TheVariants.{Memory};

    ghost from_gives = { λ _ e. e ≡ Memory };

    fn from(_: AllocError) -> Fault {
        Fault::Memory
    }
}

impl<T: Drop> From<AllocFailed<T>> for Fault {
    ghost use Rattle.std.specs.Prelude.{◌≡◌};
    ghost use Rattle.circ_read.specs.declared.cause.Fault.TheVariants.{Memory};

    ghost from_gives = { λ _ e. e ≡ Memory };

    fn from(_: AllocFailed<T>) -> Fault {
        Fault::Memory
    }
}

/// The step ends for this cause.
pub fn because(cause: Cause) -> Fault
    ensures { result ≡ Because cause }
{
    Fault::Because { cause }
}

// The cause that a fault of a theory is.
pub(crate) fn fault_of(fault: TheoryFault) -> Fault
    ensures { result ≡ fault_of fault }
{
    let cause = match fault {
        TheoryFault::Twice { number } => Cause::Twice { number },
        TheoryFault::UnknownSort { .. } => Cause::UnknownSort,
        TheoryFault::IllSorted { operator } => Cause::IllSorted { operator },
        TheoryFault::NotLinear { variable } => Cause::NotLinear { variable },
        TheoryFault::HoleCount { count } => Cause::HoleCount { count },
        TheoryFault::NoConstant => Cause::NoConstant,
        TheoryFault::NotVisible { sort } => Cause::NotVisible { sort },
        TheoryFault::NowHidden { sort } => Cause::NowHidden { sort },
        TheoryFault::Limit { count } => Cause::Limit { count },
        TheoryFault::Memory => return Fault::Memory,
    };
    Fault::Because { cause }
}

/// The answer of a call that adds a part to a theory, without the part's number.
pub fn done(answer: Result<u32, TheoryFault>) -> Result<(), Fault>
    ensures { result ≡ done answer }
{
    match answer {
        Ok(_) => Ok(()),
        Err(fault) => Err(fault_of(fault)),
    }
}

/// The fault that bytes which are no tokens are.
pub fn byte_fault(fault: LexFault) -> Fault
    ensures { result ≡ byte_fault fault }
{
    let cause = match fault {
        LexFault::NotAscii { place } => Cause::NotAscii { place },
        LexFault::Control { place } => Cause::Control { place },
        LexFault::Memory => return Fault::Memory,
    };
    Fault::Because { cause }
}
