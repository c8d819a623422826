//! What the program answers.
ghost use Rattle.std.specs.Prelude.{◌≡◌};
ghost use Rattle.circ_status.specs.Status.{number_of};

use circ_read::Cause;
use std::alloc::AllocError;

/// The number of the theory among the files of a run.
pub const THEORY_FILE: u8 = 1;

/// The number of a script that is read.
pub const SCRIPT_FILE: u8 = 2;

/// The number of a proof that is read and checked.
pub const CHECKED_FILE: u8 = 2;

/// The number of a proof that is to be stored.
pub const STORED_FILE: u8 = 3;

/// How a run of the program ended. File 1 is the theory, file 2 the proof or script that is read,
/// and file 3 the proof that is to be stored.
#[derive(Drop)]
pub enum Status {
    /// The work is done, and its text was written.
    Ok,
    /// The first certificate or step that is no instance of its rule. Certificates are counted
    /// first, from 1, and the steps of all blocks follow.
    Refused {
        step: u64,
    },
    /// A text that was not read: its file, the statement or line, and the cause.
    Unreadable {
        file: u8,
        place: u64,
        cause: Cause,
    },
    /// The words are no command.
    Usage,
    /// A file of more than 67,108,864 bytes, and how many bytes of it were taken.
    TooLong {
        file: u8,
        count: u64,
    },
    /// A goal that the search cannot do: its block, and how many goals of the block were taken
    /// up with it, both counted from 1.
    Stuck {
        block: u32,
        goal: u64,
    },
    /// A budget that is used up, and the steps that were made.
    Spent {
        rewrites: u64,
        derives: u64,
        steps: u64,
    },
    /// A file was not read; the shelf's count of faults.
    ReadFault {
        count: u64,
    },
    /// A file was not stored, or the text not written; the count of faults of what failed.
    WriteFault {
        count: u64,
    },
    /// No memory was left.
    Memory,
    /// A term of too many nodes, and their number.
    TooBig {
        nodes: u64,
    },
    /// A term of too many levels, and their number.
    TooDeep {
        depth: u64,
    },
    /// Two automata do not accept the same words, and the length of a shortest word on which they
    /// differ.
    Differ {
        length: u64,
    },
    /// A derivation that needs more units than may be written out, and the first unit that is too
    /// many.
    Expansion {
        units: u64,
    },
    /// An experiment that does not fit a goal: 0 where the proof has no such goal, else the first
    /// entry that does not fit, counted from 1, or the number of entries plus 1.
    Misfit {
        entry: u64,
    },
}

impl From<AllocError> for Status {
    ghost use Rattle.std.specs.Prelude.{◌≡◌};
    ghost use Rattle.circ_status.specs.declared.status.Status.TheVariants.{Memory};

    ghost from_gives = { λ _ status. status ≡ Memory };

    fn from(_: AllocError) -> Status {
        Status::Memory
    }
}

impl Status {
    /// The number with which the program ends.
    pub fn number(&self) -> u8
        ensures { result ≡ number_of self.now }
    {
        match self {
            Status::Ok => 0,
            Status::Refused { .. } => 1,
            Status::Unreadable { .. } => 2,
            Status::Usage => 3,
            Status::TooLong { .. } => 4,
            Status::Stuck { .. } => 5,
            Status::Spent { .. } => 6,
            Status::ReadFault { .. } => 7,
            Status::WriteFault { .. } => 8,
            Status::Memory => 9,
            Status::TooBig { .. } | Status::TooDeep { .. } => 10,
            Status::Differ { .. } => 11,
            Status::Expansion { .. } => 12,
            Status::Misfit { .. } => 13,
        }
    }
}
