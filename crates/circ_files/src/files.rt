//! A whole file, taken in pieces.
ghost use Rattle.std.specs.Prelude.{◌≡◌, ◌⊎◌, ◌<◌, ◌≤◌, ◌+◌, ℕ, List, [], true, false, length};
ghost use Rattle.std.specs.Prelude.{Some, IfOk, OnOk, IfErr};
ghost use Rattle.circ_outer.specs.Shelf.{Struck, Missing, ShelfFrame};
ghost use Rattle.circ_files.specs.Files.{IsUntaken};
ghost use Rattle.circ_files.specs.Intake.{TakesBytes};
ghost use Rattle.circ_files.specs.Quiet.{IsQuietCall, IsQuietTaking};

use crate::intake::Intake;
use circ_outer::{OuterFault, Shelf};
use circ_status::Status;
use std::alloc::{AllocError, Global};

/// The most bytes of a file.
pub const MOST_BYTES: usize = 67_108_864;

/// The bytes that a piece takes at most.
pub const PIECE: usize = 65_536;

/// The bytes of a file, or why there are none.
pub fn take_file<S: Shelf>(
    alloc: Global,
    shelf: &mut S,
    file: u8,
    name: &str,
) -> Result<Vec<u8>, Status>
    ensures content { IfOk result (λ v. (S.state shelf.old).tells ≡ true →
        (S.state shelf.old).holds name.now ≡ Some v.items) }
    ensures short { IfOk result (λ v. length v.items ≤ MOST_BYTES) }
    ensures fault { IfErr result (IsUntaken file name.now (S.state shelf.old) (S.state shelf.new)) }
    ensures quiet { IsQuietCall (S.state shelf.old) (S.state shelf.new) result }
    ensures frame { ShelfFrame (S.state shelf.old) (S.state shelf.new) }
{
    let mut bytes = Vec::new(alloc);
    match take_into(alloc, shelf, file, name, &mut bytes) {
        Ok(()) => Ok(bytes),
        Err(status) => Err(status),
    }
}

/// Gives all the bytes of a file to what takes them, or says why there are none.
pub fn take_into<S: Shelf, I: Intake>(
    alloc: Global,
    shelf: &mut S,
    file: u8,
    name: &str,
    into: &mut I,
) -> Result<(), Status>
    requires { I.takes into.old [] into.old }
    ensures taken { OnOk result (TakesBytes name.now (S.state shelf.old)
        (λ bytes. I.takes into.old bytes into.new)) }
    ensures fault { IfErr result (IsUntaken file name.now (S.state shelf.old) (S.state shelf.new)) }
    ensures quiet { IsQuietCall (S.state shelf.old) (S.state shelf.new) result }
    ensures frame { ShelfFrame (S.state shelf.old) (S.state shelf.new) }
{
    match read_file(alloc, shelf, name, into) {
        Ok(()) => Ok(()),
        Err(TakeFault::Failed) => Err(Status::ReadFault {
            count: shelf.faults(),
        }),
        Err(TakeFault::TooLong { count }) => Err(Status::TooLong { file, count }),
        Err(TakeFault::Memory) => Err(Status::Memory),
    }
}

/// Why a file was not taken.
pub enum TakeFault {
    /// The outside failed, or there is no such file.
    Failed,
    /// More than [`MOST_BYTES`] bytes: how many were taken.
    TooLong { count: u64 },
    /// No memory was left.
    Memory,
}

impl From<AllocError> for TakeFault {
    ghost use Rattle.std.specs.Prelude.{◌≡◌};
    ghost use Rattle.circ_files.specs.declared.files.TakeFault.TheVariants.{Memory};

    ghost from_gives = { λ _ fault. fault ≡ Memory };

    fn from(_: AllocError) -> TakeFault {
        TakeFault::Memory
    }
}

impl From<OuterFault> for TakeFault {
    ghost use Rattle.std.specs.Prelude.{◌≡◌};
    ghost use Rattle.circ_files.specs.Files.{take_fault};

    ghost from_gives = { λ e fault. fault ≡ take_fault e };

    fn from(fault: OuterFault) -> TakeFault {
        match fault {
            OuterFault::Failed => TakeFault::Failed,
            OuterFault::Memory => TakeFault::Memory,
        }
    }
}

/// Gives all the bytes of a file.
fn read_file<S: Shelf, I: Intake>(
    alloc: Global,
    shelf: &mut S,
    name: &str,
    into: &mut I,
) -> Result<(), TakeFault>
    requires { I.takes into.old [] into.old }
    ensures taken { OnOk result (TakesBytes name.now (S.state shelf.old)
        (λ bytes. I.takes into.old bytes into.new)) }

    // The count of a file that is too long lies within one piece past the limit, and within the
    // file.
    ensures past { (n : ℕ) → result ≡ Err (TakeFault.TooLong n) →
        (MOST_BYTES < n) × (n ≤ MOST_BYTES + PIECE) }
    ensures long { (n : ℕ) → result ≡ Err (TakeFault.TooLong n) →
        (S.state shelf.old).tells ≡ true → (bytes : List ℕ) ×
        ((S.state shelf.old).holds name.now ≡ Some bytes) × (n ≤ length bytes) }

    ensures failed { result ≡ Err TakeFault.Failed →
        Struck name.now false (S.state shelf.old) (S.state shelf.new)
        ⊎ Missing name.now (S.state shelf.old) (S.state shelf.new) }
    ensures quiet { IsQuietTaking (S.state shelf.old) (S.state shelf.new) result }
    ensures frame { ShelfFrame (S.state shelf.old) (S.state shelf.new) }
{
    shelf.begin(name)?;
    let mut buf = buffer(alloc)?;
    let mut count = 0;
    loop {
        let n = shelf.piece(&mut buf)?;
        if n == 0 {
            return Ok(());
        }
        if n > MOST_BYTES - count {
            return Err(TakeFault::TooLong {
                count: (count + n) as u64,
            });
        }
        into.give(&buf[..n])?;
        count += n;
    }
}

fn buffer(alloc: Global) -> Result<Vec<u8>, AllocError>
    ensures some { IfOk result (λ v. 0 < length v.items) }
    ensures most { IfOk result (λ v. length v.items ≤ PIECE) }
{
    vec![in alloc; 0u8; PIECE]
}
