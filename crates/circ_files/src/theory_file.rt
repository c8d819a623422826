//! The theory that a file reads as.
ghost use Rattle.std.specs.Prelude.{IfOk, IfErr};
ghost use Rattle.circ_outer.specs.Shelf.{ShelfFrame};
ghost use Rattle.circ_files.specs.Quiet.{IsQuietCall};
ghost use Rattle.circ_files.specs.TheoryFile.{TakesTheory, IsTheoryFault};

use crate::files::take_file;
use circ_outer::Shelf;
use circ_read::laws::read_in_one_way;
use circ_read::{ReadFault, read_theory};
use circ_status::{Status, THEORY_FILE};
use circ_theory::Theory;
use std::alloc::Global;

/// The theory that file 1 reads as, or why there is none.
pub fn take_theory<S: Shelf>(alloc: Global, shelf: &mut S, name: &str) -> Result<Theory, Status>
    ensures takes { IfOk result (λ th. TakesTheory name.now th (S.state shelf.old)) }
    ensures fault { IfErr result (IsTheoryFault name.now (S.state shelf.old) (S.state shelf.new)) }
    ensures quiet { IsQuietCall (S.state shelf.old) (S.state shelf.new) result }
    ensures frame { ShelfFrame (S.state shelf.old) (S.state shelf.new) }
{
    let bytes = match take_file(alloc, shelf, THEORY_FILE, name) {
        Ok(bytes) => bytes,
        Err(status) => return Err(status),
    };
    read_in_one_way();
    match read_theory(alloc, bytes.as_slice()) {
        Ok(theory) => {
            theory.known();
            Ok(theory)
        }
        Err(ReadFault::Statement { number, cause }) => Err(Status::Unreadable {
            file: THEORY_FILE,
            place: number,
            cause,
        }),
        Err(ReadFault::Memory) => Err(Status::Memory),
    }
}
