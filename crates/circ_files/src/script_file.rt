//! The script that a file reads as.
ghost use Rattle.std.specs.Prelude.{◌≡◌, IfOk, IfErr};
ghost use Rattle.circ_outer.specs.Shelf.{ShelfFrame};
ghost use Rattle.circ_script.specs.Script.{plain_script};
ghost use Rattle.circ_files.specs.Quiet.{IsQuietCall};
ghost use Rattle.circ_files.specs.ScriptFile.{TakesScript, IsScriptFault};

use crate::files::take_file;
use circ_outer::Shelf;
use circ_read::ReadFault;
use circ_script::laws::read_in_one_way;
use circ_script::{Job, Script, read_script};
use circ_status::{SCRIPT_FILE, Status};
use circ_theory::Theory;
use std::alloc::Global;

/// The script that file 2 reads as for a job, or why there is none. The theory is afterwards as it
/// was.
pub fn take_script<S: Shelf>(
    alloc: Global,
    shelf: &mut S,
    name: &str,
    theory: &mut Theory,
    job: Job,
) -> Result<Script, Status>
    ensures takes { IfOk result (λ s.
        TakesScript name.now theory.old job (plain_script s) (S.state shelf.old)) }
    ensures fault { IfErr result
        (IsScriptFault name.now theory.old job (S.state shelf.old) (S.state shelf.new)) }
    ensures kept { theory.new ≡ theory.old }
    ensures quiet { IsQuietCall (S.state shelf.old) (S.state shelf.new) result }
    ensures frame { ShelfFrame (S.state shelf.old) (S.state shelf.new) }
{
    let bytes = match take_file(alloc, shelf, SCRIPT_FILE, name) {
        Ok(bytes) => bytes,
        Err(status) => return Err(status),
    };
    read_in_one_way();
    match read_script(alloc, theory, bytes.as_slice(), job) {
        Ok(script) => Ok(script),
        Err(ReadFault::Statement { number, cause }) => Err(Status::Unreadable {
            file: SCRIPT_FILE,
            place: number,
            cause,
        }),
        Err(ReadFault::Memory) => Err(Status::Memory),
    }
}
