//! The command `show`: a theory file is printed as it is read.
ghost use Rattle.std.specs.Prelude.{IfOk, IfErr};
ghost use Rattle.circ_outer.specs.Shelf.{ShelfFrame};
ghost use Rattle.circ_show.specs.TheoryText.{IsTheoryText};
ghost use Rattle.circ_files.specs.Quiet.{IsQuietCall};
ghost use Rattle.circ_reports.specs.Show.{IsShown};
ghost use Rattle.circ_files.specs.TheoryFile.{IsTheoryFault};

use circ_files::take_theory;
use circ_outer::Shelf;
use circ_show::theory_text;
use circ_status::Status;
use circ_theory::Theory;
use std::alloc::{AllocError, Global};

/// The text of the theory, or the answer in its place.
pub fn show<S: Shelf>(alloc: Global, shelf: &mut S, theory: &str) -> Result<Vec<u8>, Status>
    ensures shown { IfOk result (λ v. IsShown theory.now v.items (S.state shelf.old)) }
    ensures refused { IfErr result
        (IsTheoryFault theory.now (S.state shelf.old) (S.state shelf.new)) }
    ensures quiet { IsQuietCall (S.state shelf.old) (S.state shelf.new) result }
    ensures frame { ShelfFrame (S.state shelf.old) (S.state shelf.new) }
{
    let theory = match take_theory(alloc, shelf, theory) {
        Ok(theory) => theory,
        Err(status) => return Err(status),
    };
    Ok(shown(alloc, &theory)?)
}

/// The text of a theory.
fn shown(alloc: Global, theory: &Theory) -> Result<Vec<u8>, AllocError>
    ensures { IfOk result (λ v. IsTheoryText theory.now v.items) }
{
    let mut out = Vec::new(alloc);
    theory_text(alloc, theory, &mut out)?;
    Ok(out)
}
