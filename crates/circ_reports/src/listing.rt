//! The command `contexts`: the greatest special set of a theory file is printed.
ghost use Rattle.std.specs.Prelude.{IfOk, IfErr};
ghost use Rattle.circ_outer.specs.Shelf.{ShelfFrame};
ghost use Rattle.circ_files.specs.Quiet.{IsQuietCall};
ghost use Rattle.circ_files.specs.TheoryFile.{IsTheoryFault};
ghost use Rattle.circ_reports.specs.Contexts.{IsContextsText, IsListed};

use circ_contexts::special_places;
use circ_files::take_theory;
use circ_outer::Shelf;
use circ_show::contexts_text;
use circ_status::Status;
use circ_theory::Theory;
use std::alloc::{AllocError, Global};

/// The lines of the set's places, or the answer in their place. Each start term has the budget for
/// itself.
pub fn contexts<S: Shelf>(
    alloc: Global,
    shelf: &mut S,
    budget: u64,
    theory: &str,
) -> Result<Vec<u8>, Status>
    ensures listed { IfOk result (λ v.
        IsListed budget theory.now v.items (S.state shelf.old)) }
    ensures refused { IfErr result
        (IsTheoryFault theory.now (S.state shelf.old) (S.state shelf.new)) }
    ensures quiet { IsQuietCall (S.state shelf.old) (S.state shelf.new) result }
    ensures frame { ShelfFrame (S.state shelf.old) (S.state shelf.new) }
{
    let theory = match take_theory(alloc, shelf, theory) {
        Ok(theory) => theory,
        Err(status) => return Err(status),
    };
    Ok(listed(alloc, &theory, budget)?)
}

/// The lines of a theory's greatest special set.
fn listed(alloc: Global, theory: &Theory, budget: u64) -> Result<Vec<u8>, AllocError>
    ensures { IfOk result (λ v. IsContextsText theory.now budget v.items) }
{
    let gamma = special_places(alloc, theory, budget)?;
    let mut out = Vec::new(alloc);
    contexts_text(alloc, theory, &gamma, &mut out)?;
    Ok(out)
}
