//! The command `prove`: a proof of a script's goals is searched for.
ghost use Rattle.std.specs.Prelude.{IfOk, IfErr};
ghost use Rattle.circ_outer.specs.Shelf.{ShelfFrame};
ghost use Rattle.circ_files.specs.Quiet.{IsQuietCall};
ghost use Rattle.circ_status.specs.Ending.{plain_ending};
ghost use Rattle.circ_top.specs.Prove.{IsSearched};
ghost use Rattle.circ_top.specs.Scripted.{to_prove, RefusesScript};

use circ_files::{take_script, take_theory};
use circ_found::{search, searchable};
use circ_outer::Shelf;
use circ_script::Job;
use circ_script::laws::scripts_are_fit;
use circ_search::Limits;
use circ_status::{Ending, Status};
use std::alloc::Global;

/// How the search for a proof of a script's goals ends, with the proof's text to be stored under
/// this name; or the answer in its place.
pub(crate) fn prove<'a, S: Shelf>(
    alloc: Global,
    shelf: &mut S,
    limits: Limits,
    theory: &str,
    script: &str,
    name: &'a str,
) -> Result<Ending<'a>, Status>
    ensures searched { IfOk result (λ e. IsSearched limits theory.now script.now name.now
        (plain_ending e) (S.state shelf.old)) }
    ensures refused { IfErr result
        (RefusesScript to_prove theory.now script.now (S.state shelf.old) (S.state shelf.new)) }
    ensures quiet { IsQuietCall (S.state shelf.old) (S.state shelf.new) result }
    ensures frame { ShelfFrame (S.state shelf.old) (S.state shelf.new) }
{
    let mut theory = match take_theory(alloc, shelf, theory) {
        Ok(theory) => theory,
        Err(status) => return Err(status),
    };
    let script = match take_script(alloc, shelf, script, &mut theory, Job::Prove) {
        Ok(script) => script,
        Err(status) => return Err(status),
    };
    scripts_are_fit();
    searchable(&theory, &script);
    match search(alloc, &theory, script.blocks.as_slice(), &limits, name) {
        Ok(ending) => Ok(ending),
        Err(_) => Err(Status::Memory),
    }
}
