//! The command `differ`: an experiment is looked for that tells the sides of a script's goal apart.
ghost use Rattle.std.specs.Prelude.{◌≤◌, IfOk, IfErr};
ghost use Rattle.circ_outer.specs.Shelf.{ShelfFrame};
ghost use Rattle.circ_files.specs.Quiet.{IsQuietCall};
ghost use Rattle.circ_status.specs.Ending.{plain_ending};
ghost use Rattle.circ_top.specs.Differ.{IsDifferenceSought};
ghost use Rattle.circ_top.specs.Scripted.{to_differ, RefusesScript};

use circ_files::{take_script, take_theory};
use circ_found::{differ as look_for_difference, plainly_searchable};
use circ_outer::Shelf;
use circ_script::Job;
use circ_script::laws::scripts_are_fit;
use circ_search::Limits;
use circ_status::{Ending, Status};
use std::alloc::Global;

/// How looking for a difference of a script's goals ends, or the answer in its place.
pub(crate) fn differ<'a, S: Shelf>(
    alloc: Global,
    shelf: &mut S,
    limits: Limits,
    theory: &str,
    script: &str,
) -> Result<Ending<'a>, Status>
    requires { limits.derives ≤ 10000 }
    ensures sought { IfOk result (λ e. IsDifferenceSought limits theory.now script.now
        (plain_ending e) (S.state shelf.old)) }
    ensures refused { IfErr result
        (RefusesScript to_differ theory.now script.now (S.state shelf.old) (S.state shelf.new)) }
    ensures quiet { IsQuietCall (S.state shelf.old) (S.state shelf.new) result }
    ensures frame { ShelfFrame (S.state shelf.old) (S.state shelf.new) }
{
    let mut theory = match take_theory(alloc, shelf, theory) {
        Ok(theory) => theory,
        Err(status) => return Err(status),
    };
    let script = match take_script(alloc, shelf, script, &mut theory, Job::Differ) {
        Ok(script) => script,
        Err(status) => return Err(status),
    };
    scripts_are_fit();
    plainly_searchable(&theory, &script);
    let (steps, derives) = (limits.steps, limits.derives);
    match look_for_difference(alloc, &theory, script.blocks.as_slice(), steps, derives) {
        Ok(ending) => Ok(ending),
        Err(_) => Err(Status::Memory),
    }
}
