//! The commands `check` and `relation`: a proof file is checked against a theory file.
ghost use Rattle.std.specs.Prelude.{[], IfOk, IfErr};
ghost use Rattle.circ_outer.specs.Shelf.{ShelfFrame};
ghost use Rattle.circ_reports.specs.Check.{IsAccepted, RefusesCheck};
ghost use Rattle.circ_reports.specs.CheckProof.{AcceptsProof, RefusesProof};
ghost use Rattle.circ_reports.specs.Incoming.{HasTaken};
ghost use Rattle.circ_files.specs.Quiet.{IsQuietCall};

use crate::incoming::Incoming;
use crate::report::Report;
use circ_files::{take_into, take_theory};
use circ_outer::Shelf;
use circ_proof_text::laws::one_answer;
use circ_status::{CHECKED_FILE, Status};
use circ_theory::Theory;
use std::alloc::Global;

/// The report of a proof that is accepted, or the answer in its place.
pub fn check<S: Shelf>(
    alloc: Global,
    shelf: &mut S,
    report: Report,
    theory: &str,
    proof: &str,
) -> Result<Vec<u8>, Status>
    ensures accepted { IfOk result (λ v.
        IsAccepted report theory.now proof.now v.items (S.state shelf.old)) }
    ensures refused { IfErr result
        (RefusesCheck theory.now proof.now (S.state shelf.old) (S.state shelf.new)) }
    ensures quiet { IsQuietCall (S.state shelf.old) (S.state shelf.new) result }
    ensures frame { ShelfFrame (S.state shelf.old) (S.state shelf.new) }
{
    let theory = match take_theory(alloc, shelf, theory) {
        Ok(theory) => theory,
        Err(status) => return Err(status),
    };
    let mut incoming = Incoming::new(alloc, &theory);
    check_proof(alloc, shelf, report, &theory, proof, &mut incoming)
}

/// The same of a proof in this theory. It goes through a reader that nothing came to.
fn check_proof<S: Shelf>(
    alloc: Global,
    shelf: &mut S,
    report: Report,
    theory: &Theory,
    name: &str,
    incoming: &mut Incoming<'_>,
) -> Result<Vec<u8>, Status>
    requires { HasTaken theory.now [] incoming.old }
    ensures accepted { IfOk result (λ v.
        AcceptsProof report name.now theory.now v.items (S.state shelf.old)) }
    ensures refused { IfErr result
        (RefusesProof name.now theory.now (S.state shelf.old) (S.state shelf.new)) }
    ensures quiet { IsQuietCall (S.state shelf.old) (S.state shelf.new) result }
    ensures frame { ShelfFrame (S.state shelf.old) (S.state shelf.new) }
{
    if let Err(status) = take_into(alloc, shelf, CHECKED_FILE, name, incoming) {
        return Err(status);
    }
    theory.known();
    one_answer();
    incoming.judge(report)
}
