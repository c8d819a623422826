//! The proof that a file reads as, whole.
ghost use Rattle.std.specs.Prelude.{◌≡◌, IfOk, IfErr};
ghost use Rattle.circ_outer.specs.Shelf.{ShelfFrame};
ghost use Rattle.circ_proof.specs.PlainProof.{plain_proof};
ghost use Rattle.circ_proof.specs.Proof.{ProofFor};
ghost use Rattle.circ_files.specs.ProofFile.{TakesProof, IsProofFault};
ghost use Rattle.circ_files.specs.Quiet.{IsQuietCall};
ghost use Rattle.circ_reports.specs.PlainProof.{TakesPlainProof, IsPlainProofFault};

use crate::incoming::refusal;
use crate::left_out::left_out;
use circ_file::decode_with_table;
use circ_files::take_file;
use circ_form::Text;
use circ_outer::Shelf;
use circ_proof::Proof;
use circ_proof_text::laws::one_answer;
use circ_read::Cause;
use circ_status::{CHECKED_FILE, Status};
use circ_table::Table;
use circ_theory::Theory;
use std::alloc::Global;

/// A proof, and its table by number.
#[derive(Drop)]
pub(crate) struct TakenProof {
    pub(crate) proof: Proof,
    pub(crate) table: Table,
}

/// The proof that file 2 reads as in this theory, or why there is none.
pub(crate) fn take_proof<S: Shelf>(
    alloc: Global,
    shelf: &mut S,
    theory: &Theory,
    name: &str,
) -> Result<TakenProof, Status>
    ensures takes { IfOk result (λ t.
        TakesProof name.now theory.now (plain_proof t.proof) (S.state shelf.old)) }
    ensures fits { IfOk result (λ t. ProofFor theory.now (plain_proof t.proof)) }
    ensures table { IfOk result (λ t. t.table ≡ t.proof.table.items) }
    ensures fault { IfErr result
        (IsProofFault name.now theory.now (S.state shelf.old) (S.state shelf.new)) }
    ensures quiet { IsQuietCall (S.state shelf.old) (S.state shelf.new) result }
    ensures frame { ShelfFrame (S.state shelf.old) (S.state shelf.new) }
{
    let bytes = match take_file(alloc, shelf, CHECKED_FILE, name) {
        Ok(bytes) => bytes,
        Err(status) => return Err(status),
    };
    theory.known();
    one_answer();
    match decode_with_table(alloc, theory, bytes.as_slice()) {
        Ok((proof, table)) => Ok(TakenProof { proof, table }),
        Err(fault) => Err(refusal(fault)),
    }
}

/// The same for a command that leaves conditions out.
pub(crate) fn take_plain_proof<S: Shelf>(
    alloc: Global,
    shelf: &mut S,
    theory: &Theory,
    name: &str,
) -> Result<TakenProof, Status>
    ensures takes { IfOk result (λ t.
        TakesPlainProof name.now theory.now (plain_proof t.proof) (S.state shelf.old)) }
    ensures table { IfOk result (λ t. t.table ≡ t.proof.table.items) }
    ensures fault { IfErr result
        (IsPlainProofFault name.now theory.now (S.state shelf.old) (S.state shelf.new)) }
    ensures quiet { IsQuietCall (S.state shelf.old) (S.state shelf.new) result }
    ensures frame { ShelfFrame (S.state shelf.old) (S.state shelf.new) }
{
    let taken = match take_proof(alloc, shelf, theory, name) {
        Ok(taken) => taken,
        Err(status) => return Err(status),
    };
    if let Some(word) = left_out(&taken.proof) {
        let word = Text::of(alloc, word)?;
        return Err(Status::Unreadable {
            file: CHECKED_FILE,
            place: 0,
            cause: Cause::LeftOut { word },
        });
    }
    Ok(taken)
}
