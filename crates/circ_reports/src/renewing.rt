//! The command `upgrade`: a proof file is given once more, in version 2.
ghost use Rattle.std.specs.Prelude.{◌≡◌, ◌++◌, Some, IfOk, IfErr, OnOk, map};
ghost use Rattle.circ_outer.specs.Shelf.{ShelfFrame};
ghost use Rattle.circ_proof.specs.PlainProof.{plain_block, plain_proof};
ghost use Rattle.circ_proof.specs.Proof.{Proof as PlainProof, ProofFor};
ghost use Rattle.circ_files.specs.Quiet.{IsQuietCall};
ghost use Rattle.circ_status.specs.declared.status.Status.TheVariants as status;
ghost use Rattle.circ_show.specs.GoalsText.{all_goal_lines};
ghost use Rattle.circ_status.specs.Ending.{ending, plain_ending, plain_stored};
ghost use Rattle.circ_reports.specs.Upgrade.{upgraded_text, upgraded_file, IsUpgraded};
ghost use Rattle.circ_reports.specs.Upgrade.{RefusesUpgrade};

use crate::proof_file::take_proof;
use circ_file::encode;
use circ_file::laws::texts_decode;
use circ_files::take_theory;
use circ_outer::Shelf;
use circ_proof::{Block, Proof};
use circ_show::goals_text;
use circ_status::{Ending, Status, Stored};
use circ_theory::Theory;
use std::alloc::{AllocError, Global};

/// The version that is given.
const NEW_VERSION: u8 = 2;

/// The proof of a file in version 2, with its text to be stored under this name; or the answer in
/// its place. It is not checked.
#[tactic(auto, using(crate::proofs::Upgrading::refusing))]
pub fn upgrade<'a, S: Shelf>(
    alloc: Global,
    shelf: &mut S,
    theory: &str,
    proof: &str,
    name: &'a str,
) -> Result<Ending<'a>, Status>
    ensures upgraded { IfOk result (λ e. (e.status ≡ status.Ok) × IsUpgraded
        theory.now proof.now name.now e.text.items (plain_stored e.stored) (S.state shelf.old)) }
    ensures refused { IfErr result
        (RefusesUpgrade theory.now proof.now (S.state shelf.old) (S.state shelf.new)) }
    ensures quiet { IsQuietCall (S.state shelf.old) (S.state shelf.new) result }
    ensures frame { ShelfFrame (S.state shelf.old) (S.state shelf.new) }
{
    let theory = match take_theory(alloc, shelf, theory) {
        Ok(theory) => theory,
        Err(status) => return Err(status),
    };
    let mut proof = match take_proof(alloc, shelf, &theory, proof) {
        Ok(taken) => taken.proof,
        Err(status) => return Err(status),
    };
    Ok(give_anew(alloc, &theory, &mut proof, name)?)
}

/// The proof in version 2, with its text.
fn give_anew<'a>(
    alloc: Global,
    theory: &Theory,
    proof: &mut Proof,
    name: &'a str,
) -> Result<Ending<'a>, AllocError>
    requires { ProofFor theory.now (plain_proof proof.old) }
    ensures { IfOk result (λ e. plain_ending e ≡ ending status.Ok
        (upgraded_text theory.now.signature (plain_proof proof.old))
        (Some (upgraded_file name.now (plain_proof proof.old)))) }
{
    texts_decode();
    proof.version = NEW_VERSION;
    let bytes = encode(alloc, proof)?;
    let text = upgraded_text(alloc, theory, proof.blocks.as_slice())?;
    Ok(Ending {
        status: Status::Ok,
        text,
        stored: Some(Stored { name, bytes }),
    })
}

/// What is printed of a proof with these blocks: its goals.
fn upgraded_text(alloc: Global, theory: &Theory, blocks: &[Block]) -> Result<Vec<u8>, AllocError>
    ensures { IfOk result (λ v. (p : PlainProof) →
        map plain_block blocks.now ≡ p.blocks →
        v.items ≡ upgraded_text theory.now.signature p) }
{
    let mut out = Vec::from_slice(alloc, b"upgraded\n")?;
    put_goals(alloc, theory, blocks, &mut out)?;
    Ok(out)
}

/// Appends the lines of the blocks' goals.
fn put_goals(
    alloc: Global,
    theory: &Theory,
    blocks: &[Block],
    out: &mut Vec<u8>,
) -> Result<(), AllocError>
    ensures { OnOk result (out.new.items ≡ out.old.items ++ all_goal_lines theory.now.signature
        (map (λ b. b.goals) (map plain_block blocks.now))) }
{
    for block in blocks {
        goals_text(alloc, theory, block.goals.as_slice(), out)?;
    }
    Ok(())
}
