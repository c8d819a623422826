//! What comes of a chain.
ghost use Rattle.std.specs.Prelude.{◌≡◌, ◌≤◌, None, IfOk};
ghost use Rattle.circ_proof.specs.PlainProof.{plain_proof};
ghost use Rattle.circ_proof.specs.Proof.{Proof as PlainProof, steps_in};
ghost use Rattle.circ_read.specs.ReadsAs.{ReadsAs};
ghost use Rattle.circ_script.specs.ReadsAsScript.{ReadsAsScript};
ghost use Rattle.circ_script.specs.Script.{plain_script};
ghost use Rattle.circ_script.specs.declared.job.Job.TheVariants.{Prove};
ghost use Rattle.circ_status.specs.declared.status.Status.TheVariants as status;
ghost use Rattle.circ_status.specs.Ending.{ending, plain_ending};
ghost use Rattle.circ_generate.specs.Chain.{chain_theory, chain_script};
ghost use Rattle.circ_generate.specs.Generating.{Generates, IsAcceptedText, unread_ending};
ghost use Rattle.circ_generate.specs.Generating.{summary_text};

use crate::chain::{chain_script, chain_theory};
use circ_attempt::laws::proved_is_accepted;
use circ_check::{Verdict, check};
use circ_file::laws::texts_decode;
use circ_file::{FileFault, decode};
use circ_found::{GREATEST_DERIVES, GREATEST_STEPS, push_counts, search, searchable};
use circ_proof::Proof;
use circ_read::{Cause, ReadFault, read_theory};
use circ_script::laws::scripts_are_fit;
use circ_script::{Job, Script, read_script};
use circ_search::Limits;
use circ_soundness::one_verdict;
use circ_status::{Ending, SCRIPT_FILE, Status, THEORY_FILE, push_counted, push_unreadable};
use circ_theory::Theory;
use std::alloc::{AllocError, Global};

/// What comes of the chain of the streams from 0 to this number.
pub fn generate<'a>(alloc: Global, number: u16) -> Result<Ending<'a>, AllocError>
    ensures { IfOk result (λ e. Generates number (plain_ending e)) }
{
    chain(alloc, u64::from(number))
}

fn chain<'a>(alloc: Global, number: u64) -> Result<Ending<'a>, AllocError>
    requires { number ≤ 65535 }
    ensures { IfOk result (λ e. Generates number (plain_ending e)) }
{
    let text = chain_theory(alloc, number)?;
    match read_theory(alloc, text.as_slice()) {
        Ok(mut theory) => with_theory(alloc, number, &mut theory),
        Err(
            ReadFault::Statement {
                number: place,
                cause,
            },
        ) => unread(alloc, THEORY_FILE, place, cause),
        Err(ReadFault::Memory) => Err(AllocError),
    }
}

fn with_theory<'a>(
    alloc: Global,
    number: u64,
    theory: &mut Theory,
) -> Result<Ending<'a>, AllocError>
    requires most { number ≤ 65535 }
    requires reads { ReadsAs (chain_theory number) theory.old }
    ensures { IfOk result (λ e. Generates number (plain_ending e)) }
{
    let text = chain_script(alloc, number)?;
    match read_script(alloc, theory, text.as_slice(), Job::Prove) {
        Ok(script) => with_script(alloc, number, theory, &script),
        Err(
            ReadFault::Statement {
                number: place,
                cause,
            },
        ) => unread(alloc, SCRIPT_FILE, place, cause),
        Err(ReadFault::Memory) => Err(AllocError),
    }
}

fn with_script<'a>(
    alloc: Global,
    number: u64,
    theory: &Theory,
    script: &Script,
) -> Result<Ending<'a>, AllocError>
    requires theory { ReadsAs (chain_theory number) theory.now }
    requires script { ReadsAsScript theory.now Prove (chain_script number)
        (plain_script script.now) }
    ensures { IfOk result (λ e. Generates number (plain_ending e)) }
{
    theory.known();
    scripts_are_fit();
    searchable(theory, script);
    proved_is_accepted();
    let limits = Limits {
        steps: GREATEST_STEPS,
        derives: GREATEST_DERIVES,
        split: false,
        rewrite: false,
    };
    let Ending {
        status,
        text,
        stored,
    } = search(alloc, theory, script.blocks.as_slice(), &limits, "")?;
    match stored {
        None => Ok(Ending {
            status,
            text,
            stored: None,
        }),
        Some(proof) => summary(alloc, number, theory, proof.bytes.as_slice()),
    }
}

/// The text of an accepted proof is decoded and checked, and its summary is given.
fn summary<'a>(
    alloc: Global,
    number: u64,
    theory: &Theory,
    bytes: &[u8],
) -> Result<Ending<'a>, AllocError>
    requires { (p : PlainProof) × IsAcceptedText theory.now bytes.now p }
    ensures { (p : PlainProof) → IsAcceptedText theory.now bytes.now p → IfOk result
        (λ e. plain_ending e ≡ ending status.Ok (summary_text number p) None) }
{
    theory.known();
    texts_decode();
    one_verdict();
    let proof = match decode(alloc, theory, bytes) {
        Ok(proof) => proof,
        Err(FileFault::Memory) => return Err(AllocError),
        Err(_) => unreachable!(),
    };
    match check(alloc, theory, &proof)? {
        Verdict::Accepted => reported(alloc, number, &proof),
        Verdict::Refused { .. } => unreachable!(),
    }
}

#[tactic(auto, using(crate::proofs::Rules::joins))]
fn reported<'a>(alloc: Global, number: u64, proof: &Proof) -> Result<Ending<'a>, AllocError>
    requires { steps_in (plain_proof proof.now).blocks ≤ 100000 }
    ensures { IfOk result (λ e. plain_ending e ≡
        ending status.Ok (summary_text number (plain_proof proof.now)) None) }
{
    let mut text = Vec::new(alloc);
    push_counted(&mut text, b"generated ", number, b"\n")?;
    push_counts(&mut text, proof.blocks.as_slice())?;
    text.extend_from_slice(b"accepted\n")?;
    Ok(Ending {
        status: Status::Ok,
        text,
        stored: None,
    })
}

fn unread<'a>(alloc: Global, file: u8, place: u64, cause: Cause) -> Result<Ending<'a>, AllocError>
    ensures { IfOk result (λ e. plain_ending e ≡ unread_ending file place cause) }
{
    let mut text = Vec::new(alloc);
    push_unreadable(&mut text, b", statement ", file, place, &cause)?;
    Ok(Ending {
        status: Status::Unreadable { file, place, cause },
        text,
        stored: None,
    })
}
