//! The search for a proof of goals, and what is answered.
ghost use Rattle.std.specs.Prelude.{◌≡◌, None, map, IfOk};
ghost use Rattle.circ_proof.specs.PlainProof.{plain_proof};
ghost use Rattle.circ_proof.specs.Proof.{Proof as PlainProof, ProofFor};
ghost use Rattle.circ_plain_search.specs.Numbering.{Proved};
ghost use Rattle.circ_conditional_search.specs.ConditionalSearch.{CanAllBeSearched};
ghost use Rattle.circ_search.specs.Plain.{plain_found, conduct_with};
ghost use Rattle.circ_status.specs.Texts.{too_long_text, spent_text};
ghost use Rattle.circ_status.specs.Texts.{too_big_text, too_deep_text};
ghost use Rattle.circ_status.specs.declared.status.Status.TheVariants as status;
ghost use Rattle.circ_status.specs.Ending.{ending, plain_ending};
ghost use Rattle.circ_found.specs.Answering.{SearchEnds, found_ending, proof_ending};

use crate::texts::{proved_text, stuck_text};
use circ_attempt::laws::proved_is_accepted;
use circ_file::encode;
use circ_file::laws::texts_decode;
use circ_files::MOST_BYTES;
use circ_proof::Proof;
use circ_search::{Found, Limits, prove};
use circ_status::{Ending, STORED_FILE, Status, Stored, push_counted, push_spent};
use circ_theory::{Goal, Theory};
use std::alloc::{AllocError, Global};

/// The most steps that a run gives a search.
pub const GREATEST_STEPS: u64 = 1_000_000;

/// The most derivations that a run gives a search.
pub const GREATEST_DERIVES: u64 = 10_000;

/// How the search for a proof of these blocks of goals ends. The proof's text is to be stored under
/// this name.
pub fn search<'a>(
    alloc: Global,
    theory: &Theory,
    blocks: &[Vec<Goal>],
    limits: &Limits,
    name: &'a str,
) -> Result<Ending<'a>, AllocError>
    requires { CanAllBeSearched theory.now (map (λ b. b.items) blocks.now) }
    ensures { IfOk result (λ e. SearchEnds theory.now (conduct_with limits.now) name.now
        (map (λ b. b.items) blocks.now) (plain_ending e)) }
{
    theory.known();
    proved_is_accepted();
    let found = prove(alloc, theory, blocks, limits)?;
    found_ending(alloc, theory, &found, name)
}

/// What is answered by what a search found. A proof's text is to be stored under this name.
pub fn found_ending<'a>(
    alloc: Global,
    theory: &Theory,
    found: &Found,
    name: &'a str,
) -> Result<Ending<'a>, AllocError>
    requires { (p : PlainProof) → plain_found found.now ≡ Proved p → ProofFor theory.now p }
    ensures { IfOk result (λ e. plain_ending e ≡
        found_ending theory.now.signature name.now (plain_found found.now)) }
{
    match found {
        Found::Proved { proof } => proof_ending(alloc, theory, proof, name),
        Found::Stuck {
            block,
            goal,
            left,
            right,
            assumptions,
        } => {
            let text = stuck_text(alloc, theory, *block, left, right, assumptions.as_slice())?;
            let (block, goal) = (*block, *goal);
            Ok(unstored(Status::Stuck { block, goal }, text))
        }
        Found::Spent {
            rewrites,
            derives,
            steps,
        } => spent(alloc, *rewrites, *derives, *steps),
        Found::LongTable { .. } => too_long(alloc, MOST_BYTES as u64 + 1),
        Found::TooBig { nodes } => too_big(alloc, *nodes),
        Found::TooDeep { depth } => too_deep(alloc, *depth),
    }
}

/// The proof is stored, unless its text is longer than a file may be.
fn proof_ending<'a>(
    alloc: Global,
    theory: &Theory,
    proof: &Proof,
    name: &'a str,
) -> Result<Ending<'a>, AllocError>
    requires { ProofFor theory.now (plain_proof proof.now) }
    ensures { IfOk result (λ e. plain_ending e ≡
        proof_ending theory.now.signature name.now (plain_proof proof.now)) }
{
    texts_decode();
    let bytes = encode(alloc, proof)?;
    if bytes.len() > MOST_BYTES {
        return too_long(alloc, bytes.len() as u64);
    }
    let text = proved_text(alloc, theory, proof)?;
    Ok(Ending {
        status: Status::Ok,
        text,
        stored: Some(Stored { name, bytes }),
    })
}

/// Nothing is to be stored.
pub(crate) fn unstored<'a>(status: Status, text: Vec<u8>) -> Ending<'a>
    ensures { plain_ending result ≡ ending status text.items None }
{
    Ending {
        status,
        text,
        stored: None,
    }
}

fn too_long<'a>(alloc: Global, count: u64) -> Result<Ending<'a>, AllocError>
    ensures { IfOk result (λ e. plain_ending e ≡
        ending (status.TooLong 3 count) (too_long_text 3) None) }
{
    let mut text = Vec::new(alloc);
    push_counted(&mut text, b"too long: file ", u64::from(STORED_FILE), b"\n")?;
    Ok(unstored(
        Status::TooLong {
            file: STORED_FILE,
            count,
        },
        text,
    ))
}

pub(crate) fn spent<'a>(
    alloc: Global,
    rewrites: u64,
    derives: u64,
    steps: u64,
) -> Result<Ending<'a>, AllocError>
    ensures { IfOk result (λ e. plain_ending e ≡
        ending (status.Spent rewrites derives steps) (spent_text rewrites derives steps) None) }
{
    let mut text = Vec::new(alloc);
    push_spent(&mut text, rewrites, derives, steps)?;
    let status = Status::Spent {
        rewrites,
        derives,
        steps,
    };
    Ok(unstored(status, text))
}

pub(crate) fn too_big<'a>(alloc: Global, nodes: u64) -> Result<Ending<'a>, AllocError>
    ensures { IfOk result (λ e. plain_ending e ≡
        ending (status.TooBig nodes) (too_big_text nodes) None) }
{
    let mut text = Vec::new(alloc);
    push_counted(&mut text, b"too big: ", nodes, b" nodes\n")?;
    Ok(unstored(Status::TooBig { nodes }, text))
}

pub(crate) fn too_deep<'a>(alloc: Global, depth: u64) -> Result<Ending<'a>, AllocError>
    ensures { IfOk result (λ e. plain_ending e ≡
        ending (status.TooDeep depth) (too_deep_text depth) None) }
{
    let mut text = Vec::new(alloc);
    push_counted(&mut text, b"too deep: ", depth, b" levels\n")?;
    Ok(unstored(Status::TooDeep { depth }, text))
}
