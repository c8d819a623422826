//! The texts of refusals.
ghost use Rattle.std.specs.Prelude.{◌≡◌, ◌++◌, OnOk, OnErr, IfOk};
ghost use Rattle.circ_files.specs.Quiet.{HasText};
ghost use Rattle.circ_top.specs.Command.{plain_request};
ghost use Rattle.circ_top.specs.Refusals.{place_text, refusal_text, usage_text};

use crate::request::Request;
use circ_status::{CHECKED_FILE, Status, push_counted, push_spent, push_unreadable};
use std::alloc::{AllocError, Global};

/// The text of a command's refusal: nothing for the answers that have a text of their own, or
/// none.
pub(crate) fn refusal(
    alloc: Global,
    request: &Request<'_>,
    status: &Status,
) -> Result<Vec<u8>, AllocError>
    ensures text { IfOk result (λ v.
        v.items ≡ refusal_text (plain_request request.now) status.now) }
    ensures memory { OnErr result (HasText status.now) }
{
    let mut out = Vec::new(alloc);
    push_refusal(&mut out, request, status)?;
    Ok(out)
}

/// The text where the words are no command.
pub(crate) fn usage() -> &'static [u8]
    ensures { result.now ≡ usage_text }
{
    b"usage: circ [--steps N] [--derives N] COMMAND WORD...\n"
}

fn push_refusal(out: &mut Vec<u8>, request: &Request<'_>, status: &Status) -> Result<(), AllocError>
    ensures text { OnOk result (out.new.items ≡ out.old.items
        ++ refusal_text (plain_request request.now) status.now) }
    ensures memory { OnErr result (HasText status.now) }
{
    match status {
        Status::Refused { step } => push_counted(out, b"refused at ", *step, b"\n"),
        Status::Unreadable { file, place, cause } => {
            push_unreadable(out, place_words(request, *file), *file, *place, cause)
        }
        Status::TooLong { file, .. } => {
            push_counted(out, b"too long: file ", u64::from(*file), b"\n")
        }
        Status::Spent {
            rewrites,
            derives,
            steps,
        } => push_spent(out, *rewrites, *derives, *steps),
        Status::TooBig { nodes } => push_counted(out, b"too big: ", *nodes, b" nodes\n"),
        Status::TooDeep { depth } => push_counted(out, b"too deep: ", *depth, b" levels\n"),
        Status::Expansion { .. } => out.extend_from_slice(b"expansion too long\n"),
        Status::Misfit { entry } => push_counted(out, b"no fit at ", *entry, b"\n"),
        _ => Ok(()),
    }
}

/// The places of a file's text: lines of a proof, else statements.
fn place_words(request: &Request<'_>, file: u8) -> &'static [u8]
    ensures { result.now ≡ place_text (plain_request request.now) file }
{
    match request {
        Request::Check { .. } | Request::Upgrade { .. } | Request::Expand { .. }
            if file == CHECKED_FILE => { b", line " }
        _ => b", statement ",
    }
}
