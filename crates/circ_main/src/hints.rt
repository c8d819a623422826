//! Lines on standard error that help with an answer: where a text is wrong, which goal is stuck,
//! which word is no command, why a file was not read.
use crate::read_faults::why_unread;
use circ_hints::{
    Asked, Seen, Source, explain_call, misfit, no_difference, search_calls, stuck_end, stuck_goal,
    unread_expression, unreadable, usage,
};
use circ_read::Cause;
use circ_top::Status;
use std::alloc::AllocError;
use std::rt::Files;
use std::{fs, str};

/// The number of the theory among the files of a command.
const THEORY_FILE: u8 = 1;

/// The number of the script.
const SCRIPT_FILE: u8 = 2;

/// Prints the hint for an answer, if there is one. The name is that of the file of the last fault,
/// and this was seen of the text that was printed.
pub fn print_hint<R: Files + AllocGlobal + Eprint>(
    rt: &R,
    words: &[String],
    status: &Status,
    name: Option<&[u8]>,
    seen: Seen,
) {
    if let Ok(Some(text)) = hint(rt, words, status, name, seen) {
        let _ = eprint!(rt; "{text}");
    }
}

fn hint<R: Files + AllocGlobal>(
    rt: &R,
    words: &[String],
    status: &Status,
    name: Option<&[u8]>,
    seen: Seen,
) -> Result<Option<String>, AllocError> {
    let asked = Asked::new(words);
    match status {
        Status::Usage => Ok(Some(usage(rt.alloc(), words)?)),
        Status::Ok if asked.command() == "differ" => no_difference_hint(rt, asked),
        Status::Unreadable { file, place, cause } => {
            unreadable_hint(rt, asked, *file, *place, cause)
        }
        Status::Stuck { block, goal } => stuck_hint(rt, asked, *block, *goal, seen),
        Status::Spent { .. } | Status::TooBig { .. } | Status::TooDeep { .. } => {
            Ok(Some(search_calls(rt.alloc(), asked, seen)?))
        }
        Status::Refused { .. } => Ok(Some(explain_call(rt.alloc(), asked)?)),
        Status::Misfit { entry } => Ok(Some(misfit(rt.alloc(), asked, *entry)?)),
        Status::ReadFault { .. } => read_fault_hint(rt, name),
        _ => Ok(None),
    }
}

/// What keeps a `differ` from telling the goals apart, if that is seen in the theory.
fn no_difference_hint<R: Files + AllocGlobal>(
    rt: &R,
    asked: Asked<'_>,
) -> Result<Option<String>, AllocError> {
    let Some((_, theory)) = file_of(rt, asked, THEORY_FILE) else {
        return Ok(None);
    };
    Ok(Some(no_difference(rt.alloc(), theory.as_slice())?))
}

/// Why the file of a name was not read, if that is seen.
fn read_fault_hint<R: Files + AllocGlobal>(
    rt: &R,
    name: Option<&[u8]>,
) -> Result<Option<String>, AllocError> {
    let Ok(name) = str::from_utf8(name.unwrap_or(b"")) else {
        return Ok(None);
    };
    match why_unread(rt, name) {
        Some(says) => Ok(Some(format!(in rt.alloc(); "circ: {says}\n")?)),
        None => Ok(None),
    }
}

/// The name and the bytes of a file of a command, if it is a regular one: a pipe gives its bytes
/// once.
fn file_of<'a, R: Files + AllocGlobal>(
    rt: &R,
    asked: Asked<'a>,
    number: u8,
) -> Option<(&'a str, Vec<u8>)> {
    let name = asked.file(number)?;
    match fs::metadata(rt, name) {
        Ok(metadata) if metadata.is_file() => match fs::read(rt, name) {
            Ok(bytes) => Some((name, bytes)),
            Err(_) => None,
        },
        _ => None,
    }
}

fn unreadable_hint<R: Files + AllocGlobal>(
    rt: &R,
    asked: Asked<'_>,
    number: u8,
    place: u64,
    cause: &Cause,
) -> Result<Option<String>, AllocError> {
    if asked.command() == "regex" {
        return Ok(Some(unread_expression(rt.alloc(), asked, number, cause)?));
    }
    let Some((name, bytes)) = file_of(rt, asked, number) else {
        return Ok(None);
    };
    let kind = asked.kind(number);
    let theory = if kind.is_script() {
        file_of(rt, asked, THEORY_FILE)
    } else {
        None
    };
    let source = Source {
        name,
        kind,
        bytes: bytes.as_slice(),
        theory: match &theory {
            Some((_, bytes)) => bytes.as_slice(),
            None => &[],
        },
    };
    Ok(Some(unreadable(rt.alloc(), &source, place, cause)?))
}

fn stuck_hint<R: Files + AllocGlobal>(
    rt: &R,
    asked: Asked<'_>,
    block: u32,
    goal: u64,
    seen: Seen,
) -> Result<Option<String>, AllocError> {
    let mut text = String::new(rt.alloc());
    let mut script = Vec::new(rt.alloc());
    if let Some((name, bytes)) = file_of(rt, asked, SCRIPT_FILE) {
        if !asked.splits() {
            text = stuck_goal(rt.alloc(), name, bytes.as_slice(), block, goal)?;
        }
        script = bytes;
    }
    text.push_str(stuck_end(rt.alloc(), asked, seen, script.as_slice())?.as_str())?;
    text.push_str(search_calls(rt.alloc(), asked, seen)?.as_str())?;
    Ok(Some(text))
}
