//! The texts of answers, part by part.
ghost use Rattle.std.specs.Prelude.{◌≡◌, ◌++◌, OnOk, codes, decimal};
ghost use Rattle.circ_status.specs.Texts.{words_of_cause, details_of_cause, cause_text};
ghost use Rattle.circ_status.specs.Texts.{unreadable_text, spent_text};

use circ_read::Cause;
use itoa::Buffer;
use std::alloc::AllocError;

/// Appends the text of a file that was not read, with the words for its places.
#[tactic(auto, using(crate::proofs::Rules::joins))]
pub fn push_unreadable(
    out: &mut Vec<u8>,
    words: &[u8],
    file: u8,
    place: u64,
    cause: &Cause,
) -> Result<(), AllocError>
    ensures { OnOk result (out.new.items ≡ out.old.items
        ++ unreadable_text words.now file place cause.now) }
{
    push_place(out, words, file, place)?;
    push_cause(out, cause)?;
    out.extend_from_slice(b"\n")
}

/// Appends the text of a budget that is used up.
#[tactic(auto, using(crate::proofs::Rules::joins))]
pub fn push_spent(
    out: &mut Vec<u8>,
    rewrites: u64,
    derives: u64,
    steps: u64,
) -> Result<(), AllocError>
    ensures { OnOk result (out.new.items ≡ out.old.items ++ spent_text rewrites derives steps) }
{
    push_numbered(out, b"spent: ", rewrites)?;
    push_numbered(out, b" rewrites, ", derives)?;
    push_numbered(out, b" derives, ", steps)?;
    out.extend_from_slice(b" steps\n")
}

#[tactic(auto, using(crate::proofs::Rules::joins))]
fn push_place(out: &mut Vec<u8>, words: &[u8], file: u8, place: u64) -> Result<(), AllocError>
    ensures { OnOk result (out.new.items ≡ out.old.items ++ (codes "unreadable: file "
        ++ decimal file ++ words.now ++ decimal place ++ codes ", ")) }
{
    push_numbered(out, b"unreadable: file ", u64::from(file))?;
    push_numbered(out, words, place)?;
    out.extend_from_slice(b", ")
}

#[tactic(auto, using(crate::proofs::Rules::joins))]
fn push_cause(out: &mut Vec<u8>, cause: &Cause) -> Result<(), AllocError>
    ensures { OnOk result (out.new.items ≡ out.old.items ++ cause_text cause.now) }
{
    out.extend_from_slice(cause_words(cause))?;
    push_details(out, cause)
}

/// The words of a cause, which its details follow.
fn cause_words(cause: &Cause) -> &'static [u8]
    ensures { result.now ≡ words_of_cause cause.now }
{
    match cause {
        Cause::NotAscii { .. } => b"not ascii at ",
        Cause::Control { .. } => b"control at ",
        Cause::LeftOut { .. } => b"left out: ",
        Cause::Shape => b"shape",
        Cause::UnknownTheory => b"unknown theory",
        Cause::UnknownSort => b"unknown sort",
        Cause::TooLong { .. } => b"too long: ",
        Cause::NoParse => b"no parse",
        Cause::Ambiguous { .. } => b"ambiguous: ",
        Cause::Twice { .. } => b"twice: ",
        Cause::IllSorted { .. } => b"ill sorted: ",
        Cause::NotLinear { .. } => b"not linear: ",
        Cause::HoleCount { .. } => b"holes: ",
        Cause::NoConstant => b"no constant",
        Cause::NotVisible { .. } => b"not visible: ",
        Cause::NowHidden { .. } => b"now hidden: ",
        Cause::Limit { .. } => b"limit: ",
        Cause::NoGoal => b"no goal",
        Cause::Unclosed => b"unclosed",
        Cause::Line => b"form",
        Cause::LineLimit => b"limit",
    }
}

fn push_details(out: &mut Vec<u8>, cause: &Cause) -> Result<(), AllocError>
    ensures { OnOk result (out.new.items ≡ out.old.items ++ details_of_cause cause.now) }
{
    match cause {
        Cause::NotAscii { place: n } | Cause::Control { place: n } | Cause::Limit { count: n } => {
            push_number(out, *n)
        }
        Cause::Twice { number: n }
        | Cause::IllSorted { operator: n }
        | Cause::NotLinear { variable: n }
        | Cause::HoleCount { count: n }
        | Cause::NotVisible { sort: n }
        | Cause::NowHidden { sort: n } => push_number(out, u64::from(*n)),
        Cause::LeftOut { word } => out.extend_from_slice(word.bytes()),
        Cause::TooLong { count } => {
            push_number(out, *count)?;
            out.extend_from_slice(b" tokens")
        }
        Cause::Ambiguous { first, second } => push_readings(out, first.bytes(), second.bytes()),
        _ => Ok(()),
    }
}

#[tactic(auto, using(crate::proofs::Rules::joins))]
fn push_readings(out: &mut Vec<u8>, first: &[u8], second: &[u8]) -> Result<(), AllocError>
    ensures { OnOk result (out.new.items ≡ out.old.items
        ++ (first.now ++ codes " | " ++ second.now)) }
{
    out.extend_from_slice(first)?;
    out.extend_from_slice(b" | ")?;
    out.extend_from_slice(second)
}

/// Appends a number between two texts.
#[tactic(auto, using(crate::proofs::Rules::joins))]
pub fn push_counted(
    out: &mut Vec<u8>,
    before: &[u8],
    number: u64,
    after: &[u8],
) -> Result<(), AllocError>
    ensures { OnOk result (out.new.items ≡ out.old.items
        ++ (before.now ++ decimal number ++ after.now)) }
{
    push_numbered(out, before, number)?;
    out.extend_from_slice(after)
}

/// Appends a text and a number.
pub fn push_numbered(out: &mut Vec<u8>, text: &[u8], number: u64) -> Result<(), AllocError>
    ensures { OnOk result (out.new.items ≡ out.old.items ++ (text.now ++ decimal number)) }
{
    out.extend_from_slice(text)?;
    push_number(out, number)
}

fn push_number(out: &mut Vec<u8>, number: u64) -> Result<(), AllocError>
    ensures { OnOk result (out.new.items ≡ out.old.items ++ decimal number) }
{
    let mut buffer = Buffer::new();
    out.extend_from_slice(buffer.format(number).as_bytes())
}
