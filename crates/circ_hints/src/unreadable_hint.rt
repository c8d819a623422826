//! The hint for a text that was not read.
use crate::automata::automaton_shape;
use crate::causes::{name_of, says_of};
use crate::conditions::hidden_condition;
use crate::drawing::{Place, bytes_at, push_picture, push_position};
use crate::known::Known;
use crate::left_out::left_out;
use crate::marks::Mark;
use crate::parts::{Part, first, is, is_either, item_at, next, statement_at};
use crate::proof_lines::{line_at, says_of_line, word_at_line};
use crate::scripts::item_shape;
use crate::shapes::statement_shape;
use crate::terms::{unread_part, unread_word};
use crate::texts::{text_of, written};
use circ_lexer::Tokens;
use circ_read::Cause;
use std::alloc::{AllocError, Global};
use std::fmt::Write;

/// As many names of a statement as are looked up.
const MOST_NAMES: usize = 100;

/// What a text is to be read as.
#[derive(Clone, Copy, PartialEq, Eq)]
pub enum SourceKind {
    Theory,
    /// A script of goals.
    Script,
    /// A script of terms, for `reduce`.
    Terms,
    Automaton,
    Proof,
}

impl SourceKind {
    /// Whether it is read in a theory, item by item.
    pub fn is_script(self) -> bool {
        self == SourceKind::Script || self == SourceKind::Terms
    }
}

/// A text that was not read.
#[derive(Clone, Copy)]
pub struct Source<'a> {
    /// The name of its file.
    pub name: &'a str,
    pub kind: SourceKind,
    pub bytes: &'a [u8],
    /// The text of the theory in which a script is read; empty for other texts.
    pub theory: &'a [u8],
}

/// Where the hint of a cause points to, and what it says.
#[derive(Clone, Copy)]
struct Finding<'a> {
    place: Place,
    names: bool,
    /// The name with which it begins to say something, or nothing.
    subject: &'a [u8],
    says: &'static str,
}

impl Finding<'_> {
    /// What is said of a place.
    fn at(place: Place, says: &'static str) -> Finding<'static> {
        Finding {
            place,
            names: false,
            subject: &[],
            says,
        }
    }
}

/// The hint for a text that was not read, by the number of the statement, item or line and the
/// cause of the answer: the place in the form `NAME:LINE:COLUMN: CAUSE: ..`, and its line with a
/// mark below.
pub fn unreadable(
    alloc: Global,
    source: &Source<'_>,
    number: u64,
    cause: &Cause,
) -> Result<String, AllocError> {
    let finding = find(alloc, source, number, cause)?;
    let mut out = String::new(alloc);
    let done = push_finding(&mut out, source, name_of(cause), finding);
    written(out, done)
}

fn push_finding(
    out: &mut String,
    source: &Source<'_>,
    cause: &str,
    finding: Finding<'_>,
) -> Result<(), AllocError> {
    push_position(out, source.name, source.bytes, finding.place.at)?;
    out.push_str(cause)?;
    if finding.names {
        push_name(out, text_of(bytes_at(source.bytes, finding.place)))?;
    }
    push_says(out, text_of(finding.subject), finding.says)?;
    push_picture(out, source.bytes, finding.place)
}

/// Appends a name between marks.
fn push_name(out: &mut String, name: &str) -> Result<(), AllocError> {
    write!(out, " `{name}`")
}

/// Appends what is said of a place, and ends the line.
fn push_says(out: &mut String, subject: &str, says: &str) -> Result<(), AllocError> {
    writeln!(out, ": {subject}{says}")
}

fn find<'a>(
    alloc: Global,
    source: &Source<'a>,
    number: u64,
    cause: &Cause,
) -> Result<Finding<'a>, AllocError> {
    if let Cause::NotAscii { place } | Cause::Control { place } = cause {
        let place = Place {
            at: *place as usize,
            width: 1,
        };
        return Ok(Finding::at(place, says_of(cause)));
    }
    if source.kind == SourceKind::Proof {
        return Ok(line_finding(source.bytes, number, cause));
    }
    match Tokens::of(alloc, source.bytes) {
        Ok(tokens) => token_finding(alloc, source, &tokens, number, cause),
        Err(_) => Ok(Finding::at(Place { at: 0, width: 1 }, says_of(cause))),
    }
}

/// What is found of a line of a proof.
fn line_finding(bytes: &[u8], number: u64, cause: &Cause) -> Finding<'static> {
    if let Cause::LeftOut { word } = cause {
        let says = "`expand` does not take proofs with conditions";
        return Finding::at(word_at_line(bytes, word.bytes()), says);
    }
    let place = line_at(bytes, number);
    let says = match cause {
        Cause::Line => says_of_line(bytes, place, number),
        _ => says_of(cause),
    };
    Finding::at(place, says)
}

fn token_finding<'a>(
    alloc: Global,
    source: &Source<'a>,
    tokens: &Tokens<'a>,
    number: u64,
    cause: &Cause,
) -> Result<Finding<'a>, AllocError> {
    if let Cause::NotVisible { sort } = cause {
        return hidden_sort(alloc, source, tokens, number, *sort);
    }
    let mark = mark_of(alloc, source, tokens, number, cause)?;
    Ok(Finding {
        place: mark.place(tokens, source.bytes.len()),
        names: mark.names,
        subject: &[],
        says: mark.says,
    })
}

/// What is found of a condition or a case list of a hidden sort.
fn hidden_sort<'a>(
    alloc: Global,
    source: &Source<'a>,
    tokens: &Tokens<'a>,
    number: u64,
    sort: u32,
) -> Result<Finding<'a>, AllocError> {
    let part = part_of(source, tokens, number);
    let subject = name_of_sort(alloc, source, tokens, part, sort)?;
    let mut finding = if is(tokens, part.from, b"cases") {
        let mark = Mark::at(part.nth(1), " is hidden; a case list is of a visible sort");
        Finding::at(mark.place(tokens, source.bytes.len()), mark.says)
    } else {
        let condition = hidden_condition(alloc, source, tokens, part)?;
        condition_finding(source, tokens, condition)
    };
    finding.subject = subject;
    Ok(finding)
}

/// What is found of a condition of a hidden sort.
fn condition_finding<'a>(source: &Source<'a>, tokens: &Tokens<'a>, condition: Part) -> Finding<'a> {
    let nowhere = Place {
        at: source.bytes.len(),
        width: 1,
    };
    let place = condition.place(tokens).unwrap_or(nowhere);
    Finding::at(place, " is hidden; a condition is of a visible sort")
}

/// The name of a sort of this number that is declared before a part.
fn name_of_sort<'a>(
    alloc: Global,
    source: &Source<'a>,
    tokens: &Tokens<'a>,
    part: Part,
    sort: u32,
) -> Result<&'a [u8], AllocError> {
    let known = Known::before(alloc, source, tokens, part.from)?;
    let name = known.sort(sort);
    drop(known);
    Ok(name.unwrap_or(b"this sort"))
}

/// The part of a number.
fn part_of(source: &Source<'_>, tokens: &Tokens<'_>, number: u64) -> Part {
    if source.kind.is_script() {
        item_at(tokens, number)
    } else {
        statement_at(tokens, number)
    }
}

fn mark_of<'a>(
    alloc: Global,
    source: &Source<'a>,
    tokens: &Tokens<'a>,
    number: u64,
    cause: &Cause,
) -> Result<Mark, AllocError> {
    let part = part_of(source, tokens, number);
    if !is_of_names(cause) {
        return Ok(by_form(source, tokens, part, number, cause));
    }
    let known = Known::before(alloc, source, tokens, part.from)?;
    let mark = by_names(tokens, part, &known, cause);
    drop(known);
    match mark {
        Some(mark) => Ok(mark),
        None => unread_part(alloc, source, tokens, part),
    }
}

/// Whether what is declared before a statement tells its mark.
fn is_of_names(cause: &Cause) -> bool {
    match cause {
        Cause::UnknownSort | Cause::NoParse | Cause::Twice { .. } => true,
        _ => false,
    }
}

/// The mark of such a cause, by what is declared before the statement. None for a term of which
/// each word is declared.
fn by_names(tokens: &Tokens<'_>, part: Part, known: &Known<'_>, cause: &Cause) -> Option<Mark> {
    match cause {
        Cause::UnknownSort => Some(unknown_sort(tokens, part, known)),
        Cause::NoParse => unread_word(tokens, part, known),
        _ => Some(declared_twice(tokens, part, known)),
    }
}

/// The mark of a cause that the statement alone tells.
fn by_form(
    source: &Source<'_>,
    tokens: &Tokens<'_>,
    part: Part,
    number: u64,
    cause: &Cause,
) -> Mark {
    let says = says_of(cause);
    match cause {
        Cause::LeftOut { word } => left_out(tokens, part, word.bytes()),
        Cause::Shape => shape(source, tokens, part, number),
        Cause::NoGoal if source.kind == SourceKind::Terms => {
            Mark::at(part.from, "no `red TERM .` stands here")
        }
        Cause::NoGoal | Cause::Limit { .. } => Mark::at(part.from, says),
        Cause::UnknownTheory => Mark::naming(part.nth(1), says),
        Cause::Unclosed => Mark::behind(tokens.count().saturating_sub(1), says),
        _ => Mark::at(part.nth(1), says),
    }
}

fn shape(source: &Source<'_>, tokens: &Tokens<'_>, part: Part, number: u64) -> Mark {
    match source.kind {
        SourceKind::Script | SourceKind::Terms => item_shape(tokens, part, source.kind),
        SourceKind::Automaton => automaton_shape(tokens, number, part),
        _ => statement_shape(tokens, source.bytes, number, part),
    }
}

/// The first name of a statement that should be a sort and is none.
fn unknown_sort(tokens: &Tokens<'_>, part: Part, known: &Known<'_>) -> Mark {
    let says = "no sort of this name is declared before";
    let from = match first(tokens, part.from, part.to, b":") {
        Some(colon) => next(colon),
        None => part.nth(1),
    };
    for number in from..part.to {
        match tokens.token(number) {
            Some(name) if known.has_sort(name) || is(tokens, number, b"->") => {}
            _ => return Mark::naming(number, says),
        }
    }
    Mark::at(from, says)
}

/// The first name of a statement, of its first hundred, that is declared before it or stands in it
/// before.
fn declared_twice(tokens: &Tokens<'_>, part: Part, known: &Known<'_>) -> Mark {
    let says = "this is declared before";
    let begin = part.nth(1);
    let colon = first(tokens, begin, part.to, b":").unwrap_or(part.to);
    for number in begin..colon.min(part.nth(MOST_NAMES)) {
        if let Some(name) = tokens.token(number) {
            if is_declared(tokens, part, known, name)
                || first(tokens, begin, number, name).is_some()
            {
                return Mark::naming(number, says);
            }
        }
    }
    Mark::naming(begin, says)
}

/// Whether a name that a statement declares is declared before it.
fn is_declared(tokens: &Tokens<'_>, part: Part, known: &Known<'_>, name: &[u8]) -> bool {
    if is_either(tokens, part.from, b"sort", b"sorts") {
        known.has_sort(name)
    } else {
        known.has_word(name)
    }
}
