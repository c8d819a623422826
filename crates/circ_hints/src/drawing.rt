//! A place of a text: its line and column, and a picture of the line with a mark below the place.
use std::alloc::AllocError;
use std::fmt::Write;

/// The most bytes of a line that are shown before the place, and behind it.
const MOST_SHOWN: usize = 80;

/// A place in some bytes, and how many bytes from it on are marked.
#[derive(Clone, Copy)]
pub(crate) struct Place {
    pub at: usize,
    pub width: usize,
}

/// The number of bytes before the line in which a place is.
fn line_begin(bytes: &[u8], at: usize) -> usize {
    let mut begin = 0;
    for n in 0..at.min(bytes.len()) {
        if bytes[n] == b'\n' {
            begin = n.saturating_add(1);
        }
    }
    begin
}

/// The number of the line in which a place is, from 1.
fn line_number(bytes: &[u8], at: usize) -> usize {
    let mut line: usize = 1;
    for n in 0..at.min(bytes.len()) {
        if bytes[n] == b'\n' {
            line = line.saturating_add(1);
        }
    }
    line
}

/// The byte as it is shown: what a terminal would not print is a question mark.
fn shown(byte: u8) -> char {
    if b' ' <= byte && byte <= b'~' {
        char::from(byte)
    } else if byte == b'\t' {
        ' '
    } else {
        '?'
    }
}

/// Appends `NAME:LINE:COLUMN: `, line and column from 1.
pub(crate) fn push_position(
    out: &mut String,
    name: &str,
    bytes: &[u8],
    at: usize,
) -> Result<(), AllocError> {
    let line = line_number(bytes, at);
    let column = at.saturating_sub(line_begin(bytes, at)).saturating_add(1);
    write!(out, "{name}:{line}:{column}: ")
}

/// Appends the line of a place, and below it the mark.
pub(crate) fn push_picture(out: &mut String, bytes: &[u8], place: Place) -> Result<(), AllocError> {
    let line = line_number(bytes, place.at);
    let begin = line_begin(bytes, place.at);
    let from = begin.max(place.at.saturating_sub(MOST_SHOWN));
    write!(out, "{line:6} | ")?;
    push_below(
        out,
        rest_from(bytes, from),
        place.at.saturating_sub(from),
        place.width,
    )
}

/// Appends the line that begins with these bytes, and below it a mark of some width behind so many
/// of them.
fn push_below(
    out: &mut String,
    bytes: &[u8],
    blanks: usize,
    width: usize,
) -> Result<(), AllocError> {
    push_shown(out, bytes, blanks.saturating_add(MOST_SHOWN))?;
    let width = width.clamp(1, MOST_SHOWN);
    writeln!(out, "\n       | {:blanks$}{:^<width$}", "", "")
}

/// Appends the bytes up to the end of their line, as they are shown, and so many at most.
fn push_shown(out: &mut String, bytes: &[u8], most: usize) -> Result<(), AllocError> {
    for n in 0..most.min(bytes.len()) {
        if bytes[n] == b'\n' {
            break;
        }
        out.push(shown(bytes[n]))?;
    }
    Ok(())
}

/// The bytes of a place.
pub(crate) fn bytes_at(bytes: &[u8], place: Place) -> &[u8] {
    let rest = rest_from(bytes, place.at);
    if place.width < rest.len() {
        &rest[..place.width]
    } else {
        rest
    }
}

/// The bytes from a place on.
pub(crate) fn rest_from(bytes: &[u8], at: usize) -> &[u8] {
    if at < bytes.len() { &bytes[at..] } else { &[] }
}
