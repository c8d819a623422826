//! What is said of a line of a proof that is not in its form.
use crate::drawing::{Place, bytes_at, rest_from};
use crate::parts::next;

/// The line of a number from 1.
pub(crate) fn line_at(bytes: &[u8], number: u64) -> Place {
    let mut line: u64 = 1;
    let mut place = Place { at: 0, width: 0 };
    for n in 0..bytes.len() {
        if bytes[n] == b'\n' {
            line = line.saturating_add(1);
            if line == number {
                place = Place {
                    at: next(n),
                    width: 0,
                };
            }
        } else if line == number {
            place.width = place.width.saturating_add(1);
        }
    }
    place
}

/// Where a word begins a line for the first time.
pub(crate) fn word_at_line(bytes: &[u8], word: &[u8]) -> Place {
    let mut begins = true;
    for n in 0..bytes.len() {
        if begins && bytes[n..].starts_with(word) {
            return Place {
                at: n,
                width: word.len(),
            };
        }
        begins = bytes[n] == b'\n';
    }
    Place { at: 0, width: 0 }
}

/// What is said of the line at a place, of this number from 1.
pub(crate) fn says_of_line(bytes: &[u8], place: Place, number: u64) -> &'static str {
    let line = bytes_at(bytes, place);
    if line.is_empty() {
        return says_of_empty(bytes, place);
    }
    if line.contains(&b'\r') {
        return "a carriage return: lines end with a line feed alone";
    }
    if number == 1 {
        return "the first line is `circproof 1` or `circproof 2`";
    }
    if !rest_from(bytes, place.at).contains(&b'\n') {
        return "the text is cut here: the last line ends with a line feed too";
    }
    if line.starts_with(b"a ") || line.starts_with(b"v ") {
        return "this line is not in its form or at its place, or names what the theory lacks: is it a proof of another theory?";
    }
    "this line is not in its form or at its place, or fails a check"
}

/// What is said of an empty line.
fn says_of_empty(bytes: &[u8], place: Place) -> &'static str {
    if bytes[..place.at.min(bytes.len())].ends_with(b"\nend\n") {
        "nothing stands behind the line `end`"
    } else if are_line_feeds(bytes, place.at) {
        "the text is cut here"
    } else {
        "a proof has no empty lines"
    }
}

/// Whether line feeds stand from a place on, and nothing else.
fn are_line_feeds(bytes: &[u8], from: usize) -> bool {
    for n in from..bytes.len() {
        if bytes[n] != b'\n' {
            return false;
        }
    }
    true
}
