//! Each kind of line, read and written again.
use circ_line::{LentLine, Line, read_line, write_lent_line, write_line};
use std::alloc::{AllocError, Global};

const LINES: &[&[u8]] = &[
    b"circproof 1",
    b"circproof 2",
    b"v 0 1",
    b"a 8 1 3",
    b"place 4 0",
    b"cert",
    b"block",
    b"goal 4 0",
    b"given 2 3",
    b"simplify",
    b"reduce",
    b"derive",
    b"cases 3",
    b"done",
    b"same",
    b"split 3 2",
    b"if",
    b"left equation > 9 - 1 3",
    b"right hypothesis < 0 1.0 2",
    b"left assumption > 1 0",
    b"right content 9 0.1 7",
    b"end",
];

fn is_text_of(alloc: Global, line: &Line, text: &[u8]) -> Result<bool, AllocError> {
    let mut out = Vec::new(alloc);
    write_line(line, &mut out)?;
    Ok(out.as_slice() == text)
}

// Whether the text is that of a line, which is written as the same text.
fn is_written_again(alloc: Global, text: &[u8]) -> Result<bool, AllocError> {
    let line = read_line(alloc, text)?;
    let is_same = match &line {
        Some(line) => is_text_of(alloc, line, text),
        None => Ok(false),
    };
    drop(line);
    is_same
}

fn are_written_again(alloc: Global) -> Result<bool, AllocError> {
    for text in LINES {
        if !is_written_again(alloc, text)? {
            return Ok(false);
        }
    }
    Ok(true)
}

#[test]
fn lines(rt: HostRuntime) {
    assert!(rt; are_written_again(rt.alloc()) == Ok(true));
}

fn is_text_of_lent(alloc: Global, line: LentLine<'_>, text: &[u8]) -> Result<bool, AllocError> {
    let mut out = Vec::new(alloc);
    write_lent_line(line, &mut out)?;
    Ok(out.as_slice() == text)
}

// Whether a line of a lent link has the same text.
fn is_lent(alloc: Global, text: &[u8]) -> Result<bool, AllocError> {
    let line = read_line(alloc, text)?;
    let is_same = match &line {
        Some(Line::Left { link }) => is_text_of_lent(alloc, LentLine::Left { link }, text),
        _ => Ok(false),
    };
    drop(line);
    is_same
}

#[test]
fn lent_lines(rt: HostRuntime) {
    assert!(rt; is_lent(rt.alloc(), b"left equation > 9 - 1 3") == Ok(true));
}
