//! A part of a row: what it is, its name or its number, and the text below.
use std::alloc::{AllocError, Global};

/// What begins a part.
pub const PART: &str = "\n== ";

/// A part of a row.
#[derive(Drop)]
pub struct Part<'a> {
    pub kind: &'a str,
    pub name: &'a str,
    pub text: String,
}

impl<'a> Part<'a> {
    /// Reads a part. Its text ends with a line feed where it has a line, unless the word `cut`
    /// stands last in the first line.
    pub fn of(alloc: Global, part: &'a str) -> Result<Part<'a>, AllocError> {
        let (first, lines) = part.split_once('\n').unwrap_or((part, ""));
        let whole = first.strip_suffix(" cut");
        let mut text = String::from_str(alloc, lines)?;
        if whole.is_none() && first.len() < part.len() {
            text.push('\n')?;
        }
        let head = whole.unwrap_or(first);
        let (kind, name) = head.split_once(' ').unwrap_or((head, ""));
        Ok(Part { kind, name, text })
    }

    /// The number that is the part's name, or else 0.
    pub fn number(&self) -> u64 {
        self.name.parse().unwrap_or(0)
    }

    /// Adds a text so many times. Each `#` in it stands for the number of the copy, from 0.
    pub fn add(&mut self, alloc: Global, text: &str, times: u64) -> Result<(), AllocError> {
        if !text.contains('#') {
            return put_times(&mut self.text, text, times);
        }
        for number in 0..times {
            let number = format!(in alloc; "{number}")?;
            put_copy(&mut self.text, text, number.as_str())?;
        }
        Ok(())
    }
}

fn put_times(out: &mut String, text: &str, times: u64) -> Result<(), AllocError> {
    for _ in 0..times {
        out.push_str(text)?;
    }
    Ok(())
}

/// Adds a text in which a number stands for each `#`.
fn put_copy(out: &mut String, text: &str, number: &str) -> Result<(), AllocError> {
    let mut pieces = text.split('#');
    if let Some(first) = pieces.next() {
        out.push_str(first)?;
    }
    for piece in pieces {
        out.push_str(number)?;
        out.push_str(piece)?;
    }
    Ok(())
}
