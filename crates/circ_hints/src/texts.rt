//! Texts put together.
use std::alloc::AllocError;
use std::fmt::Write;
use std::str;

/// Appends a line of two texts.
pub(crate) fn push_line(out: &mut String, first: &str, second: &str) -> Result<(), AllocError> {
    writeln!(out, "{first}{second}")
}

/// A text, once it is written whole.
pub(crate) fn written(out: String, done: Result<(), AllocError>) -> Result<String, AllocError> {
    match done {
        Ok(()) => Ok(out),
        Err(fault) => Err(fault),
    }
}

/// The text of these bytes; nothing if they are of none.
pub(crate) fn text_of(bytes: &[u8]) -> &str {
    str::from_utf8(bytes).unwrap_or("")
}
