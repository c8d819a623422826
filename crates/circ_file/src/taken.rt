//! What becomes of a line.

/// Whether a line was taken.
#[derive(Clone, Copy)]
pub(crate) enum Taken {
    Yes,
    /// The line is not in its place, or it fails a check.
    Line,
    /// The line passes a limit.
    Limit,
}
