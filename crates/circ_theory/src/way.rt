//! The two ways of an equation.

/// Which side of a pair is looked for.
#[derive(Clone, Copy, PartialEq, Eq)]
pub enum Way {
    /// The left side, and the right side replaces it.
    Forth,
    /// The right side, and the left side replaces it.
    Back,
}
