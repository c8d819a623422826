//! A line of a table.

/// What a term of a table is, with the numbers of its arguments. Each is the least number of its
/// term.
#[derive(Clone, Copy)]
pub enum Line<'a> {
    /// A variable.
    Variable { number: u32, sort: u32 },
    /// An operator on the terms of these numbers.
    Application { op: u32, sort: u32, args: &'a [u32] },
}
