//! Where a goal of a block comes from.

/// Where a goal of a block comes from.
#[derive(Clone, Copy)]
pub enum Descent {
    /// It is one of the script's.
    Given,
    /// It is this derivative of the goal that has this number in the block, counted from 1.
    Derived { goal: u64, derivative: u32 },
    /// It is this case, counted from 1, of the goal that has this number in the block.
    Case { goal: u64, number: u64 },
}
