//! What a script is for.

/// What is done with what a script asks for.
#[derive(Clone, Copy, PartialEq, Eq)]
pub enum Job {
    /// Its goals are proved, block by block.
    Prove,
    /// The sides of its goals are told apart. They have no conditions.
    Differ,
    /// Its terms are reduced.
    Reduce,
}
