//! What is printed of an accepted proof.

/// What is printed of an accepted proof.
#[derive(Clone, Copy, PartialEq, Eq)]
pub enum Report {
    /// Its goals.
    Goals,
    /// Its goals, and what each block derived: the relation that the proof builds.
    Relation,
}
