//! What a script asks for.
use circ_term::Term;
use circ_theory::Goal;

/// What a script asks for.
#[derive(Drop)]
pub struct Script {
    /// The goals, in the blocks that are proved one after another.
    pub blocks: Vec<Vec<Goal>>,
    /// The terms to be reduced.
    pub terms: Vec<Term>,
}
