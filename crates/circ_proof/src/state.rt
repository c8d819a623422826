//! What a proof has shown so far, and what is left.
use circ_theory::Goal;
use std::collections::VecDeque;

/// Hypotheses and goals. The rules act on the first goal.
#[derive(Drop)]
pub struct State {
    /// What is taken as proved, by the numbers that links use.
    pub hyps: Vec<Goal>,
    /// What is still to be proved.
    pub goals: VecDeque<Goal>,
}
