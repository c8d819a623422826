//! Proofs as data.
use crate::links::{Chain, Link, Why};
use circ_special::Gamma;
use circ_term::Term;
use circ_theory::Goal;

/// A step of a proof. Each but `Done` acts on the first goal.
#[derive(Drop)]
pub enum Step<T = u32> {
    /// The goal is rewritten, and stays first.
    Simplify { chain: Chain<T> },
    /// The goal holds, and is dropped (rule Reduce).
    Reduce { why: Why<T> },
    /// The goal becomes a hypothesis, and its derivatives become goals (rule Derive).
    Derive,
    /// The goal is replaced by one for each constant of the case list of the term's sort, with the
    /// condition more that the term is this constant (rule Cases).
    Cases { term: T },
    /// No goal is left (rule Done).
    Done,
}

/// The terms of a goal, by their numbers in a table.
#[derive(Drop)]
pub struct GoalNames {
    /// The two sides of each condition.
    pub conds: Vec<(u32, u32)>,
    /// The left side.
    pub left: u32,
    /// The right side.
    pub right: u32,
}

/// Goals that are proved together, with their steps.
#[derive(Drop)]
pub struct Block {
    /// The goals: at least one.
    pub goals: Vec<Goal>,
    /// The goals' terms, by their numbers in the proof's table.
    pub names: Vec<GoalNames>,
    /// The steps. The last and no other is `Done`.
    pub steps: Vec<Step>,
}

/// A proof. Its links name terms by their numbers in its table.
#[derive(Drop)]
pub struct Proof {
    /// The version of its text, 1 or 2. In version 1 no goal and no link has conditions, and no
    /// step is `Cases`.
    pub version: u8,
    /// Terms, each after its arguments. Links, splits and goals name them.
    pub table: Vec<Term>,
    /// The special set.
    pub gamma: Gamma,
    /// The certificates: for each place of the set in order, one for each derivative of the place's
    /// result sort in order.
    pub certificates: Vec<Vec<Link>>,
    /// The blocks: at least one. The goals of a block are hypotheses of those after it.
    pub blocks: Vec<Block>,
}
