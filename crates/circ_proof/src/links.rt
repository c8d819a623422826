//! Recorded steps of rewriting, and why a goal holds by them.
use circ_term::Path;
pub use circ_theory::Way;

/// One step of rewriting, at a path in a term. Terms go by their numbers in a table, or stand in it
/// themselves.
#[cycle(link)]
#[derive(Drop)]
pub enum Link<T = u32> {
    /// By an equation of the theory. The terms are those that the variables of its sides and its
    /// conditions are given, in the order of the variables' numbers and then their sorts.
    Equation {
        number: u32,
        way: Way,
        path: Path,
        terms: Vec<T>,
        /// A chain for each condition, from its two sides to one term.
        conds: Vec<Chain<T>>,
    },
    /// By a hypothesis, likewise.
    Hypothesis {
        number: u32,
        way: Way,
        path: Path,
        terms: Vec<T>,
        /// A chain for each condition, from its two sides to one term.
        conds: Vec<Chain<T>>,
    },
    /// By an assumption, as it stands: a condition of the goal, or one of a case split. Those of
    /// the goal are counted first.
    Assumption {
        number: u32,
        way: Way,
        path: Path,
    },
    /// By a term of the same content under an operator.
    Content {
        op: u32,
        path: Path,
        term: T,
    },
}

/// The links on the two sides of a goal or a condition, in order.
#[cycle(link)]
#[derive(Drop)]
pub struct Chain<T = u32> {
    /// The links on the left side.
    pub left: Vec<Link<T>>,
    /// The links on the right side.
    pub right: Vec<Link<T>>,
}

/// Why the two sides of a goal have the same value.
#[derive(Drop)]
pub enum Why<T = u32> {
    /// The chain leads to one term on both sides.
    Same {
        chain: Chain<T>,
    },
    /// The chain leads to two terms that are the same in each case of a term: for each constant of
    /// its sort's case list there is a reason.
    Split {
        chain: Chain<T>,
        term: T,
        whys: Vec<Why<T>>,
    },
}
