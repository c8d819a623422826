//! Theories of many-sorted behavioural algebra, and what follows from them.
//!
//! A [`Theory`] holds sorts, operators, equations, derivatives and case lists, and only well-sorted
//! parts. What is derivable, what an experiment is and which terms behave alike is defined in
//! `specs`, and [`laws`] states what is proved of these notions.
#![tactic(auto)]

mod adding;
mod fault;
pub mod laws;
mod overloads;
mod parts;
mod renumber;
mod theories;
mod way;

pub use circ_pairs::{
    Equation, Goal, Occurring, Pair, Pairs, above, above_pairs, constant_of, fresh_after, fresh_in,
    gather, in_order, parameters_in_order, share_pairs, variables_from,
};
pub use fault::TheoryFault;
pub use parts::{OpDecl, Side};
pub use renumber::renumbered;
pub use theories::{Theory, Vars};
pub use way::Way;

/// The most sorts of a theory.
pub const MOST_SORTS: usize = 4_096;

/// The most declared variables of a theory.
pub const MOST_VARS: usize = 65_536;

/// The most operators of a theory.
pub const MOST_OPS: usize = 65_536;

/// The most equations of a theory.
pub const MOST_EQUATIONS: usize = 65_536;

/// The most derivatives of a theory.
pub const MOST_DERIVATIVES: usize = 256;

/// The most arguments of an operator.
pub const MOST_ARGS: usize = 16;

/// The most parameters of a derivative.
pub const MOST_PARAMS: usize = 8;

/// The most conditions of an equation or a goal.
pub const MOST_CONDITIONS: usize = 8;

/// The most constants of a case list.
pub const MOST_CASES: usize = 64;
