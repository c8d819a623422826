//! Looking for an experiment that tells the sides of a goal apart.
//!
//! [`refute`] goes through the derivatives of a goal, breadth first, and stops at the first pair
//! whose normal forms are two different constants of one case list. [`refute_all`] tries the goals
//! of blocks in order. What is found is defined in `specs` by `PlainRefutation`; [`laws`] states
//! that a difference is right. `docs/differ.md` has the rules in plain words.
#![tactic(auto)]

mod children;
mod descendant;
pub mod examples;
mod halt;
pub mod laws;
mod refuted;
mod refuter;
mod refuting;
mod two_cases;

pub use refuted::{Decision, Refuted};
pub use refuting::{refute, refute_all};
