//! Derivations that are written out from accepted proofs.
//!
//! An accepted proof uses hypotheses. For one of its goals and one experiment `expansion` of specs/
//! writes out the derivation without them, by equations, content, cases and the assumptions of
//! these cases; docs/expand.md says how. The law [`expansion_leads`] says that it leads from the
//! experiment on the goal's left side to that on its right side, and that it never stops for want
//! of something that fits; the law [`expansion_is_worked_off`] that it is worked off a stack.
//! [`goal_misfit`] tells whether there is such a goal, and whether the experiment fits it.
#![tactic(auto)]

mod fault;
mod goal_steps;
mod goals;
mod opening;
mod running;
mod writing_out;

pub use circ_expansion::laws::{expansion_is_worked_off, expansion_leads};
pub use circ_written::{Given, Row};
pub use fault::ExpandFault;
pub use goals::{goal_misfit, goal_numbered};
pub use writing_out::expand;
