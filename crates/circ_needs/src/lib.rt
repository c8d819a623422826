//! The places that a special set must have to guard a variable.
//!
//! [`Needs`] gathers them, from one term after another, so that whether a set guards the variable
//! is asked of the places, and not of the terms again. [`Observers`] finds the derivatives that can
//! observe an occurrence.
#![tactic(auto)]

mod needs;
mod observers;
mod walking;

pub use needs::Needs;
pub use observers::Observers;
