//! Goals that Derive makes, and certificates of special sets, one after another; the words for
//! what the rules of circular coinduction answer.
//!
//! The search asks [`derivatives_on`] for the goals that Derive makes, or for the first thing that
//! stands in their way. [`next_slot`] says what the next certificate is due for, and [`start_term`]
//! gives the term at which one starts. What a step answers (`Applies`) stands in specs/; circ_steps
//! does steps, and circ_certificates judges certificates, by numbers of terms. What a step does and
//! what a certificate shows is defined in circ_proof (`StepOf`, `Certified`).
#![tactic(auto)]

mod certificates;
mod derivatives;
mod due;
mod fault;

pub use certificates::{Start, start_at, start_term};
pub use derivatives::derivatives_on;
pub use due::{Due, Slot, next_slot};
pub use fault::DeriveFault;
