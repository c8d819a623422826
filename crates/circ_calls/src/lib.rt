//! Links, steps and certificates of proofs over terms, one call each: what is handed in gets
//! numbers, is judged by number, and is given back as terms.
//!
//! [`follow`] gives the term that a link leads to, [`follow_all`] goes through links one after
//! another, and [`follow_why`] decides whether a reason justifies a goal. [`apply`] does one step.
//! [`admit`] goes over the certificates of a special set. What they answer is defined in circ_proof
//! (`Leads`, `Justified`, `StepOf`, `Certified`). Whatever follows many links or does many steps
//! keeps the numbers, with circ_shared, circ_steps and circ_certificates.
#![tactic(auto)]

mod admitting;
mod applying;
mod entered;
mod following;

pub use admitting::{Admission, admit};
pub use applying::apply;
pub use following::{follow, follow_all, follow_why};
