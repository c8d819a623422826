//! The checker of proofs: whether every certificate certifies what is due, and every step is an
//! instance of its rule, and what the Derive steps of an accepted proof derived.
//!
//! A [`Checker`] takes a proof that comes part by part, and goes by the numbers of interned terms;
//! [`check`] and [`derived`] hand it a whole proof, and [`check_by_table`] one whose table is there by
//! number. What accepted means is defined in circ_proof
//! (`Accepted`), and circ_soundness says what it is worth.
#![tactic(auto)]

mod checker;
mod checking;
mod making;
mod naming;
mod tally;

pub use checker::Checker;
pub use checking::{Verdict, check, check_by_table, derived};
