//! The parts of a proof.
use crate::table::Table;
use circ_proof::{GoalNames, Link, Step};
use circ_special::Gamma;
use circ_theory::Goal;

/// A part of a proof, in the order of its text.
#[derive(Drop)]
pub enum Part {
    /// The table and the special set.
    Head {
        table: Table,
        gamma: Gamma,
    },
    /// A certificate of the special set.
    Certificate {
        links: Vec<Link>,
    },
    /// The goals of a block, and the numbers of their sides in the table.
    Goals {
        goals: Vec<Goal>,
        names: Vec<GoalNames>,
    },
    /// A step of a block.
    Step {
        step: Step,
    },
}
