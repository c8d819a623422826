//! Both sides of a goal in normal form, and the splits of a goal into cases.
//!
//! [`normal_sides`] normalises two sides. [`Splitting::split_cases`] splits them on the first open
//! subterm, and each case again, with eight splits inside one another at most. [`case_term`] says
//! what a hidden goal is split on, and [`case_goals`] gives it in each case.
#![tactic(auto)]

mod casing;
mod opening;
mod sides;
mod splitting;

pub use casing::{case_goals, case_of, case_term, constants_of};
pub use opening::{first_open, first_open_of};
pub use sides::{Sides, normal_sides};
pub use splitting::{Cases, Splitting};
