//! Terms and goals that get numbers in a table of circ_nodes, and goals that are built of their
//! numbers again: for whatever is handed terms and does steps by number.
#![tactic(auto)]

mod building;
mod entering;
mod lines;
mod naming;
mod numbered;
mod work;

pub use building::build_goal;
pub use entering::{enter_goals, enter_hypotheses, enter_terms};
pub use lines::NamedLines;
pub use numbered::{Numbered, enter_rules};
pub use work::Work;
