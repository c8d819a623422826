//! The parts of a use of a goal: substitutions, entries, layers and certificates.
//!
//! [`By`] is the substitution of a use, [`Held`] an entry of its experiment and [`Layer`] what it
//! stands along; [`Front`] is a list whose first items several uses share. [`around`] gives the whole
//! term, [`layered`] a term within layers, [`start_at`] and [`Certificates`] the certificate of a
//! place, and [`Occurrence`] tells by what an occurrence in it is guarded.
#![tactic(auto)]

mod by;
mod certified;
mod fitting;
mod fronts;
mod guards;
mod paths;
mod patterns;
mod starting;
mod uses;
mod valuation;
mod variables;

pub use by::{By, Over, Plugged};
pub use certified::Certificates;
pub use fronts::{Cut, Front, first};
pub use guards::{Guard, Occurrence};
pub use paths::paths_of;
pub use patterns::matching;
pub use starting::{experiment, parameters, start_at};
pub use uses::{Held, Layer, add_places, around, base, layered, put};
pub use valuation::{Valuation, Variable};
pub use variables::{given, variables_in, variables_of};
