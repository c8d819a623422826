//! The table of a proof that is read, as numbers: for each term its root, with the numbers of its
//! arguments.
//!
//! Lines are added to an [`OpenTable`], which is closed into a [`Table`]; [`NamedTerms`] builds the
//! terms that are asked for. A [`Part`] is what a reader hands out of a proof, the table first.
#![tactic(auto)]

mod keys;
mod line;
mod lines;
mod named;
mod open_table;
mod part;
mod table;

pub use line::Line;
pub use named::NamedTerms;
pub use open_table::OpenTable;
pub use part::Part;
pub use table::Table;
