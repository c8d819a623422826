//! The text of one line of a proof file, read and written.
//!
//! [`read_line`] gives the one line that bytes are the text of, [`read_link`] the link of a line
//! that begins with a side ([`after_left`], [`after_right`]), and [`read_application`] an operator
//! of the table with its arguments ([`after_application`]). [`write_line`] appends the text of a
//! line, and [`write_lent_line`] that of a line whose parts are lent. Contracts see a line as
//! plain data (`Line` of specs/), in which numbers stand for terms. In what order lines stand is
//! said in circ_grammar.
#![tactic(auto)]

mod fields;
pub mod laws;
mod lent;
mod line;
mod links;
mod numbers;
mod reading;
mod writing;

pub use lent::{LentLine, write_lent_line};
pub use line::{Line, TableLine};
pub use reading::{
    after_application, after_left, after_right, read_application, read_line, read_link,
};
pub use writing::write_line;

/// Numbers of a line are below this.
const NUMBERS: u64 = 4_294_967_296;

/// Entries of a path are below this.
const ENTRIES: u64 = 65_536;
