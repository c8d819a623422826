//! The program over any shelf and any sink: the call [`circ`], whose clause is the headline.
#![tactic(auto)]

mod command;
mod differ;
pub mod laws;
mod prove;
mod refusals;
mod regex;
mod request;
pub mod sure;
mod trace;
mod words;

pub use circ_status::Status;
pub use command::circ;
