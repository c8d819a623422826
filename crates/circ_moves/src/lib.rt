//! Join up to content: the moves that make two terms equal.
//!
//! [`ContentJoining::join`] uses hypotheses as Join does, and besides on what two contents leave
//! when their common entries are set aside. [`make_all`] makes the moves in a term, [`move_links`]
//! gives them as links.
#![tactic(auto)]

mod apart;
mod joining;
mod moves;
mod rests;
mod row;

pub use joining::ContentJoining;
pub use moves::{Move, make_all, move_links};
