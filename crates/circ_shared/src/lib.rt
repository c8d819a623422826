//! Recorded rewriting, followed on interned terms: exact by the words of circ_replay, which follows
//! it on terms.
//!
//! Terms go by their numbers in a table of circ_nodes. Equal terms have equal numbers, so whether
//! a link leads to a term is one comparison, and an instance and a replacement touch each distinct
//! node once, however large the terms are that the numbers stand for.
//!
//! [`Sources`] has what links are read against; its `follow` gives the number of the term that a
//! link leads to, `follow_all` goes through links one after another, and `follow_why` decides
//! whether a reason justifies a goal, in each case of its splits.
#![tactic(auto)]

mod binding;
mod following;
mod instances;
mod justifying;
mod lightening;
mod patterns;
mod placing;
mod rewriting;
mod special;
mod usage;
mod variables;

pub use binding::give;
pub use instances::{Made, instance};
pub use justifying::constant_of;
pub use patterns::{Pattern, Sides};
pub use placing::replace;
pub use usage::Sources;
pub use variables::pattern;
