//! The table of a proof that is written, and the words for what recorded rewriting leads to.
//!
//! [`TableBuilder`] makes the table whose numbers stand in links for terms; it is seen as the list
//! of its terms. What following a link, links one after another or a chain answers (`Follows`,
//! `FollowsAll`, `FollowsChain`) stands in specs/; circ_shared follows them by numbers of terms.
#![tactic(auto)]

mod table;

pub use table::TableBuilder;
